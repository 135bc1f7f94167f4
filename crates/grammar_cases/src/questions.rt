//! Questions about markers and the version of Python, asked of every coherent environment.

use crate::told::read;
use case_files::text;
use pymark_algebra::{
    Answer, Condition, PythonCondition, are_disjoint, are_never_of, implies, is_never_false,
    is_never_true,
};
use pymark_core::{Environment, Marker, Var};
use pyver_core::{Specifier, SpecifierSet};
use std::alloc::{AllocError, Global};
use toml::Table;

/// What `question` answers of `marker` and, where it is about two, of `other`.
pub(crate) fn ask(alloc: Global, case: &Table) -> anyhow::Result<String> {
    let marker = read(alloc, case, "marker", Marker::parse)?;
    let question = text(alloc, case, "question")?;
    let answer = match question.as_str() {
        "never true" => is_never_true(alloc, &marker)?,
        "never false" => is_never_false(alloc, &marker)?,
        "disjoint" => {
            let other = read(alloc, case, "other", Marker::parse)?;
            are_disjoint(alloc, &marker, &other)?
        }
        "implies" => {
            let other = read(alloc, case, "other", Marker::parse)?;
            implies(alloc, &marker, &other)?
        }
        _ => return Err(anyhow::anyhow!("no question")),
    };
    Ok(answer_text(alloc, &answer)?)
}

/// Whether never `python_full_version` spells a version that `admits` admits and no specifier of
/// `refuses` does, while `marker` is true, where one is given.
pub(crate) fn ask_of_python(alloc: Global, case: &Table) -> anyhow::Result<String> {
    let admits = read(alloc, case, "admits", SpecifierSet::parse)?;
    let refuses = read(alloc, case, "refuses", SpecifierSet::parse)?;
    let mut pythons = Vec::new(alloc);
    push_each(&mut pythons, admits.items(), true)?;
    push_each(&mut pythons, refuses.items(), false)?;
    let answer = if case.contains_key("marker") {
        let marker = read(alloc, case, "marker", Marker::parse)?;
        let condition = Condition {
            marker: &marker,
            wanted: true,
        };
        are_never_of(alloc, &pythons, &[condition])?
    } else {
        are_never_of(alloc, &pythons, &[])?
    };
    Ok(answer_text(alloc, &answer)?)
}

fn push_each<'a>(
    pythons: &mut Vec<PythonCondition<'a>>,
    specifiers: &'a [Specifier],
    wanted: bool,
) -> Result<(), AllocError> {
    for specifier in specifiers {
        pythons.push(PythonCondition { specifier, wanted })?;
    }
    Ok(())
}

fn answer_text(alloc: Global, answer: &Answer) -> Result<String, AllocError> {
    match answer {
        Answer::Yes => String::from_str(alloc, "yes"),
        Answer::No(environment) => environment_text(alloc, environment),
        Answer::Undecided => String::from_str(alloc, "not decided"),
    }
}

/// `no` and what is set and asked for, one a line.
fn environment_text(alloc: Global, environment: &Environment) -> Result<String, AllocError> {
    let mut told = String::from_str(alloc, "no")?;
    for variable in Var::all() {
        if let Some(text) = environment.get(variable) {
            write!(told, "\n{variable} {text}")?;
        }
    }
    for name in environment.extras() {
        write!(told, "\nextra {name}")?;
    }
    for name in environment.groups() {
        write!(told, "\ngroup {name}")?;
    }
    Ok(told)
}
