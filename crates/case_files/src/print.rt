//! What a program prints of its files.

use crate::title::title;
use std::alloc::Global;
use std::fs;
use toml::{Table, Value};

/// What a program says of its cases.
pub trait Answers {
    /// What a case of this kind gives: lines of text.
    fn answer(&self, alloc: Global, kind: &str, case: &Table) -> anyhow::Result<String>;
}

/// Prints the cases of the files of these paths. A file has a list of tables for each kind of case;
/// the kinds are taken in the order of the alphabet.
pub fn print_files<A: Answers>(
    rt: &HostRuntime,
    answers: &A,
    paths: &[String],
) -> anyhow::Result<()> {
    for path in paths {
        print_file(rt, answers, path.as_str())?;
    }
    Ok(())
}

fn print_file<A: Answers>(rt: &HostRuntime, answers: &A, path: &str) -> anyhow::Result<()> {
    let text = fs::read_to_string(rt, path)?;
    let kinds = toml::table_from_str(rt.alloc(), text.as_str())?;
    print_kinds(rt, answers, &kinds)
}

fn print_kinds<A: Answers>(rt: &HostRuntime, answers: &A, kinds: &Table) -> anyhow::Result<()> {
    for (kind, cases) in kinds {
        print_cases(rt, answers, kind.as_str(), cases)?;
    }
    Ok(())
}

fn print_cases<A: Answers>(
    rt: &HostRuntime,
    answers: &A,
    kind: &str,
    cases: &Value,
) -> anyhow::Result<()> {
    let Some(cases) = cases.as_array() else {
        return Err(anyhow::anyhow!("{kind} is no list"));
    };
    for case in cases {
        print_case(rt, answers, kind, case)?;
    }
    Ok(())
}

/// Prints the title of a case, and its answer, with an LF after it.
fn print_case<A: Answers>(
    rt: &HostRuntime,
    answers: &A,
    kind: &str,
    case: &Value,
) -> anyhow::Result<()> {
    let Some(case) = case.as_table() else {
        return Err(anyhow::anyhow!("a case of {kind} is no table"));
    };
    let title = title(rt.alloc(), case)?;
    println!(rt; "-- {title}")?;
    let answer = answers.answer(rt.alloc(), kind, case)?;
    rt.print(answer.as_str())?;
    if !answer.ends_with('\n') {
        println!(rt)?;
    }
    Ok(())
}
