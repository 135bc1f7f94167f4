//! Environments, call by call; and the names of variables.

use crate::told::filled_text;
use case_files::{text, texts};
use pymark_core::{Environment, Names, Var};
use std::alloc::{AllocError, Global};
use toml::{Table, Value};

/// The environment of the `variables`, the `extras` and the `groups` of a case; each line of
/// `names` is an extra and a group too.
pub(crate) fn environment_of(alloc: Global, case: &Table) -> anyhow::Result<Environment> {
    let mut environment = Environment::new(alloc);
    if let Some(Value::Table(variables)) = case.get("variables") {
        set_variables(&mut environment, alloc, variables)?;
    }
    for extra in texts(alloc, case, "extras")? {
        environment.add_extra(extra)?;
    }
    for group in texts(alloc, case, "groups")? {
        environment.add_group(group)?;
    }
    add_names(&mut environment, text(alloc, case, "names")?.as_str())?;
    Ok(environment)
}

/// Asks for the extra and for the group of each line.
fn add_names(environment: &mut Environment, names: &str) -> Result<(), AllocError> {
    for name in names.lines() {
        environment.add_extra(name)?;
        environment.add_group(name)?;
    }
    Ok(())
}

fn set_variables(
    environment: &mut Environment,
    alloc: Global,
    variables: &Table,
) -> anyhow::Result<()> {
    for name in variables.keys() {
        let variable = variable(name.as_str())?;
        let text = text(alloc, variables, name.as_str())?;
        environment.set(variable, text.as_str())?;
    }
    Ok(())
}

/// What each of `calls` answers of an environment that begins empty, with a copy that is made
/// after them; then each of `later`, and each of `copied` of the copy.
pub(crate) fn answer_case(alloc: Global, case: &Table) -> anyhow::Result<String> {
    let mut environment = Environment::new(alloc);
    let called = answers(alloc, &mut environment, case, "calls")?;
    let mut copy = environment.copy()?;
    let later = answers(alloc, &mut environment, case, "later")?;
    let copied = answers(alloc, &mut copy, case, "copied")?;
    Ok(format!(in alloc; "{called}{later}{copied}")?)
}

/// What each call of the key's list answers, a line each.
fn answers(
    alloc: Global,
    environment: &mut Environment,
    case: &Table,
    key: &str,
) -> anyhow::Result<String> {
    let mut answers = String::new(alloc);
    for call in texts(alloc, case, key)? {
        let answer = answer(alloc, environment, call)?;
        writeln!(answers, "{call}: {answer}")?;
    }
    Ok(answers)
}

/// What one call answers.
fn answer(alloc: Global, environment: &mut Environment, call: &str) -> anyhow::Result<String> {
    let (word, rest) = call.split_once(' ').unwrap_or((call, ""));
    match word {
        "set" | "unset" | "ask_nothing" => {
            change_variable(alloc, environment, rest)?;
            Ok(String::from_str(alloc, "done")?)
        }
        "extras" => names(alloc, environment.extras()),
        "groups" => names(alloc, environment.groups()),
        "get" => Ok(format!(in alloc; "{:?}", environment.get(variable(rest)?))?),
        "version" => Ok(String::from_str(alloc, version(environment, variable(rest)?))?),
        _ => Ok(ask_again(environment, word, rest)?.to_string(alloc)?),
    }
}

fn names(alloc: Global, names: Names<'_>) -> anyhow::Result<String> {
    let names: Vec<&str> = names.collect(alloc)?;
    Ok(format!(in alloc; "{names:?}")?)
}

fn variable(name: &str) -> anyhow::Result<Var> {
    match Var::of(name) {
        Some(variable) => Ok(variable),
        None => Err(anyhow::anyhow!("no variable")),
    }
}

/// Gives a variable the text after its name, or leaves it without one; or asks for nothing.
pub(crate) fn change_variable(
    alloc: Global,
    environment: &mut Environment,
    rest: &str,
) -> anyhow::Result<()> {
    match rest.split_once(' ') {
        Some((name, text)) => set(alloc, environment, variable(name)?, text),
        None if rest.is_empty() => {
            environment.ask_nothing();
            Ok(())
        }
        None => {
            environment.unset(variable(rest)?);
            Ok(())
        }
    }
}

/// Gives the variable the text. Where there is no memory for that, it has to be left as it was.
fn set(
    alloc: Global,
    environment: &mut Environment,
    variable: Var,
    text: &str,
) -> anyhow::Result<()> {
    let before = format!(in alloc; "{:?}", environment.get(variable))?;
    if let Err(refusal) = environment.set(variable, text) {
        let left = format!(in alloc; "{:?}", environment.get(variable))?;
        if left.as_str() != before.as_str() {
            return Err(anyhow::anyhow!("a refused text changes the variable"));
        }
        return Err(refusal.into());
    }
    Ok(())
}

/// The text of the version that the variable spells.
pub(crate) fn version(environment: &Environment, variable: Var) -> &str {
    match environment.version(variable) {
        Some(Ok(version)) => version.text(),
        Some(Err(_)) => "no version",
        None => "no text",
    }
}

/// What a call with a name answers. A refused one is made again: had it changed anything, it would
/// answer something else.
fn ask_again(environment: &mut Environment, word: &str, name: &str) -> anyhow::Result<bool> {
    match ask(environment, word, name) {
        Ok(answer) => Ok(answer),
        Err(_) => ask(environment, word, name),
    }
}

/// What a call with a name answers.
fn ask(environment: &mut Environment, word: &str, name: &str) -> anyhow::Result<bool> {
    match word {
        "add_extra" => Ok(environment.add_extra(name)?),
        "drop_extra" => Ok(environment.drop_extra(name)?),
        "has_extra" => Ok(environment.has_extra(name)),
        "add_group" => Ok(environment.add_group(name)?),
        "drop_group" => Ok(environment.drop_group(name)?),
        "has_group" => Ok(environment.has_group(name)),
        _ => Err(anyhow::anyhow!("no call")),
    }
}

/// The variable of a name, and its name, filled up too.
pub(crate) fn tell_variable(alloc: Global, case: &Table) -> anyhow::Result<String> {
    let name = text(alloc, case, "variable")?;
    let variable = Var::of(name.as_str());
    let mut told = format!(in alloc; "{variable:?}, {:?}", variable.map(Var::name))?;
    if let Some(variable) = variable {
        write!(told, " {}", filled_text(alloc, &variable)?)?;
    }
    Ok(told)
}
