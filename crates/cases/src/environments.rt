//! Environments: why one is refused, and what one holds.

use crate::files;
use pylock_core::read_environment;
use pymark_core::Var;
use std::alloc::Global;
use toml::Table;

/// `ok`, or why the environment is refused.
pub(crate) fn judge(alloc: Global, case: &Table) -> anyhow::Result<String> {
    let environment = files::environment(alloc, case)?;
    Ok(match read_environment(alloc, &environment) {
        Ok(_) => String::from_str(alloc, "ok")?,
        Err(refusal) => format!(in alloc; "{refusal:?}")?,
    })
}

/// The variables that are set in the environment, and its tags.
pub(crate) fn answer_case(alloc: Global, case: &Table) -> anyhow::Result<String> {
    let environment = files::environment(alloc, case)?;
    let (environment, tags) = files::accepted(read_environment(alloc, &environment))?;
    let mut told = String::new(alloc);
    for variable in Var::all() {
        if let Some(text) = environment.get(variable) {
            writeln!(told, "{variable} {text:?}")?;
        }
    }
    for tag in tags.tags() {
        writeln!(told, "tag {tag}")?;
    }
    Ok(told)
}
