//! What a person is told of a refused lock or environment.

use crate::files;
use case_files::text;
use pylock_messages::{environment_message, lock_message};
use std::alloc::{AllocError, Global};
use toml::Table;

/// The line on the lock, or `none` where it isn't refused.
pub(crate) fn of_lock(alloc: Global, case: &Table) -> anyhow::Result<String> {
    let lock = files::lock(alloc, case)?;
    let name = name(alloc, case, "LOCK")?;
    Ok(message_or_none(alloc, lock_message(alloc, name.as_str(), &lock)?)?)
}

/// The line on the environment, or `none` where it isn't refused.
pub(crate) fn of_environment(alloc: Global, case: &Table) -> anyhow::Result<String> {
    let environment = files::environment(alloc, case)?;
    let name = name(alloc, case, "ENV")?;
    let message = environment_message(alloc, name.as_str(), &environment)?;
    Ok(message_or_none(alloc, message)?)
}

/// The name that the case gives its file, or else this one.
fn name(alloc: Global, case: &Table, usual: &str) -> anyhow::Result<String> {
    if case.contains_key("file") {
        return text(alloc, case, "file");
    }
    Ok(String::from_str(alloc, usual)?)
}

fn message_or_none(alloc: Global, message: Option<String>) -> Result<String, AllocError> {
    match message {
        Some(message) => Ok(message),
        None => String::from_str(alloc, "none"),
    }
}
