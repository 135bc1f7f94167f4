//! Texts that are another file than a lock or an environment, by simple tests.

use std::alloc::{AllocError, Global};
use toml::{Table, Value};

/// The text behind its byte order mark, where it has one.
fn behind_mark(text: &str) -> &str {
    text.strip_prefix('\u{feff}').unwrap_or(text)
}

/// Whether the text has nothing but white space, behind a byte order mark or not.
pub(crate) fn is_blank(text: &str) -> bool {
    behind_mark(text).trim().is_empty()
}

/// Whether bytes begin as an object of JSON does, which no lock does.
pub fn begins_like_json(text: &[u8]) -> bool {
    text.trim_ascii_start().starts_with(b"{")
}

/// What is said of a lock that is no TOML, where it seems to be JSON.
pub(crate) fn other_than_toml(text: &str) -> Option<&'static str> {
    begins_like_json(behind_mark(text).as_bytes()).then_some("this is JSON, and a lock is TOML")
}

/// What is said of a lock that is another file of TOML, or none.
pub(crate) fn other_than_lock(text: &str, document: &Table) -> Option<&'static str> {
    if is_blank(text) {
        Some("the file is empty")
    } else if document.contains_key("lock-version") {
        None
    } else if is_project(document) {
        Some("this is a pyproject.toml; is there a pylock.toml beside it?")
    } else if is_uv_lock(document) {
        Some("this is a uv.lock; uv writes a pylock.toml by `uv export --format pylock.toml`")
    } else {
        None
    }
}

fn is_project(document: &Table) -> bool {
    ["project", "build-system", "tool"]
        .iter()
        .any(|key| document.get(*key).is_some_and(Value::is_table))
}

/// Whether it has what every lock of uv has; one of Cargo has no `requires-python`.
fn is_uv_lock(document: &Table) -> bool {
    matches!(document.get("version"), Some(Value::Integer(_)))
        && matches!(document.get("package"), Some(Value::Array(_)))
        && document.contains_key("requires-python")
}

/// What is said of an environment that is no JSON, where it is empty or seems to be TOML.
pub(crate) fn other_than_json(
    alloc: Global,
    text: &str,
) -> Result<Option<&'static str>, AllocError> {
    if is_blank(text) {
        Ok(Some("the file is empty"))
    } else if is_toml(alloc, text)? {
        Ok(Some("this is TOML, and an environment is JSON"))
    } else {
        Ok(None)
    }
}

/// Whether the text is TOML, or begins as a lock does.
fn is_toml(alloc: Global, text: &str) -> Result<bool, AllocError> {
    if text.trim().starts_with("lock-version") {
        return Ok(true);
    }
    match toml::table_from_str(alloc, text) {
        Ok(_) => Ok(true),
        Err(fault) if fault.span().is_none() => Err(AllocError),
        Err(_) => Ok(false),
    }
}
