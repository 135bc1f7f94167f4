//! What was expected of texts that are refused, and where.

use case_files::text;
use pylock_pointed::pointed_lines;
use pymark_expected::{Fault, marker_fault, requirement_fault, set_fault, specifier_fault};
use std::alloc::{AllocError, Global};
use toml::Table;

/// What was expected of the text of the key, and the lines that point at the place.
pub(crate) fn point(alloc: Global, case: &Table, key: &str) -> anyhow::Result<String> {
    let text = text(alloc, case, key)?;
    let Some(fault) = fault_of(alloc, key, text.as_str())? else {
        return Ok(String::from_str(alloc, "taken")?);
    };
    let lines = pointed_lines(alloc, text.as_str(), &fault)?;
    let sentence = fault.expected;
    Ok(format!(in alloc; "{sentence}\n{lines}")?)
}

/// The fault of the text, read as what the key names.
fn fault_of(alloc: Global, key: &str, text: &str) -> Result<Option<Fault>, AllocError> {
    match key {
        "marker" => marker_fault(alloc, text),
        "requirement" => requirement_fault(alloc, text),
        "set" => set_fault(alloc, text),
        _ => specifier_fault(alloc, text),
    }
}
