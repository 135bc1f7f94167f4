//! Entries: why one is refused, and what one tells.

use crate::files::accepted;
use crate::sources::push_sources;
use case_files::text;
use pylock_core::Entry;
use pymark_core::Marker;
use pyver_core::SpecifierSet;
use std::alloc::{AllocError, Global};
use toml::Table;

/// `ok`, or why the text `entry` is refused.
pub(crate) fn judge(alloc: Global, case: &Table) -> anyhow::Result<String> {
    let text = text(alloc, case, "entry")?;
    Ok(judge_text(alloc, text.as_str())?)
}

pub(crate) fn judge_text(alloc: Global, text: &str) -> Result<String, AllocError> {
    match Entry::read_text(alloc, text) {
        Ok(_) => String::from_str(alloc, "ok"),
        Err(refusal) => format!(in alloc; "{refusal:?}"),
    }
}

/// What the readers of the entry `entry` tell.
pub(crate) fn answer_case(alloc: Global, case: &Table) -> anyhow::Result<String> {
    let text = text(alloc, case, "entry")?;
    let entry = accepted(Entry::read_text(alloc, text.as_str()))?;
    let mut told = String::new(alloc);
    push_conditions(&mut told, &entry)?;
    push_sources(&mut told, &entry)?;
    Ok(told)
}

/// The name, the version and the conditions of an entry.
pub(crate) fn push_conditions(told: &mut String, entry: &Entry) -> Result<(), AllocError> {
    let marker = entry.marker().map(Marker::text);
    let set = entry.requires_python().map(SpecifierSet::text);
    let (name, version) = (entry.name(), entry.version());
    writeln!(
        told,
        "name {name:?}, version {version:?}, marker {marker:?}, requires-python {set:?}"
    )
}
