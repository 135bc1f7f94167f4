//! Diagnostics of the form of another tool.

use crate::diagnostics::{tell_bytes, tell_made};
use pylock_command::{Base, PlanFormat};
use pylock_exports::{Exported, FormatRefusal, explain_exported, explain_refusal};
use pylock_run::Sink;
use pylock_shown::hidden;
use std::alloc::{AllocError, Global};

/// Tells what the form leaves out, and where that is, if there is something.
pub(crate) fn tell_exported<N: Sink>(
    alloc: Global,
    diagnostics: &mut N,
    form: PlanFormat,
    exported: &Exported,
) {
    match explain_exported(alloc, form, exported) {
        Ok(Some(note)) => tell_made(alloc, diagnostics, Ok(note)),
        _ => {}
    }
}

/// Tells how many URLs of the form don't begin as the base says, if there are any, and the first of
/// them.
pub(crate) fn tell_elsewhere<N: Sink>(
    alloc: Global,
    diagnostics: &mut N,
    base: Base<'_>,
    exported: &Exported,
) {
    if let Some(first) = &exported.first_elsewhere {
        let note = elsewhere_note(alloc, base, exported.elsewhere, first.as_str());
        tell_made(alloc, diagnostics, note);
    }
}

fn elsewhere_note(
    alloc: Global,
    base: Base<'_>,
    count: usize,
    first: &str,
) -> Result<String, AllocError> {
    let from = hidden(alloc, base.from)?;
    let first = hidden(alloc, first)?;
    let (urls, more) = if count == 1 {
        ("URL doesn't", "")
    } else {
        ("URLs don't", ", ..")
    };
    format!(in alloc; "note: {count} {urls} begin with `{from}`: `{first}`{more}")
}

/// Tells that the form can't hold the entry of this name, which is refused, and why: first the line
/// of the refusal.
pub(crate) fn tell_refused_export<N: Sink>(
    alloc: Global,
    diagnostics: &mut N,
    form: PlanFormat,
    name: Option<&str>,
    refusal: &FormatRefusal,
) {
    if let Ok(line) = refusal_line(alloc, refusal.number) {
        tell_bytes(diagnostics, line.as_bytes());
    }
    tell_made(
        alloc,
        diagnostics,
        explain_refusal(alloc, form, name, refusal),
    );
}

fn refusal_line(alloc: Global, number: u64) -> Result<String, AllocError> {
    format!(in alloc; "refused\tformat\t{number}\n")
}
