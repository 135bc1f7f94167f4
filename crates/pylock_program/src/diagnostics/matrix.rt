//! Diagnostics of the targets of a matrix.

use crate::diagnostics::tell_made;
use crate::matrix::is_met;
use pylock_core::fault_word;
use pylock_matrix::{Built, Outcome, Row};
use pylock_run::Sink;
use std::alloc::{AllocError, Global};

/// Tells of each target that has no plan its fault, and of each of which something is built where
/// that counts, what is built.
pub(crate) fn tell_unmet<N: Sink>(
    alloc: Global,
    diagnostics: &mut N,
    no_build: bool,
    rows: &[Row],
) {
    for row in rows {
        if !is_met(no_build, &row.outcome) {
            tell_made(alloc, diagnostics, unmet_text(alloc, row));
        }
    }
}

/// Why the target of a row isn't met.
fn unmet_text(alloc: Global, row: &Row) -> Result<String, AllocError> {
    let python = row.cell.python();
    let platform = row.cell.platform();
    match &row.outcome {
        Outcome::Fault { id, code } => {
            let word = fault_word(*code);
            format!(in alloc; "{python} {platform}: fault {id} {word}")
        }
        Outcome::Plan { count: _, built } => {
            let mut text = format!(in alloc; "{python} {platform}: built from source: ")?;
            push_built(alloc, &mut text, built)?;
            Ok(text)
        }
    }
}

/// Pushes the numbers of the entries that are built.
fn push_built(alloc: Global, text: &mut String, built: &Built) -> Result<(), AllocError> {
    let mut front = "";
    for number in built.numbers() {
        let entry = format!(in alloc; "{front}{number}")?;
        text.push_str(entry.as_str())?;
        front = ",";
    }
    Ok(())
}
