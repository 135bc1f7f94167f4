//! Lines for a person, on standard error. They say nothing that the printed answer rests on.

pub(crate) mod audit;
pub(crate) mod expected;
pub(crate) mod export;
pub(crate) mod fault;
pub(crate) mod files;
pub(crate) mod left;
pub(crate) mod matrix;
pub(crate) mod options;
pub(crate) mod refusal;

use pylock_run::{FileFault, Sink, write_all};
use pylock_shown::push_visible;
use std::alloc::{AllocError, Global};

/// Writes `pylock: ` and the text, in which each control character stands as its number. Where
/// memory or the write fails, the line is left out.
pub(crate) fn tell<N: Sink>(alloc: Global, diagnostics: &mut N, text: &str) {
    if let Ok(line) = note_line(alloc, text) {
        let _ = write_all(diagnostics, &line);
    }
}

/// The same of a text that may have failed for memory.
pub(crate) fn tell_made<N: Sink>(
    alloc: Global,
    diagnostics: &mut N,
    text: Result<String, AllocError>,
) {
    if let Ok(text) = text {
        tell(alloc, diagnostics, text.as_str());
    }
}

/// Writes lines as they stand. Where the write fails, they are left out.
pub(crate) fn tell_bytes<N: Sink>(diagnostics: &mut N, lines: &[u8]) {
    let _ = write_all(diagnostics, lines);
}

fn note_line(alloc: Global, text: &str) -> Result<Vec<u8>, AllocError> {
    let mut line = Vec::new(alloc);
    line.extend_from_slice(b"pylock: ")?;
    push_visible(&mut line, text)?;
    line.push(b'\n')?;
    Ok(line)
}

/// Tells which file can't be read, and why.
pub(crate) fn tell_file<N: Sink>(alloc: Global, diagnostics: &mut N, path: &str, fault: FileFault) {
    let why = file_reason(fault);
    tell_made(alloc, diagnostics, format!(in alloc; "file: {path}: {why}"));
}

fn file_reason(fault: FileFault) -> &'static str {
    match fault {
        FileFault::Missing => "no such file",
        FileFault::Directory => "a directory",
        FileFault::Permission => "permission",
        FileFault::Limit => "more than 268,435,456 bytes",
        FileFault::Read | FileFault::Memory => "can't be read",
    }
}
