//! Where a text is no UTF-8, no TOML or no JSON.

use crate::diagnostic::Diagnostic;
use pylock_shown::Shown;
use pylock_spans::Place;
use std::alloc::{AllocError, Global};

/// The byte order mark that a text may begin with, in UTF-8.
const BYTE_ORDER_MARK: &[u8] = b"\xEF\xBB\xBF";

/// That the byte at this place, from 0, is the first that is no UTF-8.
pub(crate) fn not_text(
    alloc: Global,
    name: &str,
    at: usize,
) -> Result<Option<Diagnostic>, AllocError> {
    let words = format!(in alloc; "byte {at} is not UTF-8 text")?;
    Ok(Some(Diagnostic::of_file(alloc, name, None, words.as_str())?))
}

/// Where the text is no TOML, and what `toml` says of it.
pub(crate) fn wrong_toml(
    alloc: Global,
    name: &str,
    text: &str,
    fault: toml::de::Error,
) -> Result<Option<Diagnostic>, AllocError> {
    let Some(span) = fault.span() else {
        return Err(AllocError);
    };
    let bytes = text.as_bytes();
    let before = without_mark(&bytes[..span.start.min(bytes.len())]);
    let ends_of_lines = before.iter().filter(|byte| **byte == b'\n').count();
    let last_line = before
        .rsplit(|byte| *byte == b'\n')
        .next()
        .unwrap_or(before);
    let line = ends_of_lines.saturating_add(1);
    let column = characters(last_line).saturating_add(1);
    wrong_place(alloc, name, line, column, fault.message())
}

/// Where the text is no JSON, and what `serde_json` says of it, which counts a column in bytes.
pub(crate) fn wrong_json(
    alloc: Global,
    name: &str,
    text: &str,
    fault: serde_json::Error,
) -> Result<Option<Diagnostic>, AllocError> {
    if fault.is_memory() {
        return Err(AllocError);
    }
    let line = fault.line();
    let rest = from_line(text.as_bytes(), line);
    let prefix = &rest[..fault.column().min(rest.len())];
    let prefix = if line == 1 {
        without_mark(prefix)
    } else {
        prefix
    };
    let column = characters(prefix).max(1);
    let words = json_words(alloc, fault)?;
    wrong_place(alloc, name, line, column, words.as_str())
}

/// What a parser says of this line and column, which may quote the text.
fn wrong_place(
    alloc: Global,
    name: &str,
    line: usize,
    column: usize,
    words: &str,
) -> Result<Option<Diagnostic>, AllocError> {
    let shown = Shown(words);
    let words = format!(in alloc; "{shown}")?;
    let place = Place {
        line: line as u64,
        column: column as u64,
    };
    Ok(Some(Diagnostic::of_file(alloc, name, Some(place), words.as_str())?))
}

/// What `serde_json` says, without its line and its column.
fn json_words(alloc: Global, fault: serde_json::Error) -> Result<String, AllocError> {
    let (line, column) = (fault.line(), fault.column());
    let words = format!(in alloc; "{fault}")?;
    let position = format!(in alloc; " at line {line} column {column}")?;
    match words.strip_suffix(position.as_str()) {
        Some(words) => String::from_str(alloc, words),
        None => Ok(words),
    }
}

fn without_mark(bytes: &[u8]) -> &[u8] {
    bytes.strip_prefix(BYTE_ORDER_MARK).unwrap_or(bytes)
}

/// What stands from the line of this number on, which counts from 1.
fn from_line(bytes: &[u8], line: usize) -> &[u8] {
    let mut rest = bytes;
    for _ in 1..line {
        match rest.iter().position(|byte| *byte == b'\n') {
            Some(end) => rest = &rest[end + 1..],
            None => return &[],
        }
    }
    rest
}

/// How many characters begin in the bytes of a text.
fn characters(bytes: &[u8]) -> usize {
    bytes.iter().filter(|byte| **byte & 0xC0 != 0x80).count()
}
