//! Diagnostics of the files of locks.

use crate::options::option_words;
use pylock_command::PlanOption;
use pylock_messages::Diagnostic;
use pylock_shown::hidden;
use pylock_union::{Clash, LockSource};
use pyver_core::is_name;
use std::alloc::{AllocError, Global};

/// Why two files of one name are refused.
pub(crate) fn clash_diagnostic(
    alloc: Global,
    clash: &Clash<'_>,
) -> Result<Option<Diagnostic>, AllocError> {
    let earlier = entry_of(alloc, clash.earlier)?;
    let later = entry_of(alloc, clash.later)?;
    let file = match clash.later.source.file_name() {
        Some(name) => name,
        None => clash.later.source.place(),
    };
    let file = hidden(alloc, file)?;
    let note = format!(in alloc; "{earlier} and {later} have other hashes of {file}")?;
    Ok(Some(Diagnostic::of_message(alloc, note.as_str())?))
}

/// Which entry of which lock has a source.
fn entry_of(alloc: Global, source: LockSource<'_>) -> Result<String, AllocError> {
    let (lock, number, name) = (source.lock, source.number, source.entry.name());
    Ok(format!(in alloc; "lock {lock}: entry {number} (`{name}`)")?)
}

/// Why an option is refused that names no entry.
pub(crate) fn unnamed_diagnostic(
    alloc: Global,
    option: PlanOption<'_>,
) -> Result<Option<Diagnostic>, AllocError> {
    let (word, text) = option_words(option);
    let text = text.unwrap_or("");
    let why = if is_name(text) {
        "no lock has such a package"
    } else {
        "not a name"
    };
    let note = format!(in alloc; "--{word}: `{text}`: {why}")?;
    Ok(Some(Diagnostic::of_message(alloc, note.as_str())?))
}
