//! Why a lock is refused.

use crate::diagnostic::{Diagnostic, saying};
use crate::entry::wrong_entry;
use crate::other_file::{other_than_lock, other_than_toml};
use crate::syntax::{not_text, wrong_toml};
use crate::wrong_part::{Part, WrongPart, wrong_in_lock};
use pylock_readers::{HeadKey, Lock, LockError, MOST_ENTRIES};
use pylock_spans::Places;
use pymark_core::{Marker, MarkerError};
use pyver_core::is_name;
use std::alloc::{AllocError, Global};
use toml::{Table, Value};

/// Why the text is refused as a lock, in a line for a person, without LF; `name` is the name given
/// for the file. Nothing where it isn't refused. The line is that of [`lock_diagnostic`].
pub fn lock_message(alloc: Global, name: &str, lock: &[u8]) -> Result<Option<String>, AllocError> {
    match Lock::read(alloc, lock) {
        Ok(_) => Ok(None),
        Err(LockError::Memory) => Err(AllocError),
        Err(refusal) => {
            let diagnostic = lock_diagnostic(alloc, name, lock, &refusal)?;
            Ok(diagnostic.map(Diagnostic::into_message))
        }
    }
}

/// Where the text is wrong that is refused so as a lock; `name` is the name given for the file.
///
/// It names the byte that is no UTF-8, the line and column where the text is no TOML, or the first
/// wrong key, with its entry, what stands there, and line and column: those of the key or of the
/// element of its list, or where the key is missing those of the entry; a key that the head lacks
/// has none. Of an empty file, a `pyproject.toml`, a `uv.lock` and of JSON the line says what the
/// file is in place of that. The text is read again, and takes the memory of that, with a place
/// for each entry. No contract says what it tells.
pub fn lock_diagnostic(
    alloc: Global,
    name: &str,
    lock: &[u8],
    refusal: &LockError,
) -> Result<Option<Diagnostic>, AllocError> {
    let text = match std::str::from_utf8(lock) {
        Ok(text) => text,
        Err(fault) => return not_text(alloc, name, fault.valid_up_to()),
    };
    match toml::table_from_str(alloc, text) {
        Ok(document) => {
            let diagnostic = document_diagnostic(alloc, name, text, &document, refusal)?;
            saying(alloc, diagnostic, other_than_lock(text, &document))
        }
        Err(fault) => {
            let diagnostic = wrong_toml(alloc, name, text, fault)?;
            saying(alloc, diagnostic, other_than_toml(text))
        }
    }
}

fn document_diagnostic(
    alloc: Global,
    name: &str,
    text: &str,
    document: &Table,
    refusal: &LockError,
) -> Result<Option<Diagnostic>, AllocError> {
    match refusal {
        LockError::TooMany => Ok(Some(too_many(alloc, name, text)?)),
        LockError::Head(HeadKey::Environments) => {
            wrong_in_lock(alloc, name, text, wrong_environments(alloc, document)?)
        }
        _ => wrong_in_lock(alloc, name, text, wrong_key(document, refusal)),
    }
}

/// That the lock has too many entries, where the first beyond the limit begins.
fn too_many(alloc: Global, name: &str, text: &str) -> Result<Diagnostic, AllocError> {
    let place = Places::of_toml(alloc, text)?.entry(MOST_ENTRIES + 1);
    let words = format!(in alloc; "more than {MOST_ENTRIES} entries")?;
    Diagnostic::of_file(alloc, name, place, words.as_str())
}

/// The key that the lock is refused for, or the first wrong member of its list.
fn wrong_key<'a>(document: &'a Table, refusal: &LockError) -> Option<WrongPart<'a>> {
    let (key, form) = match refusal {
        LockError::LockVersion => ("lock-version", "1. and digits"),
        LockError::CreatedBy => ("created-by", "a text"),
        LockError::Head(HeadKey::RequiresPython) => ("requires-python", "a specifier set"),
        LockError::Head(HeadKey::Extras) => return wrong_names(document, "extras"),
        LockError::Head(HeadKey::DependencyGroups) => {
            return wrong_names(document, "dependency-groups");
        }
        LockError::Head(HeadKey::DefaultGroups) => return wrong_names(document, "default-groups"),
        LockError::Packages => ("packages", "a list"),
        LockError::Entry(position, refusal) => return wrong_entry(document, *position, refusal),
        _ => return None,
    };
    Some(WrongPart::key(document, key, form))
}

fn wrong_names<'a>(document: &'a Table, key: &'static str) -> Option<WrongPart<'a>> {
    let Some(Value::Array(names)) = document.get(key) else {
        return Some(WrongPart::key(document, key, "a list of names"));
    };
    let at = names
        .iter()
        .position(|name| !name.as_str().is_some_and(|text| is_name(text)))?;
    Some(WrongPart::in_lock(Part::Member(key, at + 1), "a name", names.get(at)))
}

fn wrong_environments(alloc: Global, lock: &Table) -> Result<Option<WrongPart<'_>>, AllocError> {
    let Some(Value::Array(markers)) = lock.get("environments") else {
        return Ok(Some(WrongPart::key(lock, "environments", "a list of markers")));
    };
    for (at, marker) in markers.iter().enumerate() {
        if !is_marker(alloc, marker)? {
            let part = Part::Member("environments", at + 1);
            return Ok(Some(WrongPart::in_lock(part, "a marker", Some(marker))));
        }
    }
    Ok(None)
}

fn is_marker(alloc: Global, value: &Value) -> Result<bool, AllocError> {
    let Some(text) = value.as_str() else {
        return Ok(false);
    };
    match Marker::parse(alloc, text) {
        Ok(_) => Ok(true),
        Err(MarkerError::Memory) => Err(AllocError),
        Err(_) => Ok(false),
    }
}
