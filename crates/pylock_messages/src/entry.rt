//! Why an entry of a lock is refused.

use crate::wrong_part::{EntryLabel, Part, PartFault, WrongPart};
use pylock_readers::{EntryError, EntryKey};
use pyver_core::is_name;
use toml::{Table, Value};

/// What is wrong with the entry at this position of the document, from 1.
pub(crate) fn wrong_entry<'a>(
    document: &'a Table,
    position: usize,
    refusal: &EntryError,
) -> Option<WrongPart<'a>> {
    let Some(Value::Array(entries)) = document.get("packages") else {
        return None;
    };
    match entries.get(position.checked_sub(1)?)? {
        Value::Table(table) => {
            let name = name_of(table);
            Some(wrong_key(table, refusal)?.of_entry(EntryLabel { position, name }))
        }
        value => Some(WrongPart::in_lock(Part::Entry(position), "a table", Some(value))),
    }
}

fn name_of(entry: &Table) -> Option<&str> {
    match entry.get("name") {
        Some(Value::String(name)) if is_name(name.as_str()) => Some(name.as_str()),
        _ => None,
    }
}

/// The key that the entry is refused for; of a source the first of its keys that is wrong.
fn wrong_key<'a>(entry: &'a Table, refusal: &EntryError) -> Option<WrongPart<'a>> {
    match refusal {
        EntryError::Name => Some(WrongPart::key(entry, "name", "a name")),
        EntryError::Key(EntryKey::Version) => Some(WrongPart::key(entry, "version", "a text")),
        EntryError::Key(EntryKey::Vcs) => wrong_source(entry, "vcs"),
        EntryError::Key(EntryKey::Directory) => wrong_source(entry, "directory"),
        EntryError::Key(EntryKey::Archive) => wrong_source(entry, "archive"),
        EntryError::Key(EntryKey::Sdist) => wrong_source(entry, "sdist"),
        EntryError::Key(EntryKey::Wheels) => wrong_wheels(entry),
        EntryError::Marker => Some(WrongPart::key(entry, "marker", "a marker")),
        EntryError::RequiresPython => {
            Some(WrongPart::key(entry, "requires-python", "a specifier set"))
        }
        EntryError::Toml | EntryError::NotTable | EntryError::Memory => None,
    }
}

/// What is wrong with the source at this key.
fn wrong_source<'a>(entry: &'a Table, key: &'static str) -> Option<WrongPart<'a>> {
    match entry.get(key) {
        Some(Value::Table(source)) => Some(wrong_source_key(source, key)?.of_source(key)),
        _ => Some(WrongPart::key(entry, key, "a table")),
    }
}

/// What is wrong with the key `wheels`.
fn wrong_wheels(entry: &Table) -> Option<WrongPart<'_>> {
    let Some(Value::Array(wheels)) = entry.get("wheels") else {
        return Some(WrongPart::key(entry, "wheels", "a list of tables"));
    };
    for (at, wheel) in wheels.iter().enumerate() {
        if let Some(wrong) = wrong_wheel(at + 1, wheel) {
            return Some(wrong);
        }
    }
    None
}

fn wrong_wheel(position: usize, wheel: &Value) -> Option<WrongPart<'_>> {
    match wheel {
        Value::Table(file) => Some(wrong_source_key(file, "wheels")?.of_wheel(position)),
        _ => Some(WrongPart::in_lock(Part::Wheel(position), "a table", Some(wheel))),
    }
}

/// The first wrong key of a source that stands at this key, or what the source lacks as a whole.
fn wrong_source_key<'a>(source: &'a Table, key: &str) -> Option<WrongPart<'a>> {
    match key {
        "vcs" => required_text(source, "type")
            .or(required_text(source, "commit-id"))
            .or(location(source))
            .or(text(source, "subdirectory")),
        "directory" => required_text(source, "path")
            .or(boolean(source, "editable"))
            .or(text(source, "subdirectory")),
        "archive" => location(source)
            .or(hashes(source))
            .or(text(source, "subdirectory")),
        _ => text(source, "name").or(location(source)).or(hashes(source)),
    }
}

fn location(source: &Table) -> Option<WrongPart<'_>> {
    let wrong = text(source, "url").or(text(source, "path"));
    if source.contains_key("url") || source.contains_key("path") {
        return wrong;
    }
    Some(WrongPart::new(Part::Whole, PartFault::LiesNowhere))
}

fn required_text<'a>(source: &'a Table, key: &'static str) -> Option<WrongPart<'a>> {
    match source.get(key) {
        Some(Value::String(_)) => None,
        _ => Some(WrongPart::key(source, key, "a text")),
    }
}

fn text<'a>(source: &'a Table, key: &'static str) -> Option<WrongPart<'a>> {
    match source.get(key) {
        None | Some(Value::String(_)) => None,
        _ => Some(WrongPart::key(source, key, "a text")),
    }
}

fn boolean<'a>(source: &'a Table, key: &'static str) -> Option<WrongPart<'a>> {
    match source.get(key) {
        None | Some(Value::Boolean(_)) => None,
        _ => Some(WrongPart::key(source, key, "true or false")),
    }
}

fn hashes(source: &Table) -> Option<WrongPart<'_>> {
    match source.get("hashes") {
        None => None,
        Some(Value::Table(hashes)) if hashes.values().all(Value::is_str) => None,
        _ => Some(WrongPart::key(source, "hashes", "a table of texts")),
    }
}
