//! The keys of a lock that PEP 751 doesn't name.

ghost use Rattle.std.specs.Prelude.{◌≡◌, ◌++◌, IfOk, OnOk, map, option_map, string_bytes};
ghost use Rattle.std.specs.Option.{option_copied};
ghost use Rattle.toml.specs.Data.{get_member};
ghost use Rattle.toml.specs.View.{items_view, table_view, view};
ghost use Rattle.pylock_audit.specs.Keys.{is_named, items_at, source_path, table_path, text_at};
ghost use Rattle.pylock_audit.specs.Keys.{unknown_keys};

use crate::finding::push_plain;
use pylock_core::PickSource;
use pylock_places::joined;
use pylock_shared::LabelledText;
use pylock_shown::hidden;
use std::alloc::{AllocError, Global};
use toml::{Table, Value};

/// The tables of a lock.
#[derive(Clone, Copy)]
pub(crate) enum LockTable {
    /// The document.
    Head,
    /// A member of `packages`.
    Entry,
    /// A source of an entry.
    OfSource(PickSource),
}

/// Whether PEP 751 names the key in this table. Letter case counts.
fn is_named(table: LockTable, key: &str) -> bool
    ensures { result ≡ is_named table key.now }
{
    match table {
        LockTable::Head => is_head_key(key),
        LockTable::Entry => is_entry_key(key),
        LockTable::OfSource(name) => is_source_key(name, key),
    }
}

fn is_head_key(key: &str) -> bool
    ensures { result ≡ is_named LockTable.Head key.now }
{
    matches!(
        key,
        "lock-version"
            | "environments"
            | "requires-python"
            | "extras"
            | "dependency-groups"
            | "default-groups"
            | "created-by"
            | "packages"
            | "tool"
    )
}

fn is_entry_key(key: &str) -> bool
    ensures { result ≡ is_named LockTable.Entry key.now }
{
    matches!(
        key,
        "name"
            | "version"
            | "marker"
            | "requires-python"
            | "dependencies"
            | "index"
            | "vcs"
            | "directory"
            | "archive"
            | "sdist"
            | "wheels"
            | "attestation-identities"
            | "tool"
    )
}

fn is_source_key(name: PickSource, key: &str) -> bool
    ensures { result ≡ is_named (LockTable.OfSource name) key.now }
{
    match name {
        PickSource::Vcs => matches!(
            key,
            "type" | "url" | "path" | "requested-revision" | "commit-id" | "subdirectory"
        ),
        PickSource::Directory => matches!(key, "path" | "editable" | "subdirectory"),
        PickSource::Archive => matches!(
            key,
            "url" | "path" | "size" | "upload-time" | "hashes" | "subdirectory"
        ),
        PickSource::Wheel(_) | PickSource::Sdist => matches!(
            key,
            "name" | "upload-time" | "url" | "path" | "size" | "hashes"
        ),
    }
}

// ---- paths

/// The path of a key of a source. Wheels are counted from 1.
pub(crate) fn source_key_path(
    alloc: Global,
    name: PickSource,
    key: &str,
) -> Result<String, AllocError>
    ensures { IfOk result (λ text. string_bytes text ≡ source_path name ++ key.now) }
{
    match name {
        PickSource::Vcs => joined(alloc, "vcs ", key),
        PickSource::Directory => joined(alloc, "directory ", key),
        PickSource::Archive => joined(alloc, "archive ", key),
        PickSource::Wheel(place) => {
            let number = place as u128 + 1;
            let mut path = format!(in alloc; "wheels {number} ")?;
            path.push_str(key)?;
            Ok(path)
        }
        PickSource::Sdist => joined(alloc, "sdist ", key),
    }
}

/// The path of a key of a table.
pub(crate) fn key_path(alloc: Global, table: LockTable, key: &str) -> Result<String, AllocError>
    ensures { IfOk result (λ text. string_bytes text ≡ table_path table ++ key.now) }
{
    match table {
        LockTable::Head | LockTable::Entry => String::from_str(alloc, key),
        LockTable::OfSource(name) => source_key_path(alloc, name, key),
    }
}

// ---- the keys that aren't named

/// The value of a key.
pub(crate) fn field<'a>(table: &'a Table, key: &str) -> Option<&'a Value>
    ensures { option_map (λ v. view v.now) result ≡ get_member key.now (table_view table.now) }
{
    table.get(key)
}

/// The text of a key, where it is one.
pub(crate) fn text_at<'a>(table: &'a Table, key: &str) -> Option<&'a str>
    ensures { option_copied result ≡ text_at key.now (table_view table.now) }
{
    field(table, key)?.as_str()
}

/// The list of a key, or none.
pub(crate) fn items_at<'a>(table: &'a Table, key: &str) -> &'a [Value]
    ensures { items_view result.now ≡ items_at key.now (table_view table.now) }
{
    match field(table, key) {
        Some(Value::Array(items)) => items.as_slice(),
        _ => &[],
    }
}

/// Adds the keys of a table that aren't named, each by its path as it is shown.
#[tactic(auto, using(crate::proofs::KeyLemmas::keys_shown))]
pub(crate) fn push_unknown(
    alloc: Global,
    paths: &mut Vec<LabelledText>,
    table: LockTable,
    members: &Table,
) -> Result<(), AllocError>
    ensures { OnOk result (paths.new.items
        ≡ paths.old.items ++ unknown_keys table (table_view members.now)) }
{
    for key in members.keys() {
        if !is_named(table, key.as_str()) {
            let shown = hidden(alloc, key.as_str())?;
            push_plain(paths, key_path(alloc, table, shown.as_str())?)?;
        }
    }
    Ok(())
}
