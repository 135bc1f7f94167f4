//! The keys to which PEP 751 gives a type, and whose values the installation steps ignore.

ghost use Rattle.std.specs.Prelude.{◌≡◌, ◌++◌, OnOk, false, map};
ghost use Rattle.std.specs.Option.{option_map_or};
ghost use Rattle.toml.specs.View.{items_view, table_view, view};
ghost use Rattle.pylock_audit.specs.Types.{are_tables, has_type, is_moment, is_size, is_table};
ghost use Rattle.pylock_audit.specs.Types.{is_tables, is_text, is_upload_time, is_utc, typed_keys};
ghost use Rattle.pylock_audit.specs.Types.{wrong_at, wrong_types};

use crate::finding::push_plain;
use crate::keys::{LockTable, field, key_path, text_at};
use pylock_core::PickSource;
use pylock_shared::LabelledText;
use std::alloc::{AllocError, Global};
use toml::value::{Datetime, Offset};
use toml::{Table, Value};

// ---- the types

fn is_text(value: &Value) -> bool
    ensures { result ≡ is_text (view value.now) }
{
    matches!(value, Value::String(_))
}

/// Whether it is a table; with a text `kind`, where that is wanted.
fn is_table(with_kind: bool, value: &Value) -> bool
    ensures { result ≡ is_table with_kind (view value.now) }
{
    match value {
        Value::Table(members) => !with_kind || text_at(members, "kind").is_some(),
        _ => false,
    }
}

/// Whether it is a size in bytes, an integer that isn't negative.
fn is_size(value: &Value) -> bool
    ensures { result ≡ is_size (view value.now) }
{
    match value {
        Value::Integer(size) => *size >= 0,
        _ => false,
    }
}

/// Whether it is a date and a time in UTC.
fn is_upload_time(value: &Value) -> bool
    ensures { result ≡ is_upload_time (view value.now) }
{
    match value {
        Value::Datetime(time) => is_moment(time),
        _ => false,
    }
}

fn is_moment(time: &Datetime) -> bool
    ensures { result ≡ is_moment time.now }
{
    time.date.is_some() && time.time.is_some() && is_utc(time.offset)
}

/// Whether the offset is there and is none.
fn is_utc(offset: Option<Offset>) -> bool
    ensures { result ≡ option_map_or is_utc offset false }
{
    match offset {
        Some(Offset::Z) => true,
        Some(Offset::Custom { minutes }) => minutes == 0,
        None => false,
    }
}

/// Whether it is a list of such tables.
fn is_tables(with_kind: bool, value: &Value) -> bool
    ensures { result ≡ is_tables with_kind (view value.now) }
{
    match value {
        Value::Array(items) => are_tables(with_kind, items.as_slice()),
        _ => false,
    }
}

fn are_tables(with_kind: bool, items: &[Value]) -> bool
    ensures { result ≡ are_tables with_kind (items_view items.now) }
{
    for value in items {
        if !is_table(with_kind, value) {
            return false;
        }
    }
    true
}

// ---- the keys

/// What a key should hold.
#[derive(Clone, Copy)]
pub(crate) enum KeyType {
    /// A text.
    Text,
    /// A table.
    Table,
    /// A list of tables.
    Tables,
    /// A list of tables with a text `kind`.
    Identities,
    /// A number of bytes.
    Size,
    /// A date and a time in UTC.
    UploadTime,
}

fn has_type(wanted: KeyType, value: &Value) -> bool
    ensures { result ≡ has_type wanted (view value.now) }
{
    match wanted {
        KeyType::Text => is_text(value),
        KeyType::Table => is_table(false, value),
        KeyType::Tables => is_tables(false, value),
        KeyType::Identities => is_tables(true, value),
        KeyType::Size => is_size(value),
        KeyType::UploadTime => is_upload_time(value),
    }
}

/// Adds the path of a key that is there with another type.
fn push_wrong_at(
    alloc: Global,
    paths: &mut Vec<LabelledText>,
    table: LockTable,
    members: &Table,
    key: &str,
    wanted: KeyType,
) -> Result<(), AllocError>
    ensures { OnOk result (paths.new.items ≡ paths.old.items
        ++ wrong_at table (table_view members.now) key.now wanted) }
{
    match field(members, key) {
        Some(value) if !has_type(wanted, value) => push_plain(paths, key_path(alloc, table, key)?),
        _ => Ok(()),
    }
}

/// The keys of a table to which PEP 751 gives a type, in order of code point.
fn typed_keys(table: LockTable) -> &'static [(&'static str, KeyType)]
    ensures { map (λ typed. (typed.0.now, typed.1)) result.now ≡ typed_keys table }
{
    match table {
        LockTable::Head => &[("tool", KeyType::Table)],
        LockTable::Entry => &[
            ("attestation-identities", KeyType::Identities),
            ("dependencies", KeyType::Tables),
            ("index", KeyType::Text),
            ("tool", KeyType::Table),
        ],
        LockTable::OfSource(PickSource::Vcs) => &[("requested-revision", KeyType::Text)],
        LockTable::OfSource(PickSource::Directory) => &[],
        LockTable::OfSource(PickSource::Archive | PickSource::Wheel(_) | PickSource::Sdist) => {
            &[
                ("size", KeyType::Size),
                ("upload-time", KeyType::UploadTime),
            ]
        }
    }
}

/// Adds the keys of a table that have another type than PEP 751 gives them, each by its path.
pub(crate) fn push_wrong_types(
    alloc: Global,
    paths: &mut Vec<LabelledText>,
    table: LockTable,
    members: &Table,
) -> Result<(), AllocError>
    ensures { OnOk result (paths.new.items
        ≡ paths.old.items ++ wrong_types table (table_view members.now)) }
{
    let keys = typed_keys(table);
    for (key, wanted) in keys {
        push_wrong_at(alloc, paths, table, members, key, *wanted)?;
    }
    Ok(())
}
