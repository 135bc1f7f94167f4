//! The keys of an entry and of its sources that a kind of finding tells of, each by its path.

ghost use Rattle.std.specs.Prelude.{◌≡◌, ◌++◌, IfOk, OnOk, option_map};
ghost use Rattle.toml.specs.View.{items_view, table_view, view};
ghost use Rattle.pylock_audit.specs.EntryKeys.{entry_keys_told, source_keys_told, table_keys_told};
ghost use Rattle.pylock_audit.specs.EntryKeys.{wheel_keys_told};

use crate::finding::FindingKind;
use crate::keys::{LockTable, field, items_at, push_unknown};
use crate::types::push_wrong_types;
use pylock_core::PickSource;
use pylock_shared::LabelledText;
use std::alloc::{AllocError, Global};
use toml::{Table, Value};

/// Adds those of a table.
fn push_of_table(
    alloc: Global,
    paths: &mut Vec<LabelledText>,
    kind: FindingKind,
    table: LockTable,
    members: &Table,
) -> Result<(), AllocError>
    ensures { OnOk result (paths.new.items ≡ paths.old.items
        ++ table_keys_told kind table (table_view members.now)) }
{
    match kind {
        FindingKind::UnknownKey => push_unknown(alloc, paths, table, members),
        FindingKind::WrongType => push_wrong_types(alloc, paths, table, members),
        _ => Ok(()),
    }
}

/// Adds those of a source, which is a table.
fn push_of_source(
    alloc: Global,
    paths: &mut Vec<LabelledText>,
    kind: FindingKind,
    name: PickSource,
    field: Option<&Value>,
) -> Result<(), AllocError>
    ensures { OnOk result (paths.new.items ≡ paths.old.items
        ++ source_keys_told kind name (option_map (λ v. view v.now) field.entry)) }
{
    match field {
        Some(Value::Table(source)) => {
            push_of_table(alloc, paths, kind, LockTable::OfSource(name), source)
        }
        _ => Ok(()),
    }
}

/// Adds those of the wheels.
fn push_of_wheels(
    alloc: Global,
    paths: &mut Vec<LabelledText>,
    kind: FindingKind,
    wheels: &[Value],
) -> Result<(), AllocError>
    ensures { OnOk result (paths.new.items ≡ paths.old.items
        ++ wheel_keys_told kind 0 (items_view wheels.now)) }
{
    for (place, wheel) in wheels.iter().enumerate() {
        push_of_source(alloc, paths, kind, PickSource::Wheel(place), Some(wheel))?;
    }
    Ok(())
}

/// Those of an entry: its own, and then those of its sources.
pub(crate) fn entry_keys_told(
    alloc: Global,
    kind: FindingKind,
    entry: &Table,
) -> Result<Vec<LabelledText>, AllocError>
    ensures { IfOk result (λ paths. paths.items ≡ entry_keys_told kind (table_view entry.now)) }
{
    let mut paths = Vec::new(alloc);
    push_of_table(alloc, &mut paths, kind, LockTable::Entry, entry)?;
    let vcs = field(entry, "vcs");
    push_of_source(alloc, &mut paths, kind, PickSource::Vcs, vcs)?;
    let directory = field(entry, "directory");
    push_of_source(alloc, &mut paths, kind, PickSource::Directory, directory)?;
    let archive = field(entry, "archive");
    push_of_source(alloc, &mut paths, kind, PickSource::Archive, archive)?;
    push_of_wheels(alloc, &mut paths, kind, items_at(entry, "wheels"))?;
    let sdist = field(entry, "sdist");
    push_of_source(alloc, &mut paths, kind, PickSource::Sdist, sdist)?;
    Ok(paths)
}
