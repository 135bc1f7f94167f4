//! The keys of an entry's sources of which no other line tells: `size`, `upload-time`, and those
//! that PEP 751 doesn't name.

ghost use Rattle.std.specs.Prelude.{◌≡◌, ◌++◌, IfOk, OnOk, Some, option_map};
ghost use Rattle.toml.specs.Data.{table};
ghost use Rattle.toml.specs.View.{table_view, view};
ghost use Rattle.pylock_diff.specs.SourceKeys.{archive_keys, is_one_of, other_rows, source_rows};
ghost use Rattle.pylock_diff.specs.SourceKeys.{told_by, vcs_keys, wheels_rows};

use crate::codes::Codes;
use std::alloc::{AllocError, Global};
use toml::{Table, Value};

/// The tables of sources.
#[derive(Clone, Copy)]
enum SourceTable {
    Vcs,
    Directory,
    Archive,
    File,
}

/// Those of the sources of an entry, in their order.
pub(crate) fn inner_codes(alloc: Global, entry: &Table) -> Result<Codes, AllocError>
    ensures { IfOk result (λ codes. codes ≡ source_rows (table_view entry.now)) }
{
    let mut codes = Codes::new(alloc);
    push_source(alloc, &mut codes, SourceTable::Vcs, entry.get("vcs"))?;
    push_source(
        alloc,
        &mut codes,
        SourceTable::Directory,
        entry.get("directory"),
    )?;
    push_source(
        alloc,
        &mut codes,
        SourceTable::Archive,
        entry.get("archive"),
    )?;
    push_wheels(alloc, &mut codes, entry.get("wheels"))?;
    push_source(alloc, &mut codes, SourceTable::File, entry.get("sdist"))?;
    Ok(codes)
}

fn push_wheels(alloc: Global, codes: &mut Codes, field: Option<&Value>) -> Result<(), AllocError>
    ensures { OnOk result (codes.new
        ≡ codes.old ++ wheels_rows (option_map (λ v. view v.now) field.entry)) }
{
    let Some(Value::Array(wheels)) = field else {
        return Ok(());
    };
    for wheel in wheels {
        push_source(alloc, codes, SourceTable::File, Some(wheel))?;
    }
    Ok(())
}

/// Adds those of a source, which is a table.
fn push_source(
    alloc: Global,
    codes: &mut Codes,
    kind: SourceTable,
    field: Option<&Value>,
) -> Result<(), AllocError>
    ensures { OnOk result (codes.new ≡ codes.old
        ++ other_rows kind (option_map (λ v. view v.now) field.entry)) }
{
    match field {
        Some(Value::Table(source)) => push_others(alloc, codes, kind, source),
        _ => Ok(()),
    }
}

fn push_others(
    alloc: Global,
    codes: &mut Codes,
    kind: SourceTable,
    source: &Table,
) -> Result<(), AllocError>
    ensures { OnOk result (codes.new ≡ codes.old
        ++ other_rows kind (Some (table (table_view source.now)))) }
{
    let has_path = source.get("path").is_some();
    for (key, value) in source.iter() {
        if !is_told(kind, has_path, key.as_str()) {
            codes.push_value(alloc, key.as_str(), value)?;
        }
    }
    Ok(())
}

/// Whether another line tells of a key of a source, which has a path or hasn't.
fn is_told(kind: SourceTable, has_path: bool, key: &str) -> bool
    ensures { result ≡ told_by kind has_path key.now }
{
    match kind {
        SourceTable::Vcs => is_vcs_key(key) || (key == "url" && !has_path),
        SourceTable::Directory => matches!(key, "path" | "editable" | "subdirectory"),
        SourceTable::Archive => is_archive_key(key) || (key == "url" && !has_path),
        SourceTable::File => matches!(key, "name" | "url" | "path" | "hashes"),
    }
}

fn is_vcs_key(key: &str) -> bool
    ensures { result ≡ is_one_of vcs_keys key.now }
{
    matches!(key, "type" | "path" | "commit-id" | "subdirectory")
}

fn is_archive_key(key: &str) -> bool
    ensures { result ≡ is_one_of archive_keys key.now }
{
    matches!(key, "path" | "hashes" | "subdirectory")
}
