//! The fields of picks, as keys with codes: by these two plans are told apart.

ghost use Rattle.std.specs.Prelude.{◌≡◌, [], IfOk, OnOk};
ghost use Rattle.std.specs.Option.{option_copied};
ghost use Rattle.toml.specs.Data.{no_members};
ghost use Rattle.toml.specs.View.{table_view};
ghost use Rattle.pylock_core.specs.Session.Picks.{lent_source};
ghost use Rattle.pylock_readers.specs.Text.{text_pairs};
ghost use Rattle.pylock_diff.specs.Picks.{hash_members, pick_fields, put, put_hashes};
ghost use Rattle.pylock_diff.specs.Picks.{source_members, text_members};

use crate::codes::Codes;
use crate::compared::EntryCodes;
use pylock_core::{Entry, PickedSource};
use std::alloc::{AllocError, Global};
use toml::{Table, Value};

/// The fields of a pick of an entry: the version as it is written, and the source with all its
/// fields under its kind.
pub(crate) fn pick_codes(
    alloc: Global,
    entry: &Entry,
    source: PickedSource<'_>,
) -> Result<EntryCodes, AllocError>
    ensures { IfOk result (λ codes. codes ≡ record {
      keys = pick_fields entry.now (lent_source source.entry);
      inner = [];
    }) }
{
    let mut keys = Codes::new(alloc);
    if let Some(version) = entry.version() {
        keys.push_text(alloc, "version", version)?;
    }
    let table = source_table(alloc, source)?;
    keys.push_value(alloc, source.word(), &Value::Table(table))?;
    let inner = Codes::new(alloc);
    Ok(EntryCodes { keys, inner })
}

/// The fields of a source as a table.
fn source_table(alloc: Global, source: PickedSource<'_>) -> Result<Table, AllocError>
    ensures { IfOk result (λ table. table_view table
        ≡ source_members (lent_source source.entry)) }
{
    let mut table = text_table(alloc, source)?;
    if !source.is_unhashed() {
        put_hashes(alloc, &mut table, source.hashes())?;
    }
    Ok(table)
}

/// Those of its keys that are texts.
fn text_table(alloc: Global, source: PickedSource<'_>) -> Result<Table, AllocError>
    ensures { IfOk result (λ table. table_view table ≡ text_members (lent_source source.entry)) }
{
    let mut table = Table::new(alloc);
    put(alloc, &mut table, "subdirectory", source.subdirectory())?;
    put(alloc, &mut table, "path", source.path())?;
    put(alloc, &mut table, "url", source.url())?;
    put(alloc, &mut table, "name", source.file_name())?;
    put(alloc, &mut table, "commit-id", source.commit_id())?;
    put(alloc, &mut table, "type", source.vcs_kind())?;
    Ok(table)
}

/// Puts a text in, where it is there.
fn put(alloc: Global, table: &mut Table, key: &str, text: Option<&str>) -> Result<(), AllocError>
    ensures { OnOk result (table_view table.new
        ≡ put key.now (option_copied text.entry) (table_view table.old)) }
{
    if let Some(text) = text {
        table.insert(String::from_str(alloc, key)?, Value::string(alloc, text)?)?;
    }
    Ok(())
}

/// Puts a table of hashes in.
fn put_hashes(
    alloc: Global,
    table: &mut Table,
    hashes: &[(String, String)],
) -> Result<(), AllocError>
    ensures { OnOk result (table_view table.new
        ≡ put_hashes (text_pairs hashes.now) (table_view table.old)) }
{
    let inner = hash_table(alloc, hashes)?;
    table.insert(String::from_str(alloc, "hashes")?, Value::Table(inner))?;
    Ok(())
}

fn hash_table(alloc: Global, hashes: &[(String, String)]) -> Result<Table, AllocError>
    ensures { IfOk result (λ table. table_view table
        ≡ hash_members (text_pairs hashes.now) no_members) }
{
    let mut table = Table::new(alloc);
    for (algorithm, value) in hashes {
        put(alloc, &mut table, algorithm.as_str(), Some(value.as_str()))?;
    }
    Ok(table)
}
