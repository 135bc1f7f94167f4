//! What a lock says of the files of its entries.

ghost use Rattle.std.specs.Prelude.{◌≡◌, IfOk};
ghost use Rattle.toml.specs.View.{items_view, table_view, view};
ghost use Rattle.pylock_metadata.specs.Metadata.{entries_of, entry_in, entry_of};
ghost use Rattle.pylock_metadata.specs.View.{entries_view, entry_view};

use crate::file::FileMetadata;
use std::alloc::{AllocError, Global};
use toml::{Table, Value};

/// What a lock says of the files of an entry (PEP 751, `packages`). Of an `archive` or an `sdist`
/// that isn't there nothing is said.
#[derive(Debug, Drop)]
pub struct EntryMetadata {
    /// Of `archive`.
    pub archive: FileMetadata,
    /// Of `sdist`.
    pub sdist: FileMetadata,
    /// Of each of `wheels`, in the lock's order.
    pub wheels: Vec<FileMetadata>,
}

impl EntryMetadata {
    /// What the table of an entry says of its files.
    pub(crate) fn of(alloc: Global, entry: &Table) -> Result<EntryMetadata, AllocError>
        ensures { IfOk result (λ said. entry_view said ≡ entry_in (table_view entry.now)) }
    {
        Ok(EntryMetadata {
            archive: FileMetadata::at(alloc, entry, "archive")?,
            sdist: FileMetadata::at(alloc, entry, "sdist")?,
            wheels: FileMetadata::each_at(alloc, entry, "wheels")?,
        })
    }

    /// What an entry says, which is a table in a lock.
    fn of_value(alloc: Global, value: &Value) -> Result<EntryMetadata, AllocError>
        ensures { IfOk result (λ said. entry_view said ≡ entry_of (view value.now)) }
    {
        match value {
            Value::Table(entry) => EntryMetadata::of(alloc, entry),
            _ => EntryMetadata::of(alloc, &Table::new(alloc)),
        }
    }

    /// What each entry says.
    pub(crate) fn each(alloc: Global, values: &[Value]) -> Result<Vec<EntryMetadata>, AllocError>
        ensures { IfOk result (λ entries. entries_view entries.items
            ≡ entries_of (items_view values.now)) }
    {
        let mut entries = Vec::with_capacity(alloc, values.len())?;
        for value in values {
            entries.push(EntryMetadata::of_value(alloc, value)?)?;
        }
        Ok(entries)
    }
}

/// What a lock says of the files of its entries.
#[derive(Debug, Drop)]
pub struct Metadata {
    /// Of each entry, in the lock's order.
    pub entries: Vec<EntryMetadata>,
}
