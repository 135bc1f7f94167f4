//! A lock with what it says of its files, from the bytes of its text.

ghost use Rattle.std.specs.Prelude.{◌≡◌, IfOk, OnOk, Result, codes};
ghost use Rattle.toml.specs.Data.{Items, no_items, push_item, table};
ghost use Rattle.toml.specs.View.{table_view};
ghost use Rattle.pytext.specs.Agreement.{Gives};
ghost use Rattle.pytoml.specs.Members.{with_elements};
ghost use Rattle.pylock_readers.specs.Lock.{LockValue};
ghost use Rattle.pylock_readers.specs.Lock.Packages.{HasRead};
ghost use Rattle.pylock_readers.specs.Lock.Reading.{document_in};
ghost use Rattle.pylock_readers.specs.declared.error.LockError.{LockError};
ghost use Rattle.pylock_metadata.specs.Inner.Described.{HasDescribed, described_from};
ghost use Rattle.pylock_metadata.specs.Inner.Described.{document_described, entries_after};
ghost use Rattle.pylock_metadata.specs.Inner.Described.{entries_in, with_metadata};
ghost use Rattle.pylock_metadata.specs.Lock.{described_of};
ghost use Rattle.pylock_metadata.specs.View.{entries_view, metadata_view};

use crate::entry::{EntryMetadata, Metadata};
use crate::table::items_at;
use pylock_readers::{Lock, LockError, MOST_ENTRIES, Packages, read_document_without};
use pytoml::Elements;
use std::alloc::{AllocError, Global};
use toml::Table;

/// The lock, and what it says of its files besides what installation takes. The refusals are those
/// of [`Lock::read`].
///
/// The bytes are read once, and what a table of an entry says is taken from it before it becomes
/// the entry. It takes the memory of [`Lock::read`], and memory for a list with a member for each
/// entry, for lists with a member for each wheel, and for the text of each time.
pub fn read_with_metadata(alloc: Global, bytes: &[u8]) -> Result<(Lock, Metadata), LockError>
    ensures { Gives LockError.Memory (λ read. (read.0, metadata_view read.1)) result
        (described_of bytes.now) }
{
    described_bytes(alloc, bytes)
}

/// The same, by what the document gives.
fn described_bytes(alloc: Global, bytes: &[u8]) -> Result<(Lock, Metadata), LockError>
    ensures { Gives LockError.Memory (λ read. (read.0, metadata_view read.1)) result
        (described_from (document_in bytes.now)) }
{
    match read_document_without(alloc, bytes, Described::new(alloc))? {
        (document, Some(described)) => described_rest(alloc, document, described),
        (document, None) => described_document(alloc, document),
    }
}

/// The lock of a whole document, with what it says.
fn described_document(alloc: Global, document: Table) -> Result<(Lock, Metadata), LockError>
    ensures { Gives LockError.Memory (λ read. (read.0, metadata_view read.1)) result
        (document_described (table_view document)) }
{
    described_rest(alloc, document, Described::new(alloc))
}

/// The lock of a document from which the tables of entries were taken, with what they say.
fn described_rest(
    alloc: Global,
    document: Table,
    described: Described,
) -> Result<(Lock, Metadata), LockError>
    ensures { (taken : Items) → HasRead described.packages taken
        → HasDescribed (entries_view described.entries.items) taken
        → Gives LockError.Memory (λ read. (read.0, metadata_view read.1)) result
        (document_described (with_elements (codes "packages") taken (table_view document))) }
{
    let (packages, entries) = described.into_parts();
    let entries = entries_after(alloc, entries, &document)?;
    with_metadata(entries, packages.into_lock(alloc, document))
}

/// What the tables said; where none was taken, what those say that stand in the document.
fn entries_after(
    alloc: Global,
    entries: Vec<EntryMetadata>,
    document: &Table,
) -> Result<Vec<EntryMetadata>, AllocError>
    ensures { IfOk result (λ after. entries_view after.items
        ≡ entries_after (entries_view entries.items) (table_view document.now)) }
{
    if entries.is_empty() {
        entries_in(alloc, document)
    } else {
        Ok(entries)
    }
}

/// What the entries of a document say. Where there are more than a lock may have, none is looked
/// at, since the document is refused.
#[tactic(auto, using(pylock_readers::proofs::EntryLemmas::count_of_items))]
fn entries_in(alloc: Global, document: &Table) -> Result<Vec<EntryMetadata>, AllocError>
    ensures { IfOk result (λ entries. entries_view entries.items
        ≡ entries_in (table_view document.now)) }
{
    let values = items_at(document, "packages");
    if values.len() > MOST_ENTRIES {
        return Ok(Vec::new(alloc));
    }
    EntryMetadata::each(alloc, values)
}

/// The lock with what it says, where it isn't refused.
fn with_metadata(
    entries: Vec<EntryMetadata>,
    lock: Result<Lock, LockError>,
) -> Result<(Lock, Metadata), LockError>
    ensures { (known : Result LockValue LockError) → Gives LockError.Memory (λ l. l) lock known
        → Gives LockError.Memory (λ read. (read.0, metadata_view read.1)) result
        (with_metadata (entries_view entries.items) known) }
{
    Ok((lock?, Metadata { entries }))
}

// ---- the tables as they come

/// The entries of a lock, read as their tables come, and what each table says of its files.
struct Described {
    alloc: Global,
    packages: Packages,
    /// Of the tables that came; of no more than a lock may have.
    entries: Vec<EntryMetadata>,
}

impl Drop for Described {
    fn drop(self) {
        let Described {
            alloc: _,
            packages: _,
            entries: _,
        } = self;
    }
}

impl Described {
    /// Before the first table.
    fn new(alloc: Global) -> Described
        ensures packages { HasRead result.packages no_items }
        ensures entries { HasDescribed (entries_view result.entries.items) no_items }
    {
        Described {
            alloc,
            packages: Packages::new(alloc),
            entries: Vec::new(alloc),
        }
    }

    /// What was read of the tables, and what they say.
    fn into_parts(self) -> (Packages, Vec<EntryMetadata>)
        ensures packages { result.0 ≡ self.packages }
        ensures entries { result.1 ≡ self.entries }
    {
        let Described {
            alloc: _,
            packages,
            entries,
        } = self;
        (packages, entries)
    }
}

impl Elements for Described {
    ghost key = { codes "packages" };

    ghost holds = { λ described taken.
        HasRead described.packages taken
        × HasDescribed (entries_view described.entries.items) taken };

    fn key() -> &'static str {
        "packages"
    }

    fn take(&mut self, element: Table) -> Result<(), AllocError> {
        describe(self.alloc, &mut self.entries, &element)?;
        self.packages.take(element)
    }
}

/// Adds what the table of the next entry says, unless a lock may have no more entries.
fn describe(
    alloc: Global,
    entries: &mut Vec<EntryMetadata>,
    element: &Table,
) -> Result<(), AllocError>
    ensures { (taken : Items) → HasDescribed (entries_view entries.old.items) taken → OnOk result
        (HasDescribed (entries_view entries.new.items)
        (push_item taken (table (table_view element.now)))) }
{
    if entries.len() < MOST_ENTRIES {
        entries.push(EntryMetadata::of(alloc, element)?)?;
    }
    Ok(())
}
