//! Locks that are read to be compared: beside the lock the codes of all keys, known and unknown.

ghost use Rattle.std.specs.Prelude.{◌≡◌, [], IfOk, OnOk, Ok, codes, option_map};
ghost use Rattle.toml.specs.Data.{Items, Members, get_member, no_items, push_item, table};
ghost use Rattle.toml.specs.View.{items_view, table_view, view};
ghost use Rattle.pytext.specs.Agreement.{Gives};
ghost use Rattle.pytoml.specs.Members.{with_elements};
ghost use Rattle.pylock_readers.specs.Lock.Reading.{document_in};
ghost use Rattle.pylock_diff.specs.Compared.{compared_in, compared_of, entry_codes, items_at};
ghost use Rattle.pylock_diff.specs.Inner.Kept.{AreProperTables, HasCodes, HasKept};
ghost use Rattle.pylock_diff.specs.Inner.Kept.{HasProperTables, IsTable, entries_after, kept_of};
ghost use Rattle.pytoml_code.specs.Proper.{HasProper, IsProper};

use crate::codes::Codes;
use crate::head::{HeadKey, head_keys};
use crate::inner::inner_codes;
use pylock_core::{Lock, LockError};
use pylock_readers::{MOST_ENTRIES, Packages, read_document_without};
use pytoml::Elements;
use std::alloc::{AllocError, Global};
use std::marker::Model;
use toml::{Table, Value};

/// The keys of an entry: those of its table, and those of its sources of which no row tells.
pub(crate) struct EntryCodes {
    pub(crate) keys: Codes,
    pub(crate) inner: Codes,
}

impl Drop for EntryCodes {
    fn drop(self) {
        let EntryCodes { keys: _, inner: _ } = self;
    }
}

impl EntryCodes {
    /// Those of a table.
    fn of(alloc: Global, members: &Table) -> Result<EntryCodes, AllocError>
        ensures codes { IfOk result (λ codes. codes
            ≡ entry_codes (table (table_view members.now))) }
        ensures proper { OnOk result (HasProper (table_view members.now)) }
    {
        let keys = Codes::of(alloc, members)?;
        let inner = inner_codes(alloc, members)?;
        Ok(EntryCodes { keys, inner })
    }

    /// Those of a value, which is a table in a lock, and otherwise has none.
    fn of_value(alloc: Global, value: &Value) -> Result<EntryCodes, AllocError>
        ensures codes { IfOk result (λ codes. codes ≡ entry_codes (view value.now)) }
        ensures proper { OnOk result (IsTable (view value.now) → IsProper (view value.now)) }
    {
        match value {
            Value::Table(table) => EntryCodes::of(alloc, table),
            _ => Ok(EntryCodes {
                keys: Codes::new(alloc),
                inner: Codes::new(alloc),
            }),
        }
    }
}

/// A lock with the codes of all its keys, known and unknown: what [`lock_changes`] compares.
///
/// [`lock_changes`]: crate::lock_changes
pub struct Compared {
    lock: Lock,
    head: Vec<HeadKey>,
    entries: Vec<EntryCodes>,
}

impl Model for Compared {
    ghost use Rattle.std.specs.Coded.{codes};
    ghost use Rattle.pymark_core.specs.Marker.Coding.{marker_code};
    ghost use Rattle.pylock_diff.specs.Compared.{ComparedValue};

    ghost Value = { ComparedValue };

    ghost coded = { Prim.hlevel (codes, marker_code) };

    ghost view = { λ c. record {
      lock = c.lock;
      head = c.head.items;
      entries = c.entries.items;
    } };
}

impl Drop for Compared {
    fn drop(self) {
        let Compared {
            lock: _,
            head: _,
            entries: _,
        } = self;
    }
}

impl Compared {
    /// The lock.
    pub fn lock(&self) -> &Lock
        ensures { result.now ≡ self.now.lock }
    {
        &self.lock
    }

    /// Gives up the lock.
    pub fn into_lock(self) -> Lock
        ensures { result ≡ self.lock }
    {
        let Compared {
            lock,
            head: _,
            entries: _,
        } = self;
        lock
    }

    pub(crate) fn head(&self) -> &[HeadKey]
        ensures { result.now ≡ self.now.head }
    {
        self.head.as_slice()
    }

    pub(crate) fn entries(&self) -> &[EntryCodes]
        ensures { result.now ≡ self.now.entries }
    {
        self.entries.as_slice()
    }
}

/// Reads a lock to compare it. The refusals are those of [`Lock::read`].
///
/// The bytes are read once. It takes the memory of [`Lock::read`], and for each key the key and the
/// code of its value, which is about its text.
pub fn read_compared(alloc: Global, bytes: &[u8]) -> Result<Compared, LockError>
    ensures gives { Gives LockError.Memory (λ compared. compared) result
        (compared_of bytes.now) }
    ensures proper { OnOk result ((document : Members) → document_in bytes.now ≡ Ok document
        → HasProper document) }
{
    match read_document_without(alloc, bytes, Kept::new(alloc))? {
        (document, Some(kept)) => kept.with(alloc, document),
        (document, None) => Kept::new(alloc).with(alloc, document),
    }
}

/// The entries of a lock, read as their tables come, and the codes of each table.
struct Kept {
    alloc: Global,
    packages: Packages,
    /// Of no more than a lock may have.
    entries: Vec<EntryCodes>,
}

impl Drop for Kept {
    fn drop(self) {
        let Kept {
            alloc: _,
            packages: _,
            entries: _,
        } = self;
    }
}

impl Kept {
    /// Before the first table.
    fn new(alloc: Global) -> Kept
        ensures { HasKept result no_items }
    {
        Kept {
            alloc,
            packages: Packages::new(alloc),
            entries: Vec::new(alloc),
        }
    }

    /// The lock with its document, from which these tables were taken.
    fn with(self, alloc: Global, document: Table) -> Result<Compared, LockError>
        ensures gives { (taken : Items) → HasKept self taken
            → Gives LockError.Memory (λ compared. compared) result
            (compared_in (with_elements (codes "packages") taken (table_view document))) }
        ensures proper { (taken : Items) → HasKept self taken → OnOk result
            (HasProper (with_elements (codes "packages") taken (table_view document))) }
    {
        let Kept {
            alloc: _,
            packages,
            entries,
        } = self;
        let head = head_keys(alloc, &document)?;
        let entries = entries_after(alloc, entries, &document)?;
        let lock = packages.into_lock(alloc, document)?;
        Ok(Compared {
            lock,
            head,
            entries,
        })
    }
}

impl Elements for Kept {
    ghost key = { codes "packages" };

    ghost holds = { HasKept };

    fn key() -> &'static str {
        "packages"
    }

    fn take(&mut self, element: Table) -> Result<(), AllocError> {
        keep(self.alloc, &mut self.entries, &element)?;
        self.packages.take(element)
    }
}

/// Adds the codes of the next table, unless a lock may have no more entries.
fn keep(alloc: Global, entries: &mut Vec<EntryCodes>, element: &Table) -> Result<(), AllocError>
    ensures { (taken : Items) → HasCodes entries.old.items taken → OnOk result
        (HasCodes entries.new.items (push_item taken (table (table_view element.now)))) }
{
    if entries.len() < MOST_ENTRIES {
        entries.push(EntryCodes::of(alloc, element)?)?;
    }
    Ok(())
}

/// The codes of the tables that came; where none did, those of the tables in the document.
fn entries_after(
    alloc: Global,
    entries: Vec<EntryCodes>,
    document: &Table,
) -> Result<Vec<EntryCodes>, AllocError>
    ensures codes { IfOk result (λ after. after.items
        ≡ entries_after entries.items (table_view document.now)) }
    ensures proper { OnOk result (HasProperTables entries.items (table_view document.now)) }
{
    match entries.as_slice() {
        [] => entries_of(alloc, packages_in(document)),
        _ => Ok(entries),
    }
}

/// The elements of the key `packages`, where it is an array.
fn packages_in(document: &Table) -> &[Value]
    ensures { items_view result.now
        ≡ items_at (get_member (codes "packages") (table_view document.now)) }
{
    items_at(document.get("packages"))
}

/// The elements of a value, where it is an array.
fn items_at(field: Option<&Value>) -> &[Value]
    ensures { items_view result.now ≡ items_at (option_map (λ v. view v.now) field.entry) }
{
    match field {
        Some(Value::Array(values)) => values.as_slice(),
        _ => &[],
    }
}

/// Those of each value, unless a lock may not have so many.
fn entries_of(alloc: Global, values: &[Value]) -> Result<Vec<EntryCodes>, AllocError>
    ensures codes { IfOk result (λ entries. entries.items ≡ kept_of (items_view values.now)) }
    ensures proper { OnOk result (AreProperTables (items_view values.now)) }
{
    let mut entries = Vec::new(alloc);
    if values.len() > MOST_ENTRIES {
        return Ok(entries);
    }
    for value in values {
        entries.push(EntryCodes::of_value(alloc, value)?)?;
    }
    Ok(entries)
}
