//! The entries of a lock, each read from its table as soon as that is complete: whoever reads the
//! document hands the tables out, so that one stands at a time (PEP 751, `packages`). What is
//! refused of them is told when the document and the head are known.
ghost use Rattle.std.specs.Prelude.{◌≡◌, ◌≤◌, IfOk, OnErr, OnOk, codes, option_map, vec_len};
ghost use Rattle.toml.specs.Data.{Items, no_items, push_item, table};
ghost use Rattle.toml.specs.View.{items_view, table_view, view};
ghost use Rattle.pytext.specs.Agreement.{Gives};
ghost use Rattle.pytoml.specs.Members.{with_elements};
ghost use Rattle.pylock_readers.specs.Inner.Elements.{entries_after, entries_read, lock_after};
ghost use Rattle.pylock_readers.specs.Lock.Packages.{HasRead};
ghost use Rattle.pylock_readers.specs.Lock.Reading.{entries_in, lock_in, packages_in};

use crate::entry::{Entry, read_entry};
use crate::error::{EntryError, LockError};
use crate::field::{items, or_refused, take};
use crate::interner::Interner;
use crate::lock::head::Head;
use crate::lock::read::{require_creator, require_lock_version};
use crate::lock::{Lock, MOST_ENTRIES};
use pytoml::Elements;
use std::alloc::{AllocError, Global};
use std::marker::Model;
use toml::{Table, Value};

/// The entries of a lock, read from the tables of `packages` as these come, to the first that is
/// refused (PEP 751, `packages`): hand it to [`pytoml::read_table_without`] or
/// [`read_document_without`](crate::read_document_without).
///
/// It keeps the entries, and what they have in common, so that equal texts are read once.
pub struct Packages {
    alloc: Global,
    interner: Interner,
    /// How many tables came, up to one more than a lock may have.
    count: usize,
    entries: Vec<Entry>,
    /// Why the table behind those of the entries is refused.
    refusal: Option<EntryError>,
}

impl Model for Packages {
    ghost use Rattle.std.specs.Prelude.{◌≤◌, vec_len};
    ghost use Rattle.std.specs.Coded.{codes};
    ghost use Rattle.pymark_core.specs.Marker.Coding.{marker_code};
    ghost use Rattle.pylock_readers.specs.Lock.Packages.{PackagesValue};

    ghost Value = { PackagesValue };

    ghost coded = { Prim.hlevel (codes, marker_code) };

    ghost view = { λ p. record {
      count = p.count;
      entries = p.entries.items;
      refusal = p.refusal;
    } };

    ghost invariant = { λ p. vec_len p.entries ≤ p.count };
}

impl Drop for Packages {
    fn drop(self) {
        let Packages {
            alloc: _,
            interner: _,
            count: _,
            entries: _,
            refusal: _,
        } = self;
    }
}

impl Packages {
    /// Before the first table. It takes no memory.
    pub fn new(alloc: Global) -> Packages
        ensures { HasRead result no_items }
    {
        Packages {
            alloc,
            interner: Interner::new(alloc),
            count: 0,
            entries: Vec::new(alloc),
            refusal: None,
        }
    }

    /// All of these elements, read.
    fn of(alloc: Global, values: Vec<Value>) -> Result<Packages, AllocError>
        ensures { IfOk result (λ packages. HasRead packages (items_view values.items)) }
    {
        let mut packages = Packages::new(alloc);
        for value in values {
            packages.read(value)?;
        }
        Ok(packages)
    }

    /// Reads one more element, and frees it. One that isn't taken leaves all as it was, so no entry
    /// is lost.
    fn read(&mut self, element: Value) -> Result<(), AllocError>
        ensures taken { OnOk result ((taken : Items) → HasRead self.old taken
            → HasRead self.new (push_item taken (view element))) }
        ensures kept { OnErr result (self.new ≡ self.old) }
    {
        if self.count > MOST_ENTRIES {
            return Ok(());
        }
        if self.count == MOST_ENTRIES || self.refusal.is_some() {
            self.count += 1;
            return Ok(());
        }
        match read_entry(self.alloc, element, &mut self.interner) {
            Ok(entry) => self.entries.push(entry)?,
            Err(refusal) => match refusal {
                EntryError::Memory => return Err(AllocError),
                refusal => self.refusal = Some(refusal),
            },
        }
        self.count += 1;
        Ok(())
    }

    /// The lock of a document from which they were taken (PEP 751, "File format"), as
    /// [`Lock::read`] gives it: the refusals are those that come after the reading of the document,
    /// in the same order.
    ///
    /// It takes memory for the lock's head, and where none was taken for the entries.
    #[tactic(auto, using(crate::proofs::after_is))]
    pub fn into_lock(self, alloc: Global, document: Table) -> Result<Lock, LockError>
        ensures { (taken : Items) → HasRead self taken → Gives LockError.Memory (λ l. l) result
            (lock_in (with_elements (codes "packages") taken (table_view document))) }
    {
        self.into_lock_after(alloc, document)
    }

    #[tactic(auto, using(crate::proofs::kept), unfolding(crate::specs::Inner::Elements::lock_with))]
    fn into_lock_after(self, alloc: Global, mut document: Table) -> Result<Lock, LockError>
        ensures { Gives LockError.Memory (λ l. l) result (lock_after (table_view document) self) }
    {
        require_lock_version(take(&mut document, "lock-version"))?;
        require_creator(take(&mut document, "created-by"))?;
        let packages = take(&mut document, "packages");
        let head = Head::read(alloc, document)?;
        let entries = self.into_entries(alloc, packages)?;
        Ok(Lock::new(head, entries))
    }

    /// The entries that were taken, or where none was those of the key `packages`.
    fn into_entries(self, alloc: Global, field: Option<Value>) -> Result<Vec<Entry>, LockError>
        ensures gives { Gives LockError.Memory (λ v. v.items) result
            (entries_after self (option_map view field)) }
        ensures within { IfOk result (λ v. vec_len v ≤ 100000) }
    {
        if self.count == 0 {
            read_packages(alloc, field)
        } else {
            self.entries()
        }
    }

    /// The entries, or the first refusal.
    fn entries(self) -> Result<Vec<Entry>, LockError>
        ensures gives { Gives LockError.Memory (λ v. v.items) result (entries_read self) }
        ensures within { IfOk result (λ v. vec_len v ≤ 100000) }
    {
        let Packages {
            alloc: _,
            interner: _,
            count,
            entries,
            refusal,
        } = self;
        if count > MOST_ENTRIES {
            return Err(LockError::TooMany);
        }
        match refusal {
            Some(refusal) => Err(LockError::Entry(entries.len() + 1, refusal)),
            None => Ok(entries),
        }
    }
}

/// The entries of the key `packages`: at most 100,000, none where it is absent.
#[tactic(auto, using(crate::proofs::read_is), unfolding(crate::specs::Lock::Reading::entries_in))]
fn read_packages(alloc: Global, field: Option<Value>) -> Result<Vec<Entry>, LockError>
    ensures gives { Gives LockError.Memory (λ v. v.items) result
        (entries_in (option_map view field)) }
    ensures within { IfOk result (λ v. vec_len v ≤ 100000) }
{
    let values = package_values(alloc, field)?;
    Packages::of(alloc, values)?.entries()
}

fn package_values(alloc: Global, field: Option<Value>) -> Result<Vec<Value>, LockError>
    ensures { Gives LockError.Memory (λ values. items_view values.items) result
        (packages_in (option_map view field)) }
{
    or_refused(LockError::Packages, items(alloc, field))
}

impl Elements for Packages {
    ghost key = { codes "packages" };

    ghost holds = { λ packages taken. HasRead packages taken };

    fn key() -> &'static str {
        "packages"
    }

    fn take(&mut self, element: Table) -> Result<(), AllocError>
        ensures taken { OnOk result ((taken : Items) → HasRead self.old taken
            → HasRead self.new (push_item taken (table (table_view element)))) }
        ensures kept { OnErr result (self.new ≡ self.old) }
    {
        self.read(Value::Table(element))
    }
}
