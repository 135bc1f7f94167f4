//! Locks (PEP 751).
ghost use Rattle.std.specs.Prelude.{◌≡◌, ◌≤◌, length, map, string_bytes, vec_len};
ghost use Rattle.std.specs.Option.{option_copied};
ghost use Rattle.pylock_readers.specs.Lock.{HeadValue};

mod elements;
mod head;
mod names;
mod read;

use crate::entry::Entry;
pub use elements::Packages;
pub use head::Head;
pub use names::HeadNames;
use pymark_core::Marker;
use pyver_core::SpecifierSet;
pub use read::read_document_without;
use std::marker::Model;

/// How many entries a lock may have.
pub const MOST_ENTRIES: usize = 100_000;

/// A lock (PEP 751): its head, and the packages of `packages`, at most 100,000, in their order.
pub struct Lock {
    head: Head,
    entries: Vec<Entry>,
}

impl Model for Lock {
    ghost use Rattle.std.specs.Prelude.{◌≤◌, vec_len};
    ghost use Rattle.pylock_readers.specs.Lock.{LockValue};
    ghost use Rattle.std.specs.Coded.{codes};
    ghost use Rattle.pymark_core.specs.Marker.Coding.{marker_code};

    ghost Value = { LockValue };

    ghost coded = { Prim.hlevel (codes, marker_code) };

    ghost view = { λ l. record { head = l.head; entries = l.entries.items } };

    ghost invariant = { λ l. vec_len l.entries ≤ 100000 };
}

impl Drop for Lock {
    fn drop(self) {
        let Lock {
            head: _,
            entries: _,
        } = self;
    }
}

impl Lock {
    /// The markers of the key `environments`, in their order: the lock is for an environment where
    /// one of them is true, or for every one where there is none.
    pub fn environments(&self) -> &[Marker]
        ensures { result.now ≡ self.now.head.environments }
    {
        self.head.environments()
    }

    /// The key `requires-python`.
    pub fn requires_python(&self) -> Option<&SpecifierSet>
        ensures { option_copied result ≡ self.now.head.requires_python }
    {
        self.head.requires_python()
    }

    /// The names of the key `extras` in normal form (PEP 503), each once, in their order.
    pub fn extras(&self) -> &[String]
        ensures { map string_bytes result.now ≡ self.now.head.extras }
    {
        self.head.extras().as_slice()
    }

    /// The names of the key `dependency-groups` in normal form (PEP 503), each once, in their
    /// order.
    pub fn groups(&self) -> &[String]
        ensures { map string_bytes result.now ≡ self.now.head.groups }
    {
        self.head.groups().as_slice()
    }

    /// The names of the key `default-groups` in normal form (PEP 503), each once, in their order.
    pub fn default_groups(&self) -> &[String]
        ensures { map string_bytes result.now ≡ self.now.head.default_groups }
    {
        self.head.default_groups().as_slice()
    }

    /// The head of the lock.
    pub fn head(&self) -> &Head
        ensures { result.now ≡ self.now.head }
    {
        &self.head
    }

    /// The entries of the lock, in its order.
    pub fn entries(&self) -> &[Entry]
        ensures entries { result.now ≡ self.now.entries }
        ensures within { length self.now.entries ≤ 100000 }
    {
        self.entries.as_slice()
    }

    /// The lock of this head and these entries.
    pub(crate) fn new(head: Head, entries: Vec<Entry>) -> Lock
        requires { vec_len entries ≤ 100000 }
        ensures { result ≡ record { head = head; entries = entries.items } }
    {
        Lock { head, entries }
    }

    /// Gives up the head of the lock and its entries, in their order.
    pub fn into_parts(self) -> (Head, Vec<Entry>)
        ensures head { result.0 ≡ self.head }
        ensures entries { result.1.items ≡ self.entries }
        ensures within { vec_len result.1 ≤ 100000 }
    {
        let Lock { head, entries } = self;
        (head, entries)
    }
}
