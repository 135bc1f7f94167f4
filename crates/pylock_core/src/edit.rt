//! The edits of a session.

ghost use Rattle.std.specs.Prelude.{◌≡◌};
ghost use Rattle.pylock_core.specs.Session.Names.{name_change, names_key};
ghost use Rattle.pylock_core.specs.declared.edit.EditError.TheVariants.{Memory};

use pylock_readers::Entry;
use pymark_core::{Change, Key};
use pyver_core::NormalName;
use pywheel_core::TagList;
use std::alloc::AllocError;

/// An edit of a session. An entry is named by its number; a name is in normal form (PEP 503).
#[derive(Drop)]
pub enum Edit {
    /// Changes the environment: a variable, an extra or a group.
    Environment(Change),
    /// Changes the environment for each of these extras or groups, one after another. What reads
    /// the extras, or the groups, is judged once, however many names there are. The first name
    /// that is refused refuses the edit.
    Names(NameChange, Vec<NormalName>),
    /// Puts these tags in place of those that were there.
    Tags(TagList),
    /// Adds the entry after all others, with the next number.
    Add(Entry),
    /// Puts the entry in place of that of this number.
    Put(u32, Entry),
    /// Takes the entry of this number out of the session; the number is never used again.
    Del(u32),
    /// Gives the name the policy.
    Policy(NormalName, Policy),
    /// Gives each of these names the policy. The entries of a name are judged once, however often
    /// it is among them.
    Policies(Vec<NormalName>, Policy),
}

/// What becomes of a name among the extras or the groups that are asked for.
#[derive(Clone, Copy, Debug, PartialEq, Eq)]
pub enum NameChange {
    /// The extra is asked for.
    AddExtra,
    /// The extra is asked for no more.
    DropExtra,
    /// The dependency group is asked for.
    AddGroup,
    /// The dependency group is asked for no more.
    DropGroup,
}

impl NameChange {
    /// The change of the environment for this name. It takes no memory.
    pub fn of(self, name: NormalName) -> Change
        ensures { result ≡ name_change self name }
    {
        match self {
            NameChange::AddExtra => Change::AddExtra(name),
            NameChange::DropExtra => Change::DropExtra(name),
            NameChange::AddGroup => Change::AddGroup(name),
            NameChange::DropGroup => Change::DropGroup(name),
        }
    }

    /// The key at which it changes an environment, whatever the name.
    pub(crate) fn key(self) -> Key
        ensures { result ≡ names_key self }
    {
        match self {
            NameChange::AddExtra | NameChange::DropExtra => Key::Extras,
            NameChange::AddGroup | NameChange::DropGroup => Key::Groups,
        }
    }
}

/// Why an edit is refused.
#[derive(Debug, Drop)]
pub enum EditError {
    /// The lock names no such extra.
    UnknownExtra,
    /// The lock names no such group.
    UnknownGroup,
    /// No entry has this number.
    NoEntry,
    /// The number 100,000 was given out.
    TooMany,
    /// Memory ran out.
    Memory,
}

/// Which kinds of files the entries of a name may be installed from, as pip's `--only-binary` and
/// `--no-binary` say it. It acts on wheels and sdists alone.
#[derive(Clone, Copy, Debug, PartialEq, Eq)]
pub enum Policy {
    /// Wheels and sdists.
    Any,
    /// No sdist.
    Wheel,
    /// No wheel.
    Source,
}

impl<E: Into<AllocError> + Drop> From<E> for EditError {
    ghost from_gives = { λ _ e. e ≡ Memory };

    fn from(_refused: E) -> EditError {
        EditError::Memory
    }
}
