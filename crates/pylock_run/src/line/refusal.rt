//! Why a line of the input is refused.

ghost use Rattle.std.specs.Prelude.{◌≡◌};
ghost use Rattle.pylock_run.specs.Line.Refusal.{edit_refusal, entry_refusal, tags_refusal};
ghost use Rattle.pylock_run.specs.declared.line.refusal.LineRefusal.TheVariants.{Memory};

use pylock_core::{EditError, EntryError};
use pywheel_core::TagListError;
use std::alloc::{AllocError, AllocFailed};

/// Why a line is refused.
#[derive(Clone, Copy, Drop)]
pub enum LineRefusal {
    /// It has more than `LINE_LIMIT` bytes.
    Long,
    /// It is not UTF-8.
    Text,
    /// It has no known command.
    Command,
    /// What follows its command has a wrong form.
    Argument,
    /// It names no variable of markers.
    Variable,
    /// It names no extra of the lock.
    Extra,
    /// It names no dependency group of the lock.
    Group,
    /// One of its tags is no tag (PEP 425).
    Tag,
    /// Its entry is no TOML table.
    Toml,
    /// Its entry has a wrong key.
    Entry,
    /// No further entry has a number.
    TooMany,
    /// No entry has its number.
    NoEntry,
    /// Its name is no name (PEP 503).
    Name,
    /// An allocation was refused. The line isn't, and this is never printed.
    Memory,
}

impl From<AllocError> for LineRefusal {
    ghost from_gives = { λ _ refused. refused ≡ Memory };

    fn from(_refused: AllocError) -> LineRefusal {
        LineRefusal::Memory
    }
}

impl<T: Drop> From<AllocFailed<T>> for LineRefusal {
    ghost from_gives = { λ _ refused. refused ≡ Memory };

    fn from(_refused: AllocFailed<T>) -> LineRefusal {
        LineRefusal::Memory
    }
}

impl From<EditError> for LineRefusal {
    ghost from_gives = { λ error refused. refused ≡ edit_refusal error };

    fn from(error: EditError) -> LineRefusal {
        match error {
            EditError::UnknownExtra => LineRefusal::Extra,
            EditError::UnknownGroup => LineRefusal::Group,
            EditError::NoEntry => LineRefusal::NoEntry,
            EditError::TooMany => LineRefusal::TooMany,
            EditError::Memory => LineRefusal::Memory,
        }
    }
}

impl From<EntryError> for LineRefusal {
    ghost from_gives = { λ error refused. refused ≡ entry_refusal error };

    fn from(error: EntryError) -> LineRefusal {
        match error {
            EntryError::Toml | EntryError::NotTable => LineRefusal::Toml,
            EntryError::Name
            | EntryError::Key(_)
            | EntryError::Marker
            | EntryError::RequiresPython => LineRefusal::Entry,
            EntryError::Memory => LineRefusal::Memory,
        }
    }
}

impl From<TagListError> for LineRefusal {
    ghost from_gives = { λ error refused. refused ≡ tags_refusal error };

    fn from(error: TagListError) -> LineRefusal {
        match error {
            TagListError::Tag(_) => LineRefusal::Tag,
            TagListError::Memory => LineRefusal::Memory,
        }
    }
}
