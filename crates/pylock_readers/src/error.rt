//! Why a lock or an environment is refused.
ghost use Rattle.std.specs.Prelude.{◌≡◌};
ghost use Rattle.pylock_readers.specs.declared.error.LockError.TheVariants as lock;
ghost use Rattle.pylock_readers.specs.declared.error.EntryError.TheVariants as entry;
ghost use Rattle.pylock_readers.specs.declared.error.EnvError.TheVariants as environment;

use std::alloc::AllocError;

/// Why a lock is refused, in the order in which its parts are judged.
#[derive(Debug, Drop)]
pub enum LockError {
    /// The bytes are not UTF-8.
    NotText,
    /// The text is no TOML document.
    Toml,
    /// `lock-version` is absent or not a text `1.` with a minor number.
    LockVersion,
    /// `created-by` is absent or not a text.
    CreatedBy,
    /// A key of the head is not of its form.
    Head(HeadKey),
    /// `packages` is not a list.
    Packages,
    /// `packages` has more than 100,000 members.
    TooMany,
    /// The entry at this place, counted from 1, is refused.
    Entry(usize, EntryError),
    /// Memory was refused.
    Memory,
}

/// The optional keys of a lock's head, in the order in which they are judged.
#[derive(Debug, Drop)]
pub enum HeadKey {
    /// `environments`.
    Environments,
    /// `requires-python`.
    RequiresPython,
    /// `extras`.
    Extras,
    /// `dependency-groups`.
    DependencyGroups,
    /// `default-groups`.
    DefaultGroups,
}

/// Why an entry is refused, in the order in which its keys are judged.
#[derive(Debug, Drop)]
pub enum EntryError {
    /// The text of an entry is no TOML value.
    Toml,
    /// The entry is not a table.
    NotTable,
    /// `name` is absent or no name (PEP 503).
    Name,
    /// One of the keys of the package's version and sources is not of its form.
    Key(EntryKey),
    /// `marker` is not a marker (PEP 508).
    Marker,
    /// `requires-python` is not a specifier set (PEP 440).
    RequiresPython,
    /// Memory was refused.
    Memory,
}

/// The keys of an entry's version and sources (PEP 751, `packages`), in the order in which they are
/// judged.
#[derive(Debug, Drop)]
pub enum EntryKey {
    /// `version`.
    Version,
    /// `vcs`.
    Vcs,
    /// `directory`.
    Directory,
    /// `archive`.
    Archive,
    /// `sdist`.
    Sdist,
    /// `wheels`.
    Wheels,
}

/// Why an environment is refused, in the order in which its parts are judged: those of its text,
/// then those of a target.
#[derive(Debug, Drop)]
pub enum EnvError {
    /// The bytes are no JSON text.
    Json,
    /// The value has not the form of an environment.
    Shape,
    /// The tag at this place, counted from 1, is no tag (PEP 425).
    Tag(usize),
    /// PYTHON of a target isn't a release of CPython.
    Python,
    /// PLATFORM of a target isn't a platform.
    Platform,
    /// Memory was refused.
    Memory,
}

impl<E: Into<AllocError> + Drop> From<E> for LockError {
    ghost from_gives = { λ _ e. e ≡ lock.Memory };

    fn from(_refused: E) -> LockError {
        LockError::Memory
    }
}

impl<E: Into<AllocError> + Drop> From<E> for EntryError {
    ghost from_gives = { λ _ e. e ≡ entry.Memory };

    fn from(_refused: E) -> EntryError {
        EntryError::Memory
    }
}

impl<E: Into<AllocError> + Drop> From<E> for EnvError {
    ghost from_gives = { λ _ e. e ≡ environment.Memory };

    fn from(_refused: E) -> EnvError {
        EnvError::Memory
    }
}
