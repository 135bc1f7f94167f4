//! Why a text isn't taken as a version.

ghost use Rattle.std.specs.Prelude.{◌≡◌};
ghost use Rattle.pyver_core.specs.declared.version.error.VersionError.TheVariants as version;

use std::alloc::AllocError;
use thiserror::Error;

/// Why a text isn't taken as a version.
#[derive(Debug, Drop, Error)]
pub enum VersionError {
    /// The text doesn't follow the grammar of PEP 440, "Version scheme".
    #[error("syntax")]
    Syntax,
    /// The text follows the grammar, and one of its numbers is past [`u128::MAX`].
    #[error("number")]
    NumberTooLarge,
    /// There was no memory for the version.
    #[error("memory")]
    Memory,
}

impl<E: Into<AllocError> + Drop> From<E> for VersionError {
    ghost from_gives = { λ _ e. e ≡ version.Memory };

    fn from(_refused: E) -> VersionError {
        VersionError::Memory
    }
}
