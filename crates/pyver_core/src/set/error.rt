//! Why a text isn't taken as a specifier or a specifier set.

ghost use Rattle.std.specs.Prelude.{◌≡◌};
ghost use Rattle.pyver_core.specs.declared.set.error.SpecifierError.TheVariants as specifier;

use std::alloc::AllocError;
use thiserror::Error;

/// Why a text isn't taken as a specifier set.
#[derive(Debug, Drop, Error)]
pub enum SpecifierError {
    /// The text doesn't follow the grammar of PEP 440, "Version specifiers".
    #[error("set-syntax")]
    Syntax,
    /// The text follows the grammar, and one of its numbers is past [`u128::MAX`].
    #[error("set-number")]
    NumberTooLarge,
    /// There was no memory for the set.
    #[error("memory")]
    Memory,
}

impl<E: Into<AllocError> + Drop> From<E> for SpecifierError {
    ghost from_gives = { λ _ e. e ≡ specifier.Memory };

    fn from(_refused: E) -> SpecifierError {
        SpecifierError::Memory
    }
}
