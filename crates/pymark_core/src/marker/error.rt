//! Why a text isn't taken as a marker.

ghost use Rattle.std.specs.Prelude.{◌≡◌};
ghost use Rattle.pymark_core.specs.declared.marker.error.MarkerError.TheVariants.{Memory};

use std::alloc::AllocError;
use thiserror::Error;

/// Why a text isn't taken as a marker.
#[derive(Clone, Copy, PartialEq, Eq, Debug, Error)]
pub enum MarkerError {
    /// More than 64 parentheses are open at some position of the text, quoted texts passed over.
    /// The text may have other faults besides.
    #[error("too-deep")]
    TooDeep,
    /// The text doesn't follow the grammar of PEP 508.
    #[error("syntax")]
    Syntax,
    /// `extras` or `dependency_groups` stands anywhere but right of `in` or `not in`.
    #[error("set-misuse")]
    SetMisuse,
    /// There was no memory for the marker.
    #[error("memory")]
    Memory,
}

impl<E: Into<AllocError> + Drop> From<E> for MarkerError {
    ghost from_gives = { λ _ e. e ≡ Memory };

    fn from(_refused: E) -> MarkerError {
        MarkerError::Memory
    }
}
