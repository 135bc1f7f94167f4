//! Why a text isn't taken as a requirement.

ghost use Rattle.std.specs.Prelude.{◌≡◌};
ghost use Rattle.pymark_core.specs.declared.requirement.error.RequirementError.TheVariants.{Memory};

use std::alloc::AllocError;
use thiserror::Error;

/// Why a text isn't taken as a requirement (PEP 508, "Grammar"): the first fault that is met from
/// the left.
#[derive(Clone, Copy, PartialEq, Eq, Debug, Error)]
pub enum RequirementError {
    /// The text doesn't begin with a name.
    #[error("name")]
    Name,
    /// The brackets don't close, or one of the texts between them is no name.
    #[error("extras")]
    Extras,
    /// What stands behind the name is no specifier set, or has a number past [`u128::MAX`].
    #[error("specifier")]
    Specifier,
    /// Nothing stands behind `@`.
    #[error("url")]
    Url,
    /// What stands behind `;` is no marker.
    #[error("marker")]
    Marker,
    /// Something but a marker stands behind the URL.
    #[error("trailing")]
    Trailing,
    /// There was no memory for the requirement.
    #[error("memory")]
    Memory,
}

impl<E: Into<AllocError> + Drop> From<E> for RequirementError {
    ghost from_gives = { λ _ e. e ≡ Memory };

    fn from(_refused: E) -> RequirementError {
        RequirementError::Memory
    }
}
