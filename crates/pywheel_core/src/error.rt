//! Why a text is refused.

ghost use Rattle.std.specs.Prelude.{◌≡◌};
ghost use Rattle.pywheel_core.specs.declared.error.SdistError.TheVariants as sdist;
ghost use Rattle.pywheel_core.specs.declared.error.TagError.TheVariants as tag;
ghost use Rattle.pywheel_core.specs.declared.error.TagListError.TheVariants as list;
ghost use Rattle.pywheel_core.specs.declared.error.WheelError.TheVariants as wheel;

use std::alloc::AllocError;
use thiserror::Error;

/// Why a text isn't taken as a tag.
#[derive(Debug, Drop)]
pub enum TagError {
    /// The text isn't three parts joined by `-`, each one or more ASCII letters, digits and `_`.
    Shape,
    /// There was no memory for the tag.
    Memory,
}

/// Why texts aren't taken as a list of tags.
#[derive(Debug, Drop)]
pub enum TagListError {
    /// The text at this position, counted from 1, is the first that is no tag.
    Tag(usize),
    /// There was no memory for the list.
    Memory,
}

/// Why a text isn't taken as the name of a wheel, in the order in which these are judged.
#[derive(Clone, Copy, PartialEq, Eq, Debug, Error)]
pub enum WheelError {
    /// The text doesn't end in `.whl`.
    #[error("extension")]
    Extension,
    /// The text before `.whl` isn't five or six parts joined by `-`.
    #[error("parts")]
    Parts,
    /// The name isn't one or more ASCII letters, digits, `_` and `.`, or `__` stands in it.
    #[error("name")]
    Name,
    /// The version isn't one of PEP 440.
    #[error("version")]
    Version,
    /// The build tag isn't ASCII with a leading digit, or its number is past [`u128::MAX`].
    #[error("build")]
    Build,
    /// A piece of the last three parts can't stand in a tag, or they make more than 1,024 tags.
    #[error("tags")]
    Tags,
    /// There was no memory for the name.
    #[error("memory")]
    Memory,
}

/// Why a text isn't taken as the name of a source distribution, in the order in which these are
/// judged.
#[derive(Clone, Copy, PartialEq, Eq, Debug, Error)]
pub enum SdistError {
    /// The text doesn't end in `.tar.gz` or `.zip`.
    #[error("extension")]
    Extension,
    /// No `-` stands before the extension.
    #[error("parts")]
    Parts,
    /// What stands before the last `-` isn't a name of PEP 508.
    #[error("name")]
    Name,
    /// What stands after the last `-` isn't a version of PEP 440.
    #[error("version")]
    Version,
    /// There was no memory for the name.
    #[error("memory")]
    Memory,
}

/// Why two texts aren't taken as a target, in the order in which these are judged.
#[derive(Clone, Copy, PartialEq, Eq, Debug, Error)]
pub enum TargetError {
    /// PYTHON isn't `3.MINOR` or `3.MINOR.MICRO`, with `t` behind it from 3.13 on, with a MINOR
    /// from 8 to 99 and a MICRO to 999.
    #[error("python")]
    Python,
    /// PLATFORM isn't the name of a platform, in the words of wheels or of uv, or one of `linux`,
    /// `macos` and `windows`.
    #[error("platform")]
    Platform,
}

impl<E: Into<AllocError> + Drop> From<E> for TagError {
    ghost from_gives = { λ _ e. e ≡ tag.Memory };

    fn from(_refused: E) -> TagError {
        TagError::Memory
    }
}

impl<E: Into<AllocError> + Drop> From<E> for TagListError {
    ghost from_gives = { λ _ e. e ≡ list.Memory };

    fn from(_refused: E) -> TagListError {
        TagListError::Memory
    }
}

impl<E: Into<AllocError> + Drop> From<E> for WheelError {
    ghost from_gives = { λ _ e. e ≡ wheel.Memory };

    fn from(_refused: E) -> WheelError {
        WheelError::Memory
    }
}

impl<E: Into<AllocError> + Drop> From<E> for SdistError {
    ghost from_gives = { λ _ e. e ≡ sdist.Memory };

    fn from(_refused: E) -> SdistError {
        SdistError::Memory
    }
}
