//! Why a text gives no table.
ghost use Rattle.std.specs.Prelude.{◌≡◌, ◌↔◌};
ghost use Rattle.toml.specs.Errors.{IsMemory};
ghost use Rattle.pytoml.specs.declared.fault.TomlError.TheVariants as fault;
ghost use Rattle.pytoml.specs.declared.fault.Unread.TheVariants as unread;

use std::alloc::AllocError;
use toml::de::Error;
use toml_parser::ParseError;

/// Why a text is refused.
#[derive(Clone, Copy, Debug, PartialEq, Eq, thiserror::Error)]
pub enum TomlError {
    /// It is not TOML 1.1.
    #[error("not TOML")]
    Syntax,
    /// Memory was refused.
    #[error("out of memory")]
    Memory,
}

impl TomlError {
    /// What a refusal of `toml` is.
    pub(crate) fn of(refusal: Error) -> TomlError
        ensures { (result ≡ fault.Memory) ↔ IsMemory refusal }
    {
        if refusal.is_memory() {
            TomlError::Memory
        } else {
            TomlError::Syntax
        }
    }
}

/// Why the short way gives nothing.
#[derive(Drop)]
pub(crate) enum Unread {
    /// The text is refused, or is of a shape that the short way doesn't know.
    Shape,
    /// Memory was refused.
    Memory,
}

impl<E: Into<AllocError> + Drop> From<E> for Unread {
    ghost from_gives = { λ _ e. e ≡ unread.Memory };

    fn from(_refused: E) -> Unread {
        Unread::Memory
    }
}

impl Unread {
    /// What a refusal of `toml_parser` is to the short way: want of memory stays what it is, and
    /// any other is a shape.
    pub(crate) fn of(refusal: ParseError) -> Unread
        ensures { (result ≡ unread.Memory) ↔ (refusal ≡ ParseError.OutOfMemory) }
    {
        match refusal {
            ParseError::OutOfMemory => Unread::Memory,
            ParseError::At(..) => Unread::Shape,
        }
    }
}
