//! Why a list of what is installed is refused.

ghost use Rattle.std.specs.Prelude.{◌≡◌};
ghost use Rattle.pylock_installed.specs.Words.{installed_place, installed_word};
ghost use Rattle.pylock_installed.specs.declared.error.InstalledError.TheVariants as error;

use std::alloc::AllocError;

/// Why a list of what is installed is refused, in the order in which its parts are judged.
#[derive(Debug, Drop)]
pub enum InstalledError {
    /// The bytes are no JSON text.
    Json,
    /// The value has neither the form of `pip list --format json` nor that of `pip inspect`.
    Shape,
    /// The element at this place, counted from 1, has no name or no version, or its direct URL says
    /// neither of a checkout nor of a directory nor of a file.
    Element(usize),
    /// The element at this place, counted from 1, has the name of an earlier one, in normal form.
    Twice(usize),
    /// Memory was refused.
    Memory,
}

impl InstalledError {
    /// Its word: `json`, `shape`, `element` or `twice`. It takes no memory.
    pub fn word(&self) -> &'static str
        ensures { result.now ≡ installed_word self.now }
    {
        match self {
            InstalledError::Json => "json",
            InstalledError::Shape => "shape",
            InstalledError::Element(_) => "element",
            InstalledError::Twice(_) => "twice",
            InstalledError::Memory => "memory",
        }
    }

    /// The place of the element, counted from 1, where one is at fault. It takes no memory.
    pub fn place(&self) -> Option<usize>
        ensures { result ≡ installed_place self.now }
    {
        match self {
            InstalledError::Element(place) | InstalledError::Twice(place) => Some(*place),
            InstalledError::Json | InstalledError::Shape | InstalledError::Memory => None,
        }
    }
}

impl<E: Into<AllocError> + Drop> From<E> for InstalledError {
    ghost from_gives = { λ _ e. e ≡ error.Memory };

    fn from(_refused: E) -> InstalledError {
        InstalledError::Memory
    }
}
