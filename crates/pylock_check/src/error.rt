//! Why a project file is refused.

ghost use Rattle.std.specs.Prelude.{◌≡◌};
ghost use Rattle.std.specs.Option.{option_copied};
ghost use Rattle.pylock_check.specs.Words.{project_place, project_word};
ghost use Rattle.pylock_check.specs.declared.error.ProjectError.TheVariants as error;

use pytext::Text;
use std::alloc::AllocError;

/// Why a project file is refused. A text is the place in the file: the key, and of an element of a
/// list its number from 1, as `project.dependencies 3`.
#[derive(Debug, Drop)]
pub enum ProjectError {
    /// The bytes are not UTF-8.
    NotText,
    /// The text is no TOML document.
    Toml,
    /// The value there is of another type than its standard demands.
    WrongType(Text),
    /// `project.requires-python` is no specifier set (PEP 440).
    Specifiers,
    /// The text there is no requirement (PEP 508).
    Requirement(Text),
    /// The key or the text there is no name (PEP 508).
    Name(Text),
    /// The key there has the name of an earlier one, in another spelling (PEP 503).
    Twice(Text),
    /// The table there isn't an `include-group` alone (PEP 735).
    Include(Text),
    /// The group that is included there doesn't exist.
    UnknownGroup(Text),
    /// The group there includes itself, over others or not, or one that does.
    Cycle(Text),
    /// Memory was refused.
    Memory,
}

impl ProjectError {
    /// Its word: `not-text`, `toml`, `type`, `requires-python`, `requirement`, `name`, `twice`,
    /// `include`, `unknown-group` or `cycle`. It takes no memory.
    pub fn word(&self) -> &'static str
        ensures { result.now ≡ project_word self.now }
    {
        match self {
            ProjectError::NotText => "not-text",
            ProjectError::Toml => "toml",
            ProjectError::WrongType(_) => "type",
            ProjectError::Specifiers => "requires-python",
            ProjectError::Requirement(_) => "requirement",
            ProjectError::Name(_) => "name",
            ProjectError::Twice(_) => "twice",
            ProjectError::Include(_) => "include",
            ProjectError::UnknownGroup(_) => "unknown-group",
            ProjectError::Cycle(_) => "cycle",
            ProjectError::Memory => "memory",
        }
    }

    /// The place in the file, where one is at fault. It takes no memory.
    pub fn place(&self) -> Option<&str>
        ensures { option_copied result ≡ project_place self.now }
    {
        match self {
            ProjectError::WrongType(place)
            | ProjectError::Requirement(place)
            | ProjectError::Name(place)
            | ProjectError::Twice(place)
            | ProjectError::Include(place)
            | ProjectError::UnknownGroup(place)
            | ProjectError::Cycle(place) => Some(place.as_str()),
            ProjectError::NotText
            | ProjectError::Toml
            | ProjectError::Specifiers
            | ProjectError::Memory => None,
        }
    }
}

impl<E: Into<AllocError> + Drop> From<E> for ProjectError {
    ghost from_gives = { λ _ e. e ≡ error.Memory };

    fn from(_refused: E) -> ProjectError {
        ProjectError::Memory
    }
}
