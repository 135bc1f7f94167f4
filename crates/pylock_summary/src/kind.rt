//! Kinds of sources, and which entries have one (PEP 751, `packages`).

ghost use Rattle.std.specs.Prelude.{◌≡◌};
ghost use Rattle.pylock_summary.specs.Kind.{has_kind, kind_word};

use pylock_core::Entry;

/// The kind of a source.
#[derive(Clone, Copy, Debug, PartialEq, Eq)]
pub enum SourceKind {
    /// A wheel.
    Wheel,
    /// An sdist.
    Sdist,
    /// An archive.
    Archive,
    /// A checkout of a version control system.
    Vcs,
    /// A directory.
    Directory,
    /// A directory that is installed in place.
    Editable,
}

impl SourceKind {
    /// Its word, as `plan` prints it. It takes no memory.
    pub fn word(self) -> &'static str
        ensures { result.now ≡ kind_word self }
    {
        match self {
            SourceKind::Wheel => "wheel",
            SourceKind::Sdist => "sdist",
            SourceKind::Archive => "archive",
            SourceKind::Vcs => "vcs",
            SourceKind::Directory => "directory",
            SourceKind::Editable => "editable",
        }
    }

    /// Whether the entry has a source of the kind. It takes no memory.
    pub fn is_of(self, entry: &Entry) -> bool
        ensures { result ≡ has_kind self entry.now }
    {
        match self {
            SourceKind::Wheel => !entry.wheels().is_empty(),
            SourceKind::Sdist => entry.sdist().is_some(),
            SourceKind::Archive => entry.archive().is_some(),
            SourceKind::Vcs => entry.vcs().is_some(),
            SourceKind::Directory => {
                matches!(entry.directory(), Some(directory) if !directory.editable())
            }
            SourceKind::Editable => {
                matches!(entry.directory(), Some(directory) if directory.editable())
            }
        }
    }
}
