//! Which findings are worked out.

ghost use Rattle.std.specs.Prelude.{◌≡◌};
ghost use Rattle.pylock_audit.specs.Entry.{wants};

use crate::finding::FindingKind;

/// The findings that are asked for. A file's name stands in the finding of each of its hashes, so
/// all of them may be much longer than the lock; those that are refused aren't.
#[derive(Clone, Copy)]
pub(crate) enum Scope {
    /// Each of them.
    All,
    /// Those at least that a strict reading refuses.
    Refused,
}

impl Scope {
    /// Whether findings of this kind have to be worked out.
    pub(crate) fn wants(self, kind: FindingKind) -> bool
        ensures { result ≡ wants self kind }
    {
        match self {
            Scope::All => true,
            Scope::Refused => kind.is_refused_by_strict(),
        }
    }
}
