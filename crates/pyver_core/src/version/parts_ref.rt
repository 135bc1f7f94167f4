//! The parts of a version, lent: what a comparison reads, and what the normal form is written from.

ghost use Rattle.std.specs.Prelude.{◌≡◌};
ghost use Rattle.pyver_core.specs.Inner.PartsRef.{parts_of};
ghost use Rattle.pyver_core.specs.Version.Parts.{public_part};

use crate::version::{LocalPart, PreKind, VersionParts};

/// The parts of a version, lent for a comparison or to be written.
#[derive(Clone, Copy)]
pub(crate) struct PartsRef<'a> {
    pub(crate) epoch: u128,
    pub(crate) release: &'a [u128],
    pub(crate) pre: Option<(PreKind, u128)>,
    pub(crate) post: Option<u128>,
    pub(crate) dev: Option<u128>,
    pub(crate) local: &'a [LocalPart],
}

impl VersionParts {
    /// The parts, lent.
    pub(crate) fn as_parts_ref(&self) -> PartsRef<'_>
        ensures { parts_of result ≡ self.now }
    {
        PartsRef {
            epoch: self.epoch,
            release: &self.release,
            pre: self.pre,
            post: self.post,
            dev: self.dev,
            local: &self.local,
        }
    }
}

impl<'a> PartsRef<'a> {
    /// The parts without the local part.
    pub(crate) fn public_part(&self) -> PartsRef<'a>
        ensures { parts_of result ≡ public_part (parts_of self.now) }
    {
        PartsRef {
            local: &[],
            ..*self
        }
    }
}
