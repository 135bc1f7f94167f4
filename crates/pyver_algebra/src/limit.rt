//! Cuts of the order of versions, and limits made of them.

ghost use Rattle.std.specs.Prelude.{◌≡◌, false, true};
ghost use Rattle.pyver_algebra.specs.Limits.{is_at_or_before};

use pyver_core::Version;
use std::cmp::Ordering;

/// A place in the order of versions, right before a version or right after it.
#[derive(Drop)]
pub struct Cut {
    pub(crate) version: Version,
    pub(crate) after: bool,
}

/// A limit of versions. Local parts don't count.
#[derive(Drop)]
pub enum Limit {
    /// Past this cut.
    From(Cut),
    /// Not past this cut.
    Until(Cut),
    /// Not past the first cut, or past the second.
    Outside(Cut, Cut),
}

impl Cut {
    pub(crate) fn before(version: Version) -> Cut
        ensures version { result.version ≡ version }
        ensures after { result.after ≡ false }
    {
        Cut {
            version,
            after: false,
        }
    }

    pub(crate) fn after(version: Version) -> Cut
        ensures version { result.version ≡ version }
        ensures after { result.after ≡ true }
    {
        Cut {
            version,
            after: true,
        }
    }

    /// Whether the cut comes no later than the other one.
    pub(crate) fn is_at_or_before(&self, other: &Cut) -> bool
        ensures { result ≡ is_at_or_before self.now other.now }
    {
        match self.version.cmp(&other.version) {
            Ordering::Less => true,
            Ordering::Equal => !self.after || other.after,
            Ordering::Greater => false,
        }
    }
}
