//! Versions (PEP 440): their parts, texts and order.

ghost use Rattle.std.specs.Prelude.{◌≡◌, ◌≢◌, [], IfOk, string_bytes};
ghost use Rattle.pyver_core.specs.Inner.PartsRef.{parts_of};
ghost use Rattle.pyver_core.specs.Inner.Rank.{rank_of};
ghost use Rattle.pyver_core.specs.Version.Normal.{normal_text};
ghost use Rattle.pyver_core.specs.Version.Parts.{Parts, base_release, is_postrelease};
ghost use Rattle.pyver_core.specs.Version.Parts.{is_prerelease, public_part};

mod error;
mod from_parts;
mod hashing;
mod normal;
mod order;
mod order_key;
mod parse;
mod part;
mod parts_ref;
mod plain;
mod rank;
pub(crate) mod reading;

pub use error::VersionError;
pub use from_parts::{PartsError, VersionParts};
use normal::normal_text;
pub(crate) use normal::{push_epoch, push_release};
pub(crate) use order::{compare_fronts, compare_public, compare_to_public};
pub use part::{LocalPart, PreKind};
pub(crate) use parts_ref::PartsRef;
pub use plain::PlainVersion;
use rank::rank_of;
use std::alloc::{AllocError, Global};
use std::marker::Model;

/// A version of a Python package (PEP 440), kept as its parts, its normal form and its rank.
///
/// Contracts see the parts alone, since the normal form and the rank follow from them.
pub struct Version {
    parts: VersionParts,
    text: String,
    rank: u64,
}

impl Model for Version {
    ghost Value = { Parts };

    ghost view = { λ v. v.parts };

    ghost invariant = { λ v. (v.parts.release ≢ []) × (string_bytes v.text ≡ normal_text v.parts)
        × (v.rank ≡ rank_of v.parts) };
}

impl Version {
    /// The version with these parts, of which the release is not empty.
    pub(crate) fn with_parts(alloc: Global, parts: VersionParts) -> Result<Version, AllocError>
        requires { parts.release ≢ [] }
        ensures { IfOk result (λ v. v ≡ parts) }
    {
        let rank = rank_of(&parts.as_parts_ref());
        let text = normal_text(alloc, &parts.as_parts_ref())?;
        Ok(Version { parts, text, rank })
    }

    /// The parts, lent.
    pub(crate) fn parts(&self) -> PartsRef<'_>
        ensures { parts_of result ≡ self.now }
    {
        self.parts.as_parts_ref()
    }

    /// The number by which versions order that have one, 0 where this has none.
    #[inline(always)]
    pub(crate) fn rank(&self) -> u64
        ensures { result ≡ rank_of self.now }
    {
        self.rank
    }

    /// The epoch, 0 where none is written.
    pub fn epoch(&self) -> u128
        ensures { result ≡ self.now.epoch }
    {
        self.parts.epoch
    }

    /// The numbers of the release, of which there is at least one.
    pub fn release(&self) -> &[u128]
        ensures value { result.now ≡ self.now.release }
        ensures not_empty { result.now ≢ [] }
    {
        &self.parts.release
    }

    /// The letter and the number of a pre-release.
    pub fn pre(&self) -> Option<(PreKind, u128)>
        ensures { result ≡ self.now.pre }
    {
        self.parts.pre
    }

    /// The number of a post-release.
    pub fn post(&self) -> Option<u128>
        ensures { result ≡ self.now.post }
    {
        self.parts.post
    }

    /// The number of a developmental release.
    pub fn dev(&self) -> Option<u128>
        ensures { result ≡ self.now.dev }
    {
        self.parts.dev
    }

    /// The segments of the local part, none where there is no local part.
    pub fn local(&self) -> &[LocalPart]
        ensures { result.now ≡ self.now.local }
    {
        &self.parts.local
    }

    /// The normal form (PEP 440, "Normalization").
    pub fn text(&self) -> &str
        ensures { result.now ≡ normal_text self.now }
    {
        self.text.as_str()
    }

    /// Whether the version has a pre or a dev part (PEP 440, "Pre-releases").
    pub fn is_prerelease(&self) -> bool
        ensures { result ≡ is_prerelease self.now }
    {
        self.parts.pre.is_some() || self.parts.dev.is_some()
    }

    /// Whether the version has a post part (PEP 440, "Post-releases").
    pub fn is_postrelease(&self) -> bool
        ensures { result ≡ is_postrelease self.now }
    {
        self.parts.post.is_some()
    }

    /// The version without its local part (PEP 440, "Local version identifiers"). It takes memory
    /// for the release and the normal form.
    pub fn public_part(&self, alloc: Global) -> Result<Version, AllocError>
        ensures { IfOk result (λ public. public ≡ public_part self.now) }
    {
        let parts = VersionParts {
            epoch: self.epoch(),
            release: Vec::from_slice(alloc, self.release())?,
            pre: self.pre(),
            post: self.post(),
            dev: self.dev(),
            local: Vec::new(alloc),
        };
        Version::with_parts(alloc, parts)
    }

    /// The version of the epoch and the release alone. It takes memory for the release and the
    /// normal form.
    pub fn base_release(&self, alloc: Global) -> Result<Version, AllocError>
        ensures { IfOk result (λ base. base ≡ base_release self.now) }
    {
        let parts = VersionParts {
            epoch: self.epoch(),
            release: Vec::from_slice(alloc, self.release())?,
            pre: None,
            post: None,
            dev: None,
            local: Vec::new(alloc),
        };
        Version::with_parts(alloc, parts)
    }
}

/// Written out, as are those of the other types: so what drops a version calls this, and its proof
/// doesn't open the parts.
impl Drop for Version {
    fn drop(self) {
        let Version {
            parts: _,
            text: _,
            rank: _,
        } = self;
    }
}

/// A copy takes memory for the release, the local part and the normal form.
impl Clone for Version {
    ghost is_clone = { λ version copy. copy ≡ version };

    fn clone(&self) -> Result<Version, AllocError> {
        Ok(Version {
            parts: copy_of_parts(&self.parts)?,
            text: self.text.clone()?,
            rank: self.rank,
        })
    }
}

/// Apart from the copy of a version, which then proves with no file.
fn copy_of_parts(parts: &VersionParts) -> Result<VersionParts, AllocError>
    ensures { IfOk result (λ copy. copy ≡ parts.now) }
{
    parts.clone()
}
