//! Versions from their texts.

ghost use Rattle.std.specs.Prelude.{◌≡◌, ◌≤◌, IfOk, IfSome, IsErrOf, false, length};
ghost use Rattle.pytext.specs.Agreement.{Gives};
ghost use Rattle.pyver_core.specs.Inner.NormalVersion.{IsNormalVersion, normal_parts};
ghost use Rattle.pyver_core.specs.Version.Grammar.{Spells, IsLarge, has_large, numbers};
ghost use Rattle.pyver_core.specs.Parsed.{parsed_version};
ghost use Rattle.pyver_core.specs.Version.Parts.{Parts};

use super::reading::{NormalVersion, read_normal, read_version};
use crate::version::rank::rank_of;
use crate::version::{PartsRef, Version, VersionError, VersionParts};
use std::alloc::{AllocError, Global};

impl Version {
    /// The version that the text spells (PEP 440, "Version scheme").
    ///
    /// Letter case, alternative spellings and leading zeros don't matter, and white space (TAB, LF,
    /// VT, FF, CR, space) may stand at both ends. `NumberTooLarge` is answered only to a text that
    /// follows the grammar as a whole, so `Syntax` comes first. A refusal as `Syntax` takes no
    /// memory; a version takes that of its release, its local part and its normal form.
    pub fn parse(alloc: Global, text: &str) -> Result<Version, VersionError>
        ensures ok { IfOk result (λ v. Spells text.now v) }
        ensures fits { IfOk result (λ v. IsLarge v → ⊥) }

        ensures syntax { IsErrOf result VersionError.Syntax → (p : Parts) → Spells text.now p → ⊥ }
        ensures large { IsErrOf result VersionError.NumberTooLarge
            → (p : Parts) × Spells text.now p × IsLarge p }

        // The same, over the one answer of the grammar.
        ensures exact { Gives VersionError.Memory (λ v. v) result (parsed_version text.now) }
    {
        version_from_text(alloc, text)
    }

    /// The version of which the text is the normal form, where one look at the text finds it, and
    /// where its release has so many numbers. A text where none is found takes no memory.
    #[inline(always)]
    pub(crate) fn parse_normal(
        alloc: Global,
        text: &str,
        least: usize,
    ) -> Result<Option<Version>, AllocError>
        ensures { IfOk result (λ found. IfSome found (λ v. IsNormalVersion text.now v
            × (has_large (numbers v) ≡ false) × (least ≤ length v.release))) }
    {
        let mut capacity = [0; MOST_NUMBERS];
        match read_normal(text.as_bytes(), &mut capacity) {
            Some(normal) if normal.count >= least => {
                Ok(Some(Version::from_normal(alloc, text, &capacity, &normal)?))
            }
            _ => Ok(None),
        }
    }

    /// The version of which the text is the normal form.
    #[inline(always)]
    fn from_normal(
        alloc: Global,
        text: &str,
        capacity: &[u128],
        normal: &NormalVersion,
    ) -> Result<Version, AllocError>
        requires within { normal.now.count ≤ length capacity.now }
        requires normal { IsNormalVersion text.now (normal_parts capacity.now normal.now) }
        ensures { IfOk result (λ v. v ≡ normal_parts capacity.now normal.now) }
    {
        let lent = PartsRef {
            epoch: 0,
            release: &capacity[..normal.count],
            pre: normal.pre,
            post: normal.post,
            dev: normal.dev,
            local: &[],
        };
        let rank = rank_of(&lent);
        let parts = VersionParts {
            epoch: 0,
            release: Vec::from_slice(alloc, lent.release)?,
            pre: normal.pre,
            post: normal.post,
            dev: normal.dev,
            local: Vec::new(alloc),
        };
        let text = String::from_str(alloc, text)?;
        Ok(Version { parts, text, rank })
    }
}

/// The most numbers of a release that is read in one look at the text.
const MOST_NUMBERS: usize = 4;

#[tactic(auto, using(crate::proofs::Lemmas::Version::NormalVersion::normal_is_read))]
fn version_from_text(alloc: Global, text: &str) -> Result<Version, VersionError>
    ensures { Gives VersionError.Memory (λ v. v) result (parsed_version text.now) }
{
    // Not by `parse_normal`: a large value is moved once less where it stands in line.
    let mut capacity = [0; MOST_NUMBERS];
    match read_normal(text.as_bytes(), &mut capacity) {
        Some(normal) => Ok(Version::from_normal(alloc, text, &capacity, &normal)?),
        None => version_from_bytes(alloc, text.as_bytes()),
    }
}

#[tactic(auto, unfolding(crate::specs::Parsed::parsed_version))]
fn version_from_bytes(alloc: Global, bytes: &[u8]) -> Result<Version, VersionError>
    ensures { Gives VersionError.Memory (λ v. v) result (parsed_version bytes.now) }
{
    match read_version(bytes) {
        Some(draft) => draft.to_version(alloc),
        None => Err(VersionError::Syntax),
    }
}
