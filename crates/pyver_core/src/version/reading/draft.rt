//! A version as it stands in its text.

ghost use Rattle.std.specs.Prelude.{◌≡◌, option_map};
ghost use Rattle.pyver_core.specs.Version.Reading.{parts_at, version_of};
ghost use Rattle.pyver_core.specs.Inner.VersionDraft.{base_of, draft_parts};
ghost use Rattle.pyver_core.specs.Inner.Limit.{Makes};
ghost use Rattle.pyver_core.specs.Version.Grammar.{number_in, number_in_pre, numbers};

use super::base::{Base, read_base};
use super::digits::Digits;
use super::local::{Local, read_local};
use super::tagged::{read_dev, read_post, read_pre};
use crate::version::{PreKind, Version, VersionError, VersionParts};
use pytext::{after_white_bytes, is_blank};
use std::alloc::Global;

/// The parts of a version as they stand in its text. It holds no memory.
#[derive(Drop)]
pub(crate) struct VersionDraft<'a> {
    pub(crate) base: Base<'a>,
    pub(crate) pre: Option<(PreKind, Digits<'a>)>,
    pub(crate) post: Option<Digits<'a>>,
    pub(crate) dev: Option<Digits<'a>>,
    pub(crate) local: Local<'a>,
}

/// The parts after the release, and the text after them.
#[tactic(auto, unfolding(crate::specs::Version::Reading::parts_at))]
fn read_parts<'a>(base: Base<'a>, bytes: &'a [u8]) -> (VersionDraft<'a>, &'a [u8])
    ensures { (draft_parts result.0, result.1.now) ≡ parts_at (base_of base.entry) bytes.now }
{
    let (pre, rest) = read_pre(bytes);
    let (post, rest) = read_post(rest);
    let (dev, rest) = read_dev(rest);
    let (local, rest) = read_local(rest);
    let draft = VersionDraft {
        base,
        pre,
        post,
        dev,
        local,
    };
    (draft, rest)
}

/// The parts that the text spells, or `None` where it spells none.
#[tactic(auto, unfolding(crate::specs::Version::Reading::version_of))]
pub(crate) fn read_version(bytes: &[u8]) -> Option<VersionDraft<'_>>
    ensures { option_map draft_parts result ≡ version_of bytes.now }
{
    let (base, rest) = read_base(after_white_bytes(bytes))?;
    let (draft, rest) = read_parts(base, rest);
    is_blank(rest).then_some(draft)
}

/// The number of a part that may be absent.
fn optional_number(digits: &Option<Digits<'_>>) -> Result<Option<u128>, VersionError>
    ensures { Makes (λ n. n) result digits.now (number_in digits.now) }
{
    match digits {
        Some(digits) => Ok(Some(digits.number()?)),
        None => Ok(None),
    }
}

/// The letter and number of a pre-release that may be absent.
fn optional_pre(
    pre: &Option<(PreKind, Digits<'_>)>,
) -> Result<Option<(PreKind, u128)>, VersionError>
    ensures { Makes (λ n. n) result pre.now (number_in_pre pre.now) }
{
    match pre {
        Some((kind, digits)) => Ok(Some((*kind, digits.number()?))),
        None => Ok(None),
    }
}

impl VersionDraft<'_> {
    /// The version with these parts.
    pub(crate) fn to_version(&self, alloc: Global) -> Result<Version, VersionError>
        ensures { Makes (λ v. v) result (draft_parts self.now) (numbers (draft_parts self.now)) }
    {
        let epoch = self.base.epoch.number()?;
        let release = self.base.release.to_numbers(alloc)?;
        let pre = optional_pre(&self.pre)?;
        let post = optional_number(&self.post)?;
        let dev = optional_number(&self.dev)?;
        let local = self.local.to_segments(alloc)?;
        let parts = VersionParts {
            epoch,
            release,
            pre,
            post,
            dev,
            local,
        };
        Ok(Version::with_parts(alloc, parts)?)
    }
}
