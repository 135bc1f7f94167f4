//! The local part, as it stands in a text.

ghost use Rattle.std.specs.Prelude.{◌≡◌, ◌==◌, ◌++◌, List, flat_map, length};
ghost use Rattle.pyver_core.specs.Inner.Limit.{Makes};
ghost use Rattle.pyver_core.specs.Version.Grammar.{number_in_segment};
ghost use Rattle.pyver_core.specs.Version.Reading.{local_at, many_at, separated_segment_at};
ghost use Rattle.pyver_core.specs.declared.version.part.LocalPart.{LocalPart};

use super::scan;
use crate::version::{LocalPart, VersionError};
use std::alloc::Global;
use std::marker::Model;

/// A local part: the text that begins with its segments. Contracts see the segments.
#[derive(Drop)]
pub(crate) struct Local<'a> {
    text: &'a [u8],
}

impl<'a> Model for Local<'a> {
    ghost Value = { List LocalPart };

    ghost view = { λ a. (local_at a.text.now).0 };
}

impl Local<'_> {
    /// Whether there is no local part.
    #[tactic(auto, unfolding(crate::specs::Version::Reading::local_at))]
    pub(crate) fn is_empty(&self) -> bool
        ensures { result ≡ (length self.now == 0) }
    {
        scan::read_added_segment(self.text).is_none()
    }

    /// The segments.
    #[tactic(auto, unfolding(crate::specs::Version::Reading::local_at))]
    pub(crate) fn to_segments(&self, alloc: Global) -> Result<Vec<LocalPart>, VersionError>
        ensures { Makes (λ v. v.items) result self.now (flat_map number_in_segment self.now) }
    {
        let mut segments = Vec::new(alloc);
        let Some((first, rest)) = scan::read_added_segment(self.text) else {
            return Ok(segments);
        };
        segments.push(first.to_local_part(alloc)?)?;
        with_separated_segments(alloc, segments, rest)
    }
}

/// The text after segments with a separator before each.
#[tactic(auto, using(crate::proofs::Lemmas::Version::Reading::Many::separated))]
fn after_separated_segments(bytes: &[u8]) -> &[u8]
    ensures { result.now ≡ (many_at separated_segment_at bytes.now).1 }
{
    let mut rest = bytes;
    while let Some((_, after)) = scan::read_separated_segment(rest) {
        rest = after;
    }
    rest
}

/// The local part, and the text after it.
#[tactic(auto, unfolding(crate::specs::Version::Reading::local_at))]
pub(crate) fn read_local(bytes: &[u8]) -> (Local<'_>, &[u8])
    ensures { (result.0, result.1.now) ≡ local_at bytes.now }
{
    let rest = match scan::read_added_segment(bytes) {
        Some((_, after)) => after_separated_segments(after),
        None => bytes,
    };
    (Local { text: bytes }, rest)
}

/// The segments, and those that the text begins with, with a separator before each.
pub(super) fn with_separated_segments(
    alloc: Global,
    mut segments: Vec<LocalPart>,
    bytes: &[u8],
) -> Result<Vec<LocalPart>, VersionError>
    ensures { Makes (λ v. v.items) result
        (segments.items ++ (many_at separated_segment_at bytes.now).0)
        (flat_map number_in_segment (many_at separated_segment_at bytes.now).0) }
{
    let mut rest = bytes;
    while let Some((next, after)) = scan::read_separated_segment(rest) {
        segments.push(next.to_local_part(alloc)?)?;
        rest = after;
    }
    Ok(segments)
}
