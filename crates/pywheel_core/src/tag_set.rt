//! Compressed tag sets (PEP 425, "Compressed Tag Sets").

ghost use Rattle.std.specs.Prelude.{◌≡◌, ◌==◌, ◌+◌, ◌<◌, ◌^◌, ◌++◌, true, Ok, Some, OnErr, OnOk};
ghost use Rattle.std.specs.Prelude.{IfSome, SomeIff, length, map, option_map};
ghost use Rattle.std.specs.List.{flat_map};
ghost use Rattle.std.specs.Rc.{rc_str_bytes};
ghost use Rattle.std.specs.Str.{str_to_ascii_lowercase};
ghost use Rattle.pytext.specs.Agreement.{Gives};
ghost use Rattle.pywheel_core.specs.Inner.Lent.{lower_set, set_of};
ghost use Rattle.pywheel_core.specs.Spans.{AreWithin, IsAsciiText, IsWithin, spans_from, tag_at};
ghost use Rattle.pywheel_core.specs.Inner.Pieces.{AreCountable, counts_of, spans_in};
ghost use Rattle.pywheel_core.specs.Tag.{are_tag_parts, is_tag_set, pieces, tags_in};
ghost use Rattle.pywheel_core.specs.Texts.{cut_at, three_parts};
ghost use Rattle.pywheel_core.specs.Wheel.Reading.{tag_set_in};

use crate::cut::{TagSet, lower_text};
use crate::error::WheelError;
use crate::span::Span;
use crate::tag::Tag;
use pytext::is_word_byte;
use std::alloc::Global;
use std::rc::RcStr;
use std::slice;

/// The most tags that a compressed tag set may stand for.
const TAGS_LIMIT: usize = 1024;

/// A compressed tag set in lower case, and every tag that it stands for: the platform runs fastest,
/// then the ABI. The text is the three parts of the set. Whether they can stand in tags and how
/// many tags there are is judged before anything is made.
pub(crate) fn read_tag_set(
    alloc: Global,
    text: &str,
    set: &TagSet<'_>,
) -> Result<(RcStr, Vec<Tag>), WheelError>
    requires { three_parts 45 text.now ≡ Some (set_of set.now) }
    ensures { Gives WheelError.Memory (λ x. (rc_str_bytes x.0, x.1.items)) result
        (tag_set_in text.now) }
{
    let Some(counts) = set.small_counts() else {
        return Err(WheelError::Tags);
    };
    let lower = lower_text(alloc, text)?;
    let tags = set.tags(alloc, text, &lower, &counts)?;
    Ok((lower, tags))
}

/// How many pieces the parts of a compressed tag set have, and how many tags these make.
#[derive(Clone, Copy)]
struct PieceCounts {
    python: usize,
    abi: usize,
    platform: usize,
    tags: usize,
}

impl TagSet<'_> {
    /// How many pieces there are, where all can stand in a tag and there are no more tags than may
    /// be.
    fn small_counts(&self) -> Option<PieceCounts>
        ensures { SomeIff result (is_tag_set (set_of self.now) ≡ true)
            (counts_of (set_of self.now)) }
    {
        self.counts().filter(|counts| counts.tags <= TAGS_LIMIT)
    }

    /// How many pieces there are, where all can stand in a tag and a `usize` holds how many tags
    /// these make.
    fn counts(&self) -> Option<PieceCounts>
        ensures { SomeIff result (AreCountable (set_of self.now)) (counts_of (set_of self.now)) }
    {
        let python = count_tag_parts(self.python.as_bytes())?;
        let abi = count_tag_parts(self.abi.as_bytes())?;
        let platform = count_tag_parts(self.platform.as_bytes())?;
        let pairs = abi.checked_mul(platform)?;
        let tags = python.checked_mul(pairs)?;
        Some(PieceCounts {
            python,
            abi,
            platform,
            tags,
        })
    }

    /// The tags, whose parts stand in the text that these three make, in lower case.
    fn tags(
        &self,
        alloc: Global,
        text: &str,
        lower: &RcStr,
        counts: &PieceCounts,
    ) -> Result<Vec<Tag>, WheelError>
        requires whole { three_parts 45 text.now ≡ Some (set_of self.now) }
        requires lower { rc_str_bytes lower.now ≡ str_to_ascii_lowercase text.now }
        requires set { is_tag_set (set_of self.now) ≡ true }
        requires counts { counts.now ≡ counts_of (set_of self.now) }
        ensures { Gives WheelError.Memory (λ v. v.items) result
            (Ok (tags_in (lower_set (set_of self.now)))) }
    {
        let (python, abi, platform) = self.spans(text.len());
        let pythons = PieceSpans::of(alloc, python.start, self.python, counts.python)?;
        let abis = PieceSpans::of(alloc, abi.start, self.abi, counts.abi)?;
        let platforms = PieceSpans::of(alloc, platform.start, self.platform, counts.platform)?;
        let mut tags = Vec::with_capacity(alloc, counts.tags)?;
        push_tags(
            &mut tags,
            lower,
            pythons.as_slice(),
            abis.as_slice(),
            platforms.as_slice(),
        )?;
        Ok(tags)
    }
}

/// Adds the tags with these parts.
fn push_tags(
    tags: &mut Vec<Tag>,
    text: &RcStr,
    pythons: &[Span],
    abis: &[Span],
    platforms: &[Span],
) -> Result<(), WheelError>
    requires ascii { IsAsciiText (rc_str_bytes text.now) }
    requires pythons { AreWithin (rc_str_bytes text.now) pythons.now }
    requires abis { AreWithin (rc_str_bytes text.now) abis.now }
    requires platforms { AreWithin (rc_str_bytes text.now) platforms.now }
    ensures added { OnOk result (tags.new.items ≡ tags.old.items
        ++ flat_map (λ python. flat_map (λ abi. map (λ platform.
        tag_at (rc_str_bytes text.now) python abi platform) platforms.now) abis.now) pythons.now) }
    ensures memory { OnErr result (result ≡ Err WheelError.Memory) }
{
    for python in pythons {
        push_abis(tags, text, *python, abis, platforms)?;
    }
    Ok(())
}

/// Adds the tags with this Python.
fn push_abis(
    tags: &mut Vec<Tag>,
    text: &RcStr,
    python: Span,
    abis: &[Span],
    platforms: &[Span],
) -> Result<(), WheelError>
    requires ascii { IsAsciiText (rc_str_bytes text.now) }
    requires python { IsWithin (rc_str_bytes text.now) python }
    requires abis { AreWithin (rc_str_bytes text.now) abis.now }
    requires platforms { AreWithin (rc_str_bytes text.now) platforms.now }
    ensures added { OnOk result (tags.new.items ≡ tags.old.items
        ++ flat_map (λ abi. map (λ platform.
        tag_at (rc_str_bytes text.now) python abi platform) platforms.now) abis.now) }
    ensures memory { OnErr result (result ≡ Err WheelError.Memory) }
{
    for abi in abis {
        push_platforms(tags, text, python, *abi, platforms)?;
    }
    Ok(())
}

/// Adds the tags with this Python and this ABI.
fn push_platforms(
    tags: &mut Vec<Tag>,
    text: &RcStr,
    python: Span,
    abi: Span,
    platforms: &[Span],
) -> Result<(), WheelError>
    requires ascii { IsAsciiText (rc_str_bytes text.now) }
    requires python { IsWithin (rc_str_bytes text.now) python }
    requires abi { IsWithin (rc_str_bytes text.now) abi }
    requires platforms { AreWithin (rc_str_bytes text.now) platforms.now }
    ensures added { OnOk result (tags.new.items ≡ tags.old.items
        ++ map (λ platform. tag_at (rc_str_bytes text.now) python abi platform) platforms.now) }
    ensures memory { OnErr result (result ≡ Err WheelError.Memory) }
{
    for platform in platforms {
        tags.push(Tag::new(text.clone()?, python, abi, *platform))?;
    }
    Ok(())
}

/// What stands before the first dot, and what stands after it.
pub(crate) fn cut_at_dot(text: &str) -> Option<(&str, &str)>
    ensures { option_map (λ x. (x.0.now, x.1.now)) result ≡ cut_at 46 text.now }
{
    text.split_once('.')
}

/// How many pieces there are, where all can stand in a tag: none is empty.
#[tactic(auto, using(crate::proofs::Lemmas::Tag::Counts::whole_part))]
fn count_tag_parts(part: &[u8]) -> Option<usize>
    ensures { SomeIff result (are_tag_parts (pieces part.now) ≡ true) (length (pieces part.now)) }
{
    let mut count = 1;
    let mut is_empty = true;
    for byte in part {
        if is_word_byte(*byte) {
            is_empty = false;
        } else if *byte == b'.' && !is_empty {
            count += 1;
            is_empty = true;
        } else {
            return None;
        }
    }
    (!is_empty).then_some(count)
}

/// The spans of the pieces of a part. One or two, as nearly each part has, take no memory.
#[derive(Drop)]
enum PieceSpans {
    One(Span),
    Two([Span; 2]),
    Many(Vec<Span>),
}

impl PieceSpans {
    /// Those in a text where the part stands at `start`.
    #[tactic(auto, using(crate::proofs::Lemmas::Texts::Cuts::one_span))]
    fn of(alloc: Global, start: usize, part: &str, count: usize) -> Result<PieceSpans, WheelError>
        requires start { start + length part.now < 2 ^ 64 }
        requires count { count ≡ length (pieces part.now) }
        ensures { Gives WheelError.Memory spans_in result
            (Ok (spans_from start (pieces part.now))) }
    {
        if count == 1 {
            let end = start + part.len();
            return Ok(PieceSpans::One(Span { start, end }));
        }
        if count == 2 {
            if let Some(spans) = two_spans(start, part) {
                return Ok(PieceSpans::Two(spans));
            }
        }
        Ok(PieceSpans::Many(list_spans(alloc, start, part, count)?))
    }

    fn as_slice(&self) -> &[Span]
        ensures { result.now ≡ spans_in self.now }
    {
        match self {
            PieceSpans::One(span) => slice::from_ref(span),
            PieceSpans::Two(spans) => spans,
            PieceSpans::Many(spans) => spans,
        }
    }
}

/// The spans of the two pieces in a text where the part stands at `start`.
#[tactic(auto, using(crate::proofs::Lemmas::Texts::Cuts::two_spans_are))]
fn two_spans(start: usize, part: &str) -> Option<[Span; 2]>
    requires start { start + length part.now < 2 ^ 64 }
    requires two { length (pieces part.now) ≡ 2 }
    ensures { IfSome result (λ spans. spans ≡ spans_from start (pieces part.now)) }
{
    let (first, second) = cut_at_dot(part)?;
    let end = start + first.len();
    let behind = end + 1;
    Some([
        Span { start, end },
        Span {
            start: behind,
            end: behind + second.len(),
        },
    ])
}

/// The spans of the pieces in a text where the part stands at `start`, in a list with room for
/// `count`.
#[tactic(auto, using(crate::proofs::Lemmas::Texts::Cuts::spans_are))]
fn list_spans(
    alloc: Global,
    start: usize,
    part: &str,
    count: usize,
) -> Result<Vec<Span>, WheelError>
    requires { start + length part.now < 2 ^ 64 }
    ensures { Gives WheelError.Memory (λ v. v.items) result
        (Ok (spans_from start (pieces part.now))) }
{
    let mut spans = Vec::with_capacity(alloc, count)?;
    let mut start = start;
    let mut rest = part;
    while let Some((piece, after)) = cut_at_dot(rest) {
        let end = start + piece.len();
        spans.push(Span { start, end })?;
        start = end + 1;
        rest = after;
    }
    let end = start + rest.len();
    spans.push(Span { start, end })?;
    Ok(spans)
}
