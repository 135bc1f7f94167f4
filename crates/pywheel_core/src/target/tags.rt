//! The tags of a target, made of its words.

ghost use Rattle.std.specs.Prelude.{◌≡◌, ◌+◌, ◌*◌, ◌≤◌, OnOk, fold, length, map};
ghost use Rattle.std.specs.List.{flat_map};
ghost use Rattle.std.specs.Rc.{rc_str_bytes};
ghost use Rattle.pywheel_core.specs.Inner.TargetWords.{AreParts};
ghost use Rattle.pywheel_core.specs.Spans.{AreWithin, IsAsciiText, IsWithin, tag_at};
ghost use Rattle.pywheel_core.specs.Tag.{with_tag};

use crate::span::Span;
use crate::tag::Tag;
use crate::tag_list::TagList;
use std::alloc::AllocError;
use std::rc::RcStr;

/// How many words there are of ABIs.
const ABIS: usize = 3;

/// Where the words of a target stand in their text.
#[derive(Clone, Copy)]
pub(crate) struct TargetSpans<'a> {
    pub(crate) abis: &'a [Span],
    pub(crate) any: &'a [Span],
    pub(crate) older: &'a [Span],
    pub(crate) pythons: &'a [Span],
    pub(crate) platforms: &'a [Span],
}

impl<'a> TargetSpans<'a> {
    /// The spans of all words of a target, told apart.
    pub(crate) fn new(spans: &'a [Span], minor: usize) -> TargetSpans<'a>
        requires least { 2 ≤ minor }
        requires spans { 2 * minor + 5 ≤ length spans.now }
        ensures { AreParts spans.now minor result }
    {
        let (abis, rest) = spans.split_at(ABIS);
        let (any, rest) = rest.split_at(1);
        let (older, rest) = rest.split_at(minor - 2);
        let (pythons, platforms) = rest.split_at(minor + 3);
        TargetSpans {
            abis,
            any,
            older,
            pythons,
            platforms,
        }
    }

    /// How many tags they make.
    pub(crate) fn count(&self) -> usize {
        let platforms = self.platforms.len();
        let kinds = self.abis.len() + self.older.len() + self.pythons.len();
        kinds.saturating_mul(platforms).saturating_add(kinds)
    }
}

impl TagList {
    /// Adds the tags with these parts: the platform runs fastest, then the ABI.
    pub(crate) fn add_triples(
        &mut self,
        text: &RcStr,
        pythons: &[Span],
        abis: &[Span],
        platforms: &[Span],
    ) -> Result<(), AllocError>
        requires ascii { IsAsciiText (rc_str_bytes text.now) }
        requires pythons { AreWithin (rc_str_bytes text.now) pythons.now }
        requires abis { AreWithin (rc_str_bytes text.now) abis.now }
        requires platforms { AreWithin (rc_str_bytes text.now) platforms.now }
        ensures { OnOk result (self.new ≡ fold with_tag self.old
            (flat_map (λ python. flat_map (λ abi. map (λ platform.
            tag_at (rc_str_bytes text.now) python abi platform) platforms.now) abis.now)
            pythons.now)) }
    {
        for python in pythons {
            self.add_abis(text, *python, abis, platforms)?;
        }
        Ok(())
    }

    /// Adds the tags with this Python.
    fn add_abis(
        &mut self,
        text: &RcStr,
        python: Span,
        abis: &[Span],
        platforms: &[Span],
    ) -> Result<(), AllocError>
        requires ascii { IsAsciiText (rc_str_bytes text.now) }
        requires python { IsWithin (rc_str_bytes text.now) python }
        requires abis { AreWithin (rc_str_bytes text.now) abis.now }
        requires platforms { AreWithin (rc_str_bytes text.now) platforms.now }
        ensures { OnOk result (self.new ≡ fold with_tag self.old (flat_map (λ abi. map
            (λ platform. tag_at (rc_str_bytes text.now) python abi platform) platforms.now)
            abis.now)) }
    {
        for abi in abis {
            self.add_platforms(text, python, *abi, platforms)?;
        }
        Ok(())
    }

    /// Adds the tags with this Python and this ABI.
    fn add_platforms(
        &mut self,
        text: &RcStr,
        python: Span,
        abi: Span,
        platforms: &[Span],
    ) -> Result<(), AllocError>
        requires ascii { IsAsciiText (rc_str_bytes text.now) }
        requires python { IsWithin (rc_str_bytes text.now) python }
        requires abi { IsWithin (rc_str_bytes text.now) abi }
        requires platforms { AreWithin (rc_str_bytes text.now) platforms.now }
        ensures { OnOk result (self.new ≡ fold with_tag self.old (map
            (λ platform. tag_at (rc_str_bytes text.now) python abi platform) platforms.now)) }
    {
        for platform in platforms {
            self.add(Tag::new(text.clone()?, python, abi, *platform))?;
        }
        Ok(())
    }
}
