//! Texts cut at `-`: the parts of a tag, of a compressed tag set and of a wheel's name.
//! These texts are short, so a look at each byte finds the `-` sooner than a search by words of
//! eight bytes.

ghost use Rattle.std.specs.Prelude.{◌≡◌, ◌+◌, Some, length, option_map, IfOk};
ghost use Rattle.std.specs.List.{list_all, prefix_len};
ghost use Rattle.std.specs.Option.{IfSome};
ghost use Rattle.std.specs.Rc.{rc_str_bytes};
ghost use Rattle.std.specs.Str.{str_to_ascii_lowercase};
ghost use Rattle.pywheel_core.specs.Inner.Lent.{IsCut, set_of, wheel_parts};
ghost use Rattle.pywheel_core.specs.Inner.Cut.{is_undashed};
ghost use Rattle.pywheel_core.specs.Spans.{spans_of};
ghost use Rattle.pytext.specs.Bytes.{is_word_byte};
ghost use Rattle.pywheel_core.specs.Tag.{is_tag, is_tag_part};
ghost use Rattle.pywheel_core.specs.Texts.{before_ending, cut_at, cut_at_last, three_parts};
ghost use Rattle.pywheel_core.specs.Wheel.Cut.{end_of, end_with_build, end_without_build};
ghost use Rattle.pywheel_core.specs.Wheel.Cut.{parts_of, stem_of};

use crate::span::Span;
use pytext::is_word_byte;
use std::alloc::{AllocError, Global};
use std::rc::RcStr;

/// Three parts of a text: those of a tag, or of a compressed tag set.
#[derive(Clone, Copy)]
pub(crate) struct TagSet<'a> {
    pub(crate) python: &'a str,
    pub(crate) abi: &'a str,
    pub(crate) platform: &'a str,
}

/// The parts of a wheel's name as written; `tag_set` is the last three, and `set` these three cut.
#[derive(Clone, Copy)]
pub(crate) struct StemParts<'a> {
    pub(crate) name: &'a str,
    pub(crate) version: &'a str,
    pub(crate) build: Option<&'a str>,
    pub(crate) tag_set: &'a str,
    pub(crate) set: TagSet<'a>,
}

/// What stands behind a version: a build tag or none, and the last three parts, whole and cut.
pub(crate) type End<'a> = (Option<&'a str>, &'a str, TagSet<'a>);

/// The text in lower case, to be shared.
pub(crate) fn lower_text(alloc: Global, text: &str) -> Result<RcStr, AllocError>
    ensures { IfOk result (λ lower. rc_str_bytes lower ≡ str_to_ascii_lowercase text.now) }
{
    let mut lower = String::from_str(alloc, text)?;
    lower.make_ascii_lowercase();
    RcStr::from_string(lower)
}

/// What stands before the first `-`, and what stands after it.
#[tactic(auto, using(crate::proofs::Lemmas::Texts::Cuts::cut_is))]
pub(crate) fn cut(text: &str) -> Option<(&str, &str)>
    ensures { option_map (λ x. (x.0.now, x.1.now)) result ≡ cut_at 45 text.now }
{
    let place = undashed_len(text);
    if place == text.len() {
        return None;
    }
    Some((&text[..place], &text[place + 1..]))
}

/// What stands before the last `-`, and what stands after it.
pub(crate) fn last_cut(text: &str) -> Option<(&str, &str)>
    ensures { option_map (λ x. (x.0.now, x.1.now)) result ≡ cut_at_last 45 text.now }
{
    text.rsplit_once('-')
}

/// How many bytes stand before the first `-`: all where there is none.
fn undashed_len(text: &str) -> usize
    ensures { result ≡ prefix_len is_undashed text.now }
{
    text.as_bytes().iter().take_while(|b| **b != b'-').count()
}

/// The three parts of a text with two `-`.
#[tactic(auto, unfolding(crate::specs::Texts::three_parts))]
pub(crate) fn three_parts(text: &str) -> Option<TagSet<'_>>
    ensures { option_map set_of result ≡ three_parts 45 text.now }
{
    let (python, rest) = cut(text)?;
    let (abi, platform) = cut(rest)?;
    if cut(platform).is_some() {
        return None;
    }
    Some(TagSet {
        python,
        abi,
        platform,
    })
}

/// What stands before this ending, where the text has it.
#[tactic(auto, using(crate::proofs::Lemmas::Texts::Cuts::before_ending_is))]
pub(crate) fn before_ending<'a>(text: &'a str, ending: &str) -> Option<&'a str>
    ensures { option_map (λ x. x.now) result ≡ before_ending ending.now text.now }
{
    text.strip_suffix(ending)
}

/// What stands before `.whl`.
pub(crate) fn stem(text: &str) -> Option<&str>
    ensures { option_map (λ x. x.now) result ≡ stem_of text.now }
{
    before_ending(text, ".whl")
}

/// What stands behind the version, where no build tag does.
#[tactic(auto, unfolding(crate::specs::Wheel::Cut::end_without_build))]
fn end_without_build(text: &str) -> Option<End<'_>>
    ensures end { option_map (λ x. (option_map (λ b. b.now) x.0, x.1.now)) result
        ≡ end_without_build text.now }
    ensures set { IfSome result (λ x. three_parts 45 x.1.now ≡ Some (set_of x.2)) }
{
    let set = three_parts(text)?;
    Some((None, text, set))
}

/// A build tag and what stands behind it.
#[tactic(auto, unfolding(crate::specs::Wheel::Cut::end_with_build))]
fn end_with_build(text: &str) -> Option<End<'_>>
    ensures end { option_map (λ x. (option_map (λ b. b.now) x.0, x.1.now)) result
        ≡ end_with_build text.now }
    ensures set { IfSome result (λ x. three_parts 45 x.1.now ≡ Some (set_of x.2)) }
{
    let (build, rest) = cut(text)?;
    let set = three_parts(rest)?;
    Some((Some(build), rest, set))
}

/// What stands behind the version.
pub(crate) fn end_parts(text: &str) -> Option<End<'_>>
    ensures end { option_map (λ x. (option_map (λ b. b.now) x.0, x.1.now)) result
        ≡ end_of text.now }
    ensures set { IfSome result (λ x. three_parts 45 x.1.now ≡ Some (set_of x.2)) }
{
    match end_without_build(text) {
        Some(end) => Some(end),
        None => end_with_build(text),
    }
}

/// The five or six parts before `.whl`.
#[tactic(auto, unfolding(crate::specs::Wheel::Cut::parts_of))]
pub(crate) fn stem_parts(stem: &str) -> Option<StemParts<'_>>
    ensures parts { option_map wheel_parts result ≡ parts_of stem.now }
    ensures set { IfSome result (λ p. IsCut p) }
{
    let (name, rest) = cut(stem)?;
    let (version, rest) = cut(rest)?;
    let (build, tag_set, set) = end_parts(rest)?;
    Some(StemParts {
        name,
        version,
        build,
        tag_set,
        set,
    })
}

/// Whether the text is one or more ASCII letters, digits and `_`.
pub(crate) fn is_tag_part(part: &str) -> bool
    ensures { result ≡ is_tag_part part.now }
{
    !part.is_empty() && has_tag_bytes(part.as_bytes())
}

fn has_tag_bytes(bytes: &[u8]) -> bool
    ensures { result ≡ list_all is_word_byte bytes.now }
{
    bytes.iter().all(|byte| is_word_byte(*byte))
}

impl TagSet<'_> {
    /// Whether these are the parts of one tag.
    pub(crate) fn is_tag(&self) -> bool
        ensures { result ≡ is_tag (set_of self.now) }
    {
        is_tag_part(self.python) && is_tag_part(self.abi) && is_tag_part(self.platform)
    }

    /// The spans of the three parts in the text that they make, which has this length.
    pub(crate) fn spans(&self, whole: usize) -> (Span, Span, Span)
        requires { whole ≡ length self.now.python.now + length self.now.abi.now
            + length self.now.platform.now + 2 }
        ensures { (result.0, result.1, result.2) ≡ spans_of (set_of self.now) }
    {
        let python = self.python.len();
        let abi = python + 1 + self.abi.len();
        (
            Span {
                start: 0,
                end: python,
            },
            Span {
                start: python + 1,
                end: abi,
            },
            Span {
                start: abi + 1,
                end: whole,
            },
        )
    }
}
