//! The parts of a requirement's text (PEP 508, "Grammar"), read from the left.

ghost use Rattle.std.specs.Prelude.{◌≡◌, ◌==◌, ◌<◌, [], option_map, map, string_bytes, IfOk};
ghost use Rattle.std.specs.List.{prefix_len, slice_split};
ghost use Rattle.pytext.specs.Agreement.{Gives};
ghost use Rattle.pytext.specs.Bytes.{is_name_byte, is_white};
ghost use Rattle.pyver_core.specs.Parsed.{parsed_set};
ghost use Rattle.pymark_core.specs.Inner.SourceParts.{source_parts};
ghost use Rattle.pymark_core.specs.Requirement.Reading as reading;

use super::error::RequirementError;
use pytext::{after_white, is_blank, is_name_byte, is_white, trim_white};
use pyver_core::{SpecifierError, SpecifierSet, is_name};
use std::alloc::{AllocError, Global};

/// The parts of what stands behind the name and the extras.
#[derive(Drop)]
pub(super) struct SourceParts<'a> {
    /// The specifiers, none where a URL stands.
    pub(super) set: SpecifierSet,
    pub(super) url: Option<&'a str>,
    /// The text of the marker.
    pub(super) marker: Option<&'a str>,
}

/// The text behind this byte, where it stands at the beginning.
#[tactic(auto, using(crate::proofs::BoundaryLemmas::boundary_after_first))]
fn after_byte(byte: u8, text: &str) -> Option<&str>
    requires { byte < 128 }
    ensures { option_map (λ rest. rest.now) result ≡ reading.after_byte byte text.now }
{
    match text.as_bytes() {
        [first, ..] if *first == byte => Some(text.split_at(1).1),
        _ => None,
    }
}

/// What stands before and behind the first of these ASCII characters.
#[inline(always)]
fn cut_around(mark: char, text: &str) -> Option<(&str, &str)>
    requires { mark < 128 }
    ensures { option_map (λ cut. (cut.0.now, cut.1.now)) result ≡ reading.cut_around mark text.now }
{
    text.split_once(mark)
}

fn name_len(text: &str) -> usize
    ensures { result ≡ prefix_len is_name_byte text.now }
{
    text.as_bytes()
        .iter()
        .take_while(|b| is_name_byte(**b))
        .count()
}

/// The name at the beginning, and the text after it.
#[tactic(auto, unfolding(crate::specs::Requirement::Reading::name_at))]
pub(super) fn read_name(text: &str) -> Result<(&str, &str), RequirementError>
    ensures { Gives RequirementError.Memory (λ x. (x.0.now, x.1.now)) result
        (reading.name_at text.now) }
{
    let (name, rest) = text.split_at(name_len(text));
    if is_name(name) {
        Ok((name, rest))
    } else {
        Err(RequirementError::Name)
    }
}

/// The extras at the beginning, if there are any, and the text after them.
#[tactic(auto, unfolding(crate::specs::Requirement::Reading::extras_at))]
pub(super) fn read_extras(
    alloc: Global,
    text: &str,
) -> Result<(Vec<String>, &str), RequirementError>
    ensures { Gives RequirementError.Memory (λ x. (map string_bytes x.0.items, x.1.now)) result
        (reading.extras_at text.now) }
{
    match after_byte(b'[', text) {
        Some(rest) => extras_after_bracket(alloc, rest),
        None => Ok((Vec::new(alloc), text)),
    }
}

/// The extras behind `[`, and the text after `]`.
#[tactic(auto, unfolding(crate::specs::Requirement::Reading::extras_after_bracket))]
fn extras_after_bracket(alloc: Global, text: &str) -> Result<(Vec<String>, &str), RequirementError>
    ensures { Gives RequirementError.Memory (λ x. (map string_bytes x.0.items, x.1.now)) result
        (reading.extras_after_bracket text.now) }
{
    let (inner, rest) = cut_around(']', text).ok_or(RequirementError::Extras)?;
    Ok((extras_in(alloc, inner)?, rest))
}

/// Names with commas between them, or white space.
fn extras_in(alloc: Global, inner: &str) -> Result<Vec<String>, RequirementError>
    ensures { Gives RequirementError.Memory (λ names. map string_bytes names.items) result
        (reading.extras_in inner.now) }
{
    if is_blank(inner.as_bytes()) {
        Ok(Vec::new(alloc))
    } else {
        names_in(alloc, inner)
    }
}

/// The names between the commas.
fn names_in(alloc: Global, text: &str) -> Result<Vec<String>, RequirementError>
    ensures { Gives RequirementError.Memory (λ names. map string_bytes names.items) result
        (reading.names_in (slice_split (λ b. b == 44) text.now)) }
{
    let mut names = Vec::new(alloc);
    for piece in text.split(',') {
        names.push(read_extra(alloc, piece)?)?;
    }
    Ok(names)
}

/// The name with white space round it.
fn read_extra(alloc: Global, piece: &str) -> Result<String, RequirementError>
    ensures { Gives RequirementError.Memory (λ name. string_bytes name) result
        (reading.extra_in piece.now) }
{
    let name = trim_white(piece);
    if !is_name(name) {
        return Err(RequirementError::Extras);
    }
    Ok(String::from_str(alloc, name)?)
}

/// The URL behind `@`, or the specifiers, and the text of the marker.
#[tactic(auto, unfolding(crate::specs::Requirement::Reading::source_at))]
pub(super) fn read_source(alloc: Global, text: &str) -> Result<SourceParts<'_>, RequirementError>
    ensures { Gives RequirementError.Memory source_parts result (reading.source_at text.now) }
{
    match after_byte(b'@', text) {
        Some(rest) => read_url(alloc, after_white(rest)),
        None => read_set(alloc, text),
    }
}

fn url_len(text: &str) -> usize
    ensures { result ≡ reading.url_len text.now }
{
    text.as_bytes()
        .iter()
        .take_while(|b| !is_white(**b))
        .count()
}

/// The URL, which goes on to the next white space, and the text of the marker.
#[tactic(auto, unfolding(crate::specs::Requirement::Reading::url_source))]
fn read_url(alloc: Global, text: &str) -> Result<SourceParts<'_>, RequirementError>
    ensures { Gives RequirementError.Memory source_parts result (reading.url_source text.now) }
{
    let (url, rest) = text.split_at(url_len(text));
    if url.is_empty() {
        return Err(RequirementError::Url);
    }
    let marker = read_marker_text(after_white(rest))?;
    Ok(SourceParts {
        set: no_specifiers(alloc)?,
        url: Some(url),
        marker,
    })
}

/// The text behind `;`, or nothing at the end.
fn read_marker_text(text: &str) -> Result<Option<&str>, RequirementError>
    ensures { Gives RequirementError.Memory (λ marker. option_map (λ t. t.now) marker) result
        (reading.marker_text_at text.now) }
{
    if text.is_empty() {
        return Ok(None);
    }
    match after_byte(b';', text) {
        Some(rest) => Ok(Some(rest)),
        None => Err(RequirementError::Trailing),
    }
}

/// The empty set.
#[tactic(auto, using(crate::proofs::Lemmas::Requirement::Sound::empty_set))]
fn no_specifiers(alloc: Global) -> Result<SpecifierSet, AllocError>
    ensures { IfOk result (λ set. set ≡ []) }
{
    match SpecifierSet::parse(alloc, "") {
        Ok(set) => Ok(set),
        Err(_) => Err(AllocError),
    }
}

/// The text up to `;` or the end, and the text after `;`.
fn cut_marker(text: &str) -> (&str, Option<&str>)
    ensures { (result.0.now, option_map (λ t. t.now) result.1)
        ≡ reading.cut_or_whole text.now (reading.cut_around 59 text.now) }
{
    match cut_around(';', text) {
        Some((declared, marker)) => (declared, Some(marker)),
        None => (text, None),
    }
}

/// The specifiers up to `;` or the end, and the text of the marker.
#[tactic(auto, unfolding(crate::specs::Requirement::Reading::set_source))]
fn read_set(alloc: Global, text: &str) -> Result<SourceParts<'_>, RequirementError>
    ensures { Gives RequirementError.Memory source_parts result (reading.set_source text.now) }
{
    let (declared, marker) = cut_marker(text);
    let inner = within_parentheses(trim_white(declared)).ok_or(RequirementError::Specifier)?;
    Ok(SourceParts {
        set: parse_set(alloc, inner)?,
        url: None,
        marker,
    })
}

/// The specifiers as they are written, where no URL stands.
#[tactic(auto, unfolding(crate::specs::Requirement::Reading::written_set_at))]
pub(super) fn written_set(text: &str) -> Result<Option<&str>, RequirementError>
    ensures { Gives RequirementError.Memory (λ set. option_map (λ t. t.now) set) result
        (reading.written_set_at text.now) }
{
    if after_byte(b'@', text).is_some() {
        return Ok(None);
    }
    let (declared, _marker) = cut_marker(text);
    let inner = within_parentheses(trim_white(declared)).ok_or(RequirementError::Specifier)?;
    Ok(Some(inner))
}

/// The specifiers; no text of theirs is refused but as `Specifier`.
fn parse_set(alloc: Global, text: &str) -> Result<SpecifierSet, RequirementError>
    ensures { Gives RequirementError.Memory (λ set. set) result
        (reading.refused_as RequirementError.Specifier (parsed_set text.now)) }
{
    match SpecifierSet::parse(alloc, text) {
        Ok(set) => Ok(set),
        Err(SpecifierError::Memory) => Err(RequirementError::Memory),
        Err(SpecifierError::Syntax | SpecifierError::NumberTooLarge) => {
            Err(RequirementError::Specifier)
        }
    }
}

/// The text between parentheses, or a text without them.
fn within_parentheses(text: &str) -> Option<&str>
    ensures { option_map (λ t. t.now) result ≡ reading.within_parentheses text.now }
{
    match after_byte(b'(', text) {
        Some(rest) => before_parenthesis(rest),
        None => Some(text),
    }
}

/// What stands before the `)` at the end.
fn before_parenthesis(text: &str) -> Option<&str>
    ensures { option_map (λ t. t.now) result ≡ reading.before_last 41 text.now }
{
    match text.as_bytes() {
        [.., last] if *last == b')' => Some(text.split_at(text.len() - 1).0),
        _ => None,
    }
}
