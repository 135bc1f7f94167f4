//! The fault of a text that is no marker (PEP 508, "Environment Markers").

mod follow;

ghost use Rattle.std.specs.Prelude.{◌≡◌, ◌+◌, ◌<◌, ◌≤◌, ◌^◌, ◌-◌, IfOk, IfSome, Ok, Err};
ghost use Rattle.std.specs.Prelude.{length, true};
ghost use Rattle.std.specs.Prelude.{◌==◌, MatchOption, option_map};
ghost use Rattle.std.specs.List.{list_any};
ghost use Rattle.pymark_core.specs.Marker.Reading.{MarkerValue, marker_of};
ghost use Rattle.pymark_core.specs.declared.marker.error.MarkerError.{MarkerError};
ghost use Rattle.pytext.specs.White.{after_white};
ghost use Rattle.pymark_expected.specs.Kinds.{is_of_grammar, is_of_marker};
ghost use Rattle.pymark_expected.specs.Marker.Place.{IsEndOfMarker, IsStop, StopsAt};
ghost use Rattle.pymark_expected.specs.Marker.Place.{expected_behind, expected_by};
ghost use Rattle.pymark_expected.specs.Marker.Place.{expected_operand, is_quotation, next_place};
ghost use Rattle.pymark_expected.specs.Marker.Place.{place_of};
ghost use Rattle.pymark_expected.specs.Stretch.{IsStretch};

use crate::depth::depth_fault;
use crate::expected::Expected;
use crate::fault::{Fault, fault_at, fault_between};
use follow::{Next, depth_after, follow, is_misuse};
use pymark_core::{Marker, MarkerError, next_token};
use pytext::after_white;
use std::alloc::{AllocError, Global};

/// How far a marker is read.
#[derive(Clone, Copy)]
struct Reading<'a> {
    /// The text behind the last token.
    rest: &'a str,
    /// What may stand next.
    next: Next,
    /// How many parentheses are open.
    depth: usize,
}

/// What was expected of a text that is no marker, and where; nothing for a marker.
///
/// It takes memory as [`Marker::parse`] does.
pub fn marker_fault(alloc: Global, text: &str) -> Result<Option<Fault>, AllocError>
    ensures verdict { IfOk result (λ fault. MatchOption fault
        ((marker : MarkerValue) × (marker_of text.now ≡ Ok marker))
        (λ fault. (error : MarkerError) × (marker_of text.now ≡ Err error))) }
    ensures kind { IfOk result (λ fault. IfSome fault (λ f. is_of_marker f.expected ≡ true)) }
    ensures stretch { IfOk result (λ fault. IfSome fault (λ f. IsStretch text.now f)) }
    ensures place { IfOk result
        (λ fault. IfSome fault (λ f. is_of_grammar f.expected ≡ true → IsStop text.now f)) }
{
    match Marker::parse(alloc, text) {
        Ok(_) => Ok(None),
        Err(MarkerError::Memory) => Err(AllocError),
        Err(MarkerError::TooDeep | MarkerError::Syntax | MarkerError::SetMisuse) => {
            Ok(Some(first_fault(text)?))
        }
    }
}

/// The fault of a text that is refused as a marker, whyever it is.
pub(crate) fn first_fault(text: &str) -> Result<Fault, AllocError>
    ensures kind { IfOk result (λ f. is_of_marker f.expected ≡ true) }
    ensures stretch { IfOk result (λ f. IsStretch text.now f) }
    ensures place { IfOk result (λ f. is_of_grammar f.expected ≡ true → IsStop text.now f) }
{
    if let Some(fault) = depth_fault(text) {
        return Ok(fault);
    }
    match syntax_fault(text)? {
        Some(fault) => Ok(fault),
        None => misuse_fault(text),
    }
}

/// The reading behind the next token, where one stands there and may follow.
fn pass_token(reading: Reading<'_>) -> Result<Option<Reading<'_>>, AllocError>
    requires { reading.depth + length reading.rest.now < 2 ^ 64 }
    ensures exact { IfOk result
        (λ passed. option_map place_of passed ≡ next_place (place_of reading.entry)) }
    ensures shorter { IfOk result (λ passed. IfSome passed
        (λ passed. length passed.rest.now < length reading.entry.rest.now)) }
    ensures depth { IfOk result (λ passed. IfSome passed (λ passed. passed.depth
        + length passed.rest.now ≤ reading.entry.depth + length reading.entry.rest.now)) }
{
    match next_token(reading.rest) {
        Ok(Some((token, rest))) => match follow(reading.next, reading.depth, token) {
            Some(next) => Ok(Some(Reading {
                rest,
                next,
                depth: depth_after(token, reading.depth),
            })),
            None => Ok(None),
        },
        Ok(None) | Err(MarkerError::Syntax) => Ok(None),
        Err(MarkerError::TooDeep | MarkerError::SetMisuse | MarkerError::Memory) => Err(AllocError),
    }
}

/// How far the text is the beginning of a marker.
fn read_far(text: &str) -> Result<Reading<'_>, AllocError>
    ensures { IfOk result (λ reading. StopsAt text.now (place_of reading)) }
{
    let mut reading = Reading {
        rest: text,
        next: Next::Start,
        depth: 0,
    };
    while let Some(further) = pass_token(reading)? {
        reading = further;
    }
    Ok(reading)
}

/// The text from the parenthesis on that is the last one to bring the beginning of a marker to this
/// depth.
fn from_opening(text: &str, depth: usize) -> Result<&str, AllocError> {
    let mut reading = Reading {
        rest: text,
        next: Next::Start,
        depth: 0,
    };
    let mut opening = text;
    while let Some(further) = pass_token(reading)? {
        if reading.depth < depth && further.depth == depth {
            opening = after_white(reading.rest);
        }
        reading = further;
    }
    Ok(opening)
}

/// The fault of a text that doesn't follow the grammar; nothing for one that does.
#[tactic(auto, using(crate::proofs::PlaceLemmas::stop_ends))]
fn syntax_fault(text: &str) -> Result<Option<Fault>, AllocError>
    ensures kind { IfOk result
        (λ fault. IfSome fault (λ fault. is_of_marker fault.expected ≡ true)) }
    ensures stretch { IfOk result (λ fault. IfSome fault (λ fault. IsStretch text.now fault)) }
    ensures place { IfOk result (λ fault. MatchOption fault
        (IsEndOfMarker text.now) (λ fault. IsStop text.now fault)) }
{
    let reading = read_far(text)?;
    let stop = after_white(reading.rest);
    if reading.next == Next::Rest && reading.depth == 0 && stop.is_empty() {
        return Ok(None);
    }
    let expected = expected_by(reading.next, reading.depth, stop);
    let begin = match expected {
        Expected::ClosingMarker => from_opening(text, reading.depth)?,
        _ => stop,
    };
    Ok(Some(fault_between(text, begin, stop, expected)))
}

/// What was expected where this may stand next, inside so many parentheses.
fn expected_by(next: Next, depth: usize, stop: &str) -> Expected
    ensures value { result ≡ expected_by next depth stop.now }
    ensures kind { is_of_marker result ≡ true }
{
    match next {
        Next::Start | Next::Text | Next::Container => expected_operand(stop),
        Next::Operator => Expected::MarkerOperator,
        Next::In => Expected::In,
        Next::Rest => expected_behind(depth),
    }
}

/// What was expected behind a comparison.
fn expected_behind(depth: usize) -> Expected
    ensures value { result ≡ expected_behind depth }
    ensures kind { is_of_marker result ≡ true }
{
    if depth > 0 {
        Expected::ClosingMarker
    } else {
        Expected::MarkerEnd
    }
}

/// What was expected where an operand may stand.
fn expected_operand(stop: &str) -> Expected
    ensures value { result ≡ expected_operand stop.now }
    ensures kind { is_of_marker result ≡ true }
{
    if is_quotation(stop) {
        Expected::PlainText
    } else {
        Expected::Operand
    }
}

/// Whether the text begins with a quote that stands there once more.
fn is_quotation(text: &str) -> bool
    ensures { result ≡ is_quotation text.now }
{
    match text.as_bytes() {
        [quote, rest @ ..] => matches!(quote, b'"' | b'\'') && has_byte(rest, *quote),
        _ => false,
    }
}

fn has_byte(bytes: &[u8], byte: u8) -> bool
    ensures { result ≡ list_any (λ b. b == byte) bytes.now }
{
    bytes.iter().any(|b| *b == byte)
}

/// The fault of a marker in which a set is taken for a text.
fn misuse_fault(text: &str) -> Result<Fault, AllocError>
    ensures expected { IfOk result (λ f. f.expected ≡ Expected.Text) }
    ensures stretch { IfOk result (λ f. IsStretch text.now f) }
{
    let mut reading = Reading {
        rest: text,
        next: Next::Start,
        depth: 0,
    };
    while let Some(further) = pass_text(reading)? {
        reading = further;
    }
    Ok(fault_at(text, after_white(reading.rest), Expected::Text))
}

/// The reading behind the next token, unless that is a set that is taken for a text.
fn pass_text(reading: Reading<'_>) -> Result<Option<Reading<'_>>, AllocError>
    requires { reading.depth + length reading.rest.now < 2 ^ 64 }
    ensures shorter { IfOk result (λ passed. IfSome passed
        (λ passed. length passed.rest.now < length reading.entry.rest.now)) }
    ensures depth { IfOk result (λ passed. IfSome passed (λ passed. passed.depth
        + length passed.rest.now ≤ reading.entry.depth + length reading.entry.rest.now)) }
{
    match next_token(reading.rest) {
        Ok(Some((token, _))) if is_misuse(reading.next, token) => Ok(None),
        _ => pass_token(reading),
    }
}
