//! Where the specifiers of a set stand in its text (PEP 440, "Version specifiers").

ghost use Rattle.std.specs.Prelude.{◌≡◌, ◌++◌, ◌+◌, ◌<◌, ◌^◌, IfOk, OnOk, length};
ghost use Rattle.std.specs.List.{prefix_len};
ghost use Rattle.pytext.specs.Agreement.{Gives};
ghost use Rattle.pytext.specs.Bytes.{is_white};
ghost use Rattle.pylock_values.specs.Spans.{piece_span, set_pieces, spans_from, spans_of};

use pytext::{after_white, is_blank, is_white, trim_white};
use pyver_core::{Operator, SpecifierError, SpecifierSet};
use std::alloc::{AllocError, Global};

/// Where the specifiers of a set stand in its text, in their order: of each where its operator
/// begins and ends, and where its operand begins and ends.
///
/// The refusals are those of [`SpecifierSet::parse`]. It takes memory for the set, which it gives
/// back, and for the offsets.
pub fn set_spans(alloc: Global, text: &str) -> Result<Vec<usize>, SpecifierError>
    ensures { Gives SpecifierError.Memory (λ spans. spans.items) result (spans_of text.now) }
{
    let _set = SpecifierSet::parse(alloc, text)?;
    Ok(spans_in(alloc, text)?)
}

/// The spans of the pieces of a text.
fn spans_in(alloc: Global, text: &str) -> Result<Vec<usize>, AllocError>
    requires { length text.now + 1 < 2 ^ 64 }
    ensures { IfOk result (λ spans. spans.items ≡ spans_from 0 (set_pieces text.now)) }
{
    // Many sets are of one specifier.
    let mut spans = Vec::with_capacity(alloc, 4)?;
    let mut start = 0;
    for piece in text.split(',') {
        push_span(&mut spans, start, piece)?;
        start += piece.len() + 1;
    }
    Ok(spans)
}

/// Pushes the span of a piece that begins at this offset.
#[tactic(auto, using(crate::proofs::SpansLemmas::span_fits))]
fn push_span(spans: &mut Vec<usize>, start: usize, piece: &str) -> Result<(), AllocError>
    requires { start + length piece.now < 2 ^ 64 }
    ensures { OnOk result (spans.new.items ≡ spans.old.items ++ piece_span start piece.now) }
{
    if is_blank(piece.as_bytes()) {
        return Ok(());
    }
    let Some((operator, rest)) = Operator::read(after_white(piece)) else {
        return Ok(());
    };
    let start = start + white_length(piece.as_bytes());
    let end = start + operator.as_str().len();
    let operand = end + white_length(rest.as_bytes());
    spans.extend_from_slice(&[start, end, operand, operand + trim_white(rest).len()])
}

/// How many bytes of white space a text begins with.
fn white_length(bytes: &[u8]) -> usize
    ensures { result ≡ prefix_len is_white bytes.now }
{
    bytes.iter().take_while(|byte| is_white(**byte)).count()
}
