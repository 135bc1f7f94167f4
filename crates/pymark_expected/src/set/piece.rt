//! The pieces of a specifier set, between commas.

ghost use Rattle.std.specs.Prelude.{◌≤◌, IfOk, length};

use pytext::{after_white, is_white, trim_white};
use pyver_core::{Operator, Specifier, SpecifierError};
use std::alloc::{AllocError, Global};

/// The most bytes in which the end of a specifier is looked for. Nearly each is shorter, and a long
/// text that another party chose costs no more than this.
const MOST_TRIED: usize = 256;

/// A piece of a specifier set, with white space before it passed over.
#[derive(Clone, Copy)]
pub(super) struct Piece<'a> {
    /// The text from the specifier on.
    pub(super) from: &'a str,
    /// The text behind the specifier, the same where none stands there.
    pub(super) end: &'a str,
}

impl Piece<'_> {
    /// Whether a specifier stands there.
    pub(super) fn is_specifier(&self) -> bool {
        self.end.len() < self.from.len()
    }
}

/// The piece at the beginning of the text.
pub(super) fn read_piece(alloc: Global, text: &str) -> Result<Piece<'_>, AllocError>
    ensures { IfOk result (λ piece. length piece.end.now ≤ length text.now) }
{
    let from = after_white(text);
    let end = after_specifier(alloc, from)?;
    Ok(Piece { from, end })
}

/// The text behind the longest specifier that stands at its beginning; the text itself where none
/// does.
fn after_specifier(alloc: Global, text: &str) -> Result<&str, AllocError>
    ensures { IfOk result (λ end. length end.now ≤ length text.now) }
{
    let len = specifier_len(alloc, text)?;
    Ok(text.split_at(text.floor_char_boundary(len)).1)
}

/// How long the longest specifier is that stands at the beginning of the text; 0 where none does.
fn specifier_len(alloc: Global, text: &str) -> Result<usize, AllocError>
    ensures { IfOk result (λ len. len ≤ length text.now) }
{
    if Operator::read(text).is_none() {
        return Ok(0);
    }
    let piece = trim_white(text.split_at(text.floor_char_boundary(piece_len(text))).0);
    if is_specifier(alloc, piece)? {
        return Ok(piece.len());
    }
    for len in (1..piece.len().min(MOST_TRIED)).rev() {
        if is_specifier_of(alloc, piece, len)? {
            return Ok(len);
        }
    }
    Ok(0)
}

/// How many bytes stand before the next comma or semicolon.
fn piece_len(text: &str) -> usize {
    text.as_bytes()
        .iter()
        .take_while(|b| **b != b',' && **b != b';')
        .count()
}

/// Whether so many bytes of the text are a specifier with no white space behind it.
fn is_specifier_of(alloc: Global, text: &str, len: usize) -> Result<bool, AllocError> {
    if !text.is_char_boundary(len) {
        return Ok(false);
    }
    let front = text.split_at(len).0;
    match front.as_bytes() {
        [.., last] if is_white(*last) => Ok(false),
        _ => is_specifier(alloc, front),
    }
}

/// Whether the text is a specifier, be its numbers too large.
fn is_specifier(alloc: Global, text: &str) -> Result<bool, AllocError> {
    match Specifier::parse(alloc, text) {
        Ok(_) | Err(SpecifierError::NumberTooLarge) => Ok(true),
        Err(SpecifierError::Syntax) => Ok(false),
        Err(SpecifierError::Memory) => Err(AllocError),
    }
}

/// Whether the specifier of a piece has a number that is too large.
pub(super) fn is_large(alloc: Global, piece: Piece<'_>) -> Result<bool, AllocError> {
    let len = piece.from.len().saturating_sub(piece.end.len());
    let text = piece.from.split_at(piece.from.floor_char_boundary(len)).0;
    match Specifier::parse(alloc, text) {
        Ok(_) | Err(SpecifierError::Syntax) => Ok(false),
        Err(SpecifierError::NumberTooLarge) => Ok(true),
        Err(SpecifierError::Memory) => Err(AllocError),
    }
}
