//! The fault of a text that is no specifier set (PEP 440, "Version specifiers").

mod piece;

ghost use Rattle.std.specs.Prelude.{◌≡◌, ◌<◌, Err, IfOk, IfSome, List, MatchOption, Ok, length};
ghost use Rattle.std.specs.Prelude.{true};
ghost use Rattle.pyver_core.specs.Parsed.{parsed_set, parsed_specifier};
ghost use Rattle.pyver_core.specs.declared.set.error.SpecifierError.{SpecifierError};
ghost use Rattle.pyver_core.specs.declared.set.specifier.Specifier.{Specifier};
ghost use Rattle.pymark_expected.specs.Kinds.{is_of_declared, is_of_set, is_of_specifier};
ghost use Rattle.pymark_expected.specs.Stretch.{IsStretch};

use crate::cut::after_byte;
use crate::expected::Expected;
use crate::fault::{Fault, fault_at, fault_between};
use piece::{Piece, is_large, read_piece};
use pytext::after_white;
use pyver_core::{Operator, Specifier, SpecifierError, SpecifierSet};
use std::alloc::{AllocError, Global};

/// How far specifiers go with commas between them.
#[derive(Clone, Copy)]
struct SetReading<'a> {
    /// The last piece.
    last: Piece<'a>,
    /// Whether a specifier stands in a piece.
    has_any: bool,
}

/// What was expected of a text that is no specifier set, and where; nothing for a specifier set.
///
/// It takes memory as [`SpecifierSet::parse`] does.
pub fn set_fault(alloc: Global, text: &str) -> Result<Option<Fault>, AllocError>
    ensures verdict { IfOk result (λ fault. MatchOption fault
        ((specifiers : List Specifier) × (parsed_set text.now ≡ Ok specifiers))
        (λ f. (error : SpecifierError) × (parsed_set text.now ≡ Err error))) }
    ensures kind { IfOk result (λ fault. IfSome fault (λ f. is_of_set f.expected ≡ true)) }
    ensures stretch { IfOk result (λ fault. IfSome fault (λ f. IsStretch text.now f)) }
{
    match SpecifierSet::parse(alloc, text) {
        Ok(_) => Ok(None),
        Err(SpecifierError::Memory) => Err(AllocError),
        Err(SpecifierError::Syntax | SpecifierError::NumberTooLarge) => {
            Ok(Some(refused_set(alloc, text)?))
        }
    }
}

/// What was expected of a text that is no specifier, and where; nothing for a specifier.
///
/// It takes memory as [`Specifier::parse`] does.
pub fn specifier_fault(alloc: Global, text: &str) -> Result<Option<Fault>, AllocError>
    ensures verdict { IfOk result (λ fault. MatchOption fault
        ((specifier : Specifier) × (parsed_specifier text.now ≡ Ok specifier))
        (λ f. (error : SpecifierError) × (parsed_specifier text.now ≡ Err error))) }
    ensures kind { IfOk result (λ fault. IfSome fault (λ f. is_of_set f.expected ≡ true)) }
    ensures stretch { IfOk result (λ fault. IfSome fault (λ f. IsStretch text.now f)) }
{
    match Specifier::parse(alloc, text) {
        Ok(_) => Ok(None),
        Err(SpecifierError::Memory) => Err(AllocError),
        Err(SpecifierError::Syntax | SpecifierError::NumberTooLarge) => {
            Ok(Some(refused_specifier(alloc, text)?))
        }
    }
}

/// The fault of a text that is refused as a set.
fn refused_set(alloc: Global, text: &str) -> Result<Fault, AllocError>
    ensures kind { IfOk result (λ f. is_of_set f.expected ≡ true) }
    ensures stretch { IfOk result (λ f. IsStretch text.now f) }
{
    let last = read_set(alloc, text)?.last;
    let rest = after_white(last.end);
    if let Some(fault) = trail_fault(text, last) {
        return Ok(fault);
    }
    if rest.is_empty() {
        return large_fault(alloc, text, text);
    }
    if last.is_specifier() {
        return Ok(fault_between(text, last.from, rest, Expected::SetEnd));
    }
    Ok(fault_at(text, rest, expected_specifier(rest)))
}

/// The fault of a text that is refused as one specifier.
fn refused_specifier(alloc: Global, text: &str) -> Result<Fault, AllocError>
    ensures kind { IfOk result (λ f. is_of_set f.expected ≡ true) }
    ensures stretch { IfOk result (λ f. IsStretch text.now f) }
{
    let piece = read_piece(alloc, text)?;
    let rest = after_white(piece.end);
    if let Some(fault) = trail_fault(text, piece) {
        return Ok(fault);
    }
    if !piece.is_specifier() {
        return Ok(fault_at(text, rest, expected_specifier(rest)));
    }
    if rest.is_empty() {
        return Ok(fault_between(text, piece.from, piece.end, Expected::SmallNumbers));
    }
    Ok(fault_between(text, piece.from, rest, Expected::OneSpecifier))
}

/// What was expected where no specifier stands.
fn expected_specifier(rest: &str) -> Expected
    ensures { is_of_set result ≡ true }
{
    if Operator::read(rest).is_some() {
        Expected::Version
    } else {
        Expected::VersionOperator
    }
}

/// The fault of the specifiers of a requirement, at which this end of its text begins.
pub(crate) fn declared_fault(alloc: Global, text: &str, source: &str) -> Result<Fault, AllocError>
    ensures kind { IfOk result (λ f. is_of_declared f.expected ≡ true) }
    ensures stretch { IfOk result (λ f. IsStretch text.now f) }
{
    let parenthesis = after_byte(b'(', source);
    let start = parenthesis.unwrap_or(source);
    let reading = read_set(alloc, start)?;
    if let Some(fault) = trail_fault(text, reading.last) {
        return Ok(fault);
    }
    let stop = after_white(reading.last.end);
    let Some(rest) = behind_closing(parenthesis.is_some(), stop) else {
        return Ok(fault_between(text, source, stop, Expected::ClosingSpecifiers));
    };
    if rest.is_empty() || after_byte(b';', rest).is_some() {
        return large_fault(alloc, text, start);
    }
    Ok(fault_between(text, source, rest, expected_behind(reading.has_any)))
}

/// The text behind the `)` with which specifiers end, where it was opened, and white space.
fn behind_closing(is_open: bool, stop: &str) -> Option<&str> {
    if is_open {
        Some(after_white(after_byte(b')', stop)?))
    } else {
        Some(stop)
    }
}

/// What was expected behind the specifiers of a requirement, or behind its name.
fn expected_behind(has_any: bool) -> Expected
    ensures { is_of_declared result ≡ true }
{
    if has_any {
        Expected::SpecifierEnd
    } else {
        Expected::NameEnd
    }
}

/// The fault of what stands behind a specifier, where it belongs to the version.
fn trail_fault(text: &str, piece: Piece<'_>) -> Option<Fault>
    ensures kind { IfSome result (λ f. is_of_specifier f.expected ≡ true) }
    ensures stretch { IfSome result (λ f. IsStretch text.now f) }
{
    if !piece.is_specifier() {
        return None;
    }
    let Piece { from, end } = piece;
    if let Some(star) = after_byte(b'.', end)
        && after_byte(b'*', star).is_some()
    {
        return Some(fault_between(text, from, star, Expected::PrefixOperator));
    }
    match end.as_bytes() {
        [b'+', first, ..] if first.is_ascii_alphanumeric() => {
            Some(fault_between(text, from, end, Expected::LocalOperator))
        }
        _ => None,
    }
}

/// The fault of specifiers of which one has a number that is too large.
fn large_fault(alloc: Global, text: &str, start: &str) -> Result<Fault, AllocError>
    ensures kind { IfOk result (λ f. is_of_specifier f.expected ≡ true) }
    ensures stretch { IfOk result (λ f. IsStretch text.now f) }
{
    let mut piece = read_piece(alloc, start)?;
    while let Some(next) = piece_behind_small(alloc, piece)? {
        piece = next;
    }
    Ok(fault_between(text, piece.from, piece.end, Expected::SmallNumbers))
}

/// The piece behind the next comma, unless this one has a number that is too large.
fn piece_behind_small(alloc: Global, piece: Piece<'_>) -> Result<Option<Piece<'_>>, AllocError>
    ensures { IfOk result (λ next. IfSome next
        (λ next. length next.end.now < length piece.entry.end.now)) }
{
    if is_large(alloc, piece)? {
        return Ok(None);
    }
    next_piece(alloc, piece)
}

/// The piece behind the next comma.
fn next_piece(alloc: Global, piece: Piece<'_>) -> Result<Option<Piece<'_>>, AllocError>
    ensures { IfOk result (λ next. IfSome next
        (λ next. length next.end.now < length piece.entry.end.now)) }
{
    match after_byte(b',', after_white(piece.end)) {
        Some(behind) => Ok(Some(read_piece(alloc, behind)?)),
        None => Ok(None),
    }
}

/// Reads specifiers with commas between them, as far as they go. Pieces of white space alone are
/// passed over.
fn read_set(alloc: Global, start: &str) -> Result<SetReading<'_>, AllocError> {
    let mut last = read_piece(alloc, start)?;
    let mut has_any = last.is_specifier();
    while let Some(next) = next_piece(alloc, last)? {
        has_any = has_any || next.is_specifier();
        last = next;
    }
    Ok(SetReading { last, has_any })
}
