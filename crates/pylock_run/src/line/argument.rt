//! What follows the command of a line: its argument.

ghost use Rattle.std.specs.Prelude.{◌≡◌, ◌++◌, ◌∷◌, [], Ok, OnOk, filter, map};
ghost use Rattle.pytext.specs.Agreement.{Gives};
ghost use Rattle.pylock_run.specs.Line.Argument.{nonempty_text, split_at_space, number_argument};
ghost use Rattle.pylock_run.specs.Line.Argument.{is_entry_number, is_nonempty, pieces};

use crate::line::refusal::LineRefusal;
use pytext::are_digits;
use std::alloc::{AllocError, Global};

/// A text that isn't empty.
pub fn nonempty_text(text: &str) -> Result<&str, LineRefusal>
    ensures { Gives LineRefusal.Memory (λ text. text.now) result (nonempty_text text.now) }
{
    if text.is_empty() {
        return Err(LineRefusal::Argument);
    }
    Ok(text)
}

/// What stands before and after the first space, which has to be there.
pub fn split_at_space(text: &str) -> Result<(&str, &str), LineRefusal>
    ensures { Gives LineRefusal.Memory (λ cut. (cut.0.now, cut.1.now)) result
        (split_at_space text.now) }
{
    match text.split_once(' ') {
        Some((prefix, rest)) => Ok((prefix, rest)),
        None => Err(LineRefusal::Argument),
    }
}

/// An entry's number: one to six digits, the first not `0`.
pub fn number_argument(text: &str) -> Result<u32, LineRefusal>
    ensures { Gives LineRefusal.Memory (λ number. number) result (number_argument text.now) }
{
    if !is_entry_number(text.as_bytes()) {
        return Err(LineRefusal::Argument);
    }
    match text.parse() {
        Ok(number) => Ok(number),
        Err(_) => Err(LineRefusal::Argument),
    }
}

fn is_entry_number(digits: &[u8]) -> bool
    ensures { result ≡ is_entry_number digits.now }
{
    let Some(first) = digits.first() else {
        return false;
    };
    *first != b'0' && digits.len() <= 6 && are_digits(digits)
}

/// The pieces of a text between its spaces, without the empty ones.
pub fn pieces(alloc: Global, text: &str) -> Result<Vec<&str>, LineRefusal>
    ensures { Gives LineRefusal.Memory (λ texts. map (λ text. text.now) texts.items) result
        (Ok (pieces text.now)) }
{
    let mut texts = Vec::new(alloc);
    for piece in text.split(' ') {
        push_nonempty(&mut texts, piece)?;
    }
    Ok(texts)
}

/// Pushes a piece that isn't empty.
fn push_nonempty<'a>(texts: &mut Vec<&'a str>, piece: &'a str) -> Result<(), AllocError>
    ensures { OnOk result (map (λ text. text.now) texts.new.items
        ≡ map (λ text. text.now) texts.old.items ++ filter is_nonempty (piece.now ∷ [])) }
{
    if !piece.is_empty() {
        texts.push(piece)?;
    }
    Ok(())
}
