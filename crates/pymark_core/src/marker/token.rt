//! The tokens of a marker's text (PEP 508, "Grammar").

ghost use Rattle.std.specs.Prelude.{◌≡◌, ◌<◌, IsTrue, drop, length, ok_or, option_map, slice_index};
ghost use Rattle.std.specs.List.{prefix_len};
ghost use Rattle.pytext.specs.Agreement.{Gives};
ghost use Rattle.pymark_core.specs.Inner.LentToken.{next_token, lent_next, lent_pair, lent_token};
ghost use Rattle.pymark_core.specs.Inner.LentToken.{text_before_quote};
ghost use Rattle.pymark_core.specs.Inner.LentToken.{first_token, token_and_rest};
ghost use Rattle.pymark_core.specs.Marker.Token as token;
ghost use Rattle.pytext.specs.Bytes.{is_word_byte};
ghost use Rattle.pymark_core.specs.Marker.Token.{is_inside, is_quote, operator_in, token_by};
ghost use Rattle.pymark_core.specs.Marker.Token.{word_in};

use super::error::MarkerError;
use pytext::{after_white, is_word_byte};
use pyver_core::Operator;

/// A token of a marker, lent from the text (PEP 508, "Grammar").
#[derive(Clone, Copy)]
pub enum Token<'a> {
    /// `(`
    Open,
    /// `)`
    Close,
    /// An operator of specifiers.
    Sign(Operator),
    /// Letters, digits and `_`.
    Word(&'a str),
    /// What stands between two quotes.
    Quoted(&'a str),
}

/// Whether the byte may stand between two of these quotes.
fn is_inside(quote: u8, byte: u8) -> bool
    ensures { result ≡ is_inside quote byte }
{
    byte != quote && byte != b'\\' && (byte == b'\t' || byte >= b' ' && byte != 0x7f)
}

fn is_quote(byte: u8) -> bool
    ensures value { result ≡ is_quote byte }
    ensures ascii { IsTrue result → byte < 128 }
{
    byte == b'"' || byte == b'\''
}

fn inside_len(quote: u8, text: &str) -> usize
    ensures { result ≡ prefix_len (is_inside quote) text.now }
{
    text.as_bytes()
        .iter()
        .take_while(|b| is_inside(quote, **b))
        .count()
}

fn word_len(text: &str) -> usize
    ensures { result ≡ prefix_len is_word_byte text.now }
{
    text.as_bytes()
        .iter()
        .take_while(|b| is_word_byte(**b))
        .count()
}

/// What stands between an opening quote, which stands before the text, and the same quote, and the
/// text after it.
#[tactic(auto, using(crate::proofs::BoundaryLemmas::around_ascii))]
fn text_before_quote(quote: u8, text: &str) -> Option<(&str, &str)>
    requires { quote < 128 }
    ensures { option_map lent_pair result ≡ text_before_quote quote text.now }
{
    let len = inside_len(quote, text);
    if len < text.len() && text.as_bytes()[len] == quote {
        return Some((text.split_at(len).0, text.split_at(len + 1).1));
    }
    None
}

/// The longest operator at the beginning of the text, and the text after it.
#[tactic(auto, using(crate::proofs::Lemmas::Marker::Token::First::behind_cut))]
fn read_sign(text: &str) -> Option<(Token<'_>, &str)>
    ensures { option_map lent_token result
        ≡ token_and_rest text.now (option_map token.sign (operator_in text.now)) }
{
    let (operator, rest) = Operator::read(text)?;
    Some((Token::Sign(operator), rest))
}

/// The word at the beginning of the text, and the text after it.
#[tactic(auto, using(crate::proofs::BoundaryLemmas::boundary_after_word))]
fn read_word(text: &str) -> (&str, &str)
    ensures front { result.0.now ≡ word_in text.now }
    ensures rest { result.1.now ≡ drop (length (word_in text.now)) text.now }
{
    text.split_at(word_len(text))
}

/// The text behind its first byte, which is no part of a longer character.
#[tactic(auto, using(crate::proofs::BoundaryLemmas::boundary_after_first))]
fn after_first(text: &str) -> &str
    requires some { 0 < length text.now }
    requires ascii { slice_index text.now 0 < 128 }
    ensures { result.now ≡ drop 1 text.now }
{
    text.split_at(1).1
}

/// The token of a text that begins with this byte, and the text after it.
#[tactic(auto, using(crate::proofs::Lemmas::Marker::Token::First::quotation_at))]
fn token_by(first: u8, text: &str) -> Option<(Token<'_>, &str)>
    requires some { 0 < length text.now }
    requires first { slice_index text.now 0 ≡ first }
    ensures { option_map lent_token result ≡ token_and_rest text.now (token_by first text.now) }
{
    if first == b'(' {
        return Some((Token::Open, after_first(text)));
    }
    if first == b')' {
        return Some((Token::Close, after_first(text)));
    }
    if is_quote(first) {
        let (inside, rest) = text_before_quote(first, after_first(text))?;
        return Some((Token::Quoted(inside), rest));
    }
    if is_word_byte(first) {
        let (letters, rest) = read_word(text);
        return Some((Token::Word(letters), rest));
    }
    read_sign(text)
}

/// The token at the beginning of the text, and the text after it.
#[tactic(auto, using(crate::proofs::Lemmas::Marker::Token::First::first_token_is))]
pub(super) fn first_token(text: &str) -> Option<(Token<'_>, &str)>
    ensures { option_map lent_token result ≡ first_token text.now }
{
    if text.is_empty() {
        return None;
    }
    token_by(text.as_bytes()[0], text)
}

/// The next token of a marker's text behind white space, and the text after it. There is none where
/// the text ends; `Syntax` is answered where something else than a token stands there. It takes no
/// memory.
pub fn next_token(text: &str) -> Result<Option<(Token<'_>, &str)>, MarkerError>
    ensures { Gives MarkerError.Memory lent_next result
        (ok_or (next_token text.now) MarkerError.Syntax) }
{
    let rest = after_white(text);
    if rest.is_empty() {
        return Ok(None);
    }
    match first_token(rest) {
        Some(front) => Ok(Some(front)),
        None => Err(MarkerError::Syntax),
    }
}
