//! Basic strings on one line, behind their quote. Bytes that stand for themselves are copied a run
//! at a time, and no byte is read twice, whatever stands behind it.
ghost use Rattle.std.specs.Prelude.{◌≡◌, ℕ, ◌<◌, ◌≤◌, IfOk, IfSome, Some, length, string_bytes};
ghost use Rattle.std.specs.Prelude.{false, take, true};
ghost use Rattle.std.specs.List.{list_all};
ghost use Rattle.std.specs.Str.{IsCharBoundary};
ghost use Rattle.toml_parser.specs.Strings.{body, escape_char, hex_escape, is_plain, prepend};
ghost use Rattle.pytoml.specs.Inner.{Reads, Shortens};
ghost use Rattle.pytoml.specs.Text.{Escapes, GoesOn, IsWritten};

use crate::fault::Unread;
use crate::text::{plain_len, simple_end};
use std::alloc::Global;
use toml_parser::text::{first, skip};

/// The string behind its quote.
#[inline(always)]
pub(crate) fn basic_string(alloc: Global, s: &str) -> Result<(String, &str), Unread>
    ensures value { (n : ℕ) → length s.now < n
        → Reads string_bytes result (body 34 false n s.now) }
    ensures shorter { Shortens s.now result }
{
    let (front, rest) = s.split_at(simple_end(s.as_bytes(), 0));
    if first(rest) == b'"' {
        return Ok((String::from_str(alloc, front)?, skip(rest, 1)));
    }
    let (text, rest) = behind(alloc, front, rest)?;
    Ok((text, rest))
}

/// The string that begins with this front and goes on in the text.
#[inline(never)]
fn behind<'a>(alloc: Global, front: &str, s: &'a str) -> Result<(String, &'a str), Unread>
    ensures value { (n : ℕ) → length s.now < n
        → Reads string_bytes result (prepend front.now (body 34 false n s.now)) }
    ensures shorter { Shortens s.now result }
{
    let mut text = String::from_str(alloc, front)?;
    let rest = more(&mut text, s)?;
    Ok((text, rest))
}

/// Adds what stands up to the closing quote, and gives what follows that.
fn more<'a>(text: &mut String, s: &'a str) -> Result<&'a str, Unread>
    ensures value { (n : ℕ) → length s.now < n → IfOk result (λ rest.
        prepend (string_bytes text.old) (body 34 false n s.now)
        ≡ Some (string_bytes text.new, rest.now)) }
    ensures shorter { IfOk result (λ rest. length rest.now < length s.now) }
{
    let mut rest = s;
    'pieces: loop {
        if first(rest) == b'"' {
            return Ok(skip(rest, 1));
        }
        rest = piece(text, rest)?;
    }
}

/// Adds what an escape stands for, or a run of bytes that stand for themselves.
fn piece<'a>(text: &mut String, s: &'a str) -> Result<&'a str, Unread>
    ensures value { IfOk result (λ rest.
        GoesOn s.now (string_bytes text.old) rest.now (string_bytes text.new)) }
    ensures shorter { IfOk result (λ rest. length rest.now < length s.now) }
{
    if first(s) == b'\\' {
        escape(text, skip(s, 1))
    } else {
        run(text, s)
    }
}

fn run<'a>(text: &mut String, s: &'a str) -> Result<&'a str, Unread>
    ensures value { IfOk result (λ rest.
        GoesOn s.now (string_bytes text.old) rest.now (string_bytes text.new)) }
    ensures shorter { IfOk result (λ rest. length rest.now < length s.now) }
{
    let (plain, rest) = s.split_at(run_len(s));
    if plain.is_empty() {
        return Err(Unread::Shape);
    }
    text.push_str(plain)?;
    Ok(rest)
}

/// How long a run at the front is. It may end before a tab; from a tab on it goes on byte by byte.
fn run_len(s: &str) -> usize
    ensures plain { list_all (is_plain 34 false) (take result s.now) ≡ true }
    ensures boundary { IsCharBoundary s.now result }
{
    if first(s) == b'\t' {
        plain_len(s.as_bytes())
    } else {
        simple_end(s.as_bytes(), 0)
    }
}

/// Adds the character that an escape stands for, behind its backslash.
#[tactic(auto, unfolding(toml_parser::specs::Strings::escape))]
fn escape<'a>(text: &mut String, s: &'a str) -> Result<&'a str, Unread>
    ensures value { IfOk result (λ rest.
        Escapes s.now (string_bytes text.old) rest.now (string_bytes text.new)) }
    ensures within { IfOk result (λ rest. length rest.now ≤ length s.now) }
{
    let Some((character, rest)) = escape_char(s) else {
        return Err(Unread::Shape);
    };
    text.push(character)?;
    Ok(rest)
}

#[tactic(auto, unfolding(toml_parser::specs::Strings::escape_char))]
fn escape_char(s: &str) -> Option<(char, &str)>
    ensures value { IfSome result (λ p. escape_char s.now ≡ Some (p.0, p.1.now)) }
    ensures within { IfSome result (λ p. length p.1.now ≤ length s.now) }
{
    let character = match first(s) {
        b'x' => return hex_escape(skip(s, 1), 2),
        b'u' => return hex_escape(skip(s, 1), 4),
        b'U' => return hex_escape(skip(s, 1), 8),
        b'b' => '\u{8}',
        b'e' => '\u{1b}',
        b'f' => '\u{c}',
        b'n' => '\n',
        b'r' => '\r',
        b't' => '\t',
        b'"' => '"',
        b'\\' => '\\',
        _ => return None,
    };
    Some((character, skip(s, 1)))
}

/// The character that so many hex digits at the front write.
#[tactic(auto, unfolding(toml_parser::specs::Strings::hex_escape))]
fn hex_escape(s: &str, len: usize) -> Option<(char, &str)>
    requires { 0 < len }
    ensures value { IfSome result (λ p. hex_escape len s.now ≡ Some (p.0, p.1.now)) }
    ensures within { IfSome result (λ p. length p.1.now ≤ length s.now) }
{
    let bytes = s.as_bytes();
    if bytes.len() < len {
        return None;
    }
    let character = hex_char(&bytes[..len])?;
    Some((character, skip(s, len)))
}

/// The character that hex digits write.
fn hex_char(digits: &[u8]) -> Option<char>
    ensures { IfSome result (λ c. IsWritten digits.now c) }
{
    let mut value = 0;
    for byte in digits {
        if value > 0x10FFFF {
            return None;
        }
        value = value * 16 + char::from(*byte).to_digit(16)?;
    }
    char::from_u32(value)
}
