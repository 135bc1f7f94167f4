//! Keys, values and lines at the front of a text (TOML 1.1), with the bytes that each takes.

ghost use Rattle.std.specs.Prelude.{◌≡◌, ◌+◌, ◌-◌, ◌≤◌, IfOk, IfSome, drop, length, take, true};
ghost use Rattle.toml_parser.specs.Strings.{starts_string};
ghost use Rattle.pylock_spans.specs.Inner.{BeginsIn, IsLineOf, TakesSome};

use std::alloc::{AllocError, Global};
use toml_parser::bytes::is_word;
use toml_parser::text::{first, skip, skip_blank, skip_ws};
use toml_parser::{Key, ParseError, dotted_key, quoted, starts_string, unquoted};

/// What a line is, unless it is blank.
#[derive(Drop)]
pub(crate) enum Line {
    /// A header (TOML 1.1, “Table”, “Array of Tables”).
    Header {
        /// The key between its brackets.
        key: Key,
        /// Whether its brackets are doubled.
        of_array: bool,
    },
    /// A key and a value (TOML 1.1, “Key/Value Pair”).
    Pair(Pair),
}

/// A key and a value.
#[derive(Drop)]
pub(crate) struct Pair {
    pub(crate) key: Key,
    /// How many bytes stand before the value.
    pub(crate) before_value: usize,
    /// How many bytes both take.
    pub(crate) length: usize,
}

/// What follows the first bytes of a text, where a character ends there.
pub(crate) fn rest_of(text: &str, at: usize) -> Option<&str>
    ensures rest { IfSome result (λ rest. rest.now ≡ drop at text.now) }
    ensures length { IfSome result (λ rest. length rest.now + at ≡ length text.now) }
{
    if text.is_char_boundary(at) {
        Some(&text[at..])
    } else {
        None
    }
}

/// The text between two bytes, where characters end there.
pub(crate) fn between(text: &str, start: usize, end: usize) -> Option<&str>
    ensures order { IfSome result (λ _. (start ≤ end) × (end ≤ length text.now)) }
    ensures part { IfSome result (λ part. part.now ≡ take (end - start) (drop start text.now)) }
    ensures length { IfSome result (λ part. length part.now + start ≡ end) }
{
    if start <= end && text.is_char_boundary(start) && text.is_char_boundary(end) {
        Some(&text[start..end])
    } else {
        None
    }
}

/// Where what isn't blank begins that follows this byte.
pub(crate) fn behind_blank(text: &str, at: usize) -> Option<usize>
    ensures { IfSome result (λ start. start ≤ length text.now) }
{
    let rest = rest_of(text, at)?;
    Some(at + blank_length(rest))
}

/// How many bytes of white space, newlines and comments the text begins with.
fn blank_length(text: &str) -> usize
    ensures { result ≤ length text.now }
{
    text.len() - skip_blank(text, true).len()
}

// ---- keys

/// The key that the text begins with, and how many bytes it and the white space behind it take.
pub(crate) fn read_key(alloc: Global, text: &str) -> Result<Option<(Key, usize)>, AllocError>
    ensures { IfOk result (λ found. IfSome found (λ key. key.1 ≤ length text.now)) }
{
    match dotted_key(alloc, text) {
        Ok((key, rest)) => Ok(Some((key, text.len() - rest.len()))),
        Err(ParseError::OutOfMemory) => Err(AllocError),
        Err(ParseError::At(_, _, _)) => Ok(None),
    }
}

// ---- values

/// How many bytes the value takes that the text begins with.
pub(crate) fn value_length(alloc: Global, text: &str) -> Result<Option<usize>, AllocError>
    ensures { TakesSome text.now result }
{
    match first(text) {
        b'[' | b'{' => bracketed_length(alloc, text),
        _ => atom_length(alloc, text),
    }
}

/// How many bytes a string, a number, a boolean or a date-time takes.
fn atom_length(alloc: Global, text: &str) -> Result<Option<usize>, AllocError>
    ensures { TakesSome text.now result }
{
    if starts_string(text) {
        return string_length(alloc, text);
    }
    match unquoted(alloc, text) {
        Ok((_, rest)) => Ok(Some(text.len() - rest.len())),
        Err(ParseError::OutOfMemory) => Err(AllocError),
        Err(ParseError::At(_, _, _)) => Ok(None),
    }
}

/// How many bytes a string takes.
fn string_length(alloc: Global, text: &str) -> Result<Option<usize>, AllocError>
    requires { starts_string text.now ≡ true }
    ensures { TakesSome text.now result }
{
    match quoted(alloc, text) {
        Ok((_, rest)) => Ok(Some(text.len() - rest.len())),
        Err(ParseError::OutOfMemory) => Err(AllocError),
        Err(ParseError::At(_, _, _)) => Ok(None),
    }
}

/// How many bytes an array or an inline table takes: up to the bracket that closes the first.
fn bracketed_length(alloc: Global, text: &str) -> Result<Option<usize>, AllocError>
    ensures { TakesSome text.now result }
{
    let mut open: usize = 0;
    let mut at: usize = 0;
    for _ in 0..text.len() {
        let Some(rest) = rest_of(text, at) else {
            return Ok(None);
        };
        match first(rest) {
            b'[' | b'{' => open = open.saturating_add(1),
            b']' | b'}' => open = open.saturating_sub(1),
            _ => {}
        }
        let Some(length) = token_length(alloc, rest)? else {
            return Ok(None);
        };
        at += length;
        if open == 0 {
            return Ok(Some(at));
        }
    }
    Ok(None)
}

/// How many bytes a token between brackets takes: a bracket, a sign, a string, a run of white space
/// and comments, or a run of the bytes of keys and scalars.
fn token_length(alloc: Global, text: &str) -> Result<Option<usize>, AllocError>
    ensures { TakesSome text.now result }
{
    if starts_string(text) {
        return string_length(alloc, text);
    }
    if text.is_empty() {
        return Ok(None);
    }
    if matches!(first(text), b'[' | b']' | b'{' | b'}' | b',' | b'=') {
        return Ok(Some(1));
    }
    let blank = blank_length(text);
    if blank > 0 {
        return Ok(Some(blank));
    }
    let bytes = text.as_bytes().iter();
    let word = bytes.take_while(|byte| is_word(**byte)).count();
    if word > 0 { Ok(Some(word)) } else { Ok(None) }
}

// ---- lines

/// A line, where it begins and where it ends, in bytes from the beginning of the text.
#[derive(Drop)]
pub(crate) struct LineAt {
    pub(crate) start: usize,
    pub(crate) line: Line,
    pub(crate) end: usize,
}

/// The first line behind this byte that isn't blank.
pub(crate) fn line_at(alloc: Global, text: &str, at: usize) -> Result<Option<LineAt>, AllocError>
    ensures { IfOk result (λ found. IfSome found (IsLineOf text.now)) }
{
    let Some(start) = behind_blank(text, at) else {
        return Ok(None);
    };
    let Some(rest) = rest_of(text, start) else {
        return Ok(None);
    };
    match read_line(alloc, rest)? {
        Some((line, length)) => {
            let end = start + length;
            Ok(Some(LineAt { start, line, end }))
        }
        None => Ok(None),
    }
}

/// The line that the text begins with, which isn't blank, and how many bytes it takes.
fn read_line(alloc: Global, text: &str) -> Result<Option<(Line, usize)>, AllocError>
    ensures { IfOk result (λ found. IfSome found (λ line.
        (line.1 ≤ length text.now) × BeginsIn (length text.now) line.0)) }
{
    if text.starts_with("[[") {
        return read_header(alloc, text, 2);
    }
    if text.starts_with("[") {
        return read_header(alloc, text, 1);
    }
    match read_pair(alloc, text)? {
        Some(pair) => {
            let length = pair.length;
            Ok(Some((Line::Pair(pair), length)))
        }
        None => Ok(None),
    }
}

/// The header that the text begins with, which has so many brackets on each side.
fn read_header(
    alloc: Global,
    text: &str,
    brackets: usize,
) -> Result<Option<(Line, usize)>, AllocError>
    requires { brackets ≤ 2 }
    ensures { IfOk result (λ found. IfSome found (λ line.
        (line.1 ≤ length text.now) × BeginsIn (length text.now) line.0)) }
{
    let Some(inner) = rest_of(text, brackets) else {
        return Ok(None);
    };
    let inner = skip_ws(inner);
    let before = text.len() - inner.len();
    let Some((key, length)) = read_key(alloc, inner)? else {
        return Ok(None);
    };
    let end = before + length + brackets;
    if end > text.len() {
        return Ok(None);
    }
    let of_array = brackets == 2;
    Ok(Some((Line::Header { key, of_array }, end)))
}

/// The key and the value that the text begins with.
pub(crate) fn read_pair(alloc: Global, text: &str) -> Result<Option<Pair>, AllocError>
    ensures { IfOk result (λ found. IfSome found (λ pair.
        (pair.before_value ≤ length text.now) × (pair.length ≤ length text.now))) }
{
    let Some((key, key_length)) = read_key(alloc, text)? else {
        return Ok(None);
    };
    let Some(value) = rest_of(text, key_length) else {
        return Ok(None);
    };
    if first(value) != b'=' {
        return Ok(None);
    }
    let value = skip_ws(skip(value, 1));
    let before_value = text.len() - value.len();
    match value_length(alloc, value)? {
        Some(taken) => {
            let length = before_value + taken;
            let pair = Pair {
                key,
                before_value,
                length,
            };
            Ok(Some(pair))
        }
        None => Ok(None),
    }
}
