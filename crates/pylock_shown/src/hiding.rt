//! Texts without what opens a URL.

ghost use Rattle.std.specs.Prelude.{◌≡◌, ◌++◌, IfOk, OnOk, Some, string_bytes};
ghost use Rattle.std.specs.Fmt.{WritesOnOk};
ghost use Rattle.pylock_shown.specs.Hidden.{hidden, hidden_behind_mark, hidden_fragment};
ghost use Rattle.pylock_shown.specs.Hidden.{hidden_front, hidden_key, hidden_name, hidden_piece};
ghost use Rattle.pylock_shown.specs.Hidden.{hidden_place, hidden_query, without_user};
ghost use Rattle.pylock_shown.specs.Inner.Parts.{query_part};

use crate::text::{around, around_last_at, front_len, has_mark, has_slash_or_at};
use std::alloc::{AllocError, Global};
use std::fmt;
use std::fmt::{Formatter, Write};

/// A text that is displayed as it is shown to a person: `***` stands for what is behind its first
/// slash and before an `@`, and for the values of its query. Its display takes no memory.
#[derive(Clone, Copy)]
pub struct Shown<'a>(pub &'a str);

impl fmt::Display for Shown<'_> {
    ghost output = { λ shown. Some (hidden shown.0.now) };

    fn fmt<W: Write>(&self, f: &mut Formatter<W>) -> fmt::Result {
        let text = self.0;
        match around(text, b'?') {
            Some((front, behind)) => {
                write_front(f, front)?;
                f.write_str("?")?;
                write_behind_mark(f, behind)
            }
            None => write_front(f, text),
        }
    }
}

/// The text as it is shown. It takes memory for the text, once more while it grows.
pub fn hidden(alloc: Global, text: &str) -> Result<String, AllocError>
    ensures { IfOk result (λ shown. string_bytes shown ≡ hidden text.now) }
{
    let mut shown = String::new(alloc);
    push_hidden(&mut shown, text)?;
    Ok(shown)
}

/// Adds the text as it is shown. It takes memory where the other text has no room.
pub fn push_hidden(out: &mut String, text: &str) -> Result<(), AllocError>
    ensures { OnOk result (string_bytes out.new ≡ string_bytes out.old ++ hidden text.now) }
{
    let shown = Shown(text);
    write!(out, "{shown}")
}

/// A file name that is displayed as what stands behind a slash.
#[derive(Clone, Copy)]
struct ShownName<'a>(&'a str);

impl fmt::Display for ShownName<'_> {
    ghost output = { λ shown. Some (hidden_name shown.0.now) };

    fn fmt<W: Write>(&self, f: &mut Formatter<W>) -> fmt::Result {
        let name = self.0;
        match around(name, b'?') {
            Some((place, behind)) => {
                write_place(f, place)?;
                f.write_str("?")?;
                write_behind_mark(f, behind)
            }
            None => write_place(f, name),
        }
    }
}

/// A file name as it is shown: as what stands behind a slash. It takes memory for the text, once
/// more while it grows.
pub fn hidden_name(alloc: Global, name: &str) -> Result<String, AllocError>
    ensures { IfOk result (λ shown. string_bytes shown ≡ hidden_name name.now) }
{
    let shown = ShownName(name);
    format!(in alloc; "{shown}")
}

/// Writes what stands behind a `?`: a query, and behind the first `#` a fragment.
fn write_behind_mark<W: Write>(f: &mut Formatter<W>, text: &str) -> fmt::Result
    ensures { WritesOnOk W.write_str_gives f.old result (hidden_behind_mark text.now) f.new }
{
    match around(text, b'#') {
        Some((query, fragment)) => {
            write_query(f, query)?;
            f.write_str("#")?;
            write_fragment(f, fragment)
        }
        None => write_query(f, text),
    }
}

/// Writes a fragment, or `***`, where it may have a query of its own.
fn write_fragment<W: Write>(f: &mut Formatter<W>, text: &str) -> fmt::Result
    ensures { WritesOnOk W.write_str_gives f.old result (hidden_fragment text.now) f.new }
{
    if has_mark(text) {
        f.write_str("***")
    } else {
        write_place(f, text)
    }
}

// ---- before the query

/// Writes what stands before the query.
#[tactic(auto, using(crate::proofs::SlashLemmas::behind_front))]
fn write_front<W: Write>(f: &mut Formatter<W>, text: &str) -> fmt::Result
    ensures { WritesOnOk W.write_str_gives f.old result (hidden_front text.now) f.new }
{
    let place = front_len(text);
    f.write_str(&text[..place])?;
    write_place(f, &text[place..])
}

/// Writes what stands behind a slash, each piece between two `/` without its user.
fn write_place<W: Write>(f: &mut Formatter<W>, text: &str) -> fmt::Result
    ensures { WritesOnOk W.write_str_gives f.old result (hidden_place text.now) f.new }
{
    let mut left = text;
    while let Some((piece, rest)) = around(left, b'/') {
        write_without_user(f, piece)?;
        f.write_str("/")?;
        left = rest;
    }
    write_without_user(f, left)
}

/// Writes the text, with `***` for what stands before its last `@`.
fn write_without_user<W: Write>(f: &mut Formatter<W>, text: &str) -> fmt::Result
    ensures { WritesOnOk W.write_str_gives f.old result (without_user text.now) f.new }
{
    match around_last_at(text) {
        Some((_, behind)) => {
            f.write_str("***@")?;
            f.write_str(behind)
        }
        None => f.write_str(text),
    }
}

// ---- the query

/// Writes a query without its values.
fn write_query<W: Write>(f: &mut Formatter<W>, query: &str) -> fmt::Result
    ensures { WritesOnOk W.write_str_gives f.old result (hidden_query query.now) f.new }
{
    let mut left = query;
    while let Some((part, rest)) = around(left, b'&') {
        write_query_part(f, part)?;
        f.write_str("&")?;
        left = rest;
    }
    write_query_part(f, left)
}

/// Writes what stands between two `&` of a query.
fn write_query_part<W: Write>(f: &mut Formatter<W>, part: &str) -> fmt::Result
    ensures { WritesOnOk W.write_str_gives f.old result (query_part part.now) f.new }
{
    let mut left = part;
    while let Some((piece, rest)) = around(left, b';') {
        write_query_piece(f, piece)?;
        f.write_str(";")?;
        left = rest;
    }
    write_query_piece(f, left)
}

/// Writes a piece of a query: its key, with `***` for its value; or `***`, where it has no `=`.
fn write_query_piece<W: Write>(f: &mut Formatter<W>, piece: &str) -> fmt::Result
    ensures { WritesOnOk W.write_str_gives f.old result (hidden_piece piece.now) f.new }
{
    match around(piece, b'=') {
        Some((key, _)) => {
            write_key(f, key)?;
            f.write_str("=***")
        }
        None => f.write_str("***"),
    }
}

/// Writes a key of a query, or `***`, where it may be of a URL.
fn write_key<W: Write>(f: &mut Formatter<W>, key: &str) -> fmt::Result
    ensures { WritesOnOk W.write_str_gives f.old result (hidden_key key.now) f.new }
{
    if has_slash_or_at(key) {
        f.write_str("***")
    } else {
        f.write_str(key)
    }
}
