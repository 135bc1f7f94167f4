//! The lines of a refused text.

ghost use Rattle.std.specs.Prelude.{◌≡◌, ◌++◌, IfOk, OnOk, replicate, string_bytes};
ghost use Rattle.std.specs.Str.{IsCharBoundary};
ghost use Rattle.pylock_pointed.specs.Lines.{ArePointed, column, lines};
ghost use Rattle.pylock_shown.specs.Hidden.{hidden};
ghost use Rattle.pylock_shown.specs.Visible.{visible};

use crate::place::place_in_hidden;
use pylock_shown::{hidden, push_visible};
use pymark_expected::Fault;
use std::alloc::{AllocError, Global};

/// The text and a stretch below it, which ends at a `^`, with four spaces before each line. Secrets
/// of the text are hidden, and a control character stands there as `\u{HEX}`.
///
/// It takes memory for the text, several times.
pub fn pointed_lines(alloc: Global, text: &str, fault: &Fault) -> Result<String, AllocError>
    ensures { IfOk result (λ shown.
        ArePointed text.now (hidden text.now) fault.now (string_bytes shown)) }
{
    let hidden = hidden(alloc, text)?;
    let shown = hidden.as_str();
    let begin = place_in_hidden(text, shown, fault.begin);
    let end = place_in_hidden(text, shown, fault.end);
    let before = column(alloc, shown, begin)?;
    let within = column(alloc, shown, end)?.saturating_sub(before);
    lines(alloc, shown, before, within)
}

/// How many characters stand before the place, as the text is shown.
fn column(alloc: Global, text: &str, place: usize) -> Result<usize, AllocError>
    requires { IsCharBoundary text.now place }
    ensures { IfOk result (λ count. count ≡ column text.now place) }
{
    let mut before = Vec::new(alloc);
    push_visible(&mut before, text.split_at(place).0)?;
    let shown = String::from_utf8_lossy(alloc, &before)?;
    Ok(shown.as_str().chars().count())
}

/// The lines of a text with so many characters before the stretch, and in it.
fn lines(alloc: Global, text: &str, before: usize, within: usize) -> Result<String, AllocError>
    ensures { IfOk result (λ shown. string_bytes shown ≡ lines (visible text.now) before within) }
{
    let mut out = Vec::new(alloc);
    push_lines(&mut out, text, before, within)?;
    String::from_utf8_lossy(alloc, &out)
}

fn push_lines(out: &mut Vec<u8>, text: &str, before: usize, within: usize) -> Result<(), AllocError>
    ensures { OnOk result
        (out.new.items ≡ out.old.items ++ lines (visible text.now) before within) }
{
    out.extend_from_slice(b"    ")?;
    push_visible(out, text)?;
    out.extend_from_slice(b"\n    ")?;
    push_repeated(out, b' ', before)?;
    push_repeated(out, b'~', within)?;
    Ok(out.push(b'^')?)
}

fn push_repeated(out: &mut Vec<u8>, byte: u8, count: usize) -> Result<(), AllocError>
    ensures { OnOk result (out.new.items ≡ out.old.items ++ replicate count byte) }
{
    for _ in 0..count {
        out.push(byte)?;
    }
    Ok(())
}
