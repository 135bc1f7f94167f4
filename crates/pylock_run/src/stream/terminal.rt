//! A sink to a terminal, which is given no character that steers it.

ghost use Rattle.std.specs.Prelude.{◌≡◌, ◌<◌, ◌++◌, None, length, IfOk, IfSome, OnOk, OnErr};
ghost use Rattle.std.specs.Prelude.{IfNone};
ghost use Rattle.std.specs.Str.Lossy.{utf8_lossy};
ghost use Rattle.pylock_shown.specs.Visible.{control_text};
ghost use Rattle.pylock_run.specs.Inner.Writes.{Writes};
ghost use Rattle.pylock_run.specs.Stream.{TakesPrefix, one_more};
ghost use Rattle.pylock_run.specs.Stream.Terminal.{steers_terminal, terminal_text};

use crate::stream::{IoFault, Sink, write_all};
use pylock_shown::{is_control, push_control};
use std::alloc::Global;
use std::str::from_utf8;

/// A sink over that of a terminal. Each character of Unicode's classes Cc, Cf, Zl and Zp but TAB
/// and LF, whether it steers the terminal or changes what is seen, is written as `\u{HEX}`.
///
/// It takes each piece whole, and exposes no bytes to contracts: those of `write` say what the
/// sink below it takes. Bytes that are no UTF-8 are written as U+FFFD, and so is a part of a
/// character at an end of a piece; no text of this program has such. It takes memory for the text
/// of one such character, or for a piece that is no UTF-8; where that is refused, the write fails.
#[derive(Drop)]
pub struct ToTerminal<S> {
    alloc: Global,
    inner: S,
    failures: u64,
}

impl<S: Sink> ToTerminal<S> {
    /// A sink over that of a terminal. It takes no memory.
    pub fn new(alloc: Global, inner: S) -> ToTerminal<S>
        ensures inner { result.inner ≡ inner }
        ensures value { ⟦<ToTerminal<S> as Sink>⟧.value result
            ≡ record { held = None; failures = 0 } }
    {
        ToTerminal {
            alloc,
            inner,
            failures: 0,
        }
    }
}

impl<S: Sink> Sink for ToTerminal<S> {
    ghost value = { λ t. record { held = None; failures = t.failures } };

    fn write(&mut self, piece: &[u8]) -> Result<usize, IoFault>
        ensures whole { IfOk result (λ n. n ≡ length piece.now) }
        ensures shown { OnOk result (Writes (S.value self.old.inner) (S.value self.new.inner)
            (terminal_text (utf8_lossy piece.now))) }
        ensures counted { OnOk result (self.new.failures ≡ self.old.failures) }
        ensures prefix { OnErr result (TakesPrefix (S.value self.old.inner)
            (S.value self.new.inner) (terminal_text (utf8_lossy piece.now))) }
        ensures failed { OnErr result (self.new.failures ≡ one_more self.old.failures) }
    {
        match write_piece(self.alloc, &mut self.inner, piece) {
            Ok(()) => Ok(piece.len()),
            Err(IoFault) => {
                self.failures = self.failures.saturating_add(1);
                Err(IoFault)
            }
        }
    }
}

/// Writes a piece as a terminal is given it.
fn write_piece<S: Sink>(alloc: Global, sink: &mut S, piece: &[u8]) -> Result<(), IoFault>
    ensures ok { OnOk result (Writes (S.value sink.old) (S.value sink.new)
        (terminal_text (utf8_lossy piece.now))) }
    ensures err { OnErr result (TakesPrefix (S.value sink.old) (S.value sink.new)
        (terminal_text (utf8_lossy piece.now))) }
{
    if let Ok(text) = from_utf8(piece) {
        return write_text(alloc, sink, text);
    }
    let Ok(text) = String::from_utf8_lossy(alloc, piece) else {
        return Err(IoFault);
    };
    write_text(alloc, sink, text.as_str())
}

/// Writes a text as a terminal is given it: what needs no change goes straight through.
fn write_text<S: Sink>(alloc: Global, sink: &mut S, text: &str) -> Result<(), IoFault>
    ensures ok { OnOk result (Writes (S.value sink.old) (S.value sink.new)
        (terminal_text text.now)) }
    ensures err { OnErr result (TakesPrefix (S.value sink.old) (S.value sink.new)
        (terminal_text text.now)) }
{
    let mut left = text;
    'parts: while let Some((plain, character, behind)) = around_control(left) {
        write_part(alloc, sink, plain, character)?;
        left = behind;
    }
    write_all(sink, left.as_bytes())
}

/// Writes a text that needs no change, and the number of the character behind it.
fn write_part<S: Sink>(
    alloc: Global,
    sink: &mut S,
    plain: &str,
    character: char,
) -> Result<(), IoFault>
    ensures ok { OnOk result (Writes (S.value sink.old) (S.value sink.new)
        (plain.now ++ control_text character)) }
    ensures err { OnErr result (TakesPrefix (S.value sink.old) (S.value sink.new)
        (plain.now ++ control_text character)) }
{
    let mut number = Vec::new(alloc);
    let Ok(()) = push_control(&mut number, character) else {
        return Err(IoFault);
    };
    write_all(sink, plain.as_bytes())?;
    write_all(sink, &number)
}

/// What stands before the first character that steers a terminal, which is given as it is, the
/// character, which is given as its number, and what stands behind it.
fn around_control(text: &str) -> Option<(&str, char, &str)>
    ensures parts { IfSome result (λ parts. terminal_text text.now
        ≡ (parts.0.now ++ control_text parts.1) ++ terminal_text parts.2.now) }
    ensures less { IfSome result (λ parts. length parts.2.now < length text.now) }
    ensures plain { IfNone result (terminal_text text.now ≡ text.now) }
{
    let mut characters = text.chars();
    let mut plain = 0;
    'characters: while let Some(character) = characters.next() {
        if steers_terminal(character) {
            return Some((&text[..plain], character, characters.as_str()));
        }
        plain += character.len_utf8();
    }
    None
}

/// Whether a character is given to a terminal as its number.
fn steers_terminal(character: char) -> bool
    ensures { result ≡ steers_terminal character }
{
    is_control(character) && !matches!(character, '\t' | '\n')
}
