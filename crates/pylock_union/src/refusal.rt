//! What is told of two sources that differ.

ghost use Rattle.std.specs.Prelude.{◌≡◌, ◌++◌, ◌∷◌, IfOk, OnOk, decimal, map, string_bytes};
ghost use Rattle.pylock_core.specs.Session.Picks.{lent_source};
ghost use Rattle.pylock_run.specs.Text.Field.{fields_text};
ghost use Rattle.pylock_union.specs.Text.{called, clash_fields, clash_text, clash_words};

use crate::union::Clash;
use itoa::Buffer;
use pylock_core::PickedSource;
use pylock_run::{push_decimal, push_next_field, push_word};
use pylock_shown::hidden;
use std::alloc::{AllocError, Global};

/// Pushes the line of the refusal: `refused` and `files`, the numbers of the earlier source's lock
/// and entry, those of the later one, and the file, joined by TABs. It takes memory for the line.
pub fn push_clash(out: &mut Vec<u8>, clash: &Clash<'_>) -> Result<(), AllocError>
    ensures { OnOk result (out.new.items
        ≡ out.old.items ++ clash_text clash.now.0 clash.now.1) }
{
    out.extend_from_slice(b"refused")?;
    push_fields(out, clash)?;
    out.push(b'\n')?;
    Ok(())
}

/// Pushes the fields of the refusal, each behind a TAB.
fn push_fields(out: &mut Vec<u8>, clash: &Clash<'_>) -> Result<(), AllocError>
    ensures { OnOk result (out.new.items ≡ out.old.items
        ++ fields_text (clash_fields clash.now.0 clash.now.1)) }
{
    push_word(out, b"files")?;
    push_number(out, clash.earlier.lock)?;
    push_number(out, clash.earlier.number)?;
    push_number(out, clash.later.lock)?;
    push_number(out, clash.later.number)?;
    let called = called(*out.allocator(), clash.later.source)?;
    push_next_field(out, Some(called.as_str()))
}

/// Pushes a TAB and a number.
fn push_number(out: &mut Vec<u8>, number: u64) -> Result<(), AllocError>
    ensures { OnOk result (out.new.items ≡ out.old.items ++ 9 ∷ decimal number) }
{
    out.push(b'\t')?;
    push_decimal(out, number)
}

/// Its file name, or the place of what has none, as it is shown.
fn called(alloc: Global, source: PickedSource<'_>) -> Result<String, AllocError>
    ensures { IfOk result (λ text. string_bytes text ≡ called (lent_source source.entry)) }
{
    hidden(alloc, source.file_name().unwrap_or(source.place()))
}

/// The words of the refusal: `files`, the numbers of the earlier source's lock and entry, those of
/// the later one, and the file. It takes memory for them.
pub fn clash_words(alloc: Global, clash: &Clash<'_>) -> Result<Vec<String>, AllocError>
    ensures { IfOk result (λ words. map string_bytes words.items
        ≡ clash_words clash.now.0 clash.now.1) }
{
    let mut words = Vec::with_capacity(alloc, 6)?;
    words.push(String::from_str(alloc, "files")?)?;
    words.push(number_word(alloc, clash.earlier.lock)?)?;
    words.push(number_word(alloc, clash.earlier.number)?)?;
    words.push(number_word(alloc, clash.later.lock)?)?;
    words.push(number_word(alloc, clash.later.number)?)?;
    words.push(called(alloc, clash.later.source)?)?;
    Ok(words)
}

/// The decimal digits of a number.
fn number_word(alloc: Global, number: u64) -> Result<String, AllocError>
    ensures { IfOk result (λ word. string_bytes word ≡ decimal number) }
{
    let mut digits = Buffer::new();
    String::from_str(alloc, digits.format(number))
}
