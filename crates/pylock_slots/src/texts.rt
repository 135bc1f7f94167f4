//! Texts that come as bytes, and kept texts.

ghost use Rattle.std.specs.Prelude.{◌≡◌, ℕ, List, Result, Some};
ghost use Rattle.pytext.specs.Agreement.{Gives};
ghost use Rattle.pylock_run.specs.declared.line.refusal.LineRefusal.TheVariants as line;
ghost use Rattle.pylock_slots.specs.Answer.{Tells, Writes};
ghost use Rattle.pylock_slots.specs.Slot.{kept_object, object};
ghost use Rattle.pylock_slots.specs.declared.refusal.Refusal.{Refusal as Refused};
ghost use Rattle.pylock_slots.specs.declared.refusal.Refusal.TheVariants.{Memory};
ghost use Rattle.pylock_slots.specs.Text.{kept_text, text_argument, text_in, text_length};

use crate::answer::{keep_object, tell_value, write};
use crate::object::{Bytes, Object};
use crate::refusal::Refusal;
use crate::slot::Slot;
use pylock_run::LineRefusal;
use std::alloc::Global;

/// The text that the bytes are.
#[tactic(auto, using(crate::proofs::TextLemmas::utf8_tests))]
pub fn text(bytes: &[u8]) -> Result<&str, LineRefusal>
    ensures { Gives line.Memory (λ text. text.now) result (text_argument bytes.now) }
{
    match std::str::from_utf8(bytes) {
        Ok(text) => Ok(text),
        Err(_) => Err(LineRefusal::Text),
    }
}

/// Leaves the text in the slot, and answers the code.
pub fn keep_text(alloc: Global, outcome: Result<Vec<u8>, Refusal>, slot: &mut Slot) -> i32
    ensures { (definition : Result (List ℕ) Refused)
        → Gives Memory (λ bytes. bytes.items) outcome definition
        → Tells (kept_text definition) (object slot.old) (object slot.new) result }
{
    keep_object(alloc, as_object(outcome), slot)
}

fn as_object(outcome: Result<Vec<u8>, Refusal>) -> Result<Object, Refusal>
    ensures { (definition : Result (List ℕ) Refused)
        → Gives Memory (λ bytes. bytes.items) outcome definition
        → Gives Memory (λ kept. Some kept) result (kept_text definition) }
{
    Ok(Object::Text(Bytes::new(outcome?)))
}

/// The bytes of a kept text.
pub fn text_in(kept: &Option<Box<Object>>) -> Result<&[u8], Refusal>
    ensures { Gives Memory (λ text. text.now) result (text_in (kept_object kept.now)) }
{
    match kept.as_deref() {
        Some(Object::Text(text)) => Ok(text.as_slice()),
        _ => Err(Refusal::Empty),
    }
}

fn text_length(kept: &Option<Box<Object>>) -> Result<usize, Refusal>
    ensures { Gives Memory (λ length. length) result (text_length (kept_object kept.now)) }
{
    Ok(text_in(kept)?.len())
}

/// Leaves the length of the kept text at its place, and answers the code.
pub fn tell_text_length(alloc: Global, text: &mut Slot, length: &mut usize) -> i32
    ensures kept { object text.new ≡ object text.old }
    ensures told { Tells (text_length (object text.old)) length.old length.new result }
{
    let kept = text.take(alloc);
    let code = tell_value(text_length(&kept), length);
    text.put(alloc, kept);
    code
}

/// Writes the kept text into the buffer, and answers the code.
pub fn copy_text(alloc: Global, text: &mut Slot, out: &mut [u8], needed: &mut usize) -> i32
    ensures kept { object text.new ≡ object text.old }
    ensures told { Writes (text_in (object text.old)) out.old out.new needed.old needed.new result }
{
    let kept = text.take(alloc);
    let code = write(text_in(&kept), out, needed);
    text.put(alloc, kept);
    code
}
