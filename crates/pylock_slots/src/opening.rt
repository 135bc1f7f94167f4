//! What a call leaves that reads a lock or an environment.

ghost use Rattle.std.specs.Prelude.{◌≡◌, IfOk, Result, Some};
ghost use Rattle.pytext.specs.Agreement.{Gives};
ghost use Rattle.pylock_run.specs.Text.Refusal.{refusal_text};
ghost use Rattle.pylock_run.specs.declared.report.opening.OpenError.{OpenError as Unopened};
ghost use Rattle.pylock_run.specs.declared.report.opening.OpenError.TheVariants.{Memory};
ghost use Rattle.pylock_slots.specs.Opening.{Leaves, Opens, open_refusal};
ghost use Rattle.pylock_slots.specs.Refusal.{number};
ghost use Rattle.pylock_slots.specs.Slot.{object};
ghost use Rattle.pylock_slots.specs.declared.object.Object.{Object as Kind};
ghost use Rattle.pylock_slots.specs.declared.object.Object.TheVariants as kind;

use crate::object::{Bytes, Object};
use crate::refusal::Refusal;
use crate::slot::Slot;
use pylock_command::Form;
use pylock_program::push_open_error;
use pylock_run::OpenError;
use std::alloc::{AllocError, Global};

/// Leaves the object in its slot, or the line of the refusal in that of the words, and answers the
/// code.
pub fn open_into(
    alloc: Global,
    outcome: Result<Object, OpenError>,
    slot: &mut Slot,
    words: &mut Slot,
) -> i32
    ensures { (definition : Result Kind Unopened) → Gives Memory (λ kept. kept) outcome definition
        → Opens definition (object slot.old) (object slot.new) (object words.old)
        (object words.new) result }
{
    match outcome {
        Ok(kept) => leave_object(alloc, kept, 0, slot),
        Err(OpenError::Memory) => 1,
        Err(refusal) => leave_line(alloc, &refusal, words),
    }
}

/// Leaves the line of the refusal in the slot of the words, and answers the code.
#[tactic(auto, using(crate::proofs::OpeningLemmas::leaves_as))]
pub fn leave_line(alloc: Global, refusal: &OpenError, words: &mut Slot) -> i32
    ensures { Leaves (kind.Text (refusal_text refusal.now)) (number (open_refusal refusal.now))
        (object words.old) (object words.new) result }
{
    match line(alloc, refusal) {
        Ok(line) => leave_object(alloc, line, open_refusal(refusal).number(), words),
        Err(AllocError) => 1,
    }
}

/// Leaves the object in the slot and answers this code, or that of memory.
pub fn leave_object(alloc: Global, kept: Object, code: i32, slot: &mut Slot) -> i32
    ensures { Leaves kept code (object slot.old) (object slot.new) result }
{
    match Box::new(alloc, kept) {
        Ok(kept) => {
            slot.put(alloc, Some(kept));
            code
        }
        Err(_) => 1,
    }
}

/// The line of a refusal, as a text to be kept.
fn line(alloc: Global, refusal: &OpenError) -> Result<Object, AllocError>
    ensures { IfOk result (λ line. line ≡ kind.Text (refusal_text refusal.now)) }
{
    let mut out = Vec::new(alloc);
    push_open_error(alloc, &mut out, Form::Lines, refusal, None)?;
    Ok(Object::Text(Bytes::new(out)))
}

/// What a session was refused for: its lock, its environment, or memory. It takes no memory.
pub fn open_refusal(error: &OpenError) -> Refusal
    ensures { result ≡ open_refusal error.now }
{
    match error {
        OpenError::Lock(_) => Refusal::Lock,
        OpenError::Environment(_) => Refusal::Environment,
        OpenError::Memory => Refusal::Memory,
    }
}
