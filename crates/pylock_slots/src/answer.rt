//! Outcomes as C sees them.

ghost use Rattle.std.specs.Prelude.{◌≡◌, ℕ, List, Ok, Option, Result, Some, if◌then◌else◌};
ghost use Rattle.std.specs.Prelude.{length, pos};
ghost use Rattle.pytext.specs.Agreement.{Gives};
ghost use Rattle.pylock_slots.specs.Answer.{Edits, Tells, Writes, WritesWith, is_short, told_in};
ghost use Rattle.pylock_slots.specs.Answer.{written, written_code};
ghost use Rattle.pylock_slots.specs.Slot.{object};
ghost use Rattle.pylock_slots.specs.declared.object.Object.{Object as Kind};
ghost use Rattle.pylock_slots.specs.declared.refusal.Refusal.{Refusal as Refused};
ghost use Rattle.pylock_slots.specs.declared.refusal.Refusal.TheVariants.{Memory};

use crate::object::Object;
use crate::refusal::Refusal;
use crate::slot::Slot;
use std::alloc::Global;

/// The code of a call that isn't refused.
pub const OK: i32 = 0;

/// The code of a call whose result is longer than its buffer.
const ROOM: i32 = 4;

/// Leaves the value at its place, and answers the code.
pub fn tell_value<T: Drop>(outcome: Result<T, Refusal>, place: &mut T) -> i32
    ensures { (definition : Result T Refused) → Gives Memory (λ x. x) outcome definition
        → Tells definition place.old place.new result }
{
    match outcome {
        Ok(value) => {
            *place = value;
            OK
        }
        Err(refusal) => refusal.number(),
    }
}

/// Leaves the object in the slot, and answers the code.
#[tactic(auto, using(crate::proofs::AnswerLemmas::told))]
pub fn keep_object(alloc: Global, outcome: Result<Object, Refusal>, slot: &mut Slot) -> i32
    ensures { (definition : Result (Option Kind) Refused)
        → Gives Memory (λ kept. Some kept) outcome definition
        → Tells definition (object slot.old) (object slot.new) result }
{
    match boxed(alloc, outcome) {
        Ok(kept) => {
            slot.put(alloc, Some(kept));
            OK
        }
        Err(refusal) => refusal.number(),
    }
}

/// Leaves the object in the slot and the value at its place, and answers the code.
#[tactic(auto, using(crate::proofs::AnswerLemmas::told_with))]
pub fn keep_with<T: Drop>(
    alloc: Global,
    outcome: Result<(Object, T), Refusal>,
    slot: &mut Slot,
    place: &mut T,
) -> i32
    ensures { (definition : Result (Option Kind × T) Refused)
        → Gives Memory (λ told. (Some told.0, told.1)) outcome definition
        → Tells definition (object slot.old, place.old) (object slot.new, place.new) result }
{
    match boxed_with(alloc, outcome) {
        Ok((kept, value)) => {
            slot.put(alloc, Some(kept));
            *place = value;
            OK
        }
        Err(refusal) => refusal.number(),
    }
}

fn boxed_with<T: Drop>(
    alloc: Global,
    outcome: Result<(Object, T), Refusal>,
) -> Result<(Box<Object>, T), Refusal>
    ensures { (definition : Result (Option Kind × T) Refused)
        → Gives Memory (λ told. (Some told.0, told.1)) outcome definition
        → Gives Memory (λ told. (Some told.0.value, told.1)) result definition }
{
    let (object, value) = outcome?;
    Ok((Box::new(alloc, object)?, value))
}

fn boxed(alloc: Global, outcome: Result<Object, Refusal>) -> Result<Box<Object>, Refusal>
    ensures { (definition : Result (Option Kind) Refused)
        → Gives Memory (λ kept. Some kept) outcome definition
        → Gives Memory (λ kept. Some kept.value) result definition }
{
    Ok(Box::new(alloc, outcome?)?)
}

/// The code of an edit.
#[tactic(auto, using(crate::proofs::AnswerLemmas::told))]
pub fn edit_code(outcome: Result<(), Refusal>) -> i32
    ensures { (definition : Result (Option Kind) Refused) (old new : Option Kind)
        → Edits definition old new outcome → Tells definition old new result }
{
    match outcome {
        Ok(()) => OK,
        Err(refusal) => refusal.number(),
    }
}

/// Writes the bytes into the buffer where they have room, leaves their number in `needed`, and
/// answers the code.
#[tactic(auto, using(crate::proofs::AnswerLemmas::written))]
pub fn write(outcome: Result<&[u8], Refusal>, buffer: &mut [u8], needed: &mut usize) -> i32
    ensures { (definition : Result (List ℕ) Refused)
        → Gives Memory (λ bytes. bytes.now) outcome.entry definition
        → Writes definition buffer.old buffer.new needed.old needed.new result }
{
    match outcome {
        Ok(bytes) => put(bytes, buffer, needed),
        Err(refusal) => refusal.number(),
    }
}

/// Writes items that the call made.
#[tactic(auto, using(crate::proofs::AnswerLemmas::written))]
pub fn write_made<T: Copy>(
    outcome: Result<Vec<T>, Refusal>,
    buffer: &mut [T],
    needed: &mut usize,
) -> i32
    ensures { (definition : Result (List T) Refused)
        → Gives Memory (λ items. items.items) outcome definition
        → Writes definition buffer.old buffer.new needed.old needed.new result }
{
    match outcome {
        Ok(items) => put(&items, buffer, needed),
        Err(refusal) => refusal.number(),
    }
}

/// Writes items that the call made, and leaves the value at its place, also where the items have no
/// room.
#[tactic(auto, using(crate::proofs::AnswerLemmas::written_with))]
pub fn write_with<T: Copy, V: Drop>(
    outcome: Result<(Vec<T>, V), Refusal>,
    buffer: &mut [T],
    needed: &mut usize,
    place: &mut V,
) -> i32
    ensures { (definition : Result (List T × V) Refused)
        → Gives Memory (λ told. (told.0.items, told.1)) outcome definition
        → WritesWith definition buffer.old buffer.new needed.old needed.new place.old place.new
        result }
{
    match outcome {
        Ok((items, value)) => {
            *place = value;
            put(&items, buffer, needed)
        }
        Err(refusal) => refusal.number(),
    }
}

/// Puts each of two lists at the front of its buffer where it has room there, leaves their numbers,
/// and answers the code of the first that has none.
pub fn put_both<T: Copy, U: Copy>(
    first: &[T],
    first_buffer: &mut [T],
    first_needed: &mut usize,
    second: &[U],
    second_buffer: &mut [U],
    second_needed: &mut usize,
) -> i32
    ensures code { result ≡ (if is_short first_buffer.old first.now then pos 4
        else written_code second_buffer.old (Ok second.now)) }
    ensures first { (first_buffer.new, first_needed.new)
        ≡ told_in (first_buffer.old, first_needed.old) (Ok first.now) }
    ensures second { (second_buffer.new, second_needed.new)
        ≡ told_in (second_buffer.old, second_needed.old) (Ok second.now) }
{
    let code = put(first, first_buffer, first_needed);
    let second_code = put(second, second_buffer, second_needed);
    if code == OK { second_code } else { code }
}

/// Puts the items at the front of the buffer where they have room, leaves their number in `needed`,
/// and answers the code.
fn put<T: Copy>(items: &[T], buffer: &mut [T], needed: &mut usize) -> i32
    ensures code { result ≡ written_code buffer.old (Ok items.now) }
    ensures buffer { buffer.new ≡ written buffer.old (Ok items.now) }
    ensures needed { needed.new ≡ length items.now }
{
    *needed = items.len();
    if buffer.len() < items.len() {
        return ROOM;
    }
    let (front, _rest) = buffer.split_at_mut(items.len());
    front.copy_from_slice(items);
    OK
}
