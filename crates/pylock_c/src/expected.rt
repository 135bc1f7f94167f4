//! What was expected of texts that are refused, and where.

ghost use Rattle.pylock_c.specs.Expected.{Records};
ghost use Rattle.pylock_slots.specs.Slot.{object};

use pylock_pointed::pointed_lines;
use pylock_run::{push_field, push_next_field};
use pylock_slots::{Refusal, Slot, keep_text, text};
use pymark_expected::{Fault, marker_fault, requirement_fault, set_fault, specifier_fault};
use std::alloc::{AllocError, Global};

/// The record of a fault of the text, or no byte where there is none.
fn fault_record(alloc: Global, text: &str, fault: Option<Fault>) -> Result<Vec<u8>, AllocError> {
    let mut out = Vec::new(alloc);
    let Some(fault) = fault else {
        return Ok(out);
    };
    let begin = fault.begin.to_string(alloc)?;
    let end = fault.end.to_string(alloc)?;
    let sentence = fault.expected.to_string(alloc)?;
    let lines = pointed_lines(alloc, text, &fault)?;
    push_field(&mut out, Some(begin.as_str()))?;
    push_next_field(&mut out, Some(end.as_str()))?;
    push_next_field(&mut out, Some(sentence.as_str()))?;
    push_next_field(&mut out, Some(lines.as_str()))?;
    Ok(out)
}

/// Leaves a record in the slot, and answers the code.
fn keep_record(alloc: Global, outcome: Result<Vec<u8>, Refusal>, slot: &mut Slot) -> i32
    ensures { Records (object slot.old) (object slot.new) result }
{
    keep_text(alloc, outcome, slot)
}

fn requirement_record(alloc: Global, bytes: &[u8]) -> Result<Vec<u8>, Refusal> {
    let text = text(bytes)?;
    let fault = requirement_fault(alloc, text)?;
    Ok(fault_record(alloc, text, fault)?)
}

/// The record of what was expected of a text that is no requirement.
#[unsafe(no_mangle)]
pub extern "C" fn pylock_requirement_expected(alloc: Global, text: &[u8], slot: &mut Slot) -> i32
    ensures { Records (object slot.old) (object slot.new) result }
{
    keep_record(alloc, requirement_record(alloc, text), slot)
}

fn marker_record(alloc: Global, bytes: &[u8]) -> Result<Vec<u8>, Refusal> {
    let text = text(bytes)?;
    let fault = marker_fault(alloc, text)?;
    Ok(fault_record(alloc, text, fault)?)
}

/// The record of what was expected of a text that is no marker.
#[unsafe(no_mangle)]
pub extern "C" fn pylock_marker_expected(alloc: Global, text: &[u8], slot: &mut Slot) -> i32
    ensures { Records (object slot.old) (object slot.new) result }
{
    keep_record(alloc, marker_record(alloc, text), slot)
}

fn set_record(alloc: Global, bytes: &[u8]) -> Result<Vec<u8>, Refusal> {
    let text = text(bytes)?;
    let fault = set_fault(alloc, text)?;
    Ok(fault_record(alloc, text, fault)?)
}

/// The record of what was expected of a text that is no specifier set.
#[unsafe(no_mangle)]
pub extern "C" fn pylock_set_expected(alloc: Global, text: &[u8], slot: &mut Slot) -> i32
    ensures { Records (object slot.old) (object slot.new) result }
{
    keep_record(alloc, set_record(alloc, text), slot)
}

fn specifier_record(alloc: Global, bytes: &[u8]) -> Result<Vec<u8>, Refusal> {
    let text = text(bytes)?;
    let fault = specifier_fault(alloc, text)?;
    Ok(fault_record(alloc, text, fault)?)
}

/// The record of what was expected of a text that is no specifier.
#[unsafe(no_mangle)]
pub extern "C" fn pylock_specifier_expected(alloc: Global, text: &[u8], slot: &mut Slot) -> i32
    ensures { Records (object slot.old) (object slot.new) result }
{
    keep_record(alloc, specifier_record(alloc, text), slot)
}
