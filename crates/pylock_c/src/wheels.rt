//! The records of what the name of a wheel says (PEP 427).

ghost use Rattle.pytext.specs.Agreement.{Gives};
ghost use Rattle.pylock_slots.specs.Answer.{Tells};
ghost use Rattle.pylock_slots.specs.Slot.{object};
ghost use Rattle.pylock_slots.specs.Text.{kept_text};
ghost use Rattle.pylock_c.specs.Wheels.{wheel_parts_of, wheel_record};
ghost use Rattle.pylock_slots.specs.declared.refusal.Refusal.TheVariants.{Memory};

use pylock_run::{push_field, push_next_field};
use pylock_slots::{Refusal, Slot, keep_text, text};
use pylock_values::wheel_parts_record;
use pywheel_core::{WheelName, tags_text};
use std::alloc::Global;

fn wheel_record(alloc: Global, bytes: &[u8]) -> Result<Vec<u8>, Refusal>
    ensures { Gives Memory (λ made. made.items) result (wheel_record bytes.now) }
{
    let wheel = WheelName::parse(alloc, text(bytes)?)?;
    let tags = tags_text(alloc, wheel.tags())?;
    let mut out = Vec::new(alloc);
    push_field(&mut out, Some(wheel.name()))?;
    push_next_field(&mut out, Some(wheel.version().text()))?;
    push_next_field(&mut out, wheel.build_text())?;
    push_next_field(&mut out, Some(tags.as_str()))?;
    Ok(out)
}

/// The record of what the name of a wheel says.
#[unsafe(no_mangle)]
pub extern "C" fn pylock_wheel(alloc: Global, text: &[u8], slot: &mut Slot) -> i32
    ensures { Tells (kept_text (wheel_record text.now)) (object slot.old) (object slot.new) result }
{
    keep_text(alloc, wheel_record(alloc, text), slot)
}

fn wheel_parts(alloc: Global, bytes: &[u8]) -> Result<Vec<u8>, Refusal>
    ensures { Gives Memory (λ made. made.items) result (wheel_parts_of bytes.now) }
{
    let wheel = WheelName::parse(alloc, text(bytes)?)?;
    Ok(wheel_parts_record(alloc, &wheel)?)
}

/// The same, part by part.
#[unsafe(no_mangle)]
pub extern "C" fn pylock_wheel_parts(alloc: Global, text: &[u8], slot: &mut Slot) -> i32
    ensures { Tells (kept_text (wheel_parts_of text.now)) (object slot.old) (object slot.new)
        result }
{
    keep_text(alloc, wheel_parts(alloc, text), slot)
}
