//! Markers (PEP 508).

ghost use Rattle.std.specs.Prelude.{◌≡◌, None, Some};
ghost use Rattle.pytext.specs.Agreement.{Gives};
ghost use Rattle.pylock_slots.specs.Answer.{Tells, Writes};
ghost use Rattle.pylock_c.specs.Markers.{environment_in, marker_in, marker_text_in, parsed};
ghost use Rattle.pylock_c.specs.Markers.{tree_in, value_in, value_with_extra_in};
ghost use Rattle.pylock_slots.specs.Slot.{kept_object, object};
ghost use Rattle.pylock_slots.specs.Text.{kept_text};
ghost use Rattle.pylock_slots.specs.declared.refusal.Refusal.TheVariants.{Memory};

use pylock_slots::{Object, Refusal, Slot, keep_object, keep_text, tell_value, text, write};
use pylock_values::marker_record;
use pymark_core::{Environment, Marker};
use std::alloc::Global;

fn parsed(alloc: Global, bytes: &[u8]) -> Result<Object, Refusal>
    ensures { Gives Memory (λ kept. Some kept) result (parsed bytes.now) }
{
    Ok(Object::Marker(Marker::parse(alloc, text(bytes)?)?))
}

/// Reads a marker into its slot.
#[unsafe(no_mangle)]
pub extern "C" fn pylock_marker_parse(alloc: Global, marker: &mut Slot, text: &[u8]) -> i32
    ensures { Tells (parsed text.now) (object marker.old) (object marker.new) result }
{
    keep_object(alloc, parsed(alloc, text), marker)
}

pub(crate) fn marker_in(kept: &Option<Box<Object>>) -> Result<&Marker, Refusal>
    ensures { Gives Memory (λ marker. marker.now) result (marker_in (kept_object kept.now)) }
{
    match kept.as_deref() {
        Some(Object::Marker(marker)) => Ok(marker),
        _ => Err(Refusal::Empty),
    }
}

fn marker_text_in(kept: &Option<Box<Object>>) -> Result<&[u8], Refusal>
    ensures { Gives Memory (λ text. text.now) result (marker_text_in (kept_object kept.now)) }
{
    Ok(marker_in(kept)?.text().as_bytes())
}

/// The text of a marker.
#[unsafe(no_mangle)]
pub extern "C" fn pylock_marker_text(
    alloc: Global,
    marker: &mut Slot,
    out: &mut [u8],
    needed: &mut usize,
) -> i32
    ensures kept { object marker.new ≡ object marker.old }
    ensures told { Writes (marker_text_in (object marker.old)) out.old out.new needed.old needed.new
        result }
{
    let kept = marker.take(alloc);
    let code = write(marker_text_in(&kept), out, needed);
    marker.put(alloc, kept);
    code
}

fn tree_in(alloc: Global, kept: &Option<Box<Object>>) -> Result<Vec<u8>, Refusal>
    ensures { Gives Memory (λ made. made.items) result (tree_in (kept_object kept.now)) }
{
    Ok(marker_record(alloc, marker_in(kept)?)?)
}

/// The record of a marker's pieces.
#[unsafe(no_mangle)]
pub extern "C" fn pylock_marker_tree(alloc: Global, marker: &mut Slot, slot: &mut Slot) -> i32
    ensures kept { object marker.new ≡ object marker.old }
    ensures told { Tells (kept_text (tree_in (object marker.old)))
        (object slot.old) (object slot.new) result }
{
    let kept = marker.take(alloc);
    let code = keep_text(alloc, tree_in(alloc, &kept), slot);
    marker.put(alloc, kept);
    code
}

pub(crate) fn environment_in(kept: &Option<Box<Object>>) -> Result<&Environment, Refusal>
    ensures { Gives Memory (λ environment. environment.now) result
        (environment_in (kept_object kept.now)) }
{
    match kept.as_deref() {
        Some(Object::Environment(environment)) => Ok(environment),
        _ => Err(Refusal::Empty),
    }
}

fn value_in(
    alloc: Global,
    marker: &Option<Box<Object>>,
    environment: &Option<Box<Object>>,
) -> Result<bool, Refusal>
    ensures { Gives Memory (λ value. value) result (value_in (kept_object marker.now)
        (kept_object environment.now)) }
{
    let marker = marker_in(marker)?;
    let environment = environment_in(environment)?;
    Ok(marker.evaluate(alloc, environment)?)
}

/// The value of a marker in an environment.
#[unsafe(no_mangle)]
pub extern "C" fn pylock_marker_evaluate(
    alloc: Global,
    marker: &mut Slot,
    environment: &mut Slot,
    value: &mut bool,
) -> i32
    ensures marker { object marker.new ≡ object marker.old }
    ensures environment { object environment.new ≡ object environment.old }
    ensures told { Tells (value_in (object marker.old) (object environment.old)) value.old value.new
        result }
{
    let kept = marker.take(alloc);
    let judged_in = environment.take(alloc);
    let code = tell_value(value_in(alloc, &kept, &judged_in), value);
    marker.put(alloc, kept);
    environment.put(alloc, judged_in);
    code
}

fn value_with_extra_in(
    alloc: Global,
    marker: &Option<Box<Object>>,
    environment: &Option<Box<Object>>,
    extra: &[u8],
) -> Result<bool, Refusal>
    ensures { Gives Memory (λ value. value) result (value_with_extra_in (kept_object marker.now)
        (kept_object environment.now) extra.now) }
{
    let marker = marker_in(marker)?;
    let environment = environment_in(environment)?;
    Ok(marker.evaluate_with_extra(alloc, environment, text(extra)?)?)
}

/// The value of a marker in an environment where the operand `extra` has a text.
#[unsafe(no_mangle)]
pub extern "C" fn pylock_marker_evaluate_with_extra(
    alloc: Global,
    marker: &mut Slot,
    environment: &mut Slot,
    extra: &[u8],
    value: &mut bool,
) -> i32
    ensures marker { object marker.new ≡ object marker.old }
    ensures environment { object environment.new ≡ object environment.old }
    ensures told { Tells
        (value_with_extra_in (object marker.old) (object environment.old) extra.now)
        value.old value.new result }
{
    let kept = marker.take(alloc);
    let judged_in = environment.take(alloc);
    let code = tell_value(value_with_extra_in(alloc, &kept, &judged_in, extra), value);
    marker.put(alloc, kept);
    environment.put(alloc, judged_in);
    code
}

/// Empties the slot.
#[unsafe(no_mangle)]
pub extern "C" fn pylock_marker_free(alloc: Global, marker: &mut Slot)
    ensures { object marker.new ≡ None }
{
    let _kept = marker.take(alloc);
}
