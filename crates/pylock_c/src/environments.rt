//! Environments that markers are judged in (PEP 508).

ghost use Rattle.std.specs.Prelude.{◌≡◌, None, Result, Some};
ghost use Rattle.pytext.specs.Agreement.{Gives};
ghost use Rattle.pymark_core.specs.declared.change.Change.{Change as ChangeValue};
ghost use Rattle.pymark_core.specs.declared.change.Change.TheVariants as change;
ghost use Rattle.pylock_run.specs.declared.line.refusal.LineRefusal.{LineRefusal as RefusalValue};
ghost use Rattle.pylock_run.specs.declared.line.refusal.LineRefusal.TheVariants as line;
ghost use Rattle.pylock_values.specs.Environments.{IsRecordOf};
ghost use Rattle.pylock_slots.specs.Answer.{Edits, Tells};
ghost use Rattle.pylock_c.specs.Answered.{IsAnswered};
ghost use Rattle.pylock_c.specs.Edits.{named_change, set_change, unset_change};
ghost use Rattle.pylock_c.specs.Environments.{Records, changed_in, new_environment};
ghost use Rattle.pylock_c.specs.Markers.{environment_in};
ghost use Rattle.pylock_slots.specs.Slot.{kept_object, object};
ghost use Rattle.pylock_slots.specs.declared.refusal.Refusal.TheVariants.{Memory};

use crate::edits::{
    add_extra_change, add_group_change, drop_extra_change, drop_group_change, set_change,
    unset_change,
};
use crate::markers::environment_in;
use pylock_run::LineRefusal;
use pylock_slots::{Object, Refusal, Slot, edit_code, keep_object, keep_text};
use pylock_values::environment_record;
use pymark_core::{Change, Environment};
use std::alloc::Global;

fn new_environment(alloc: Global) -> Result<Object, Refusal>
    ensures { Gives Memory (λ kept. Some kept) result new_environment }
{
    Ok(Object::Environment(Environment::new(alloc)))
}

/// Makes an environment with nothing set and nothing asked for.
#[unsafe(no_mangle)]
pub extern "C" fn pylock_environment_new(alloc: Global, environment: &mut Slot) -> i32
    ensures { Tells new_environment (object environment.old) (object environment.new) result }
{
    keep_object(alloc, new_environment(alloc), environment)
}

/// Changes the environment that is kept. Where none is, the change isn't looked at.
fn change_in(object: &mut Object, change: Result<Change, LineRefusal>) -> Result<(), Refusal>
    ensures { (definition : Result ChangeValue RefusalValue)
        → Gives line.Memory (λ c. c) change definition
        → Edits (changed_in definition (Some object.old)) (Some object.old) (Some object.new)
        result }
{
    match object {
        Object::Environment(environment) => Ok(environment.apply(change?)?),
        _ => Err(Refusal::Empty),
    }
}

/// Changes the environment of a slot, and answers the code.
fn change_slot(alloc: Global, slot: &mut Slot, change: Result<Change, LineRefusal>) -> i32
    ensures { (definition : Result ChangeValue RefusalValue)
        → Gives line.Memory (λ c. c) change definition
        → Tells (changed_in definition (object slot.old)) (object slot.old) (object slot.new)
        result }
{
    let Some(mut object) = slot.take(alloc) else {
        return Refusal::Empty.number();
    };
    let outcome = change_in(&mut object, change);
    slot.put(alloc, Some(object));
    edit_code(outcome)
}

/// Gives a variable a text.
#[unsafe(no_mangle)]
pub extern "C" fn pylock_environment_set(
    alloc: Global,
    slot: &mut Slot,
    variable: &[u8],
    text: &[u8],
) -> i32
    ensures { Tells (changed_in (set_change variable.now text.now) (object slot.old))
        (object slot.old) (object slot.new) result }
{
    change_slot(alloc, slot, set_change(alloc, variable, text))
}

/// Leaves a variable without a text.
#[unsafe(no_mangle)]
pub extern "C" fn pylock_environment_unset(alloc: Global, slot: &mut Slot, variable: &[u8]) -> i32
    ensures { Tells (changed_in (unset_change variable.now) (object slot.old))
        (object slot.old) (object slot.new) result }
{
    change_slot(alloc, slot, unset_change(variable))
}

/// Asks for an extra.
#[unsafe(no_mangle)]
pub extern "C" fn pylock_environment_add_extra(alloc: Global, slot: &mut Slot, name: &[u8]) -> i32
    ensures { Tells (changed_in (named_change change.AddExtra name.now) (object slot.old))
        (object slot.old) (object slot.new) result }
{
    change_slot(alloc, slot, add_extra_change(alloc, name))
}

/// Asks for an extra no more.
#[unsafe(no_mangle)]
pub extern "C" fn pylock_environment_drop_extra(alloc: Global, slot: &mut Slot, name: &[u8]) -> i32
    ensures { Tells (changed_in (named_change change.DropExtra name.now) (object slot.old))
        (object slot.old) (object slot.new) result }
{
    change_slot(alloc, slot, drop_extra_change(alloc, name))
}

/// Asks for a dependency group.
#[unsafe(no_mangle)]
pub extern "C" fn pylock_environment_add_group(alloc: Global, slot: &mut Slot, name: &[u8]) -> i32
    ensures { Tells (changed_in (named_change change.AddGroup name.now) (object slot.old))
        (object slot.old) (object slot.new) result }
{
    change_slot(alloc, slot, add_group_change(alloc, name))
}

/// Asks for a dependency group no more.
#[unsafe(no_mangle)]
pub extern "C" fn pylock_environment_drop_group(alloc: Global, slot: &mut Slot, name: &[u8]) -> i32
    ensures { Tells (changed_in (named_change change.DropGroup name.now) (object slot.old))
        (object slot.old) (object slot.new) result }
{
    change_slot(alloc, slot, drop_group_change(alloc, name))
}

fn record_in(alloc: Global, kept: &Option<Box<Object>>) -> Result<Vec<u8>, Refusal>
    ensures { IsAnswered (environment_in (kept_object kept.now))
        (λ environment made. IsRecordOf environment made.items) result }
{
    Ok(environment_record(alloc, environment_in(kept)?)?)
}

/// The record of an environment.
#[unsafe(no_mangle)]
pub extern "C" fn pylock_environment_record(
    alloc: Global,
    environment: &mut Slot,
    slot: &mut Slot,
) -> i32
    ensures kept { object environment.new ≡ object environment.old }
    ensures told { Records (environment_in (object environment.old)) (object slot.old)
        (object slot.new) result }
{
    let kept = environment.take(alloc);
    let code = keep_text(alloc, record_in(alloc, &kept), slot);
    environment.put(alloc, kept);
    code
}

/// Empties the slot.
#[unsafe(no_mangle)]
pub extern "C" fn pylock_environment_free(alloc: Global, environment: &mut Slot)
    ensures { object environment.new ≡ None }
{
    let _kept = environment.take(alloc);
}
