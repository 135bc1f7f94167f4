//! Sessions: a lock in an environment (PEP 751), edited and answered again.

ghost use Rattle.std.specs.Prelude.{◌≡◌, None, Ok};
ghost use Rattle.pymark_core.specs.declared.change.Change.TheVariants as change;
ghost use Rattle.pylock_core.specs.declared.edit.Edit.TheVariants as edit;
ghost use Rattle.pylock_core.specs.declared.edit.NameChange.TheVariants as name_change;
ghost use Rattle.pylock_run.specs.Line.{command_of};
ghost use Rattle.pylock_run.specs.Report.{open_state};
ghost use Rattle.pylock_run.specs.declared.line.commands.Command.TheVariants as command;
ghost use Rattle.pylock_slots.specs.Answer.{Tells};
ghost use Rattle.pylock_c.specs.Edits.{change_command, entry_command, named_change};
ghost use Rattle.pylock_c.specs.Edits.{names_change, names_policy, policy_command, set_change};
ghost use Rattle.pylock_c.specs.Edits.{tags_command};
ghost use Rattle.pylock_c.specs.Edits.{target_command, unset_change};
ghost use Rattle.pylock_slots.specs.Opening.{Opens};
ghost use Rattle.pylock_slots.specs.Sessions.{edited_in, obeyed_in, started};
ghost use Rattle.pylock_slots.specs.Slot.{object};

mod standing;

use crate::edits::{
    add_command, add_extra_change, add_group_change, change_command, drop_extra_change,
    drop_group_change, names_change, names_policy, policy_command, put_command, set_change,
    tags_command, target_command, unset_change,
};
use pylock_core::{Edit, NameChange};
use pylock_run::{Command, read_line};
use pylock_slots::{Slot, edit_names_slot, obey_slot, open_into, started};
use std::alloc::Global;

/// Starts a session on a lock and an environment, or leaves the line of a refusal in the slot of
/// the words.
#[unsafe(no_mangle)]
pub extern "C" fn pylock_session_start(
    alloc: Global,
    session: &mut Slot,
    lock: &[u8],
    environment: &[u8],
    words: &mut Slot,
) -> i32
    ensures { Opens (started (open_state lock.now environment.now)) (object session.old)
        (object session.new) (object words.old) (object words.new) result }
{
    open_into(alloc, started(alloc, lock, environment), session, words)
}

/// Gives a variable a text.
#[unsafe(no_mangle)]
pub extern "C" fn pylock_session_set(
    alloc: Global,
    slot: &mut Slot,
    variable: &[u8],
    text: &[u8],
    judged: &mut u64,
) -> i32
    ensures { Tells
        (obeyed_in (change_command (set_change variable.now text.now)) (object slot.old))
        (object slot.old, judged.old) (object slot.new, judged.new) result }
{
    let change = set_change(alloc, variable, text);
    obey_slot(alloc, slot, change_command(change), judged)
}

/// Leaves a variable without a text.
#[unsafe(no_mangle)]
pub extern "C" fn pylock_session_unset(
    alloc: Global,
    slot: &mut Slot,
    variable: &[u8],
    judged: &mut u64,
) -> i32
    ensures { Tells (obeyed_in (change_command (unset_change variable.now)) (object slot.old))
        (object slot.old, judged.old) (object slot.new, judged.new) result }
{
    let change = unset_change(variable);
    obey_slot(alloc, slot, change_command(change), judged)
}

/// Asks for an extra.
#[unsafe(no_mangle)]
pub extern "C" fn pylock_session_add_extra(
    alloc: Global,
    slot: &mut Slot,
    name: &[u8],
    judged: &mut u64,
) -> i32
    ensures { Tells (obeyed_in (change_command (named_change change.AddExtra name.now))
        (object slot.old)) (object slot.old, judged.old) (object slot.new, judged.new) result }
{
    let change = add_extra_change(alloc, name);
    obey_slot(alloc, slot, change_command(change), judged)
}

/// Asks for an extra no more.
#[unsafe(no_mangle)]
pub extern "C" fn pylock_session_drop_extra(
    alloc: Global,
    slot: &mut Slot,
    name: &[u8],
    judged: &mut u64,
) -> i32
    ensures { Tells (obeyed_in (change_command (named_change change.DropExtra name.now))
        (object slot.old)) (object slot.old, judged.old) (object slot.new, judged.new) result }
{
    let change = drop_extra_change(alloc, name);
    obey_slot(alloc, slot, change_command(change), judged)
}

/// Asks for a dependency group.
#[unsafe(no_mangle)]
pub extern "C" fn pylock_session_add_group(
    alloc: Global,
    slot: &mut Slot,
    name: &[u8],
    judged: &mut u64,
) -> i32
    ensures { Tells (obeyed_in (change_command (named_change change.AddGroup name.now))
        (object slot.old)) (object slot.old, judged.old) (object slot.new, judged.new) result }
{
    let change = add_group_change(alloc, name);
    obey_slot(alloc, slot, change_command(change), judged)
}

/// Asks for a dependency group no more.
#[unsafe(no_mangle)]
pub extern "C" fn pylock_session_drop_group(
    alloc: Global,
    slot: &mut Slot,
    name: &[u8],
    judged: &mut u64,
) -> i32
    ensures { Tells (obeyed_in (change_command (named_change change.DropGroup name.now))
        (object slot.old)) (object slot.old, judged.old) (object slot.new, judged.new) result }
{
    let change = drop_group_change(alloc, name);
    obey_slot(alloc, slot, change_command(change), judged)
}

/// Asks for extras.
#[unsafe(no_mangle)]
pub extern "C" fn pylock_session_add_extras(
    alloc: Global,
    slot: &mut Slot,
    names: &[u8],
    judged: &mut u64,
) -> i32
    ensures { Tells
        (edited_in (names_change name_change.AddExtra names.now) (object slot.old))
        (object slot.old, judged.old) (object slot.new, judged.new) result }
{
    let read = names_change(alloc, NameChange::AddExtra, names);
    edit_names_slot(alloc, slot, read, judged)
}

/// Asks for extras no more.
#[unsafe(no_mangle)]
pub extern "C" fn pylock_session_drop_extras(
    alloc: Global,
    slot: &mut Slot,
    names: &[u8],
    judged: &mut u64,
) -> i32
    ensures { Tells
        (edited_in (names_change name_change.DropExtra names.now) (object slot.old))
        (object slot.old, judged.old) (object slot.new, judged.new) result }
{
    let read = names_change(alloc, NameChange::DropExtra, names);
    edit_names_slot(alloc, slot, read, judged)
}

/// Asks for dependency groups.
#[unsafe(no_mangle)]
pub extern "C" fn pylock_session_add_groups(
    alloc: Global,
    slot: &mut Slot,
    names: &[u8],
    judged: &mut u64,
) -> i32
    ensures { Tells
        (edited_in (names_change name_change.AddGroup names.now) (object slot.old))
        (object slot.old, judged.old) (object slot.new, judged.new) result }
{
    let read = names_change(alloc, NameChange::AddGroup, names);
    edit_names_slot(alloc, slot, read, judged)
}

/// Asks for dependency groups no more.
#[unsafe(no_mangle)]
pub extern "C" fn pylock_session_drop_groups(
    alloc: Global,
    slot: &mut Slot,
    names: &[u8],
    judged: &mut u64,
) -> i32
    ensures { Tells
        (edited_in (names_change name_change.DropGroup names.now) (object slot.old))
        (object slot.old, judged.old) (object slot.new, judged.new) result }
{
    let read = names_change(alloc, NameChange::DropGroup, names);
    edit_names_slot(alloc, slot, read, judged)
}

/// Puts these tags in place of those that were there.
#[unsafe(no_mangle)]
pub extern "C" fn pylock_session_tags(
    alloc: Global,
    slot: &mut Slot,
    tags: &[u8],
    judged: &mut u64,
) -> i32
    ensures { Tells (obeyed_in (tags_command tags.now) (object slot.old))
        (object slot.old, judged.old) (object slot.new, judged.new) result }
{
    obey_slot(alloc, slot, tags_command(alloc, tags), judged)
}

/// Puts the tags of a target in place of those that were there.
#[unsafe(no_mangle)]
pub extern "C" fn pylock_session_target(
    alloc: Global,
    slot: &mut Slot,
    python: &[u8],
    platform: &[u8],
    judged: &mut u64,
) -> i32
    ensures { Tells (obeyed_in (target_command python.now platform.now) (object slot.old))
        (object slot.old, judged.old) (object slot.new, judged.new) result }
{
    obey_slot(alloc, slot, target_command(alloc, python, platform), judged)
}

/// Adds an entry behind all others.
#[unsafe(no_mangle)]
pub extern "C" fn pylock_session_add(
    alloc: Global,
    slot: &mut Slot,
    entry: &[u8],
    judged: &mut u64,
) -> i32
    ensures { Tells (obeyed_in (entry_command edit.Add entry.now) (object slot.old))
        (object slot.old, judged.old) (object slot.new, judged.new) result }
{
    obey_slot(alloc, slot, add_command(alloc, entry), judged)
}

/// Puts an entry in place of that of the number.
#[unsafe(no_mangle)]
pub extern "C" fn pylock_session_put(
    alloc: Global,
    slot: &mut Slot,
    number: u32,
    entry: &[u8],
    judged: &mut u64,
) -> i32
    ensures { Tells (obeyed_in (entry_command (edit.Put number) entry.now) (object slot.old))
        (object slot.old, judged.old) (object slot.new, judged.new) result }
{
    obey_slot(alloc, slot, put_command(alloc, number, entry), judged)
}

/// Takes an entry out.
#[unsafe(no_mangle)]
pub extern "C" fn pylock_session_del(
    alloc: Global,
    slot: &mut Slot,
    number: u32,
    judged: &mut u64,
) -> i32
    ensures { Tells (obeyed_in (Ok (command.Edit (edit.Del number))) (object slot.old))
        (object slot.old, judged.old) (object slot.new, judged.new) result }
{
    obey_slot(alloc, slot, Ok(Command::Edit(Edit::Del(number))), judged)
}

/// Says which files a package may be installed from.
#[unsafe(no_mangle)]
pub extern "C" fn pylock_session_policy(
    alloc: Global,
    slot: &mut Slot,
    name: &[u8],
    policy: &[u8],
    judged: &mut u64,
) -> i32
    ensures { Tells (obeyed_in (policy_command name.now policy.now) (object slot.old))
        (object slot.old, judged.old) (object slot.new, judged.new) result }
{
    obey_slot(alloc, slot, policy_command(alloc, name, policy), judged)
}

/// Says which files packages may be installed from.
#[unsafe(no_mangle)]
pub extern "C" fn pylock_session_policies(
    alloc: Global,
    slot: &mut Slot,
    names: &[u8],
    policy: &[u8],
    judged: &mut u64,
) -> i32
    ensures { Tells (edited_in (names_policy names.now policy.now) (object slot.old))
        (object slot.old, judged.old) (object slot.new, judged.new) result }
{
    let read = names_policy(alloc, names, policy);
    edit_names_slot(alloc, slot, read, judged)
}

/// Makes the edit that an edit line says.
#[unsafe(no_mangle)]
pub extern "C" fn pylock_session_line(
    alloc: Global,
    slot: &mut Slot,
    line: &[u8],
    judged: &mut u64,
) -> i32
    ensures { Tells (obeyed_in (command_of line.now) (object slot.old))
        (object slot.old, judged.old) (object slot.new, judged.new) result }
{
    obey_slot(alloc, slot, read_line(alloc, line), judged)
}

/// Empties the slot.
#[unsafe(no_mangle)]
pub extern "C" fn pylock_session_free(alloc: Global, session: &mut Slot)
    ensures { object session.new ≡ None }
{
    let _kept = session.take(alloc);
}
