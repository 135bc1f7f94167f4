//! The head of a lock, and sessions: a lock in an environment (PEP 751), edited by lines and
//! answered again.

ghost use Rattle.std.specs.Prelude.{◌≡◌, None};
ghost use Rattle.pylock_command.specs.declared.task.View.TheVariants.{Explain, Plan};
ghost use Rattle.pylock_run.specs.Line.{command_of};
ghost use Rattle.pylock_run.specs.Report.{open_state};
ghost use Rattle.pylock_slots.specs.Answer.{Tells};
ghost use Rattle.pylock_slots.specs.Head.{head_of};
ghost use Rattle.pylock_slots.specs.Opening.{Opens};
ghost use Rattle.pylock_slots.specs.Sessions.{form_of, obeyed_in, shown_in, started};
ghost use Rattle.pylock_slots.specs.Slot.{object};

use pylock_program::View;
use pylock_run::read_line;
use pylock_slots::{Slot, form_of, lock_head, obey_slot, open_into, show_session, started};
use std::alloc::Global;

/// The head of a lock, as a JSON document, or the line of its refusal.
#[unsafe(no_mangle)]
pub extern "C" fn pylock_lock_head(
    alloc: Global,
    lock: &[u8],
    head: &mut Slot,
    words: &mut Slot,
) -> i32
    ensures { Opens (head_of lock.now) (object head.old) (object head.new) (object words.old)
        (object words.new) result }
{
    open_into(alloc, lock_head(alloc, lock), head, words)
}

/// Starts a session on a lock and an environment, or leaves the line of a refusal in the slot of
/// the words.
#[unsafe(no_mangle)]
pub extern "C" fn pylock_session_start(
    alloc: Global,
    session: &mut Slot,
    lock: &[u8],
    environment: &[u8],
    words: &mut Slot,
) -> i32
    ensures { Opens (started (open_state lock.now environment.now)) (object session.old)
        (object session.new) (object words.old) (object words.new) result }
{
    open_into(alloc, started(alloc, lock, environment), session, words)
}

/// Makes the edit that an edit line says.
#[unsafe(no_mangle)]
pub extern "C" fn pylock_session_line(
    alloc: Global,
    slot: &mut Slot,
    line: &[u8],
    judged: &mut u64,
) -> i32
    ensures { Tells (obeyed_in (command_of line.now) (object slot.old))
        (object slot.old, judged.old) (object slot.new, judged.new) result }
{
    obey_slot(alloc, slot, read_line(alloc, line), judged)
}

/// The answer of a session as it stands.
#[unsafe(no_mangle)]
pub extern "C" fn pylock_session_answer(
    alloc: Global,
    session: &mut Slot,
    json: bool,
    out: &mut Slot,
    is_plan: &mut bool,
) -> i32
    ensures kept { object session.new ≡ object session.old }
    ensures told { Tells (shown_in Plan (form_of json) (object session.old))
        (object out.old, is_plan.old) (object out.new, is_plan.new) result }
{
    show_session(alloc, View::Plan, form_of(json), session, out, is_plan)
}

/// What becomes of the head and of each entry of a session.
#[unsafe(no_mangle)]
pub extern "C" fn pylock_session_explain(
    alloc: Global,
    session: &mut Slot,
    json: bool,
    out: &mut Slot,
    is_plan: &mut bool,
) -> i32
    ensures kept { object session.new ≡ object session.old }
    ensures told { Tells (shown_in Explain (form_of json) (object session.old))
        (object out.old, is_plan.old) (object out.new, is_plan.new) result }
{
    show_session(alloc, View::Explain, form_of(json), session, out, is_plan)
}

/// Empties the slot.
#[unsafe(no_mangle)]
pub extern "C" fn pylock_session_free(alloc: Global, session: &mut Slot)
    ensures { object session.new ≡ None }
{
    let _kept = session.take(alloc);
}
