//! Sessions in slots (PEP 751), edited.

ghost use Rattle.std.specs.Prelude.{◌≡◌, ℕ, List, Option, Result, Some};
ghost use Rattle.pytext.specs.Agreement.{Gives};
ghost use Rattle.pylock_run.specs.Report.{open_state};
ghost use Rattle.pylock_run.specs.declared.line.commands.Command.{Command as CommandValue};
ghost use Rattle.pylock_run.specs.declared.line.refusal.LineRefusal.{LineRefusal as RefusalValue};
ghost use Rattle.pylock_run.specs.declared.line.refusal.LineRefusal.TheVariants as line;
ghost use Rattle.pylock_run.specs.declared.report.opening.OpenError.TheVariants as unopened;
ghost use Rattle.pylock_slots.specs.Answer.{Tells};
ghost use Rattle.pylock_slots.specs.Sessions.{Counts, edited_in, obeyed_in, started};
ghost use Rattle.pylock_slots.specs.Slot.{object};
ghost use Rattle.pylock_slots.specs.declared.kept_session.NamesEdit.{NamesEdit as NamesValue};
ghost use Rattle.pylock_slots.specs.declared.object.Object.{Object as Kind};
ghost use Rattle.pylock_slots.specs.declared.refusal.Refusal.{Refusal as Refused};

use crate::answer::OK;
use crate::kept_session::{KeptSession, NamesEdit};
use crate::object::Object;
use crate::refusal::Refusal;
use crate::slot::Slot;
use pylock_run::{Command, LineRefusal, OpenError, open};
use pyver_core::NormalName;
use std::alloc::Global;

/// The session on a lock and an environment. It takes memory for the session, which is kept apart.
pub fn started(alloc: Global, lock: &[u8], environment: &[u8]) -> Result<Object, OpenError>
    ensures { Gives unopened.Memory (λ kept. kept) result
        (started (open_state lock.now environment.now)) }
{
    let session = open(alloc, lock, environment)?;
    Ok(Object::Session(KeptSession::new(alloc, session)?))
}

/// Obeys the command in the session that is kept. Where none is, the command isn't looked at.
fn obey_in(object: &mut Object, command: Result<Command, LineRefusal>) -> Result<u64, Refusal>
    ensures { (definition : Result CommandValue RefusalValue)
        → Gives line.Memory (λ c. c) command definition
        → Counts (obeyed_in definition (Some object.old)) (Some object.old) (Some object.new)
        result }
{
    match object {
        Object::Session(session) => Ok(session.obey_command(command?)?),
        _ => Err(Refusal::Empty),
    }
}

/// Leaves how many judgements an edit made, and answers the code.
#[tactic(auto, using(crate::proofs::AnswerLemmas::told_with))]
fn tell_judged(outcome: Result<u64, Refusal>, judged: &mut u64) -> i32
    ensures { (definition : Result (Option Kind × ℕ) Refused) (old new : Option Kind)
        → Counts definition old new outcome
        → Tells definition (old, judged.old) (new, judged.new) result }
{
    match outcome {
        Ok(judgements) => {
            *judged = judgements;
            OK
        }
        Err(refusal) => refusal.number(),
    }
}

/// Obeys the command in the session of a slot, and answers the code.
pub fn obey_slot(
    alloc: Global,
    slot: &mut Slot,
    command: Result<Command, LineRefusal>,
    judged: &mut u64,
) -> i32
    ensures { (definition : Result CommandValue RefusalValue)
        → Gives line.Memory (λ c. c) command definition
        → Tells (obeyed_in definition (object slot.old)) (object slot.old, judged.old)
        (object slot.new, judged.new) result }
{
    let Some(mut object) = slot.take(alloc) else {
        return Refusal::Empty.number();
    };
    let outcome = obey_in(&mut object, command);
    slot.put(alloc, Some(object));
    tell_judged(outcome, judged)
}

/// Edits the names in the session that is kept. Where none is, the names aren't looked at.
fn edit_names_in(
    object: &mut Object,
    read: Result<(NamesEdit, Vec<NormalName>), LineRefusal>,
) -> Result<u64, Refusal>
    ensures { (definition : Result (NamesValue × List (List ℕ)) RefusalValue)
        → Gives line.Memory (λ read. (read.0, read.1.items)) read definition
        → Counts (edited_in definition (Some object.old)) (Some object.old) (Some object.new)
        result }
{
    match object {
        Object::Session(session) => {
            let (edit, names) = read?;
            Ok(session.edit_names(edit, names)?)
        }
        _ => Err(Refusal::Empty),
    }
}

/// Edits the names in the session of a slot, as one edit, and answers the code.
pub fn edit_names_slot(
    alloc: Global,
    slot: &mut Slot,
    read: Result<(NamesEdit, Vec<NormalName>), LineRefusal>,
    judged: &mut u64,
) -> i32
    ensures { (definition : Result (NamesValue × List (List ℕ)) RefusalValue)
        → Gives line.Memory (λ read. (read.0, read.1.items)) read definition
        → Tells (edited_in definition (object slot.old)) (object slot.old, judged.old)
        (object slot.new, judged.new) result }
{
    let Some(mut object) = slot.take(alloc) else {
        return Refusal::Empty.number();
    };
    let outcome = edit_names_in(&mut object, read);
    slot.put(alloc, Some(object));
    tell_judged(outcome, judged)
}
