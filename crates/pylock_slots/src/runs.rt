//! Runs of `select` in slots.

ghost use Rattle.std.specs.Prelude.{◌≡◌, IfErr, IfOk, None, Some, pos};
ghost use Rattle.pylock_program.specs.Show.{run_shown};
ghost use Rattle.pylock_run.specs.Inner.Editing.{start};
ghost use Rattle.pylock_run.specs.Report.{open_state};
ghost use Rattle.pylock_slots.specs.Refusal.{number};
ghost use Rattle.pylock_slots.specs.Runs.{Begins, Ends, Feeds, IsEndRefusal, IsFeedRefusal};
ghost use Rattle.pylock_slots.specs.Slot.{object};
ghost use Rattle.pylock_slots.specs.declared.object.Object.TheVariants as kind;
ghost use Rattle.pylock_slots.specs.declared.refusal.Refusal.{Refusal as Refused};
ghost use Rattle.pylock_slots.specs.declared.refusal.Refusal.TheVariants.{Memory};

use crate::answer::OK;
use crate::kept_run::KeptRun;
use crate::object::{Bytes, Object};
use crate::opening::leave_line;
use crate::refusal::Refusal;
use crate::slot::Slot;
use pylock_command::Form;
use pylock_core::Session;
use pylock_run::{OpenError, open};
use std::alloc::Global;

/// Begins a run on a lock and an environment in the slot, and leaves its first answer; or leaves
/// the line of a refusal. Answers the code.
pub fn begin_run_in(
    alloc: Global,
    lock: &[u8],
    environment: &[u8],
    form: Form,
    run: &mut Slot,
    output: &mut Slot,
) -> i32
    ensures { Begins form (open_state lock.now environment.now) (object run.old) (object run.new)
        (object output.old) (object output.new) result }
{
    match open(alloc, lock, environment) {
        Ok(session) => match begun(alloc, form, session) {
            Ok((begun, text)) => {
                run.put(alloc, Some(begun));
                output.put(alloc, Some(text));
                OK
            }
            Err(refusal) => refusal.number(),
        },
        Err(OpenError::Memory) => 1,
        Err(refusal) => leave_line(alloc, &refusal, output),
    }
}

/// A run on the session, and what it prints at first.
fn begun(alloc: Global, form: Form, session: Session) -> Result<(Box<Object>, Box<Object>), Refusal>
    ensures run { IfOk result (λ begun. begun.0.value
        ≡ kind.Run (record { editing = start session.state; total = 0 })) }
    ensures text { IfOk result (λ begun. begun.1.value
        ≡ kind.Text ((run_shown form).answer session.state)) }
    ensures refused { IfErr result (λ refusal. refusal ≡ Memory) }
{
    let (run, text) = KeptRun::begin(alloc, form, session)?;
    let run = Box::new(alloc, Object::Run(run))?;
    let text = Box::new(alloc, Object::Text(Bytes::new(text)))?;
    Ok((run, text))
}

/// Edits the run that is kept by the next piece of its input, and leaves what the lines print that
/// end in it. Answers the code. After want of memory or a limit that is passed nothing is said of
/// the run.
pub fn feed_run_in(
    alloc: Global,
    run: &mut Slot,
    form: Form,
    piece: &[u8],
    output: &mut Slot,
) -> i32
    ensures fed { result ≡ pos 0 → Feeds form piece.now (object run.old) (object run.new)
        (object output.new) }
    ensures kept { (result ≡ pos 0 → ⊥) → object output.new ≡ object output.old }
    ensures refused { (result ≡ pos 0 → ⊥) → (refused : Refused) × (result ≡ number refused)
        × IsFeedRefusal piece.now (object run.old) refused }
{
    let Some(mut object) = run.take(alloc) else {
        return Refusal::Empty.number();
    };
    let outcome = feed_in(alloc, form, &mut object, piece);
    run.put(alloc, Some(object));
    match outcome {
        Ok(text) => {
            output.put(alloc, Some(text));
            OK
        }
        Err(refusal) => refusal.number(),
    }
}

fn feed_in(
    alloc: Global,
    form: Form,
    object: &mut Object,
    piece: &[u8],
) -> Result<Box<Object>, Refusal>
    ensures fed { IfOk result (λ text. Feeds form piece.now (Some object.old) (Some object.new)
        (Some text.value)) }
    ensures refused { IfErr result (IsFeedRefusal piece.now (Some object.old)) }
{
    match object {
        Object::Run(run) => {
            let text = run.feed(alloc, form, piece)?;
            Ok(Box::new(alloc, Object::Text(Bytes::new(text)))?)
        }
        _ => Err(Refusal::Empty),
    }
}

/// Ends the input of the run that is kept, leaves what its last line prints, where it had no LF,
/// and the status at its place. Answers the code. The run is over then.
pub fn end_run_in(
    alloc: Global,
    run: &mut Slot,
    form: Form,
    output: &mut Slot,
    status: &mut i32,
) -> i32
    ensures ended { result ≡ pos 0 → Ends form (object run.old) (object output.new) status.new }
    ensures over { object run.new ≡ None }
    ensures kept { (result ≡ pos 0 → ⊥) → (object output.new ≡ object output.old)
        × (status.new ≡ status.old) }
    ensures refused { (result ≡ pos 0 → ⊥) → (refused : Refused) × (result ≡ number refused)
        × IsEndRefusal (object run.old) refused }
{
    let Some(mut object) = run.take(alloc) else {
        return Refusal::Empty.number();
    };
    match end_in(alloc, form, &mut object) {
        Ok((text, ended)) => {
            output.put(alloc, Some(text));
            *status = i32::from(ended);
            OK
        }
        Err(refusal) => refusal.number(),
    }
}

fn end_in(alloc: Global, form: Form, object: &mut Object) -> Result<(Box<Object>, u8), Refusal>
    ensures ended { IfOk result (λ told. Ends form (Some object.old) (Some told.0.value)
        (pos told.1)) }
    ensures refused { IfErr result (IsEndRefusal (Some object.old)) }
{
    match object {
        Object::Run(run) => {
            let (text, status) = run.end(alloc, form)?;
            Ok((Box::new(alloc, Object::Text(Bytes::new(text)))?, status))
        }
        _ => Err(Refusal::Empty),
    }
}
