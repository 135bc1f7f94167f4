//! Answers on a lock at once (PEP 751), what is told of a refused text, and the head of a lock.

ghost use Rattle.std.specs.Prelude.{◌≡◌, Some, None};
ghost use Rattle.pytext.specs.Agreement.{Gives};
ghost use Rattle.pylock_program.specs.Show.{opened_report};
ghost use Rattle.pylock_run.specs.Report.{open_state};
ghost use Rattle.pylock_command.specs.declared.task.FilesOutput.TheVariants.{Shown};
ghost use Rattle.pylock_command.specs.declared.task.View.TheVariants.{Explain, Plan};
ghost use Rattle.pylock_run.specs.declared.report.opening.OpenError.TheVariants as unopened;
ghost use Rattle.pylock_program.specs.Files.{files_report};
ghost use Rattle.pylock_program.specs.Reply.{audit_report};
ghost use Rattle.pylock_slots.specs.Answer.{Tells};
ghost use Rattle.pylock_c.specs.Answers.{environment_read, reported};
ghost use Rattle.pylock_slots.specs.Head.{head_of};
ghost use Rattle.pylock_slots.specs.Opening.{Opens, Says};
ghost use Rattle.pylock_slots.specs.Sessions.{form_of};
ghost use Rattle.pylock_slots.specs.Slot.{object};
ghost use Rattle.pylock_slots.specs.declared.refusal.Refusal.TheVariants.{Memory};

use pylock_command::Form;
use pylock_core::{EnvError, read_environment};
use pylock_messages::{environment_message, lock_message};
use pylock_program::{View, push_audit, push_files, push_open_error, push_view};
use pylock_run::{OpenError, open};
use pylock_slots::{
    Bytes, Object, Refusal, Slot, form_of, keep_with, leave_object, lock_head, open_into,
};
use std::alloc::{AllocError, Global};

/// What `plan` or `explain` prints of a lock in an environment, and its status.
fn report(
    alloc: Global,
    view: View,
    form: Form,
    lock: &[u8],
    environment: &[u8],
) -> Result<(Object, i32), Refusal>
    ensures { Gives Memory (λ told. (Some told.0, told.1)) result (reported
        (opened_report view form (open_state lock.now environment.now))) }
{
    let mut out = Vec::new(alloc);
    let status = match open(alloc, lock, environment) {
        Ok(session) => {
            let is_plan = push_view(alloc, &mut out, view, form, &session)?;
            if is_plan { 0 } else { 1 }
        }
        Err(OpenError::Memory) => return Err(Refusal::Memory),
        Err(refusal) => {
            push_open_error(alloc, &mut out, form, &refusal, None)?;
            2
        }
    };
    Ok((Object::Text(Bytes::new(out)), status))
}

/// The answer of a lock in an environment, as `pylock plan` prints it, and its status.
#[unsafe(no_mangle)]
pub extern "C" fn pylock_plan(
    alloc: Global,
    lock: &[u8],
    environment: &[u8],
    json: bool,
    out: &mut Slot,
    status: &mut i32,
) -> i32
    ensures { Tells (reported (opened_report Plan (form_of json)
        (open_state lock.now environment.now)))
        (object out.old, status.old) (object out.new, status.new) result }
{
    let told = report(alloc, View::Plan, form_of(json), lock, environment);
    keep_with(alloc, told, out, status)
}

/// What becomes of each entry of a lock in an environment, as `pylock explain` prints it, and its
/// status.
#[unsafe(no_mangle)]
pub extern "C" fn pylock_explain(
    alloc: Global,
    lock: &[u8],
    environment: &[u8],
    json: bool,
    out: &mut Slot,
    status: &mut i32,
) -> i32
    ensures { Tells (reported (opened_report Explain (form_of json)
        (open_state lock.now environment.now)))
        (object out.old, status.old) (object out.new, status.new) result }
{
    let told = report(alloc, View::Explain, form_of(json), lock, environment);
    keep_with(alloc, told, out, status)
}

/// What `files` prints of a lock, and its status.
fn files(alloc: Global, form: Form, lock: &[u8]) -> Result<(Object, i32), Refusal>
    ensures { Gives Memory (λ told. (Some told.0, told.1)) result
        (reported (files_report (Shown form) None lock.now)) }
{
    let mut out = Vec::new(alloc);
    let status = push_files(alloc, &mut out, form, lock)?;
    Ok((Object::Text(Bytes::new(out)), i32::from(status)))
}

/// Every source that a lock names, as `pylock files` prints them, and its status.
#[unsafe(no_mangle)]
pub extern "C" fn pylock_files(
    alloc: Global,
    lock: &[u8],
    json: bool,
    out: &mut Slot,
    status: &mut i32,
) -> i32
    ensures { Tells (reported (files_report (Shown (form_of json)) None lock.now))
        (object out.old, status.old) (object out.new, status.new) result }
{
    let told = files(alloc, form_of(json), lock);
    keep_with(alloc, told, out, status)
}

/// What `audit` prints of a lock, and its status.
fn audit(alloc: Global, form: Form, lock: &[u8]) -> Result<(Object, i32), Refusal>
    ensures { Gives Memory (λ told. (Some told.0, told.1)) result
        (reported (audit_report form None lock.now)) }
{
    let mut out = Vec::new(alloc);
    let status = push_audit(alloc, &mut out, form, lock)?;
    Ok((Object::Text(Bytes::new(out)), i32::from(status)))
}

/// What a careful reader of a lock would be told, as `pylock audit` prints it, and its status.
#[unsafe(no_mangle)]
pub extern "C" fn pylock_audit(
    alloc: Global,
    lock: &[u8],
    json: bool,
    out: &mut Slot,
    status: &mut i32,
) -> i32
    ensures { Tells (reported (audit_report (form_of json) None lock.now))
        (object out.old, status.old) (object out.new, status.new) result }
{
    let told = audit(alloc, form_of(json), lock);
    keep_with(alloc, told, out, status)
}

/// The head of a lock, as a JSON document, or the line of its refusal.
#[unsafe(no_mangle)]
pub extern "C" fn pylock_lock_head(
    alloc: Global,
    lock: &[u8],
    head: &mut Slot,
    words: &mut Slot,
) -> i32
    ensures { Opens (head_of lock.now) (object head.old) (object head.new) (object words.old)
        (object words.new) result }
{
    open_into(alloc, lock_head(alloc, lock), head, words)
}

#[tactic(auto, unfolding(crate::specs::Answers::environment_read))]
fn environment(alloc: Global, json: &[u8]) -> Result<Object, OpenError>
    ensures { Gives unopened.Memory (λ kept. kept) result (environment_read json.now) }
{
    match read_environment(alloc, json) {
        Ok((environment, _tags)) => Ok(Object::Environment(environment)),
        Err(EnvError::Memory) => Err(OpenError::Memory),
        Err(error) => Err(OpenError::Environment(error)),
    }
}

/// The variables of an environment's text, or the line of its refusal.
#[unsafe(no_mangle)]
pub extern "C" fn pylock_environment_read(
    alloc: Global,
    environment: &mut Slot,
    json: &[u8],
    words: &mut Slot,
) -> i32
    ensures { Opens (environment_read json.now) (object environment.old) (object environment.new)
        (object words.old) (object words.new) result }
{
    open_into(alloc, self::environment(alloc, json), environment, words)
}

/// Leaves the message in the slot, an empty one where there is none, and answers the code.
fn keep_message(alloc: Global, message: Result<Option<String>, AllocError>, slot: &mut Slot) -> i32
    ensures { Says (object slot.old) (object slot.new) result }
{
    match message {
        Ok(Some(text)) => leave_object(alloc, Object::Text(Bytes::new(text.into_bytes())), 0, slot),
        Ok(None) => leave_object(alloc, Object::Text(Bytes::new(Vec::new(alloc))), 0, slot),
        Err(AllocError) => 1,
    }
}

/// Why a lock is refused, in a line for a person.
#[unsafe(no_mangle)]
pub extern "C" fn pylock_lock_message(alloc: Global, lock: &[u8], message: &mut Slot) -> i32
    ensures { Says (object message.old) (object message.new) result }
{
    keep_message(alloc, lock_message(alloc, "lock", lock), message)
}

/// Why the text of an environment is refused, in a line for a person.
#[unsafe(no_mangle)]
pub extern "C" fn pylock_environment_message(alloc: Global, json: &[u8], message: &mut Slot) -> i32
    ensures { Says (object message.old) (object message.new) result }
{
    let told = environment_message(alloc, "environment", json);
    keep_message(alloc, told, message)
}
