//! Sessions on a lock that is taken strictly (PEP 751).

ghost use Rattle.std.specs.Prelude.{◌≡◌, IfOk, None, Result};
ghost use Rattle.pytext.specs.Agreement.{Gives};
ghost use Rattle.pylock_readers.specs.Environment.{env_of};
ghost use Rattle.pylock_program.specs.Refusal.{unopened_printed};
ghost use Rattle.pylock_program.specs.Opening.{strict_state};
ghost use Rattle.pylock_program.specs.declared.opening.Unopened.{Unopened as NotOpened};
ghost use Rattle.pylock_program.specs.declared.opening.Unopened.TheVariants as unopened;
ghost use Rattle.pylock_run.specs.declared.report.opening.OpenError.TheVariants as refusal;
ghost use Rattle.pylock_slots.specs.Sessions.{form_of};
ghost use Rattle.pylock_slots.specs.Slot.{object};
ghost use Rattle.pylock_c.specs.Strict.{OpensStrictly, strictly_started, unopened_refusal};
ghost use Rattle.pylock_slots.specs.declared.object.Object.{Object as Kind};
ghost use Rattle.pylock_slots.specs.declared.object.Object.TheVariants as kind;

use pylock_command::Form;
use pylock_core::EnvironmentInput;
use pylock_program::{Unopened, open_strictly, push_unopened};
use pylock_run::OpenError;
use pylock_slots::{
    Bytes, KeptSession, Object, Refusal, Slot, form_of, leave_object, open_refusal,
};
use std::alloc::{AllocError, Global};

/// The session on a lock that is taken strictly, and on an environment.
fn strictly_started(alloc: Global, lock: &[u8], environment: &[u8]) -> Result<Object, Unopened>
    ensures { Gives (unopened.Refused refusal.Memory) (λ kept. kept) result
        (strictly_started (strict_state lock.now (env_of environment.now))) }
{
    let session = open_strictly(alloc, lock, EnvironmentInput::Text(environment))?;
    match KeptSession::new(alloc, session) {
        Ok(session) => Ok(Object::Session(session)),
        Err(AllocError) => Err(Unopened::Refused(OpenError::Memory)),
    }
}

/// Starts a session on a lock that is taken strictly and on an environment, or leaves in the slot
/// of the words the findings that are refused, or the line of a refusal; or a document of either.
#[unsafe(no_mangle)]
pub extern "C" fn pylock_session_start_strict(
    alloc: Global,
    session: &mut Slot,
    lock: &[u8],
    environment: &[u8],
    json: bool,
    words: &mut Slot,
) -> i32
    ensures { OpensStrictly (form_of json)
        (strictly_started (strict_state lock.now (env_of environment.now))) (object session.old)
        (object session.new) (object words.old) (object words.new) result }
{
    let outcome = strictly_started(alloc, lock, environment);
    open_strictly_into(alloc, outcome, form_of(json), session, words)
}

/// Leaves the object in its slot, or what is printed in its place in that of the words, and answers
/// the code.
fn open_strictly_into(
    alloc: Global,
    outcome: Result<Object, Unopened>,
    form: Form,
    slot: &mut Slot,
    words: &mut Slot,
) -> i32
    ensures { (definition : Result Kind NotOpened)
        → Gives (unopened.Refused refusal.Memory) (λ kept. kept) outcome definition
        → OpensStrictly form definition (object slot.old) (object slot.new) (object words.old)
        (object words.new) result }
{
    match outcome {
        Ok(kept) => leave_object(alloc, kept, 0, slot),
        Err(Unopened::Refused(OpenError::Memory)) => 1,
        Err(unopened) => match words_of(alloc, form, &unopened) {
            Ok(text) => leave_object(alloc, text, unopened_refusal(&unopened).number(), words),
            Err(AllocError) => 1,
        },
    }
}

/// What is printed in place of a session, as a text to be kept.
fn words_of(alloc: Global, form: Form, unopened: &Unopened) -> Result<Object, AllocError>
    ensures { IfOk result (λ text. text ≡ kind.Text (unopened_printed form None unopened.now)) }
{
    let mut out = Vec::new(alloc);
    push_unopened(alloc, &mut out, form, unopened, None)?;
    Ok(Object::Text(Bytes::new(out)))
}

fn unopened_refusal(unopened: &Unopened) -> Refusal
    ensures { result ≡ unopened_refusal unopened.now }
{
    match unopened {
        Unopened::Findings(_) => Refusal::Findings,
        Unopened::Refused(error) => open_refusal(error),
    }
}
