//! The session that a task asks for: on a lock that is taken strictly, or as it is, and after
//! options; or why there is none.

ghost use Rattle.std.specs.Prelude.{◌≡◌, IfOk};
ghost use Rattle.std.specs.Result.{result_map_both};
ghost use Rattle.pytext.specs.Agreement.{Gives};
ghost use Rattle.pylock_readers.specs.Input.{input_env_of};
ghost use Rattle.pylock_core.specs.Session.Judgement.{all_numbers, index_of, verdicts_of};
ghost use Rattle.pylock_program.specs.Inner.Machine.{machine_read};
ghost use Rattle.pylock_program.specs.Opening.{chosen_state, environment_of};
ghost use Rattle.pylock_program.specs.Opening.{opened_by, question_state, strict_state};
ghost use Rattle.pylock_program.specs.Refusal.{GivesOr};
ghost use Rattle.pylock_program.specs.declared.opening.Unopened.TheVariants as unopened;
ghost use Rattle.pylock_program.specs.declared.refusal.Cause.TheVariants as cause;
ghost use Rattle.pylock_run.specs.declared.report.opening.OpenError.TheVariants as refusal;

use crate::diagnostics::options::{NamedLock, option_diagnostic};
use crate::diagnostics::refusal::unopened_diagnostic;
use crate::file::{Inputs, MachineInput};
use crate::options::make_options;
use crate::refusal::{Cause, Refusal};
use pylock_audit::{Findings, StrictError, read_strict};
use pylock_command::{PlanOption, Question};
use pylock_core::{EnvError, EnvironmentInput, Session};
use pylock_run::{OpenError, open_in, open_on};
use pymark_core::Environment;
use pywheel_core::TagList;
use std::alloc::Global;

/// Why there is no session.
#[derive(Drop)]
pub enum Unopened {
    /// The lock is valid, and these are found in it, which a strict reading refuses.
    Findings(Findings),
    /// The lock or the environment is refused, or memory ran out.
    Refused(OpenError),
}

impl From<OpenError> for Unopened {
    ghost use Rattle.pylock_program.specs.declared.opening.Unopened.TheVariants.{Refused};

    ghost from_gives = { λ error unopened. unopened ≡ Refused error };

    fn from(error: OpenError) -> Unopened {
        Unopened::Refused(error)
    }
}

/// Opens a session on a lock that is taken strictly: only where nothing is found in it that
/// [`read_strict`] refuses. A refused lock comes first, then the findings, then a refused
/// environment. It takes the memory of [`open_in`] and of [`read_strict`].
#[tactic(auto, using(crate::proofs::OpeningLemmas::strictly_opened))]
pub fn open_strictly(
    alloc: Global,
    lock: &[u8],
    environment: EnvironmentInput<'_>,
) -> Result<Session, Unopened>
    ensures state { Gives (unopened.Refused refusal.Memory) (λ session. session.state) result
        (strict_state lock.now (input_env_of environment.entry)) }
    ensures verdicts { IfOk result (λ session. session.verdicts ≡ verdicts_of session.state) }
    ensures index { IfOk result (λ session. session.index ≡ index_of session.state) }
    ensures judged { IfOk result (λ session. session.judged ≡ all_numbers session.state) }
{
    match read_strict(alloc, lock) {
        Ok(lock) => Ok(open_on(alloc, lock, environment)?),
        Err(StrictError::Lock(error)) => Err(Unopened::Refused(OpenError::Lock(error))),
        Err(StrictError::Findings(found)) => Err(Unopened::Findings(found)),
        Err(StrictError::Memory) => Err(Unopened::Refused(OpenError::Memory)),
    }
}

/// Opens a session on a lock that is taken strictly, or as it is.
fn open_by(
    alloc: Global,
    strict: bool,
    lock: &[u8],
    environment: EnvironmentInput<'_>,
) -> Result<Session, Unopened>
    ensures { Gives (unopened.Refused refusal.Memory) (λ session. session.state) result
        (opened_by strict lock.now (input_env_of environment.entry)) }
{
    if strict {
        open_strictly(alloc, lock, environment)
    } else {
        Ok(open_in(alloc, lock, environment)?)
    }
}

/// The same of what was read, where a refusal has its diagnostic.
pub(crate) fn open_inputs(
    alloc: Global,
    strict: bool,
    inputs: Inputs<'_>,
) -> Result<Session, Refusal<'static>>
    ensures { GivesOr (λ session. session.state) result (result_map_both (λ state. state)
        cause.Unopened (opened_by strict inputs.entry.lock.now.bytes.items
        (machine_read inputs.entry.machine.now))) }
{
    match open_by(alloc, strict, &inputs.lock.bytes, inputs.machine.input()) {
        Ok(session) => Ok(session),
        Err(Unopened::Refused(OpenError::Memory)) => Err(Refusal::of_memory()),
        Err(unopened) => {
            let diagnostic = unopened_diagnostic(alloc, &unopened, inputs);
            let cause = Cause::Unopened(unopened);
            Err(Refusal { cause, diagnostic })
        }
    }
}

/// The environment of a machine, with its tags.
pub(crate) fn read_environment(
    alloc: Global,
    machine: &MachineInput<'_>,
) -> Result<(Environment, TagList), Refusal<'static>>
    ensures { GivesOr (λ read. read) result (environment_of (machine_read machine.now)) }
{
    match machine.input().read(alloc) {
        Ok(read) => Ok(read),
        Err(EnvError::Memory) => Err(Refusal::of_memory()),
        Err(error) => Err(Refusal::of_environment(alloc, error, machine)),
    }
}

/// The session that a question asks for.
pub(crate) fn open_question<'a>(
    alloc: Global,
    question: &Question<'a>,
    inputs: Inputs<'_>,
) -> Result<Session, Refusal<'a>>
    ensures { GivesOr (λ session. session.state) result (question_state question.now
        inputs.entry.lock.now.bytes.items (machine_read inputs.entry.machine.now)) }
{
    let mut session = open_inputs(alloc, question.opening.strict, inputs)?;
    choose(alloc, &mut session, &question.options, inputs.lock.path)?;
    Ok(session)
}

/// Makes the edits of the options, up to the first that is refused. `path` is that of the lock.
pub(crate) fn choose<'a>(
    alloc: Global,
    session: &mut Session,
    options: &[PlanOption<'a>],
    path: &str,
) -> Result<(), Refusal<'a>>
    ensures { GivesOr (λ _. session.new.state) result
        (chosen_state options.now session.old.state) }
{
    match make_options(alloc, session, options)? {
        None => Ok(()),
        Some(option) => {
            let head = session.head();
            let diagnostic = option_diagnostic(alloc, NamedLock { path, head }, option);
            let cause = Cause::Option(option);
            Err(Refusal { cause, diagnostic })
        }
    }
}
