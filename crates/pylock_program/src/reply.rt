//! What `audit`, `marker`, `environment` and the questions on a text print.

ghost use Rattle.std.specs.Prelude.{◌≡◌, ◌++◌, OnOk, Some, None, string_bytes};
ghost use Rattle.pylock_command.specs.declared.form.Form.TheVariants.{Json};
ghost use Rattle.pylock_program.specs.Inner.Answer.{PushesOr};
ghost use Rattle.pylock_program.specs.Inner.Machine.{machine_read};
ghost use Rattle.pylock_program.specs.Program.{OpensMachine, RepliesTelling};
ghost use Rattle.pylock_program.specs.Refusal.{GivesOr, PrintsTelling, refusal_report};
ghost use Rattle.pylock_program.specs.Reply.{audit_report, marker_answer};
ghost use Rattle.pylock_program.specs.Reply.{marker_answer_in, marker_report, reply_of};
ghost use Rattle.pylock_program.specs.Reply.{target_answer, target_report, text_report};
ghost use Rattle.pylock_program.specs.Reply.{value_answer};
ghost use Rattle.pylock_program.specs.declared.opening.Unopened.TheVariants as unopened;
ghost use Rattle.pylock_program.specs.declared.refusal.Cause.TheVariants as cause;
ghost use Rattle.pylock_run.specs.Report.Print.{Prints, Pushes};
ghost use Rattle.pylock_run.specs.declared.report.opening.OpenError.TheVariants as open_error;

mod texts;

use crate::diagnostics::expected::{tell_marker, tell_text};
use crate::failure::{Failure, program_end};
use crate::file::{MachineInput, read_machine};
use crate::host::{Host, Outputs};
use crate::lines::list_status;
use crate::opening::read_environment;
use crate::refusal::{REFUSED, Refusal, push_found, push_open_error, write_refusal};
use crate::reply::texts::{
    push_fault, push_match, push_name, push_requirement, push_sdist, push_truth, push_version,
    push_wheel, push_word_refused,
};
use pylock_audit::read_audited;
use pylock_command::{Form, Machine, TargetWords, TextQuestion};
use pylock_core::{EnvError, FaultCode, LockError};
use pylock_documents::environment_text;
use pylock_run::{Files, OpenError, RunFault, Sink, Source, print};
use pymark_core::{Environment, EvalFault, Marker, MarkerError};
use pywheel_core::{Target, TargetError};
use std::alloc::{AllocError, Global};

/// The status where a text is refused.
const REFUSED_TEXT: u8 = 1;

// ---- a refused lock

/// Pushes the refusal of a lock, and answers its status.
pub(crate) fn push_refused_lock(
    alloc: Global,
    out: &mut Vec<u8>,
    form: Form,
    error: LockError,
) -> Result<u8, AllocError>
    ensures { Pushes out.old.items out.new.items (refusal_report (Some form) None
        (cause.Unopened (unopened.Refused (open_error.Lock error)))) result }
{
    push_open_error(alloc, out, form, &OpenError::Lock(error), None)?;
    Ok(REFUSED)
}

// ---- what is found in a lock

/// Pushes what `audit` prints of a lock, which is given by the bytes of its TOML text, and answers
/// the status. It takes memory for the lock, the findings and what it pushes.
pub fn push_audit(
    alloc: Global,
    out: &mut Vec<u8>,
    form: Form,
    lock: &[u8],
) -> Result<u8, AllocError>
    ensures { Pushes out.old.items out.new.items (audit_report form None lock.now) result }
{
    match read_audited(alloc, lock) {
        Ok((_, found)) => {
            push_found(alloc, out, form, found.as_slice())?;
            Ok(list_status(found.as_slice()))
        }
        Err(LockError::Memory) => Err(AllocError),
        Err(error) => push_refused_lock(alloc, out, form, error),
    }
}

// ---- a marker on a machine

/// Answers `marker` in the environment of a machine.
pub(crate) fn judge_marker<F: Files, R: Source, W: Sink, N: Sink>(
    alloc: Global,
    marker: &str,
    machine: Machine<'_>,
    form: Form,
    host: &mut Host<F, R, W, N>,
) -> Result<u8, Failure>
    ensures { OpensMachine (F.read_gives host.old.files) machine.entry
        (λ read. RepliesTelling (λ diagnostic. marker_report form diagnostic marker.now read))
        (R.value host.old.reader) (R.value host.new.reader)
        (W.value host.old.outputs.writer) (W.value host.new.outputs.writer) result }
{
    let machine = read_machine(alloc, host, machine)?;
    program_end(write_marker(alloc, form, marker, &machine, &mut host.outputs))
}

/// A person is told what was expected where the marker is refused, and why it has no value.
#[tactic(auto, using(crate::proofs::OpeningLemmas::refused))]
fn write_marker<W: Sink, N: Sink>(
    alloc: Global,
    form: Form,
    text: &str,
    machine: &MachineInput<'_>,
    outputs: &mut Outputs<W, N>,
) -> Result<u8, RunFault>
    ensures { PrintsTelling
        (λ diagnostic. marker_report form diagnostic text.now (machine_read machine.now))
        (W.value outputs.old.writer) (W.value outputs.new.writer) result }
{
    let mut out = Vec::new(alloc);
    match push_marker(alloc, &mut out, form, text, machine) {
        Ok(status) => {
            let end = print(&out, status, &mut outputs.writer);
            if let Ok(REFUSED_TEXT) = end {
                tell_marker(alloc, &mut outputs.diagnostics, text, machine);
            }
            end
        }
        Err(refusal) => write_refusal(alloc, Some(form), refusal, outputs),
    }
}

/// The marker's text is judged before the environment.
fn push_marker(
    alloc: Global,
    out: &mut Vec<u8>,
    form: Form,
    text: &str,
    machine: &MachineInput<'_>,
) -> Result<u8, Refusal<'static>>
    ensures { PushesOr out.old.items out.new.items
        (marker_answer form text.now (machine_read machine.now)) result }
{
    let word = match Marker::parse(alloc, text) {
        Ok(marker) => return push_marker_in(alloc, out, form, &marker, machine),
        Err(MarkerError::TooDeep) => "too-deep",
        Err(MarkerError::Syntax) => "syntax",
        Err(MarkerError::SetMisuse) => "set-misuse",
        Err(MarkerError::Memory) => return Err(Refusal::of_memory()),
    };
    Ok(push_word_refused(alloc, out, form, word)?)
}

/// Whether a marker is true in the environment.
fn push_marker_in(
    alloc: Global,
    out: &mut Vec<u8>,
    form: Form,
    marker: &Marker,
    machine: &MachineInput<'_>,
) -> Result<u8, Refusal<'static>>
    ensures { PushesOr out.old.items out.new.items
        (marker_answer_in form marker.now (machine_read machine.now)) result }
{
    let (environment, _tags) = read_environment(alloc, machine)?;
    Ok(push_value(alloc, out, form, marker, &environment)?)
}

/// Whether a marker is true, or its fault.
fn push_value(
    alloc: Global,
    out: &mut Vec<u8>,
    form: Form,
    marker: &Marker,
    environment: &Environment,
) -> Result<u8, AllocError>
    ensures { Pushes out.old.items out.new.items
        (reply_of (value_answer form marker.now environment.now)) result }
{
    match marker.evaluate(alloc, environment) {
        Ok(value) => push_truth(alloc, out, form, "marker", value),
        Err(EvalFault::Memory) => Err(AllocError),
        Err(fault) => push_fault(alloc, out, form, FaultCode::from(fault)),
    }
}

// ---- the environment of a target

/// Prints the environment of a target.
#[tactic(auto, using(crate::proofs::OpeningLemmas::refused))]
pub(crate) fn print_target<W: Sink, N: Sink>(
    alloc: Global,
    target: TargetWords<'_>,
    outputs: &mut Outputs<W, N>,
) -> Result<u8, RunFault>
    ensures { PrintsTelling
        (λ diagnostic. target_report diagnostic target.entry.python.now target.entry.platform.now)
        (W.value outputs.old.writer) (W.value outputs.new.writer) result }
{
    match target_text(alloc, target) {
        Ok(text) => print(text.as_bytes(), 0, &mut outputs.writer),
        Err(refusal) => write_refusal(alloc, Some(Form::Lines), refusal, outputs),
    }
}

fn target_text(alloc: Global, target: TargetWords<'_>) -> Result<String, Refusal<'static>>
    ensures { GivesOr string_bytes result
        (target_answer target.entry.python.now target.entry.platform.now) }
{
    let error = match Target::parse(target.python, target.platform) {
        Ok(target) => return Ok(environment_text(alloc, &target)?),
        Err(TargetError::Python) => EnvError::Python,
        Err(TargetError::Platform) => EnvError::Platform,
    };
    Err(Refusal::of_environment(alloc, error, &MachineInput::Target(target)))
}

// ---- a text by itself

/// Answers a question on a text, of which a person is told what was expected where it is refused.
/// It takes memory for what it parses and for the answer.
pub(crate) fn answer_text<W: Sink, N: Sink>(
    alloc: Global,
    question: TextQuestion<'_>,
    form: Form,
    outputs: &mut Outputs<W, N>,
) -> Result<u8, RunFault>
    ensures { Prints (text_report question.entry form)
        (W.value outputs.old.writer) (W.value outputs.new.writer) result }
{
    let mut out = Vec::new(alloc);
    let status = push_answer(alloc, &mut out, question, form)?;
    let end = print(&out, status, &mut outputs.writer);
    if let Ok(REFUSED_TEXT) = end {
        tell_text(alloc, &mut outputs.diagnostics, question);
    }
    end
}

fn push_answer(
    alloc: Global,
    out: &mut Vec<u8>,
    question: TextQuestion<'_>,
    form: Form,
) -> Result<u8, AllocError>
    ensures { Pushes out.old.items out.new.items (text_report question.entry form) result }
{
    match question {
        TextQuestion::Version(text) => push_version(alloc, out, form, text),
        TextQuestion::Match(set, version) => push_match(alloc, out, form, set, version),
        TextQuestion::Name(text) => push_name(alloc, out, form, text),
        TextQuestion::Requirement(text) => push_requirement(alloc, out, form, text),
        TextQuestion::Wheel(text) => push_wheel(alloc, out, form, text),
        TextQuestion::Sdist(text) => push_sdist(alloc, out, form, text),
    }
}
