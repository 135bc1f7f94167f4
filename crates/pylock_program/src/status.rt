//! What `status` tells: what is to be done so that an environment has what a plan says.

ghost use Rattle.std.specs.Prelude.{◌≡◌, ◌++◌, OnOk, map};
ghost use Rattle.pylock_core.specs.Session.Steps.{answer as answer_of};
ghost use Rattle.pylock_installed.specs.Steps.{lent_step};
ghost use Rattle.pylock_program.specs.Inner.Machine.{machine_read};
ghost use Rattle.pylock_program.specs.Program.{Opens, OpensMachine, RepliesTelling};
ghost use Rattle.pylock_program.specs.Refusal.{GivesOr, PrintsTelling};
ghost use Rattle.pylock_program.specs.Status.{answer_status, installed_in, opened_status};
ghost use Rattle.pylock_program.specs.Status.{status_report, steps_report, steps_shown};
ghost use Rattle.pylock_run.specs.Report.Print.{Prints};

use crate::diagnostics::fault::tell_fault;
use crate::diagnostics::options::tell_options;
use crate::failure::{Failure, program_end};
use crate::file::{FileBytes, Inputs, read_bytes, read_machine};
use crate::host::{Host, Outputs};
use crate::opening::{choose, open_inputs};
use crate::refusal::{Refusal, write_refusal};
use crate::show::write_view;
use pylock_command::{Form, StatusQuestion, View};
use pylock_core::{Answer, Plan, Session};
use pylock_documents::push_document;
use pylock_installed::{
    Installed, InstalledError, Step, is_done, push_steps, steps, steps_document,
};
use pylock_run::{Files, RunFault, Sink, Source, print};
use std::alloc::{AllocError, Global};
use std::mem;

/// Answers `status` on the lock, the environment and the list of a question.
pub(crate) fn show_status<F: Files, R: Source, W: Sink, N: Sink>(
    alloc: Global,
    asked: &StatusQuestion<'_>,
    host: &mut Host<F, R, W, N>,
) -> Result<u8, Failure>
    ensures { Opens (F.read_gives host.old.files) asked.now.opening.lock.now
        (λ lock. OpensMachine (F.read_gives host.old.files) asked.now.opening.machine
        (λ read. Opens (F.read_gives host.old.files) asked.now.installed.now
        (λ list. RepliesTelling (λ diagnostic. status_report asked.now diagnostic lock read list))))
        (R.value host.old.reader) (R.value host.new.reader)
        (W.value host.old.outputs.writer) (W.value host.new.outputs.writer) result }
{
    let lock = read_bytes(alloc, host, asked.opening.lock)?;
    let machine = read_machine(alloc, host, asked.opening.machine)?;
    let list = read_bytes(alloc, host, asked.installed)?;
    let inputs = Inputs {
        lock: &lock,
        machine: &machine,
    };
    program_end(write_status(alloc, asked, inputs, &list, &mut host.outputs))
}

/// Writes the steps to the plan, and answers the status: 0 where nothing is left to do; 1 where
/// something is, where the answer is a fault, which is printed as `plan` prints it, or where an
/// option is refused; 2 where the lock, the environment or the list is refused.
///
/// It takes memory for the session, for what is installed and for the steps.
#[tactic(auto, using(crate::proofs::OpeningLemmas::refused))]
fn write_status<W: Sink, N: Sink>(
    alloc: Global,
    asked: &StatusQuestion<'_>,
    inputs: Inputs<'_>,
    list: &FileBytes<'_>,
    outputs: &mut Outputs<W, N>,
) -> Result<u8, RunFault>
    ensures { PrintsTelling (λ diagnostic. status_report asked.now diagnostic
        inputs.entry.lock.now.bytes.items (machine_read inputs.entry.machine.now)
        list.now.bytes.items)
        (W.value outputs.old.writer) (W.value outputs.new.writer) result }
{
    match open_status(alloc, asked, inputs, list) {
        Ok((session, installed)) => {
            let end = write_beside(alloc, asked, &session, &installed, outputs);
            if outputs.ends_process {
                mem::forget((session, installed));
            }
            end
        }
        Err(refusal) => write_refusal(alloc, Some(asked.form), refusal, outputs),
    }
}

/// The session after the options, and what is installed: the lock is judged first, then the
/// environment, the list and the options.
fn open_status<'a>(
    alloc: Global,
    asked: &StatusQuestion<'a>,
    inputs: Inputs<'_>,
    list: &FileBytes<'_>,
) -> Result<(Session, Installed), Refusal<'a>>
    ensures { GivesOr (λ opened. (opened.0.state, opened.1)) result (opened_status asked.now
        inputs.entry.lock.now.bytes.items (machine_read inputs.entry.machine.now)
        list.now.bytes.items) }
{
    let mut session = open_inputs(alloc, asked.opening.strict, inputs)?;
    let installed = read_installed(alloc, list)?;
    choose(alloc, &mut session, &asked.options, inputs.lock.path)?;
    Ok((session, installed))
}

fn read_installed(alloc: Global, list: &FileBytes<'_>) -> Result<Installed, Refusal<'static>>
    ensures { GivesOr (λ installed. installed) result (installed_in list.now.bytes.items) }
{
    match Installed::read(alloc, &list.bytes) {
        Ok(installed) => Ok(installed),
        Err(InstalledError::Memory) => Err(Refusal::of_memory()),
        Err(error) => Err(Refusal::of_installed(alloc, error, list)),
    }
}

/// Writes the steps to the plan of the session, or the fault of its answer.
fn write_beside<W: Sink, N: Sink>(
    alloc: Global,
    asked: &StatusQuestion<'_>,
    session: &Session,
    installed: &Installed,
    outputs: &mut Outputs<W, N>,
) -> Result<u8, RunFault>
    ensures { Prints (answer_status asked.now installed.now session.now.state
        (answer_of session.now.state))
        (W.value outputs.old.writer) (W.value outputs.new.writer) result }
{
    let answer = session.answer()?;
    let end = write_answer(
        alloc,
        asked,
        session,
        &answer,
        installed,
        &mut outputs.writer,
    );
    if end.is_ok() {
        tell_answer(alloc, &mut outputs.diagnostics, asked, session, &answer);
    }
    end
}

/// Tells what the options may not do as they seem to, and where a fault is, and why.
fn tell_answer<N: Sink>(
    alloc: Global,
    diagnostics: &mut N,
    asked: &StatusQuestion<'_>,
    session: &Session,
    answer: &Answer,
) {
    tell_options(alloc, diagnostics, session, &asked.options);
    if let Answer::Fault { id, code } = answer {
        let machine = asked.opening.machine;
        tell_fault(alloc, diagnostics, machine, session, (*id, *code));
    }
}

/// Writes the steps to a plan, or the fault as `plan` writes it.
fn write_answer<W: Sink>(
    alloc: Global,
    asked: &StatusQuestion<'_>,
    session: &Session,
    answer: &Answer,
    installed: &Installed,
    writer: &mut W,
) -> Result<u8, RunFault>
    requires { answer.now ≡ answer_of session.now.state }
    ensures { Prints (answer_status asked.now installed.now session.now.state answer.now)
        (W.value writer.old) (W.value writer.new) result }
{
    match answer {
        Answer::Plan(plan) => {
            let steps = steps(alloc, session, plan, installed, asked.exact)?;
            write_steps(alloc, asked.form, session, &steps, writer)
        }
        Answer::Fault { .. } => {
            write_view(alloc, (View::Plan, asked.form), session, answer, writer)
        }
    }
}

/// Writes the steps in the form.
fn write_steps<W: Sink>(
    alloc: Global,
    form: Form,
    session: &Session,
    steps: &[Step<'_>],
    writer: &mut W,
) -> Result<u8, RunFault>
    ensures { Prints (steps_report form session.now.state (map lent_step steps.now))
        (W.value writer.old) (W.value writer.new) result }
{
    let mut out = Vec::new(alloc);
    push_shown(alloc, &mut out, form, session, steps)?;
    let status = if is_done(steps) { 0 } else { 1 };
    print(&out, status, writer)
}

/// Pushes the steps in the form.
fn push_shown(
    alloc: Global,
    out: &mut Vec<u8>,
    form: Form,
    session: &Session,
    steps: &[Step<'_>],
) -> Result<(), AllocError>
    ensures { OnOk result (out.new.items
        ≡ out.old.items ++ steps_shown form session.now.state (map lent_step steps.now)) }
{
    match form {
        Form::Lines => push_steps(out, session, steps),
        Form::Json => push_document(alloc, out, steps_document(alloc, session, steps)?),
    }
}
