//! What `check` tells: what differs between a project and what a lock installs on a machine.

ghost use Rattle.std.specs.Prelude.{◌≡◌, ◌++◌, ◌⊎◌, OnOk};
ghost use Rattle.pylock_core.specs.Session.Steps.{answer as answer_of};
ghost use Rattle.pylock_program.specs.Audit.{EndsUnwritten};
ghost use Rattle.pylock_program.specs.Check.{PrintsCheck, answer_check, differences_report};
ghost use Rattle.pylock_program.specs.Check.{differences_shown, opened_check, project_in};
ghost use Rattle.pylock_program.specs.Inner.Check.{PrintsBeside};
ghost use Rattle.pylock_program.specs.Inner.Machine.{machine_read};
ghost use Rattle.pylock_program.specs.Program.{Checks, Opens, OpensMachine};
ghost use Rattle.pylock_program.specs.Refusal.{GivesOr};
ghost use Rattle.pylock_run.specs.Report.Print.{Prints};

mod each;

use crate::diagnostics::fault::tell_fault;
use crate::diagnostics::options::tell_options;
use crate::failure::{Failure, program_end};
use crate::file::{FileBytes, Inputs, read_bytes, read_machine};
use crate::host::{Host, Outputs};
use crate::opening::{choose, open_inputs};
use crate::refusal::{Refusal, write_refusal};
use crate::show::write_view;
pub(crate) use each::check_targets;
use pylock_check::{
    Difference, Project, ProjectError, differences, differences_document, head_differences,
    push_differences,
};
use pylock_command::{CheckQuestion, Form, View};
use pylock_core::{Answer, Session};
use pylock_documents::push_document;
use pylock_run::{Files, RunFault, Sink, Source, print};
use std::alloc::{AllocError, Global};
use std::mem;

/// Answers `check` on the lock, the environment and the project of a question.
pub(crate) fn check_project<F: Files, R: Source, W: Sink, N: Sink>(
    alloc: Global,
    asked: &CheckQuestion<'_>,
    host: &mut Host<F, R, W, N>,
) -> Result<u8, Failure>
    ensures { Opens (F.read_gives host.old.files) asked.now.opening.lock.now
        (λ lock. OpensMachine (F.read_gives host.old.files) asked.now.opening.machine
        (λ read. Opens (F.read_gives host.old.files) asked.now.project.now
        (Checks asked.now lock read)))
        (R.value host.old.reader) (R.value host.new.reader)
        (W.value host.old.outputs.writer) (W.value host.new.outputs.writer) result }
{
    let lock = read_bytes(alloc, host, asked.opening.lock)?;
    let machine = read_machine(alloc, host, asked.opening.machine)?;
    let project = read_bytes(alloc, host, asked.project)?;
    let inputs = Inputs {
        lock: &lock,
        machine: &machine,
    };
    program_end(write_check(alloc, asked, inputs, &project, &mut host.outputs))
}

/// Writes what differs, and answers the status: 0 where nothing does; 1 where something does, where
/// the answer is a fault, which is printed as `plan` prints it, or where an option is refused; 2
/// where the lock, the environment or the project is refused.
///
/// It takes memory for the session, for the project and for the differences.
#[tactic(auto, using(crate::proofs::CheckLemmas::checks))]
fn write_check<W: Sink, N: Sink>(
    alloc: Global,
    asked: &CheckQuestion<'_>,
    inputs: Inputs<'_>,
    file: &FileBytes<'_>,
    outputs: &mut Outputs<W, N>,
) -> Result<u8, RunFault>
    ensures { PrintsCheck asked.now (opened_check asked.now
        inputs.entry.lock.now.bytes.items (machine_read inputs.entry.machine.now)
        file.now.bytes.items)
        (W.value outputs.old.writer) (W.value outputs.new.writer) result
        ⊎ EndsUnwritten (W.value outputs.old.writer) (W.value outputs.new.writer) result }
{
    match open_check(alloc, asked, inputs, file) {
        Ok((session, project)) => {
            let end = write_beside(alloc, asked, &session, &project, outputs);
            if outputs.ends_process {
                mem::forget((session, project));
            }
            end
        }
        Err(refusal) => write_refusal(alloc, Some(asked.form), refusal, outputs),
    }
}

/// The session after the options, and the project: the lock is judged first, then the environment,
/// the project and the options.
fn open_check<'a>(
    alloc: Global,
    asked: &CheckQuestion<'a>,
    inputs: Inputs<'_>,
    file: &FileBytes<'_>,
) -> Result<(Session, Project), Refusal<'a>>
    ensures { GivesOr (λ opened. (opened.0.state, opened.1)) result (opened_check asked.now
        inputs.entry.lock.now.bytes.items (machine_read inputs.entry.machine.now)
        file.now.bytes.items) }
{
    let mut session = open_inputs(alloc, asked.opening.strict, inputs)?;
    let project = read_project(alloc, file)?;
    choose(alloc, &mut session, &asked.options, inputs.lock.path)?;
    Ok((session, project))
}

/// The project in a file.
pub(crate) fn read_project(alloc: Global, file: &FileBytes<'_>) -> Result<Project, Refusal<'static>>
    ensures { GivesOr (λ project. project) result (project_in file.now.bytes.items) }
{
    match Project::read(alloc, &file.bytes) {
        Ok(project) => Ok(project),
        Err(ProjectError::Memory) => Err(Refusal::of_memory()),
        Err(error) => Err(Refusal::of_project(alloc, error, file)),
    }
}

/// Writes what differs between the project and the session, or the fault of its answer.
#[tactic(auto, using(crate::proofs::CheckLemmas::besides))]
fn write_beside<W: Sink, N: Sink>(
    alloc: Global,
    asked: &CheckQuestion<'_>,
    session: &Session,
    project: &Project,
    outputs: &mut Outputs<W, N>,
) -> Result<u8, RunFault>
    ensures { PrintsBeside asked.now project.now session.now.state
        (W.value outputs.old.writer) (W.value outputs.new.writer) result
        ⊎ EndsUnwritten (W.value outputs.old.writer) (W.value outputs.new.writer) result }
{
    let of_head = head_differences(alloc, project, session.head())?;
    let answer = session.answer()?;
    write_answer(alloc, asked, (session, project), of_head, &answer, outputs)
}

/// Writes what differs from a plan, behind these differences, or the fault as `plan` writes it; and
/// tells what the options may not do as they seem to, and where a fault is, and why.
fn write_answer<W: Sink, N: Sink>(
    alloc: Global,
    asked: &CheckQuestion<'_>,
    beside: (&Session, &Project),
    of_head: Vec<Difference>,
    answer: &Answer,
    outputs: &mut Outputs<W, N>,
) -> Result<u8, RunFault>
    requires { answer.now ≡ answer_of beside.0.now.state }
    ensures { Prints (answer_check asked.now of_head.items beside.entry.1.now
        beside.entry.0.now.state answer.now)
        (W.value outputs.old.writer) (W.value outputs.new.writer) result }
{
    let (session, project) = beside;
    let form = asked.form;
    tell_options(alloc, &mut outputs.diagnostics, session, &asked.options);
    match answer {
        Answer::Plan(plan) => {
            let mut all = of_head;
            push_all(&mut all, differences(alloc, project, session, plan)?)?;
            write_differences(alloc, form, &all, &mut outputs.writer)
        }
        Answer::Fault { id, code } => {
            let machine = asked.opening.machine;
            tell_fault(
                alloc,
                &mut outputs.diagnostics,
                machine,
                session,
                (*id, *code),
            );
            write_view(
                alloc,
                (View::Plan, form),
                session,
                answer,
                &mut outputs.writer,
            )
        }
    }
}

fn push_all(all: &mut Vec<Difference>, others: Vec<Difference>) -> Result<(), AllocError>
    ensures { OnOk result (all.new.items ≡ all.old.items ++ others.items) }
{
    for other in others {
        all.push(other)?;
    }
    Ok(())
}

/// Writes the differences in the form.
fn write_differences<W: Sink>(
    alloc: Global,
    form: Form,
    list: &[Difference],
    writer: &mut W,
) -> Result<u8, RunFault>
    ensures { Prints (differences_report form list.now)
        (W.value writer.old) (W.value writer.new) result }
{
    let mut out = Vec::new(alloc);
    push_shown(alloc, &mut out, form, list)?;
    let status = if list.is_empty() { 0 } else { 1 };
    print(&out, status, writer)
}

/// Pushes the differences in the form.
fn push_shown(
    alloc: Global,
    out: &mut Vec<u8>,
    form: Form,
    list: &[Difference],
) -> Result<(), AllocError>
    ensures { OnOk result (out.new.items ≡ out.old.items ++ differences_shown form list.now) }
{
    match form {
        Form::Lines => push_differences(out, list),
        Form::Json => push_document(alloc, out, differences_document(alloc, list)?),
    }
}
