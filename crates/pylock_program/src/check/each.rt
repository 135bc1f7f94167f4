//! What `check --matrix` tells: what differs between a project and what a lock installs on each of
//! many targets.

ghost use Rattle.std.specs.Prelude.{◌≡◌, ◌++◌, ◌⊎◌, IfOk, OnOk};
ghost use Rattle.pylock_matrix.specs.Moving.{HasVariables};
ghost use Rattle.pylock_program.specs.Audit.{EndsUnwritten};
ghost use Rattle.pylock_program.specs.CheckMatrix.{PrintsTargets, as_matrix, checks_report};
ghost use Rattle.pylock_program.specs.CheckMatrix.{checks_shown, opened_targets};
ghost use Rattle.pylock_program.specs.Inner.CheckMatrix.{PrintsChecks};
ghost use Rattle.pylock_program.specs.Program.{ChecksMatrix, ChecksTargets, Opens};
ghost use Rattle.pylock_program.specs.Refusal.{GivesOr};
ghost use Rattle.pylock_run.specs.Report.Print.{Prints};

use crate::check::read_project;
use crate::failure::{Failure, program_end};
use crate::file::{FileBytes, read_bytes};
use crate::host::{Host, Outputs};
use crate::matrix::{open_matrix, settings_of};
use crate::refusal::{Refusal, write_refusal};
use pylock_check::{
    Difference, Project, TargetCheck, head_differences, is_clean, push_target_checks,
    target_checks, target_checks_document,
};
use pylock_command::{CheckMatrixQuestion, Form, MatrixOutput, MatrixQuestion};
use pylock_core::Session;
use pylock_documents::push_document;
use pylock_matrix::Cell;
use pylock_run::{Files, RunFault, Sink, Source, print};
use std::alloc::{AllocError, Global};
use std::mem;

/// The files that are compared.
#[derive(Clone, Copy)]
struct ComparedFiles<'a> {
    lock: &'a FileBytes<'a>,
    project: &'a FileBytes<'a>,
}

/// Answers `check --matrix` on the lock and the project of a question.
pub(crate) fn check_targets<F: Files, R: Source, W: Sink, N: Sink>(
    alloc: Global,
    asked: CheckMatrixQuestion<'_>,
    host: &mut Host<F, R, W, N>,
) -> Result<u8, Failure>
    ensures { Opens (F.read_gives host.old.files) asked.entry.lock.now
        (λ lock. Opens (F.read_gives host.old.files) asked.entry.project.now
        (ChecksMatrix asked.entry lock))
        (R.value host.old.reader) (R.value host.new.reader)
        (W.value host.old.outputs.writer) (W.value host.new.outputs.writer) result }
{
    let (form, project) = (asked.form, asked.project);
    let matrix = matrix_of(asked);
    check_each(alloc, form, &matrix, project, host)
}

/// Answers the same, by what `matrix` is asked with the same words.
fn check_each<F: Files, R: Source, W: Sink, N: Sink>(
    alloc: Global,
    form: Form,
    asked: &MatrixQuestion<'_>,
    project: &str,
    host: &mut Host<F, R, W, N>,
) -> Result<u8, Failure>
    ensures { Opens (F.read_gives host.old.files) asked.now.lock.now
        (λ lock. Opens (F.read_gives host.old.files) project.now
        (ChecksTargets form asked.now lock))
        (R.value host.old.reader) (R.value host.new.reader)
        (W.value host.old.outputs.writer) (W.value host.new.outputs.writer) result }
{
    let lock = read_bytes(alloc, host, asked.lock)?;
    let file = read_bytes(alloc, host, project)?;
    let files = ComparedFiles {
        lock: &lock,
        project: &file,
    };
    program_end(write_check(alloc, form, asked, files, &mut host.outputs))
}

/// What `matrix` is asked with the same words.
fn matrix_of(asked: CheckMatrixQuestion<'_>) -> MatrixQuestion<'_>
    ensures { result ≡ as_matrix asked.entry }
{
    let CheckMatrixQuestion {
        lock,
        pythons,
        platforms,
        options,
        strict,
        project: _,
        form,
    } = asked;
    MatrixQuestion {
        lock,
        pythons,
        platforms,
        options,
        strict,
        no_build: false,
        output: MatrixOutput::Rows(form),
    }
}

/// Writes what differs, and answers the status: 0 where nothing does; 1 where something does, or
/// where an option is refused; 2 where the lock, a word of the targets or the project is refused.
///
/// It takes memory for one session, for the project and for the differences.
#[tactic(auto, using(crate::proofs::CheckMatrixLemmas::checks))]
fn write_check<W: Sink, N: Sink>(
    alloc: Global,
    form: Form,
    asked: &MatrixQuestion<'_>,
    files: ComparedFiles<'_>,
    outputs: &mut Outputs<W, N>,
) -> Result<u8, RunFault>
    ensures { PrintsTargets form asked.now (opened_targets asked.now
        files.entry.lock.now.bytes.items files.entry.project.now.bytes.items)
        (W.value outputs.old.writer) (W.value outputs.new.writer) result
        ⊎ EndsUnwritten (W.value outputs.old.writer) (W.value outputs.new.writer) result }
{
    match open_targets(alloc, asked, files) {
        Ok((begun, project)) => {
            let (mut session, cells) = begun;
            let asked = (form, asked);
            let end = write_each(alloc, asked, &mut session, cells, &project, outputs);
            if outputs.ends_process {
                mem::forget((session, project));
            }
            end
        }
        Err(refusal) => write_refusal(alloc, Some(form), refusal, outputs),
    }
}

/// The session on the first target, after the options, with all targets, and the project.
fn open_targets<'a>(
    alloc: Global,
    asked: &MatrixQuestion<'a>,
    files: ComparedFiles<'_>,
) -> Result<((Session, Vec<Cell>), Project), Refusal<'a>>
    ensures opened { GivesOr (λ opened. ((opened.0.0.state, opened.0.1.items), opened.1)) result
        (opened_targets asked.now files.entry.lock.now.bytes.items
        files.entry.project.now.bytes.items) }
    ensures variables { IfOk result (λ opened. HasVariables opened.0.0.state) }
{
    let begun = open_matrix(alloc, asked, files.lock)?;
    let project = read_project(alloc, files.project)?;
    Ok((begun, project))
}

/// Writes what differs between the project and the lock on each target, to which the session is
/// moved one after another.
#[tactic(auto, using(crate::proofs::CheckMatrixLemmas::besides))]
fn write_each<W: Sink, N: Sink>(
    alloc: Global,
    asked: (Form, &MatrixQuestion<'_>),
    session: &mut Session,
    cells: Vec<Cell>,
    project: &Project,
    outputs: &mut Outputs<W, N>,
) -> Result<u8, RunFault>
    requires { HasVariables session.old.state }
    ensures { PrintsChecks asked.entry.0 asked.entry.1.now
        ((session.old.state, cells.items), project.now)
        (W.value outputs.old.writer) (W.value outputs.new.writer) result
        ⊎ EndsUnwritten (W.value outputs.old.writer) (W.value outputs.new.writer) result }
{
    let (form, asked) = asked;
    let of_head = head_differences(alloc, project, session.head())?;
    let settings = settings_of(alloc, &asked.options)?;
    let checks = target_checks(alloc, project, session, cells, &settings)?;
    write_checks(alloc, form, (&of_head, &checks), &mut outputs.writer)
}

/// Writes the differences in the form.
fn write_checks<W: Sink>(
    alloc: Global,
    form: Form,
    found: (&[Difference], &[TargetCheck]),
    writer: &mut W,
) -> Result<u8, RunFault>
    ensures { Prints (checks_report form found.entry.0.now found.entry.1.now)
        (W.value writer.old) (W.value writer.new) result }
{
    let (of_head, checks) = found;
    let mut out = Vec::new(alloc);
    push_shown(alloc, &mut out, form, of_head, checks)?;
    let status = if is_clean(of_head, checks) { 0 } else { 1 };
    print(&out, status, writer)
}

/// Pushes the differences in the form.
fn push_shown(
    alloc: Global,
    out: &mut Vec<u8>,
    form: Form,
    of_head: &[Difference],
    checks: &[TargetCheck],
) -> Result<(), AllocError>
    ensures { OnOk result (out.new.items
        ≡ out.old.items ++ checks_shown form of_head.now checks.now) }
{
    match form {
        Form::Lines => push_target_checks(out, of_head, checks),
        Form::Json => {
            let document = target_checks_document(alloc, of_head, checks)?;
            push_document(alloc, out, document)
        }
    }
}
