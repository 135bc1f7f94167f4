//! What `matrix` shows of a lock on many targets.

ghost use Rattle.std.specs.Prelude.{◌≡◌, ◌++◌, IfOk, OnOk};
ghost use Rattle.pylock_matrix.specs.Moving.{HasVariables, first_on};
ghost use Rattle.pylock_program.specs.Matrix.{asked_cells, asked_settings, begun, begun_report};
ghost use Rattle.pylock_program.specs.Matrix.{cell_cause, is_met, lock_by, matrix_form};
ghost use Rattle.pylock_program.specs.Matrix.{matrix_report, opened_matrix, option_settings};
ghost use Rattle.pylock_program.specs.Matrix.{refused_as, rows_report, rows_shown, rows_status};
ghost use Rattle.pylock_program.specs.Program.{Opens, RepliesTelling};
ghost use Rattle.pylock_program.specs.Refusal.{GivesOr, PrintsTelling};
ghost use Rattle.pylock_run.specs.Report.Print.{Prints};

mod picked;

use crate::diagnostics::matrix::tell_unmet;
use crate::failure::{Failure, program_end};
use crate::file::{FileBytes, MachineInput, read_bytes};
use crate::files::files_form;
use crate::host::{Host, Outputs};
use crate::matrix::picked::write_picked;
use crate::opening::{Unopened, choose};
use crate::options::setting_of;
use crate::refusal::{Cause, Refusal, write_refusal};
use pylock_audit::{StrictError, read_strict};
use pylock_command::{Form, MatrixOutput, MatrixQuestion, PlanOption, TargetWords};
use pylock_core::{EnvError, Lock, LockError, Session};
use pylock_documents::push_document;
use pylock_matrix::{
    Cell, CellError, Outcome, Row, Setting, cells, default_platforms, default_pythons,
    matrix_document, push_rows, rows, rows_and_files, words,
};
use pylock_readers::target_environment;
use pylock_run::{Files, RunFault, Sink, Source, print};
use pywheel_core::Target;
use std::alloc::{AllocError, Global};
use std::mem;

/// Answers `matrix` on the lock of a question.
pub(crate) fn show_matrix<F: Files, R: Source, W: Sink, N: Sink>(
    alloc: Global,
    asked: &MatrixQuestion<'_>,
    host: &mut Host<F, R, W, N>,
) -> Result<u8, Failure>
    ensures { Opens (F.read_gives host.old.files) asked.now.lock.now
        (λ bytes. RepliesTelling (λ diagnostic. matrix_report asked.now diagnostic bytes))
        (R.value host.old.reader) (R.value host.new.reader)
        (W.value host.old.outputs.writer) (W.value host.new.outputs.writer) result }
{
    let file = read_bytes(alloc, host, asked.lock)?;
    program_end(write_matrix(alloc, asked, &file, &mut host.outputs))
}

/// Writes a row for each target, or the files that the targets take, and answers the status: 0
/// where each has a plan, of which nothing is built where that counts; 1 where one has none, or an
/// option is refused, or a form can't hold the files; 2 where the lock or a word of the targets is
/// refused.
///
/// It takes memory for one session, which is moved from target to target, and for the rows and the
/// files.
#[tactic(auto, using(crate::proofs::OpeningLemmas::refused))]
fn write_matrix<W: Sink, N: Sink>(
    alloc: Global,
    asked: &MatrixQuestion<'_>,
    file: &FileBytes<'_>,
    outputs: &mut Outputs<W, N>,
) -> Result<u8, RunFault>
    ensures { PrintsTelling (λ diagnostic. matrix_report asked.now diagnostic
        file.now.bytes.items)
        (W.value outputs.old.writer) (W.value outputs.new.writer) result }
{
    match open_matrix(alloc, asked, file) {
        Ok((session, cells)) => {
            let mut session = session;
            let end = write_moved(alloc, asked, &mut session, cells, outputs);
            if outputs.ends_process {
                mem::forget(session);
            }
            end
        }
        Err(refusal) => write_refusal(alloc, matrix_form(asked.output), refusal, outputs),
    }
}

/// The session on the first target, after the options, and all targets.
pub(crate) fn open_matrix<'a>(
    alloc: Global,
    asked: &MatrixQuestion<'a>,
    file: &FileBytes<'_>,
) -> Result<(Session, Vec<Cell>), Refusal<'a>>
    ensures opened { GivesOr (λ opened. (opened.0.state, opened.1.items)) result
        (opened_matrix asked.now file.now.bytes.items) }
    ensures variables { IfOk result (λ opened. HasVariables opened.0.state) }
{
    let lock = read_lock(alloc, asked.strict, file)?;
    let cells = read_cells(alloc, asked, &lock)?;
    begin(alloc, asked, file.path, lock, cells)
}

/// The lock, which is taken strictly or isn't.
fn read_lock(alloc: Global, strict: bool, file: &FileBytes<'_>) -> Result<Lock, Refusal<'static>>
    ensures { GivesOr (λ lock. lock) result (lock_by strict file.now.bytes.items) }
{
    if !strict {
        return match Lock::read(alloc, &file.bytes) {
            Ok(lock) => Ok(lock),
            Err(LockError::Memory) => Err(Refusal::of_memory()),
            Err(error) => Err(Refusal::of_lock(alloc, error, file)),
        };
    }
    match read_strict(alloc, &file.bytes) {
        Ok(lock) => Ok(lock),
        Err(StrictError::Memory) => Err(Refusal::of_memory()),
        Err(StrictError::Lock(error)) => Err(Refusal::of_lock(alloc, error, file)),
        Err(StrictError::Findings(found)) => Err(Refusal::of_findings(alloc, found, file)),
    }
}

/// The targets that are asked for, of a lock that was read.
fn read_cells(
    alloc: Global,
    asked: &MatrixQuestion<'_>,
    lock: &Lock,
) -> Result<Vec<Cell>, Refusal<'static>>
    ensures { GivesOr (λ cells. cells.items) result (asked_cells asked.now lock.now.head) }
{
    let pythons = match asked.pythons {
        Some(text) => words(alloc, text)?,
        None => default_pythons(alloc, lock.head().requires_python())?,
    };
    let platforms = match asked.platforms {
        Some(text) => words(alloc, text)?,
        None => default_platforms(alloc)?,
    };
    match cells(alloc, &pythons, &platforms) {
        Ok(cells) => Ok(cells),
        Err(error) => Err(refused_cell(alloc, &error)),
    }
}

/// The refusal of a word of the targets.
fn refused_cell(alloc: Global, error: &CellError) -> Refusal<'static>
    ensures { result.cause ≡ cell_cause error.now }
{
    match error {
        CellError::Python(word) => refused_words(alloc, EnvError::Python, word.as_str(), ""),
        CellError::Platform(word) => refused_words(alloc, EnvError::Platform, "", word.as_str()),
        CellError::Memory => Refusal::of_memory(),
    }
}

/// The refusal of the words of a target.
fn refused_words(alloc: Global, error: EnvError, python: &str, platform: &str) -> Refusal<'static>
    ensures { result.cause ≡ refused_as error }
{
    let target = MachineInput::Target(TargetWords { python, platform });
    Refusal::of_environment(alloc, error, &target)
}

/// The session on the first target, after the options. `path` is that of the lock.
fn begin<'a>(
    alloc: Global,
    asked: &MatrixQuestion<'a>,
    path: &str,
    lock: Lock,
    cells: Vec<Cell>,
) -> Result<(Session, Vec<Cell>), Refusal<'a>>
    ensures begun { GivesOr (λ opened. (opened.0.state, opened.1.items)) result
        (begun asked.now cells.items lock) }
    ensures variables { IfOk result (λ opened. HasVariables opened.0.state) }
{
    let Some(cell) = cells.first() else {
        return Err(refused_words(alloc, EnvError::Python, "", ""));
    };
    let mut session = start_on(alloc, lock, cell.target())?;
    choose(alloc, &mut session, &asked.options, path)?;
    Ok((session, cells))
}

/// The session on the target, before any option.
fn start_on(alloc: Global, lock: Lock, target: &Target) -> Result<Session, AllocError>
    ensures { IfOk result (λ session. session.state ≡ first_on target.now lock) }
{
    let (environment, tags) = target_environment(alloc, target)?;
    Session::start(alloc, lock, environment, tags)
}

/// The form in which a refusal is printed; none where the files would be for another tool.
fn matrix_form(output: MatrixOutput<'_>) -> Option<Form>
    ensures { result ≡ matrix_form output.entry }
{
    match output {
        MatrixOutput::Rows(form) => Some(form),
        MatrixOutput::Files(output) => files_form(output),
    }
}

/// Writes what is asked for of the targets, to which the session is moved one after another.
#[tactic(auto, using(crate::proofs::MatrixLemmas::printed))]
fn write_moved<W: Sink, N: Sink>(
    alloc: Global,
    asked: &MatrixQuestion<'_>,
    session: &mut Session,
    cells: Vec<Cell>,
    outputs: &mut Outputs<W, N>,
) -> Result<u8, RunFault>
    requires { HasVariables session.old.state }
    ensures { Prints (begun_report asked.now (session.old.state, cells.items))
        (W.value outputs.old.writer) (W.value outputs.new.writer) result }
{
    let settings = settings_of(alloc, &asked.options)?;
    match asked.output {
        MatrixOutput::Rows(form) => {
            let rows = rows(alloc, session, cells, &settings)?;
            let status = rows_status(asked.no_build, &rows);
            write_rows(alloc, form, &rows, status, &mut outputs.writer)
        }
        MatrixOutput::Files(output) => {
            let (rows, picks) = rows_and_files(alloc, session, cells, &settings)?;
            let status = rows_status(asked.no_build, &rows);
            tell_unmet(alloc, &mut outputs.diagnostics, asked.no_build, &rows);
            write_picked(alloc, output, session, picks, status, outputs)
        }
    }
}

/// Writes the rows in a form, and answers this status.
fn write_rows<W: Sink>(
    alloc: Global,
    form: Form,
    rows: &[Row],
    status: u8,
    writer: &mut W,
) -> Result<u8, RunFault>
    ensures { Prints (rows_report form status rows.now)
        (W.value writer.old) (W.value writer.new) result }
{
    let mut out = Vec::new(alloc);
    push_shown(alloc, &mut out, form, rows)?;
    print(&out, status, writer)
}

/// What the options set, in order.
pub(crate) fn settings_of(
    alloc: Global,
    options: &[PlanOption<'_>],
) -> Result<Vec<Setting>, AllocError>
    ensures { IfOk result (λ settings. settings.items ≡ asked_settings options.now) }
{
    let mut settings = Vec::new(alloc);
    for option in options {
        push_setting(alloc, &mut settings, *option)?;
    }
    Ok(settings)
}

fn push_setting(
    alloc: Global,
    settings: &mut Vec<Setting>,
    option: PlanOption<'_>,
) -> Result<(), AllocError>
    ensures { OnOk result (settings.new.items
        ≡ settings.old.items ++ option_settings option.entry) }
{
    if let PlanOption::Set(text) = option {
        if let Some(setting) = setting_of(alloc, text)? {
            settings.push(setting)?;
        }
    }
    Ok(())
}

/// Pushes the rows in a form.
fn push_shown(alloc: Global, out: &mut Vec<u8>, form: Form, rows: &[Row]) -> Result<(), AllocError>
    ensures { OnOk result (out.new.items ≡ out.old.items ++ rows_shown form rows.now) }
{
    match form {
        Form::Lines => push_rows(out, rows),
        Form::Json => push_document(alloc, out, matrix_document(alloc, rows)?),
    }
}

/// The status of rows.
fn rows_status(no_build: bool, rows: &[Row]) -> u8
    ensures { result ≡ rows_status no_build rows.now }
{
    for row in rows {
        if !is_met(no_build, &row.outcome) {
            return 1;
        }
    }
    0
}

/// Whether there is a plan, and nothing is built where that counts.
pub(crate) fn is_met(no_build: bool, outcome: &Outcome) -> bool
    ensures { result ≡ is_met no_build outcome.now }
{
    match outcome {
        Outcome::Plan { count: _, built } => !no_build || built.numbers().is_empty(),
        Outcome::Fault { id: _, code: _ } => false,
    }
}
