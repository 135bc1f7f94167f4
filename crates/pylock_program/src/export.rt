//! `plan`, `files` and `matrix` in the forms that other tools take: standard output has the form
//! alone, or nothing; then what would stand there is told on standard error.

ghost use Rattle.std.specs.Prelude.{◌≡◌, List, ℕ, Result, string_bytes};
ghost use Rattle.pytext.specs.Agreement.{Gives};
ghost use Rattle.pylock_exports.specs.declared.refusal.ExportError.{ExportError as NoForm};
ghost use Rattle.pylock_exports.specs.declared.refusal.ExportError.TheVariants as no_form;
ghost use Rattle.pylock_program.specs.Exports.{answer_exported, exported, given_exported};
ghost use Rattle.pylock_program.specs.Exports.{picks_exported};
ghost use Rattle.pylock_program.specs.Refusal.{silence};
ghost use Rattle.pylock_run.specs.Report.Print.{Prints};

use crate::diagnostics::export::{tell_elsewhere, tell_exported, tell_refused_export};
use crate::diagnostics::tell_bytes;
use crate::host::Outputs;
use pylock_command::{Base, FileFormat, PlanFormat};
use pylock_core::{Answer, Plan, Session};
use pylock_exports::{ExportError, Exported, GivenSource, export_given, export_plan};
use pylock_run::{RunFault, Sink, print, push_answer};
use std::alloc::Global;

/// Writes an answer in its form, if it is a plan, and answers the status: 1 where it is a fault, or
/// where the form can't hold the plan. It takes memory for the form.
pub(crate) fn write_plan_export<W: Sink, N: Sink>(
    alloc: Global,
    form: PlanFormat,
    base: Option<Base<'_>>,
    session: &Session,
    answer: &Answer,
    outputs: &mut Outputs<W, N>,
) -> Result<u8, RunFault>
    ensures { Prints (answer_exported form base.entry session.now.state answer.now)
        (W.value outputs.old.writer) (W.value outputs.new.writer) result }
{
    match answer {
        Answer::Plan(plan) => {
            let made = export_plan(alloc, form, base, session, plan);
            let name = refused_number(&made).and_then(|number| name_in(session, number));
            tell_made(alloc, &mut outputs.diagnostics, form, name, &made);
            tell_base(alloc, &mut outputs.diagnostics, base, &made);
            print_made(&made, 0, &mut outputs.writer)
        }
        Answer::Fault { .. } => write_fault(alloc, session, answer, outputs),
    }
}

/// Tells an answer that is a fault, in whose place nothing is printed.
pub(crate) fn write_fault<W: Sink, N: Sink>(
    alloc: Global,
    session: &Session,
    answer: &Answer,
    outputs: &mut Outputs<W, N>,
) -> Result<u8, RunFault>
    ensures { Prints (silence 1)
        (W.value outputs.old.writer) (W.value outputs.new.writer) result }
{
    let mut line = Vec::new(alloc);
    push_answer(&mut line, session, answer)?;
    tell_bytes(&mut outputs.diagnostics, &line);
    print(&[], 1, &mut outputs.writer)
}

/// Writes these sources in a form, as [`write_plan_export`] does a plan.
pub(crate) fn write_sources_export<W: Sink, N: Sink>(
    alloc: Global,
    asked: (FileFormat, Option<Base<'_>>),
    given: &[GivenSource<'_>],
    outputs: &mut Outputs<W, N>,
) -> Result<u8, RunFault>
    ensures { Prints (given_exported asked.entry.0 asked.entry.1 given.now)
        (W.value outputs.old.writer) (W.value outputs.new.writer) result }
{
    let (format, base) = asked;
    let made = export_given(alloc, format, base, given);
    let name = refused_number(&made).and_then(|number| name_among(given, number));
    tell_made(
        alloc,
        &mut outputs.diagnostics,
        PlanFormat::Files(format),
        name,
        &made,
    );
    tell_base(alloc, &mut outputs.diagnostics, base, &made);
    print_made(&made, 0, &mut outputs.writer)
}

/// Writes the sources that a plan's picks name in a form, as [`write_plan_export`] does a plan, and
/// answers this status where the form can hold them.
pub(crate) fn write_picks_export<W: Sink, N: Sink>(
    alloc: Global,
    asked: (FileFormat, Option<Base<'_>>),
    session: &Session,
    plan: &Plan,
    status: u8,
    outputs: &mut Outputs<W, N>,
) -> Result<u8, RunFault>
    ensures { Prints (picks_exported status asked.entry.0 asked.entry.1 session.now.state plan.now)
        (W.value outputs.old.writer) (W.value outputs.new.writer) result }
{
    let (format, base) = asked;
    let form = PlanFormat::Files(format);
    let made = export_plan(alloc, form, base, session, plan);
    let name = refused_number(&made).and_then(|number| name_in(session, number));
    tell_made(alloc, &mut outputs.diagnostics, form, name, &made);
    tell_base(alloc, &mut outputs.diagnostics, base, &made);
    print_made(&made, status, &mut outputs.writer)
}

/// Writes a text in a form, where there is one, and answers this status, or 1 where there is none.
fn print_made<W: Sink>(
    made: &Result<Exported, ExportError>,
    status: u8,
    writer: &mut W,
) -> Result<u8, RunFault>
    ensures { (definition : Result (List ℕ) NoForm)
        → Gives no_form.Memory (λ e. string_bytes e.text) made.now definition
        → Prints (exported status definition) (W.value writer.old) (W.value writer.new) result }
{
    match made {
        Ok(made) => print(made.text.as_bytes(), status, writer),
        Err(ExportError::Memory) => Err(RunFault::Memory),
        Err(ExportError::Refused(_)) => print(&[], 1, writer),
    }
}

/// The number of the entry that a form can't hold.
fn refused_number(made: &Result<Exported, ExportError>) -> Option<u64> {
    match made {
        Err(ExportError::Refused(refusal)) => Some(refusal.number),
        _ => None,
    }
}

/// The name of the entry of this number.
fn name_in(session: &Session, number: u64) -> Option<&str> {
    let number = u32::try_from(number).ok()?;
    Some(session.entry(number)?.name())
}

/// The name of the entries of this number, where all have the same: of several locks each may have
/// one.
fn name_among<'a>(given: &[GivenSource<'a>], number: u64) -> Option<&'a str> {
    let mut name = None;
    for source in given {
        if source.number == number {
            let its = source.entry.name();
            match name {
                Some(other) if other != its => return None,
                _ => name = Some(its),
            }
        }
    }
    name
}

/// Tells what a form leaves out, or why it can't hold what is asked for.
fn tell_made<N: Sink>(
    alloc: Global,
    diagnostics: &mut N,
    form: PlanFormat,
    name: Option<&str>,
    made: &Result<Exported, ExportError>,
) {
    match made {
        Ok(made) => tell_exported(alloc, diagnostics, form, made),
        Err(ExportError::Refused(refusal)) => {
            tell_refused_export(alloc, diagnostics, form, name, refusal);
        }
        Err(ExportError::Memory) => {}
    }
}

/// Tells which URLs of a text don't begin as the base says.
fn tell_base<N: Sink>(
    alloc: Global,
    diagnostics: &mut N,
    base: Option<Base<'_>>,
    made: &Result<Exported, ExportError>,
) {
    let Some(base) = base else {
        return;
    };
    if let Ok(made) = made {
        tell_elsewhere(alloc, diagnostics, base, made);
    }
}
