//! What changed from one lock to another, or from one plan to the other.

ghost use Rattle.std.specs.Prelude.{◌≡◌, IfOk};
ghost use Rattle.std.specs.Result.{result_map_both};
ghost use Rattle.pylock_core.specs.Session.State.{first};
ghost use Rattle.pylock_core.specs.Session.Steps.{answer};
ghost use Rattle.pylock_diff.specs.Changes.{answer_changes, lock_changes};
ghost use Rattle.pylock_diff.specs.Compared.{compared_of};
ghost use Rattle.pylock_program.specs.Diff.{both_chosen, both_of, changes_report};
ghost use Rattle.pylock_program.specs.Diff.{locks_report, plans_report, plans_state};
ghost use Rattle.pylock_program.specs.Inner.Machine.{machine_read};
ghost use Rattle.pylock_program.specs.Program.{Compares, Opens, OpensMachine, RepliesTelling};
ghost use Rattle.pylock_program.specs.Refusal.{GivesOr, PrintsTelling};
ghost use Rattle.pylock_program.specs.declared.refusal.Cause.TheVariants as cause;
ghost use Rattle.pylock_readers.specs.Lock.Reading.{lock_of};
ghost use Rattle.pylock_run.specs.Report.Print.{Prints};

use crate::failure::{Failure, program_end};
use crate::file::{FileBytes, MachineInput, read_bytes, read_machine};
use crate::host::{Host, Outputs};
use crate::opening::{choose, read_environment};
use crate::refusal::{Refusal, Side, write_refusal};
use crate::text::diff::write_changes;
use pylock_command::{Comparison, Form, Installation, PlanOption};
use pylock_core::{Lock, LockError, Session};
use pylock_diff::{Compared, lock_changes, plan_changes, read_compared};
use pylock_run::{Files, RunFault, Sink, Source};
use pymark_core::Environment;
use pywheel_core::TagList;
use std::alloc::{AllocError, Global};

/// The files of two locks.
#[derive(Clone, Copy)]
struct Sides<'a> {
    old: &'a FileBytes<'a>,
    new: &'a FileBytes<'a>,
}

/// Answers `diff` on two locks, or on what they install.
pub(crate) fn compare<F: Files, R: Source, W: Sink, N: Sink>(
    alloc: Global,
    asked: &Comparison<'_>,
    host: &mut Host<F, R, W, N>,
) -> Result<u8, Failure>
    ensures { Opens (F.read_gives host.old.files) asked.now.old.now
        (λ old. Opens (F.read_gives host.old.files) asked.now.new.now
        (λ new. Compares (F.read_gives host.old.files) asked.now.form asked.now.installation
        old new))
        (R.value host.old.reader) (R.value host.new.reader)
        (W.value host.old.outputs.writer) (W.value host.new.outputs.writer) result }
{
    let old = read_bytes(alloc, host, asked.old)?;
    let new = read_bytes(alloc, host, asked.new)?;
    let sides = Sides {
        old: &old,
        new: &new,
    };
    compare_sides(alloc, asked, sides, host)
}

/// Answers `diff` on two locks that were read.
fn compare_sides<F: Files, R: Source, W: Sink, N: Sink>(
    alloc: Global,
    asked: &Comparison<'_>,
    sides: Sides<'_>,
    host: &mut Host<F, R, W, N>,
) -> Result<u8, Failure>
    ensures { Compares (F.read_gives host.old.files) asked.now.form asked.now.installation
        sides.entry.old.now.bytes.items sides.entry.new.now.bytes.items
        (R.value host.old.reader) (R.value host.new.reader)
        (W.value host.old.outputs.writer) (W.value host.new.outputs.writer) result }
{
    match &asked.installation {
        None => program_end(write_lock_diff(alloc, asked.form, sides, &mut host.outputs)),
        Some(installation) => compare_plans(alloc, asked.form, installation, sides, host),
    }
}

/// Writes what changed from one lock to the other, and answers the status: 0 where nothing did, 1
/// where something did, 2 where a lock is refused. A document tells the line on a refusal too, and
/// where that points. It takes memory for both locks with the codes of all their keys, for tables
/// of their sources, and for the changes, which share names and what a file is called; and where
/// they are a document for that. A line is written as it is made.
#[tactic(auto, using(crate::proofs::OpeningLemmas::refused))]
fn write_lock_diff<W: Sink, N: Sink>(
    alloc: Global,
    form: Form,
    sides: Sides<'_>,
    outputs: &mut Outputs<W, N>,
) -> Result<u8, RunFault>
    ensures { PrintsTelling (λ diagnostic. locks_report form diagnostic
        sides.entry.old.now.bytes.items
        sides.entry.new.now.bytes.items)
        (W.value outputs.old.writer) (W.value outputs.new.writer) result }
{
    match read_both(alloc, sides) {
        Ok((old, new)) => write_locks(alloc, form, &old, &new, &mut outputs.writer),
        Err(refusal) => write_refusal(alloc, Some(form), refusal, outputs),
    }
}

/// Both locks as they are compared.
fn read_both(alloc: Global, sides: Sides<'_>) -> Result<(Compared, Compared), Refusal<'static>>
    ensures { GivesOr (λ both. both) result (both_of (compared_of sides.entry.old.now.bytes.items)
        (compared_of sides.entry.new.now.bytes.items)) }
{
    let old = read_side(alloc, Side::Old, sides.old)?;
    let new = read_side(alloc, Side::New, sides.new)?;
    Ok((old, new))
}

fn read_side(alloc: Global, side: Side, file: &FileBytes<'_>) -> Result<Compared, Refusal<'static>>
    ensures { GivesOr (λ lock. lock) result (result_map_both (λ lock. lock) (cause.Side side)
        (compared_of file.now.bytes.items)) }
{
    match read_compared(alloc, &file.bytes) {
        Ok(lock) => Ok(lock),
        Err(LockError::Memory) => Err(Refusal::of_memory()),
        Err(error) => Err(Refusal::of_side(alloc, side, error, file)),
    }
}

/// Writes what changed from one lock that was read to the other.
fn write_locks<W: Sink>(
    alloc: Global,
    form: Form,
    old: &Compared,
    new: &Compared,
    writer: &mut W,
) -> Result<u8, RunFault>
    ensures { Prints (changes_report form (lock_changes old.now new.now))
        (W.value writer.old) (W.value writer.new) result }
{
    let changes = lock_changes(alloc, old, new)?;
    write_changes(alloc, form, &changes, writer)
}

// ---- what two locks install

/// What is compared where plans are: two locks on a machine, after options.
#[derive(Clone, Copy)]
struct Plans<'a> {
    sides: Sides<'a>,
    machine: &'a MachineInput<'a>,
    options: &'a [PlanOption<'a>],
}

/// Answers `diff` on what two locks that were read install.
fn compare_plans<F: Files, R: Source, W: Sink, N: Sink>(
    alloc: Global,
    form: Form,
    installation: &Installation<'_>,
    sides: Sides<'_>,
    host: &mut Host<F, R, W, N>,
) -> Result<u8, Failure>
    ensures { OpensMachine (F.read_gives host.old.files) installation.now.machine
        (λ read. RepliesTelling (λ diagnostic. plans_report form diagnostic
        installation.now.options.items
        sides.entry.old.now.bytes.items sides.entry.new.now.bytes.items read))
        (R.value host.old.reader) (R.value host.new.reader)
        (W.value host.old.outputs.writer) (W.value host.new.outputs.writer) result }
{
    let machine = read_machine(alloc, host, installation.machine)?;
    let plans = Plans {
        sides,
        machine: &machine,
        options: &installation.options,
    };
    program_end(write_plan_diff(alloc, form, plans, &mut host.outputs))
}

/// Writes what changed from what one lock installs on a machine to what the other does, each after
/// the options, and answers the status: that of [`write_lock_diff`], 1 where an option is refused,
/// and 2 where the environment is.
#[tactic(auto, using(crate::proofs::OpeningLemmas::refused))]
fn write_plan_diff<W: Sink, N: Sink>(
    alloc: Global,
    form: Form,
    plans: Plans<'_>,
    outputs: &mut Outputs<W, N>,
) -> Result<u8, RunFault>
    ensures { PrintsTelling (λ diagnostic. plans_report form diagnostic plans.entry.options.now
        plans.entry.sides.old.now.bytes.items plans.entry.sides.new.now.bytes.items
        (machine_read plans.entry.machine.now))
        (W.value outputs.old.writer) (W.value outputs.new.writer) result }
{
    match open_both(alloc, plans) {
        Ok((old, new)) => write_plans(alloc, form, &old, &new, &mut outputs.writer),
        Err(refusal) => write_refusal(alloc, Some(form), refusal, outputs),
    }
}

/// The sessions on both locks after the options: both locks are judged before the environment, and
/// that before an option.
fn open_both<'a>(alloc: Global, plans: Plans<'a>) -> Result<(Session, Session), Refusal<'a>>
    ensures { GivesOr (λ both. (both.0.state, both.1.state)) result
        (plans_state plans.entry.options.now plans.entry.sides.old.now.bytes.items
        plans.entry.sides.new.now.bytes.items (machine_read plans.entry.machine.now)) }
{
    let old = lock_on(alloc, Side::Old, plans.sides.old)?;
    let new = lock_on(alloc, Side::New, plans.sides.new)?;
    let (environment, tags) = read_environment(alloc, plans.machine)?;
    let sessions = start_both(alloc, (old, new), environment, tags)?;
    let paths = (plans.sides.old.path, plans.sides.new.path);
    choose_both(alloc, sessions, plans.options, paths)
}

/// Makes the edits of the options on the old session, and then on the new one. `paths` are those of
/// their locks.
fn choose_both<'a>(
    alloc: Global,
    sessions: (Session, Session),
    options: &[PlanOption<'a>],
    paths: (&str, &str),
) -> Result<(Session, Session), Refusal<'a>>
    ensures { GivesOr (λ both. (both.0.state, both.1.state)) result
        (both_chosen options.now (sessions.0.state, sessions.1.state)) }
{
    let (mut old, mut new) = sessions;
    choose(alloc, &mut old, options, paths.0)?;
    choose(alloc, &mut new, options, paths.1)?;
    Ok((old, new))
}

fn lock_on(alloc: Global, side: Side, file: &FileBytes<'_>) -> Result<Lock, Refusal<'static>>
    ensures { GivesOr (λ lock. lock) result (result_map_both (λ lock. lock) (cause.Side side)
        (lock_of file.now.bytes.items)) }
{
    match Lock::read(alloc, &file.bytes) {
        Ok(lock) => Ok(lock),
        Err(LockError::Memory) => Err(Refusal::of_memory()),
        Err(error) => Err(Refusal::of_side(alloc, side, error, file)),
    }
}

/// Starts a session on each of two locks, in one environment.
fn start_both(
    alloc: Global,
    locks: (Lock, Lock),
    environment: Environment,
    tags: TagList,
) -> Result<(Session, Session), AllocError>
    ensures old { IfOk result (λ both. both.0.state ≡ first locks.0 environment tags) }
    ensures new { IfOk result (λ both. both.1.state ≡ first locks.1 environment tags) }
{
    let (old, new) = locks;
    let others = tags.clone()?;
    let old = Session::start(alloc, old, environment.copy()?, others)?;
    let new = Session::start(alloc, new, environment, tags)?;
    Ok((old, new))
}

/// Writes what changed from the answer of one session to that of the other.
fn write_plans<W: Sink>(
    alloc: Global,
    form: Form,
    old: &Session,
    new: &Session,
    writer: &mut W,
) -> Result<u8, RunFault>
    ensures { Prints (changes_report form (answer_changes old.now.state new.now.state
        (answer old.now.state) (answer new.now.state)))
        (W.value writer.old) (W.value writer.new) result }
{
    let changes = plan_changes(alloc, old, new)?;
    write_changes(alloc, form, &changes, writer)
}
