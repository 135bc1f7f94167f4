//! What the program does with its task.

ghost use Rattle.std.specs.Prelude.{◌≡◌, ◌≢◌, Err};
ghost use Rattle.std.specs.Option.{option_copied};
ghost use Rattle.pylock_program.specs.Program.{Performs, Tells, greeting, terminal_note};
ghost use Rattle.pylock_program.specs.declared.failure.Failure.TheVariants as failure;
ghost use Rattle.pylock_run.specs.Report.Print.{Prints};

use crate::audit::audit_lock;
use crate::check::{check_project, check_targets};
use crate::diagnostics::tell_bytes;
use crate::diff::compare;
use crate::failure::{Failure, program_end};
use crate::files::list_files;
use crate::host::{Host, Outputs};
use crate::matrix::show_matrix;
use crate::reply::{answer_text, judge_marker, print_target};
use crate::select::run_select;
use crate::show::answer_question;
use crate::status::show_status;
use crate::summary::show_summary;
use pylock_command::Task;
use pylock_run::{Files, Sink, Source, print};
use std::alloc::Global;

const GREETING: &[u8] = b"pylock 1\n";

/// What a person is told besides.
const USAGE: &[u8] = b"Usage: pylock <COMMAND> ..; try 'pylock --help'\n";

/// What stands on standard error behind `pylock: ` before a task is done where standard input is a
/// terminal: that edit lines are awaited, if the task reads them.
pub fn terminal_note(task: &Task<'_>) -> Option<&'static str>
    ensures { option_copied result ≡ terminal_note task.now }
{
    match task {
        Task::Select(_, _) => Some("edit lines are read from standard input; Ctrl-D ends them"),
        _ => None,
    }
}

/// Does the task on what surrounds it, and answers the status of the program. A file whose path is
/// `-` is standard input, read to its end. The lock is read first, and both before either is
/// judged. The memory of a session isn't freed but left to the system, for the program ends then.
pub fn perform<F: Files, R: Source, W: Sink, N: Sink>(
    alloc: Global,
    task: Task<'_>,
    host: &mut Host<F, R, W, N>,
) -> Result<u8, Failure>
    ensures { Performs (F.read_gives host.old.files) task.entry
        (R.value host.old.reader) (R.value host.new.reader)
        (W.value host.old.outputs.writer) (W.value host.new.outputs.writer) result }
{
    match task {
        Task::Bare => greet(&mut host.outputs),
        Task::Show(question) => answer_question(alloc, &question, host),
        Task::Select(opening, form) => run_select(alloc, opening, form, host),
        Task::Matrix(asked) => show_matrix(alloc, &asked, host),
        Task::Status(asked) => show_status(alloc, &asked, host),
        Task::Check(asked) => check_project(alloc, &asked, host),
        Task::CheckMatrix(asked) => check_targets(alloc, asked, host),
        Task::Summary(lock, form) => show_summary(alloc, lock, form, host),
        Task::Files(asked) => list_files(alloc, &asked, host),
        Task::Audit(asked) => audit_lock(alloc, &asked, host),
        Task::Diff(asked) => compare(alloc, &asked, host),
        Task::Marker(text, machine, form) => judge_marker(alloc, text, machine, form, host),
        Task::Environment(target) => program_end(print_target(alloc, target, &mut host.outputs)),
        Task::Text(question, form) => {
            program_end(answer_text(alloc, question, form, &mut host.outputs))
        }
    }
}

/// Prints the name of the program, and tells how it is called.
fn greet<W: Sink, N: Sink>(outputs: &mut Outputs<W, N>) -> Result<u8, Failure>
    ensures prints { Tells (Prints greeting
        (W.value outputs.old.writer) (W.value outputs.new.writer)) result }
    ensures ample { result ≢ Err failure.Memory }
{
    let end = program_end(print(GREETING, 0, &mut outputs.writer));
    if end.is_ok() {
        tell_bytes(&mut outputs.diagnostics, USAGE);
    }
    end
}
