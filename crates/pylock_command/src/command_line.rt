//! The command line, from words to a task.
ghost use Rattle.std.specs.Prelude.{◌≡◌, [], codes, fold, map, None, Some, IfOk, IfErr, OnOk};
ghost use Rattle.clap.specs.Words.{app_of, fault_of, found_of, kind_of, rows_of};
ghost use Rattle.clap.specs.Words.{subcommand_of, subcommand_rows_of, with_subcommand};
ghost use Rattle.pylock_command.specs.Asked.{any_check_misuse};
ghost use Rattle.pylock_command.specs.CommandLine.{IsEnough, IsRefusal, IsTask, misuse_among};
ghost use Rattle.pylock_command.specs.CommandLine.{misuse_in, misuse_of, text_subcommands};
ghost use Rattle.pylock_command.specs.CommandLine.{pylock_app, top_app};
ghost use Rattle.pylock_command.specs.Commands.{Adds, IsCommand, IsLocal};
ghost use Rattle.pylock_command.specs.Misuse.{Refuses, RefusesUnless, kind_of_misuse};
ghost use Rattle.pylock_command.specs.Subcommand.{usages_for, usages_named, with_usage};

use crate::asked::{
    audit_of, check_matrix_of, check_of, comparison_of, files_of, matrix_of, question_of,
    select_of, status_of,
};
use crate::form::form_of;
use crate::help::ABOUT;
use crate::machine::{machine_of, target_of};
use crate::misuse::{Misuse, NoTask};
use crate::subcommand::{SUBCOMMANDS, Usage, called, subcommand};
use crate::task::{Task, TextQuestion, View};
use crate::texts::{has_flag, text_of};
use clap::error::ErrorKind;
use clap::{ArgMatches, Command};
use std::alloc::{AllocError, Global};
use std::slice;

/// Why there is no task.
#[derive(Debug, Drop)]
pub enum CommandError {
    /// Clap refuses the words, or they ask for help or the version, or clap takes them and they ask
    /// for nothing. The error says which stream and status it wants.
    Refused(clap::Error),
    /// An allocation was refused.
    Memory,
}

impl From<AllocError> for CommandError {
    ghost use Rattle.pylock_command.specs.declared.command_line.CommandError.TheVariants.{Memory};

    ghost from_gives = { λ _ refusal. refusal ≡ Memory };

    fn from(_error: AllocError) -> CommandError {
        CommandError::Memory
    }
}

impl From<clap::Error> for CommandError {
    ghost use Rattle.pylock_command.specs.CommandLine.{Keeps};

    ghost from_gives = { Keeps };

    fn from(error: clap::Error) -> CommandError {
        match error.kind() {
            ErrorKind::OutOfMemory => CommandError::Memory,
            _ => CommandError::Refused(error),
        }
    }
}

/// What `--version` prints behind the program's name: its version, and in a second line the sum of
/// its sources and the logic that it is proved in, as `rt version` names that.
///
/// No source can hold the sum of itself. So 64 characters stand in its place, and where a build is
/// kept `tools/make/built stamp` writes the sum over them. No contract speaks of this text.
const VERSION: &str = "1.14.0
sources (not told: rt built it; ./pylock and tools/release tell the sum), \
proved in logic dac8208d650f15bf";

/// The number of this release, as the first line of `--version` has it behind the program's name.
/// It takes no memory.
pub fn release() -> &'static str {
    VERSION.lines().next().unwrap_or_default()
}

/// The command `pylock`. Where the words name a subcommand it has that one alone, which is enough
/// for them: to describe one costs time and memory in each run.
fn pylock_command<'a>(alloc: Global, words: &[&str]) -> Result<Command<'a>, AllocError>
    ensures { IfOk result (λ command. IsEnough (map (λ w. w.now) words.now) (app_of command)) }
{
    let usages = usages_for(words, &SUBCOMMANDS);
    with_each_usage(alloc, Ok(bare_command(alloc)), usages)
}

/// The subcommand of these that the words name, or all where they name none.
fn usages_for<'a>(words: &[&str], usages: &'a [Usage]) -> &'a [Usage]
    ensures { result.now ≡ usages_for (map (λ w. w.now) words.now) usages.now }
{
    match words.get(1) {
        Some(name) => usages_named(name, usages),
        None => usages,
    }
}

/// The subcommand of this name, or all where none has it.
fn usages_named<'a>(name: &str, usages: &'a [Usage]) -> &'a [Usage]
    ensures { result.now ≡ usages_named name.now usages.now }
{
    for usage in usages {
        if usage.name == name {
            return slice::from_ref(usage);
        }
    }
    usages
}

/// The command `pylock` without its subcommands.
fn bare_command<'a>(alloc: Global) -> Command<'a>
    ensures { app_of result ≡ top_app }
{
    Command::new(alloc, "pylock").about(ABOUT).version(VERSION)
}

/// The command `pylock` with these subcommands too.
fn with_each_usage<'a>(
    alloc: Global,
    pylock: Result<Command<'a>, AllocError>,
    usages: &[Usage],
) -> Result<Command<'a>, AllocError>
    ensures { Adds (λ app. fold with_usage app usages.now) pylock.entry result }
{
    let mut pylock = pylock;
    for usage in usages {
        pylock = with_usage(alloc, pylock, *usage);
    }
    pylock
}

/// The command `pylock` with one more subcommand.
fn with_usage<'a>(
    alloc: Global,
    pylock: Result<Command<'a>, AllocError>,
    usage: Usage,
) -> Result<Command<'a>, AllocError>
    ensures { Adds (λ app. with_usage app usage) pylock.entry result }
{
    with_subcommand(pylock?, subcommand(alloc, usage))
}

/// The command `pylock` with one more subcommand, unless memory ran out.
fn with_subcommand<'a>(
    pylock: Command<'a>,
    subcommand: Result<Command<'a>, AllocError>,
) -> Result<Command<'a>, AllocError>
    requires { IsLocal subcommand }
    ensures { Adds (λ app. with_subcommand (app_of pylock.entry) app.top) subcommand.entry result }
{
    pylock.subcommand(subcommand?)
}

/// The task that clap's matches give.
fn task_of<'a>(alloc: Global, matches: ArgMatches<'a>) -> Result<Task<'a>, NoTask>
    ensures task { IfOk result (IsTask (subcommand_rows_of matches.entry)) }
    ensures refused { RefusesUnless (misuse_of (subcommand_rows_of matches.entry)) result }
{
    match matches.subcommand() {
        Some((name, found)) => task_in(alloc, name, found),
        None => Ok(Task::Bare),
    }
}

/// The task of a subcommand.
fn task_in<'a>(alloc: Global, name: &str, found: &ArgMatches<'a>) -> Result<Task<'a>, NoTask>
    ensures task { IfOk result (IsTask (Some (name.now, rows_of (found_of found.now)))) }
    ensures refused { RefusesUnless (misuse_in name.now (rows_of (found_of found.now))) result }
{
    let form = form_of(found);
    Ok(match name {
        "plan" => Task::Show(question_of(alloc, View::Plan, found)?),
        "explain" => Task::Show(question_of(alloc, View::Explain, found)?),
        "select" => Task::Select(select_of(found)?, form),
        "matrix" => Task::Matrix(matrix_of(alloc, found)?),
        "status" => Task::Status(status_of(alloc, found)?),
        "check" => check_task_of(alloc, found)?,
        "show" => Task::Summary(text_of(found, "LOCK")?, form),
        "files" => Task::Files(files_of(alloc, found)?),
        "audit" => Task::Audit(audit_of(alloc, found)?),
        "diff" => Task::Diff(comparison_of(alloc, found)?),
        "environment" => Task::Environment(target_of(found)?),
        _ => text_task_in(name, found)?,
    })
}

/// The task of `check`, for a machine or for the targets of a matrix.
fn check_task_of<'a>(alloc: Global, found: &ArgMatches<'a>) -> Result<Task<'a>, NoTask>
    ensures task { IfOk result (IsTask (Some (codes "check", rows_of (found_of found.now)))) }
    ensures refused { RefusesUnless (any_check_misuse (rows_of (found_of found.now))) result }
{
    if has_flag(found, "matrix") {
        return Ok(Task::CheckMatrix(check_matrix_of(alloc, found)?));
    }
    Ok(Task::Check(check_of(alloc, found)?))
}

/// The task of a subcommand that asks about a text by itself.
fn text_task_in<'a>(name: &str, found: &ArgMatches<'a>) -> Result<Task<'a>, Misuse>
    ensures task { IfOk result (IsTask (Some (name.now, rows_of (found_of found.now)))) }
    ensures refused { Refuses
        (misuse_among text_subcommands name.now (rows_of (found_of found.now))) result }
{
    let form = form_of(found);
    Ok(match name {
        "version" => Task::Text(TextQuestion::Version(text_of(found, "TEXT")?), form),
        "match" => Task::Text(
            TextQuestion::Match(text_of(found, "SET")?, text_of(found, "VERSION")?),
            form,
        ),
        "name" => Task::Text(TextQuestion::Name(text_of(found, "TEXT")?), form),
        "marker" => Task::Marker(text_of(found, "TEXT")?, machine_of(found)?, form),
        "requirement" => Task::Text(TextQuestion::Requirement(text_of(found, "TEXT")?), form),
        "wheel" => Task::Text(TextQuestion::Wheel(text_of(found, "TEXT")?), form),
        "sdist" => Task::Text(TextQuestion::Sdist(text_of(found, "TEXT")?), form),
        _ => return Err(Misuse::Missing),
    })
}

/// The task that `words` ask for, of which the first is the program's name. A text of the task is
/// one of the words. A refusal is clap's; or clap takes the words of a subcommand, which ask for
/// nothing: then the error has the kind that clap has for such words.
///
/// It takes memory for the command line's description, for what is found and for the text of an
/// error.
pub fn command<'a>(alloc: Global, words: &'a [&'a str]) -> Result<Task<'a>, CommandError>
    ensures task { IfOk result
        (IsTask (subcommand_of pylock_app (map (λ w. w.now) words.entry.now))) }
    ensures taken { OnOk result (fault_of pylock_app (map (λ w. w.now) words.entry.now) ≡ []) }
    ensures used { OnOk result
        (misuse_of (subcommand_of pylock_app (map (λ w. w.now) words.entry.now)) ≡ None) }
    ensures refused { IfErr result (IsRefusal (map (λ w. w.now) words.entry.now)) }
{
    let mut app = pylock_command(alloc, words)?;
    read_task(alloc, &mut app, words)
}

/// The task that `words` ask for, as the program's command reads them.
fn read_task<'a>(
    alloc: Global,
    app: &mut Command<'a>,
    words: &'a [&'a str],
) -> Result<Task<'a>, CommandError>
    requires { IsEnough (map (λ w. w.now) words.now) (app_of app.old) }
    ensures task { IfOk result
        (IsTask (subcommand_of pylock_app (map (λ w. w.now) words.entry.now))) }
    ensures taken { OnOk result (fault_of pylock_app (map (λ w. w.now) words.entry.now) ≡ []) }
    ensures used { OnOk result
        (misuse_of (subcommand_of pylock_app (map (λ w. w.now) words.entry.now)) ≡ None) }
    ensures refused { IfErr result (IsRefusal (map (λ w. w.now) words.entry.now)) }
{
    let matches = app.try_get_matches_from_mut(words)?;
    let name = matches.subcommand_name();
    match task_of(alloc, matches) {
        Ok(task) => Ok(task),
        Err(NoTask::Misused(misuse)) => {
            Err(CommandError::Refused(error_of(alloc, app, name, misuse)?))
        }
        Err(NoTask::Memory) => Err(CommandError::Memory),
    }
}

/// The error that tells a misuse of the words of a subcommand, with the usage of that.
fn error_of(
    alloc: Global,
    app: &mut Command<'_>,
    name: Option<&str>,
    misuse: Misuse,
) -> Result<clap::Error, AllocError>
    ensures { IfOk result (λ error. kind_of error ≡ kind_of_misuse misuse) }
{
    for usage in &SUBCOMMANDS {
        if name == Some(usage.name) {
            let mut called = called(alloc, *usage)?;
            return called.error(misuse.kind(), misuse.message());
        }
    }
    app.error(misuse.kind(), misuse.message())
}
