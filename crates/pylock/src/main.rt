//! `pylock`: selects from a pylock.toml lock what an installer installs, and answers questions on
//! versions, names, markers, requirements and wheels.
//!
//! ```text
//! $ pylock plan pylock.toml env.json --extra science
//! ```
//!
//! It is thin. `main` asks [`command`] for the task that the words are, and [`perform`] does it, on
//! what only a host has: the files, standard input and the two outputs, each behind a trait of
//! `pylock_run`. Nothing is proved of what a file or a terminal gives or takes; what the program
//! does with it is the contract of `perform`, in `pylock_program`, and that no text steers a
//! terminal is that of [`ToTerminal`](pylock_run::ToTerminal). Read that crate next, and
//! `pylock_run` for the lines of `select`.
#![tactic(auto)]

use pylock_command::{CommandError, Task, command};
use pylock_program::{Failure, Host, Outputs, perform, terminal_note, words_failure};
use pylock_run::{FileFault, Files, FromRead, Output, ToWrite, open_fault, read_file, write_all};
use std::io::{IsTerminal, Write};
use std::process::ExitCode;
use std::{env, fs};

/// The files of the host.
#[derive(Drop)]
struct HostFiles<'a> {
    rt: &'a HostRuntime,
}

impl<'a> Files for HostFiles<'a> {
    ghost read_gives = { λ _ _ _. Unit {0} };

    fn read(&self, path: &str) -> Result<Vec<u8>, FileFault> {
        match fs::open(self.rt, path) {
            Ok(file) if is_directory(&file) => Err(FileFault::Directory),
            Ok(file) => read_file(self.rt.alloc(), &mut FromRead::new(file)),
            Err(error) => Err(open_fault(error.kind())),
        }
    }
}

fn is_directory(file: &fs::File) -> bool {
    match file.metadata() {
        Ok(metadata) => metadata.is_dir(),
        Err(_) => false,
    }
}

/// The sink to an output of the host. A terminal is given no character that steers it.
fn output<W: Write + IsTerminal>(rt: &HostRuntime, writer: W) -> Output<ToWrite<W>> {
    let is_terminal = writer.is_terminal();
    Output::new(rt.alloc(), ToWrite::new(writer), is_terminal)
}

/// Says what the task waits for, where standard input is a terminal.
fn note(rt: &HostRuntime, task: &Task<'_>) {
    if let Some(note) = terminal_note(task) {
        if rt.stdin().is_terminal() {
            let _ = eprintln!(rt; "pylock: {note}");
        }
    }
}

/// Does the task on the files, standard input and standard output of the host.
fn perform_here(rt: &HostRuntime, task: Task<'_>) -> Result<u8, Failure> {
    note(rt, &task);
    let mut host = Host {
        files: HostFiles { rt },
        reader: FromRead::new(rt.stdin()),
        outputs: Outputs {
            writer: output(rt, rt.stdout()),
            diagnostics: output(rt, rt.stderr()),
            ends_process: true,
        },
    };
    perform(rt.alloc(), task, &mut host)
}

/// The words of the command line.
fn arguments(rt: &HostRuntime) -> Result<Vec<String>, Failure> {
    let words = match env::args(rt) {
        Ok(words) => words,
        Err(error) => return Err(words_failure(error.kind())),
    };
    words.collect(rt.alloc()).map_err(|_| Failure::Memory)
}

/// Says why the program ends, and answers its status.
fn fail(rt: &HostRuntime, failure: Failure) -> ExitCode {
    if let Some(message) = failure.message() {
        let _ = eprintln!(rt; "pylock: {message}");
    }
    ExitCode::from(failure.status())
}

/// Prints what clap says: help and the version to standard output, or why it refuses the words, and
/// answers the status.
fn print_error(rt: &HostRuntime, error: &clap::Error) -> Result<u8, Failure> {
    let text = error.to_string(rt.alloc()).map_err(|_| Failure::Memory)?;
    if error.use_stderr() {
        let _ = write_all(&mut output(rt, rt.stderr()), text.as_bytes());
    } else {
        write_all(&mut output(rt, rt.stdout()), text.as_bytes()).map_err(|_| Failure::Write)?;
    }
    Ok(error.exit_code() as u8)
}

fn main(rt: HostRuntime) -> ExitCode {
    let arguments = match arguments(&rt) {
        Ok(arguments) => arguments,
        Err(failure) => return fail(&rt, failure),
    };
    let words = arguments.iter().map(|word| word.as_str());
    let Ok(words) = words.collect::<Vec<&str>>(rt.alloc()) else {
        return fail(&rt, Failure::Memory);
    };
    let end = match command(rt.alloc(), &words) {
        Ok(task) => perform_here(&rt, task),
        Err(CommandError::Refused(error)) => print_error(&rt, &error),
        Err(CommandError::Memory) => Err(Failure::Memory),
    };
    match end {
        Ok(status) => ExitCode::from(status),
        Err(failure) => fail(&rt, failure),
    }
}
