//! The program on files and a standard input in memory.

ghost use Rattle.std.specs.Prelude.{◌≡◌, ◌⊎◌, [], Err, IfErr, IfOk, IsTrue, OnOk, false, map};
ghost use Rattle.std.specs.List.{list_all};
ghost use Rattle.std.specs.Str.{is_utf8};
ghost use Rattle.clap.specs.Words.{kind_of};
ghost use Rattle.pylock_memory.specs.Files.{file_value};
ghost use Rattle.pylock_memory.specs.Run.{IsDone, IsExit, IsRefusedEnd, IsRun, IsRunOfBytes};
ghost use Rattle.pylock_memory.specs.Run.{in_memory, status_of};
ghost use Rattle.pylock_program.specs.declared.failure.Failure.TheVariants.{Memory, NotText};

use crate::files::{MemoryFile, MemoryFiles, files_by_turns};
use crate::printed::Printed;
use clap::error::ErrorKind;
use pylock_command::{CommandError, Task, command};
use pylock_program::{Failure, Host, Outputs, perform};
use pylock_run::Pieces;
use std::alloc::{AllocError, Global};
use std::io::Write;

/// What a run of the program left.
#[derive(Drop)]
pub struct Ran {
    /// The status; or why the program ended without an answer, which `diagnostics` tells.
    pub end: Result<u8, Failure>,
    /// What was printed to standard output.
    pub output: Vec<u8>,
    /// What was printed to standard error. What there was no memory for is left out.
    pub diagnostics: Vec<u8>,
}

impl Ran {
    /// A run that ended so before it printed anything.
    fn ended(alloc: Global, failure: Failure) -> Ran
        ensures end { result.end ≡ Err failure }
        ensures output { result.output.items ≡ [] }
    {
        Ran {
            end: Err(failure),
            output: Vec::new(alloc),
            diagnostics: Vec::new(alloc),
        }
    }

    /// The status of the program.
    pub fn status(&self) -> u8
        ensures { result ≡ status_of self.now.end }
    {
        match self.end {
            Ok(status) => status,
            Err(failure) => failure.status(),
        }
    }
}

/// The same of words that may be no text, and of files that are given as a path and its bytes by
/// turns.
pub fn run_bytes(alloc: Global, words: &[&[u8]], files: &[&[u8]], input: &[u8]) -> Ran
    ensures { IsRunOfBytes (map (λ w. w.now) words.now) (map (λ f. f.now) files.now) input.now
        result.end result.output.items }
{
    let words = match texts_of(alloc, words) {
        Ok(words) => words,
        Err(failure) => return told(Ran::ended(alloc, failure)),
    };
    match files_by_turns(alloc, files) {
        Ok(files) => run_words(alloc, &words, &files, input),
        Err(AllocError) => told(Ran::ended(alloc, Failure::Memory)),
    }
}

/// The texts that the words are. It takes memory for a slice of each.
pub fn texts_of<'a>(alloc: Global, words: &[&'a [u8]]) -> Result<Vec<&'a str>, Failure>
    ensures texts { IfOk result (λ texts. map (λ t. t.now) texts.items
        ≡ map (λ w. w.now) words.now) }
    ensures all { OnOk result (IsTrue (list_all is_utf8 (map (λ w. w.now) words.now))) }
    ensures failure { IfErr result (λ failure. (failure ≡ Memory) ⊎ ((failure ≡ NotText)
        × (list_all is_utf8 (map (λ w. w.now) words.now) ≡ false))) }
{
    let mut texts = Vec::new(alloc);
    for word in words {
        texts.push(text_of(word)?).map_err(|_| Failure::Memory)?;
    }
    Ok(texts)
}

#[tactic(auto, using(crate::proofs::TextLemmas::utf8_tests))]
fn text_of(word: &[u8]) -> Result<&str, Failure>
    ensures text { IfOk result (λ text. text.now ≡ word.now) }
    ensures is { OnOk result (IsTrue (is_utf8 word.now)) }
    ensures none { IfErr result (λ failure. (failure ≡ NotText) × (is_utf8 word.now ≡ false)) }
{
    std::str::from_utf8(word).map_err(|_| Failure::NotText)
}

/// The whole program: does what the words ask for, of which the first is the program's name, on
/// these files and this standard input, which is no terminal. Prints what clap says where it
/// refuses them, or where they ask for help or the version.
///
/// It takes memory for what the task takes, for what is printed and for the text of an error.
pub fn run_words<'a>(
    alloc: Global,
    words: &'a [&'a str],
    files: &'a [MemoryFile<'a>],
    input: &'a [u8],
) -> Ran
    ensures { IsRun (map (λ w. w.now) words.entry.now) (map file_value files.entry.now)
        input.entry.now result.end result.output.items }
{
    match command(alloc, words) {
        Ok(task) => told(perform_in_memory(alloc, task, files, input)),
        Err(error) => told(refused(alloc, &error)),
    }
}

/// Does the task on these files and this standard input, as [`perform`] does it on a host's. What
/// it printed stands there also where it ended without an answer.
pub fn perform_in_memory<'a>(
    alloc: Global,
    task: Task<'a>,
    files: &'a [MemoryFile<'a>],
    input: &'a [u8],
) -> Ran
    ensures { IsDone (map file_value files.entry.now) task.entry input.entry.now
        result.end result.output.items }
{
    let mut host = Host {
        files: MemoryFiles::new(alloc, files),
        reader: Pieces::new(input, usize::MAX, None),
        outputs: Outputs {
            writer: Printed::new(alloc),
            diagnostics: Printed::new(alloc),
            ends_process: false,
        },
    };
    let end = perform(alloc, task, &mut host);
    let Host {
        files: _,
        reader: _,
        outputs,
    } = host;
    let Outputs {
        writer,
        diagnostics,
        ends_process: _,
    } = outputs;
    Ran {
        end: end.map_err(in_memory),
        output: writer.into_bytes(),
        diagnostics: diagnostics.into_bytes(),
    }
}

/// The failure of a run whose writes fail only where memory is refused.
fn in_memory(failure: Failure) -> Failure
    ensures { result ≡ in_memory failure }
{
    match failure {
        Failure::Write => Failure::Memory,
        other => other,
    }
}

/// The same, with why it ended without an answer, as the program tells it.
fn told(mut ran: Ran) -> Ran
    ensures end { result.end ≡ ran.end }
    ensures output { result.output ≡ ran.output }
{
    let message = match ran.end {
        Ok(_) => None,
        Err(failure) => failure.message(),
    };
    if let Some(message) = message {
        let _ = writeln!(ran.diagnostics, "pylock: {message}");
    }
    ran
}

/// What the program prints where it has no task, and its status.
fn refused(alloc: Global, error: &CommandError) -> Ran
    ensures { IsRefusedEnd error.now result.end }
{
    let (mut output, mut diagnostics) = (Vec::new(alloc), Vec::new(alloc));
    let end = match error {
        CommandError::Refused(error) => print_error(alloc, error, &mut output, &mut diagnostics),
        CommandError::Memory => Err(Failure::Memory),
    };
    Ran {
        end,
        output,
        diagnostics,
    }
}

/// Prints what clap says, help and the version to standard output, and answers the status.
fn print_error(
    alloc: Global,
    error: &clap::Error,
    output: &mut Vec<u8>,
    diagnostics: &mut Vec<u8>,
) -> Result<u8, Failure>
    ensures status { IfOk result (IsExit (kind_of error.now)) }
    ensures memory { IfErr result (λ failure. failure ≡ Memory) }
{
    let text = error.to_string(alloc).map_err(|_| Failure::Memory)?;
    match error.kind() {
        ErrorKind::DisplayHelp | ErrorKind::DisplayVersion => {
            push_text(output, text.as_str())?;
            Ok(0)
        }
        _ => {
            push_text(diagnostics, text.as_str())?;
            Ok(2)
        }
    }
}

fn push_text(out: &mut Vec<u8>, text: &str) -> Result<(), Failure>
    ensures { IfErr result (λ failure. failure ≡ Memory) }
{
    out.extend_from_slice(text.as_bytes())
        .map_err(|_| Failure::Memory)
}
