//! The commands over a lock and an environment: the JSON documents that they print, and what a
//! strict reading refuses.

use crate::runs::{InputFiles, Inputs, read_inputs, text_with_status};
use case_files::texts;
use pylock_command::command;
use pylock_program::{Host, Outputs, perform};
use pylock_run::{Pieces, ToWrite};
use std::alloc::{AllocError, Global};
use toml::Table;

/// What each command prints, its status, and what a person is told besides.
pub(crate) fn answer_case(alloc: Global, case: &Table) -> anyhow::Result<String> {
    let inputs = read_inputs(alloc, case)?;
    let mut told = String::new(alloc);
    for line in &texts(alloc, case, "commands")? {
        told.push_str("> ")?;
        told.push_str(line)?;
        told.push('\n')?;
        let words = words(alloc, line)?;
        told.push_str(run(alloc, &inputs, &words)?.as_str())?;
    }
    Ok(told)
}

/// What the command of these words prints, its status, and what a person is told; of words that
/// clap refuses, that they are refused.
fn run(alloc: Global, inputs: &Inputs, words: &[&str]) -> anyhow::Result<String> {
    let Ok(task) = command(alloc, words) else {
        return Ok(String::from_str(alloc, "refused by clap\n")?);
    };
    let (mut text, mut diagnostics) = (Vec::new(alloc), Vec::new(alloc));
    let mut host = Host {
        files: InputFiles { inputs },
        reader: Pieces::new(b"", 1, None),
        outputs: Outputs {
            writer: ToWrite::new(&mut text),
            diagnostics: ToWrite::new(&mut diagnostics),
            ends_process: false,
        },
    };
    let end = perform(alloc, task, &mut host);
    let mut told = text_with_status(text, end)?;
    told.push_str(std::str::from_utf8(&diagnostics)?)?;
    Ok(told)
}

/// The program's name, and the words of a command, which stand between its spaces.
fn words<'a>(alloc: Global, line: &'a str) -> Result<Vec<&'a str>, AllocError> {
    let mut words = Vec::new(alloc);
    words.push("pylock")?;
    for word in line.split(' ') {
        words.push(word)?;
    }
    Ok(words)
}
