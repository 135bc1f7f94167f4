//! One line of the input: a command, or the reason why it is refused.

ghost use Rattle.std.specs.Prelude.{◌≡◌};
ghost use Rattle.pytext.specs.Agreement.{Gives};
ghost use Rattle.pylock_run.specs.Line.{command_of, text_command, without_cr};

mod argument;
pub mod commands;
pub mod refusal;

use crate::line::commands::{Command, read_command};
use crate::line::refusal::LineRefusal;
use std::alloc::Global;

/// The most bytes that a line has before its LF; a CR counts.
pub const LINE_LIMIT: usize = 1_048_576;

/// Reads a line, given without its LF. It takes memory for what its edit holds.
pub fn read_line(alloc: Global, line: &[u8]) -> Result<Command, LineRefusal>
    ensures { Gives LineRefusal.Memory (λ command. command) result (command_of line.now) }
{
    if line.len() > LINE_LIMIT {
        return Err(LineRefusal::Long);
    }
    match str::from_utf8(without_cr(line)) {
        Ok(text) => read_text(alloc, text),
        Err(_) => Err(LineRefusal::Text),
    }
}

fn without_cr(line: &[u8]) -> &[u8]
    ensures { result.now ≡ without_cr line.now }
{
    line.strip_suffix(b"\r").unwrap_or(line)
}

fn read_text(alloc: Global, text: &str) -> Result<Command, LineRefusal>
    ensures { Gives LineRefusal.Memory (λ command. command) result (text_command text.now) }
{
    match text.split_once(' ') {
        Some((word, argument)) => read_command(alloc, word, Some(argument)),
        None => read_command(alloc, text, None),
    }
}
