//! Lines that are written while they are made.

ghost use Rattle.std.specs.Prelude.{◌≡◌, ◌++◌, ℕ, List, IfErr, OnErr, OnOk, codes, decimal};
ghost use Rattle.std.specs.List.{flat_map};
ghost use Rattle.pylock_program.specs.Findings.{list_status};
ghost use Rattle.pylock_run.specs.Inner.Faults.{IsWriteFault};
ghost use Rattle.pylock_run.specs.Inner.Writes.{Pours};
ghost use Rattle.pylock_run.specs.Report.Print.{Prints};
ghost use Rattle.pylock_run.specs.Stream.{TakesPrefix};

use pylock_run::{IoFault, RunFault, Sink, print, push_decimal, write_all};
use std::alloc::AllocError;

/// How many bytes are written at once, if no line is longer.
const PIECE: usize = 65_536;

/// What is told on a line of its own.
pub(crate) trait Line {
    ghost line: { Self → List ℕ };

    /// Pushes the line.
    fn push(&self, out: &mut Vec<u8>) -> Result<(), AllocError>
        ensures { OnOk result (out.new.items ≡ out.old.items ++ line self.now) };
}

/// The status where a list is printed: whether anything is in it.
pub(crate) fn list_status<T>(list: &[T]) -> u8
    ensures { result ≡ list_status list.now }
{
    if list.is_empty() { 0 } else { 1 }
}

/// Pushes the line that tells how many lines come: a word and the number.
pub(crate) fn push_count(out: &mut Vec<u8>, word: &str, count: usize) -> Result<(), AllocError>
    ensures { OnOk result (out.new.items
        ≡ out.old.items ++ word.now ++ codes " " ++ decimal count ++ codes "\n") }
{
    out.extend_from_slice(word.as_bytes())?;
    out.push(b' ')?;
    push_decimal(out, count as u64)?;
    out.push(b'\n')?;
    Ok(())
}

/// Writes a text and the lines behind it, and answers the status. Besides the text it takes memory
/// for the longest line and 64 kB, once more while that grows.
pub(crate) fn print_lines<L: Line, W: Sink>(
    text: Vec<u8>,
    lines: &[L],
    status: u8,
    writer: &mut W,
) -> Result<u8, RunFault>
    ensures { Prints (record {
      text = text.items ++ flat_map L.line lines.now;
      status = status;
    }) (W.value writer.old) (W.value writer.new) result }
{
    let mut out = text;
    for line in lines {
        line.push(&mut out)?;
        pour(&mut out, writer)?;
    }
    print(&out, status, writer)
}

/// Writes what waits, where that is a piece.
fn pour<W: Sink>(out: &mut Vec<u8>, writer: &mut W) -> Result<(), RunFault>
    ensures poured { OnOk result
        (Pours (W.value writer.old) (W.value writer.new) out.old.items out.new.items) }
    ensures prefix { OnErr result
        (TakesPrefix (W.value writer.old) (W.value writer.new) out.old.items) }
    ensures fault { IfErr result (IsWriteFault (W.value writer.old) (W.value writer.new)) }
{
    if out.len() < PIECE {
        return Ok(());
    }
    let Ok(()) = write_all(writer, out) else {
        return Err(RunFault::Write);
    };
    out.clear();
    Ok(())
}
