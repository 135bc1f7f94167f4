//! A run: edits a session by the lines of its input, and writes what they print.

ghost use Rattle.std.specs.Prelude.{◌≡◌, ◌++◌, ◌<◌, ◌≤◌, ◌+◌, [], Ok, Err, IsTrue, false, length};
ghost use Rattle.std.specs.Prelude.{take, OnOk, IfOk, IfErr, OnErr, Result};
ghost use Rattle.std.specs.Io.KnownBytes.{Consumes, IsAtEnd};
ghost use Rattle.pytext.specs.Agreement.{Gives};
ghost use Rattle.pylock_core.specs.Session.State.{State};
ghost use Rattle.pylock_run.specs.Inner.Edited.{Edited, EditsAll, IsReadFault, EditFault};
ghost use Rattle.pylock_run.specs.Inner.Editing.{start, editing_after, bytes_text, after_input};
ghost use Rattle.pylock_run.specs.Inner.Editing.{input_end_text, lines_begun};
ghost use Rattle.pylock_run.specs.Inner.Faults.{IsWriteFault, IsFeedFault};
ghost use Rattle.pylock_run.specs.Inner.Writes.{Writes, Pours};
ghost use Rattle.pylock_run.specs.Report.{open_state, report_on};
ghost use Rattle.pylock_run.specs.Report.Print.{Prints, IsOutputFault};
ghost use Rattle.pylock_run.specs.Report.Run.{IsRun, IsRunShown, most_bytes, most_lines};
ghost use Rattle.pylock_run.specs.Stream.{TakesPrefix};
ghost use Rattle.pylock_run.specs.declared.report.opening.OpenError.{OpenError as Unopened};
ghost use Rattle.pylock_run.specs.declared.report.opening.OpenError.TheVariants.{Memory};

use crate::report::editing::Editing;
use crate::report::fault::RunFault;
use crate::report::opening::{OpenError, open};
use crate::report::print::print;
use crate::report::printing::{Lines, Printing};
use crate::stream::whole::piece_buffer;
use crate::stream::{Sink, Source, write_all};
use pylock_core::Session;
use std::alloc::Global;
use std::mem;

/// How many bytes of output are written at once, if no answer is longer.
const FLUSH_BYTES: usize = 65_536;

/// The most bytes that an input has.
pub const INPUT_BYTES: u64 = 268_435_456;

/// Writes what stands in `out`, and empties it.
fn flush<W: Sink>(out: &mut Vec<u8>, writer: &mut W) -> Result<(), RunFault>
    ensures written { OnOk result (Writes (W.value writer.old) (W.value writer.new) out.old.items) }
    ensures empty { OnOk result (out.new.items ≡ []) }
    ensures prefix { OnErr result
        (TakesPrefix (W.value writer.old) (W.value writer.new) out.old.items) }
    ensures fault { IfErr result (IsWriteFault (W.value writer.old) (W.value writer.new)) }
{
    let Ok(()) = write_all(writer, out) else {
        return Err(RunFault::Write);
    };
    out.clear();
    Ok(())
}

/// Edits by a prefix of `bytes`, and answers how many. What they print stands
/// behind what is in `out`, or is written where that is much.
fn feed_some<P: Printing, W: Sink>(
    printing: &P,
    editing: &mut Editing,
    bytes: &[u8],
    out: &mut Vec<u8>,
    writer: &mut W,
) -> Result<usize, RunFault>
    requires { 0 < length bytes.now }
    ensures some { IfOk result (λ count. (0 < count) × (count ≤ length bytes.now)) }
    ensures editing { IfOk result (λ count. editing.new
        ≡ editing_after editing.old (take count bytes.now)) }
    ensures poured { IfOk result (λ count. Pours (W.value writer.old) (W.value writer.new)
        (out.old.items ++ bytes_text (P.shown printing.now) editing.old (take count bytes.now))
        out.new.items) }
    ensures prefix { OnErr result (TakesPrefix (W.value writer.old) (W.value writer.new)
        (out.old.items ++ bytes_text (P.shown printing.now) editing.old bytes.now)) }
    ensures fault { IfErr result (IsFeedFault (W.value writer.old) (W.value writer.new)
        (lines_begun (editing_after editing.old bytes.now))) }
{
    let count = editing.take_bytes(printing, bytes, out)?;
    if out.len() >= FLUSH_BYTES {
        flush(out, writer)?;
    }
    Ok(count)
}

/// Edits by a piece of the input, and writes what is in `out` and what the piece prints.
pub(crate) fn feed_piece<P: Printing, W: Sink>(
    printing: &P,
    editing: &mut Editing,
    piece: &[u8],
    out: &mut Vec<u8>,
    writer: &mut W,
) -> Result<(), RunFault>
    ensures editing { OnOk result (editing.new ≡ editing_after editing.old piece.now) }
    ensures written { OnOk result (Writes (W.value writer.old) (W.value writer.new)
        (out.old.items ++ bytes_text (P.shown printing.now) editing.old piece.now)) }
    ensures empty { OnOk result (out.new.items ≡ []) }
    ensures prefix { OnErr result (TakesPrefix (W.value writer.old) (W.value writer.new)
        (out.old.items ++ bytes_text (P.shown printing.now) editing.old piece.now)) }
    ensures fault { IfErr result (IsFeedFault (W.value writer.old) (W.value writer.new)
        (lines_begun (editing_after editing.old piece.now))) }
{
    let mut done = 0;
    'bytes: while done < piece.len() {
        done += feed_some(printing, editing, &piece[done..], out, writer)?;
    }
    flush(out, writer)
}

/// What a reader gives next: the count of the bytes put into `buffer`, 0 at its end. `total` counts
/// them with those before.
fn read_next<R: Source>(
    reader: &mut R,
    buffer: &mut [u8],
    total: &mut u64,
) -> Result<usize, RunFault>
    requires capacity { 0 < length buffer.old }
    requires within { total.old ≤ most_bytes }
    ensures count { IfOk result (λ count. count ≤ length buffer.new) }
    ensures given { IfOk result (λ count. Consumes (R.value reader.old).rest
        (R.value reader.new).rest (take count buffer.new)) }
    ensures end { IfOk result (λ count. count ≡ 0 → IsAtEnd (R.value reader.new).rest) }
    ensures total { IfOk result (λ count. total.new ≡ total.old + count) }
    ensures within { OnOk result (total.new ≤ most_bytes) }
    ensures counted { OnOk result
        ((R.value reader.new).failures ≡ (R.value reader.old).failures) }
    ensures fault { IfErr result (IsReadFault total.old (R.value reader.old) (R.value reader.new)) }
{
    let Ok(count) = reader.read(buffer) else {
        return Err(RunFault::Read);
    };
    if count as u64 > INPUT_BYTES - *total {
        return Err(RunFault::Input);
    }
    *total += count as u64;
    Ok(count)
}

/// Reads a piece, edits by it and writes what it prints; answers whether there was one.
fn feed_next<P: Printing, R: Source, W: Sink>(
    printing: &P,
    editing: &mut Editing,
    buffer: &mut [u8],
    total: &mut u64,
    reader: &mut R,
    out: &mut Vec<u8>,
    writer: &mut W,
) -> Result<bool, RunFault>
    requires capacity { 0 < length buffer.old }
    requires within { total.old ≤ most_bytes }
    requires empty { out.old.items ≡ [] }
    ensures edited { OnOk result (Edited (P.shown printing.now)
        (R.value reader.old) (R.value reader.new) (W.value writer.old) (W.value writer.new)
        editing.old editing.new total.old total.new) }
    ensures within { OnOk result (total.new ≤ most_bytes) }
    ensures empty { OnOk result (out.new.items ≡ []) }
    ensures grew { IfOk result (λ more. IsTrue more → total.old < total.new) }
    ensures end { IfOk result (λ more. more ≡ false → IsAtEnd (R.value reader.new).rest) }
    ensures fault { IfErr result (EditFault (P.shown printing.now)
        (R.value reader.old) (R.value reader.new) (W.value writer.old) (W.value writer.new)
        editing.old total.old) }
{
    let count = read_next(reader, buffer, total)?;
    if count == 0 {
        return Ok(false);
    }
    feed_piece(printing, editing, &buffer[..count], out, writer)?;
    Ok(true)
}

/// Edits by all of the input, piece by piece, and writes what its lines print as they end.
fn feed_all<P: Printing, R: Source, W: Sink>(
    printing: &P,
    editing: &mut Editing,
    buffer: &mut [u8],
    reader: &mut R,
    out: &mut Vec<u8>,
    writer: &mut W,
) -> Result<(), RunFault>
    requires capacity { 0 < length buffer.old }
    requires empty { out.old.items ≡ [] }
    ensures edited { OnOk result (EditsAll (P.shown printing.now)
        (R.value reader.old) (R.value reader.new) (W.value writer.old) (W.value writer.new)
        editing.old editing.new) }
    ensures empty { OnOk result (out.new.items ≡ []) }
    ensures end { OnOk result (IsAtEnd (R.value reader.new).rest) }
    ensures fault { IfErr result (EditFault (P.shown printing.now)
        (R.value reader.old) (R.value reader.new) (W.value writer.old) (W.value writer.new)
        editing.old 0) }
{
    let mut total = 0;
    'pieces: while feed_next(printing, editing, buffer, &mut total, reader, out, writer)? {}
    Ok(())
}

/// Writes the first answer.
pub(crate) fn write_first_answer<P: Printing, W: Sink>(
    alloc: Global,
    printing: &P,
    session: Session,
    first: &mut Vec<u8>,
    writer: &mut W,
) -> Result<Editing, RunFault>
    requires { first.old.items ≡ [] }
    ensures editing { IfOk result (λ editing. editing ≡ start session.state) }
    ensures written { OnOk result (Writes (W.value writer.old) (W.value writer.new)
        ((P.shown printing.now).answer session.state)) }
    ensures empty { OnOk result (first.new.items ≡ []) }
    ensures prefix { OnErr result (TakesPrefix (W.value writer.old) (W.value writer.new)
        ((P.shown printing.now).answer session.state)) }
    ensures fault { IfErr result (IsOutputFault (W.value writer.old) (W.value writer.new)) }
{
    let editing = Editing::start(alloc, printing, session, first)?;
    flush(first, writer)?;
    Ok(editing)
}

/// Writes what the last line prints, where it had no LF.
pub(crate) fn write_last_answer<P: Printing, W: Sink>(
    printing: &P,
    editing: &mut Editing,
    last: &mut Vec<u8>,
    writer: &mut W,
) -> Result<(), RunFault>
    requires { last.old.items ≡ [] }
    ensures editing { OnOk result (editing.new ≡ after_input editing.old) }
    ensures written { OnOk result (Writes (W.value writer.old) (W.value writer.new)
        (input_end_text (P.shown printing.now) editing.old)) }
    ensures within { OnOk result (lines_begun editing.old ≤ most_lines) }
    ensures prefix { OnErr result (TakesPrefix (W.value writer.old) (W.value writer.new)
        (input_end_text (P.shown printing.now) editing.old)) }
    ensures fault { IfErr result (IsOutputFault (W.value writer.old) (W.value writer.new)) }
{
    editing.finish_input(printing, last)?;
    flush(last, writer)
}

/// Edits a session by the whole input, and writes all answers and refusals. Then it frees the
/// session, or leaves its memory to the system.
fn edit_all<P: Printing, R: Source, W: Sink>(
    alloc: Global,
    printing: &P,
    session: Session,
    leaves: bool,
    reader: &mut R,
    writer: &mut W,
) -> Result<u8, RunFault>
    ensures { IsRunShown (P.shown printing.now) (Ok session.state)
        (R.value reader.old) (R.value reader.new) (W.value writer.old) (W.value writer.new) result }
{
    let mut buffer = piece_buffer(alloc)?;
    let mut out = Vec::new(alloc);
    let mut editing = write_first_answer(alloc, printing, session, &mut out, writer)?;
    feed_all(
        printing,
        &mut editing,
        &mut buffer,
        reader,
        &mut out,
        writer,
    )?;
    write_last_answer(printing, &mut editing, &mut out, writer)?;
    let status = editing.status();
    if leaves {
        mem::forget(editing);
    }
    Ok(status)
}

/// Writes the refusal of a lock or an environment.
fn write_refusal<P: Printing, W: Sink>(
    alloc: Global,
    printing: &P,
    error: &OpenError,
    writer: &mut W,
) -> Result<u8, RunFault>
    ensures { Prints (report_on (P.shown printing.now) (Err error.now) [])
        (W.value writer.old) (W.value writer.new) result }
{
    let mut out = Vec::new(alloc);
    printing.push_refusal(&mut out, error)?;
    print(&out, 2, writer)
}

/// Runs `select`: edits a session on the lock by the lines of the input, and writes the first
/// answer and what each line prints. It answers the status: 0 where the last answer is a plan and
/// no line was refused, 1 otherwise, 2 where the lock or the environment is refused.
///
/// It is one pass: the input is read in pieces of at most 65,536 bytes, and before each read all is
/// written that the lines print that are complete. Where the lock or the environment is refused,
/// nothing is read. It keeps the line that is being read, of a line that is too long no more than
/// tells so, and takes memory for the session, the kept line, a piece, and what stands to be
/// written.
pub fn run<R: Source, W: Sink>(
    alloc: Global,
    lock: &[u8],
    env: &[u8],
    reader: &mut R,
    writer: &mut W,
) -> Result<u8, RunFault>
    ensures { IsRun (open_state lock.now env.now) (R.value reader.old) (R.value reader.new)
        (W.value writer.old) (W.value writer.new) result }
{
    run_opened(alloc, &Lines, open(alloc, lock, env), false, reader, writer)
}

/// A run on a session that was opened, or on the refusal of its lock or of its environment, which
/// prints as `printing` does. It frees the session at its end; or, for a program that ends then,
/// leaves the session's memory to the system, which takes all of it at once.
pub fn run_opened<P: Printing, R: Source, W: Sink>(
    alloc: Global,
    printing: &P,
    opened: Result<Session, OpenError>,
    leaves: bool,
    reader: &mut R,
    writer: &mut W,
) -> Result<u8, RunFault>
    ensures { (begins : Result State Unopened)
        → Gives Memory (λ session. session.state) opened begins
        → IsRunShown (P.shown printing.now) begins (R.value reader.old) (R.value reader.new)
        (W.value writer.old) (W.value writer.new) result }
{
    match opened {
        Ok(session) => edit_all(alloc, printing, session, leaves, reader, writer),
        Err(OpenError::Memory) => Err(RunFault::Memory),
        Err(refusal) => write_refusal(alloc, printing, &refusal, writer),
    }
}
