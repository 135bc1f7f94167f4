//! A run by the pieces of its input, for a host that has them one after another.
//!
//! The laws `bytes_print_what_lines_print` and `pieces_print_one_by_one` say that what these calls
//! write, one after another, is what [`run_opened`](crate::run_opened) writes.

ghost use Rattle.std.specs.Prelude.{◌≡◌, ◌&&◌, ◌≤◌, IfErr, IfOk, OnErr, OnOk, if◌then◌else◌, not};
ghost use Rattle.pylock_run.specs.Inner.Editing.{after_input, bytes_text, editing_after};
ghost use Rattle.pylock_run.specs.Inner.Editing.{input_end_text, lines_begun, start};
ghost use Rattle.pylock_run.specs.Inner.Faults.{IsFeedFault};
ghost use Rattle.pylock_run.specs.Inner.Writes.{Writes};
ghost use Rattle.pylock_run.specs.Report.Print.{IsOutputFault};
ghost use Rattle.pylock_run.specs.Report.Run.{most_lines};
ghost use Rattle.pylock_run.specs.Stream.{TakesPrefix};

use crate::report::editing::Editing;
use crate::report::fault::RunFault;
use crate::report::printing::Printing;
use crate::report::run::{feed_piece, write_first_answer, write_last_answer};
use crate::stream::Sink;
use pylock_core::Session;
use std::alloc::Global;

/// Writes the first answer of a session, which is edited from here on. It takes memory for the
/// answer's text.
pub fn begin_run<P: Printing, W: Sink>(
    alloc: Global,
    printing: &P,
    session: Session,
    writer: &mut W,
) -> Result<Editing, RunFault>
    ensures editing { IfOk result (λ editing. editing ≡ start session.state) }
    ensures written { OnOk result (Writes (W.value writer.old) (W.value writer.new)
        ((P.shown printing.now).answer session.state)) }
    ensures prefix { OnErr result (TakesPrefix (W.value writer.old) (W.value writer.new)
        ((P.shown printing.now).answer session.state)) }
    ensures fault { IfErr result (IsOutputFault (W.value writer.old) (W.value writer.new)) }
{
    let mut first = Vec::new(alloc);
    write_first_answer(alloc, printing, session, &mut first, writer)
}

/// Edits by the next piece of the input, and writes what the lines print that end in it. It takes
/// memory for the line that is being read, and for what is written at once. After a fault nothing
/// is said of the editing.
pub fn feed_run<P: Printing, W: Sink>(
    alloc: Global,
    printing: &P,
    editing: &mut Editing,
    piece: &[u8],
    writer: &mut W,
) -> Result<(), RunFault>
    ensures editing { OnOk result (editing.new ≡ editing_after editing.old piece.now) }
    ensures written { OnOk result (Writes (W.value writer.old) (W.value writer.new)
        (bytes_text (P.shown printing.now) editing.old piece.now)) }
    ensures prefix { OnErr result (TakesPrefix (W.value writer.old) (W.value writer.new)
        (bytes_text (P.shown printing.now) editing.old piece.now)) }
    ensures fault { IfErr result (IsFeedFault (W.value writer.old) (W.value writer.new)
        (lines_begun (editing_after editing.old piece.now))) }
{
    let mut out = Vec::new(alloc);
    feed_piece(printing, editing, piece, &mut out, writer)
}

/// Writes what the last line prints, where it had no LF, and answers the status of the run.
pub fn end_run<P: Printing, W: Sink>(
    alloc: Global,
    printing: &P,
    editing: &mut Editing,
    writer: &mut W,
) -> Result<u8, RunFault>
    ensures editing { OnOk result (editing.new ≡ after_input editing.old) }
    ensures written { OnOk result (Writes (W.value writer.old) (W.value writer.new)
        (input_end_text (P.shown printing.now) editing.old)) }
    ensures status { IfOk result (λ status. status ≡ (if (after_input editing.old).plan
        && not (after_input editing.old).refused then 0 else 1)) }
    ensures within { OnOk result (lines_begun editing.old ≤ most_lines) }
    ensures prefix { OnErr result (TakesPrefix (W.value writer.old) (W.value writer.new)
        (input_end_text (P.shown printing.now) editing.old)) }
    ensures fault { IfErr result (IsOutputFault (W.value writer.old) (W.value writer.new)) }
{
    let mut last = Vec::new(alloc);
    write_last_answer(printing, editing, &mut last, writer)?;
    Ok(editing.status())
}
