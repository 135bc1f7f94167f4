//! The program as one call.

ghost use Rattle.std.specs.Prelude.{◌≡◌, ◌⊎◌, Err, IfErr, IfOk, OnOk, Some, map, pos};
ghost use Rattle.pylock_program.specs.declared.failure.Failure.TheVariants as failure;
ghost use Rattle.pylock_memory.specs.Run.{status_of};
ghost use Rattle.pylock_slots.specs.Program.{AreNoParts, Runs};
ghost use Rattle.pylock_slots.specs.Refusal.{number};
ghost use Rattle.pylock_slots.specs.Slot.{object};
ghost use Rattle.pylock_slots.specs.declared.object.Object.TheVariants as kind;
ghost use Rattle.pylock_slots.specs.declared.refusal.Refusal.TheVariants.{Memory, Parts};

use crate::answer::OK;
use crate::object::{Bytes, Object};
use crate::refusal::Refusal;
use crate::slot::Slot;
use pylock_memory::{Ran, cut_parts, run_bytes};
use pylock_program::Failure;
use std::alloc::{AllocError, Global};

/// Texts behind one another, and how long each is.
#[derive(Clone, Copy)]
pub struct Joined<'a> {
    /// The length of each, in bytes.
    pub lengths: &'a [usize],
    /// Their bytes.
    pub bytes: &'a [u8],
}

/// What a run of the program left.
#[derive(Drop)]
pub struct Left {
    status: u8,
    output: Box<Object>,
    diagnostics: Box<Object>,
}

fn kept_text(alloc: Global, bytes: Vec<u8>) -> Result<Box<Object>, AllocError>
    ensures { IfOk result (λ kept. kept.value ≡ kind.Text bytes.items) }
{
    Ok(Box::new(alloc, Object::Text(Bytes::new(bytes)))?)
}

/// What the run left, unless it ended for want of memory.
fn left_by(alloc: Global, ran: Ran) -> Result<Left, Refusal>
    ensures status { IfOk result (λ left. left.status ≡ status_of ran.end) }
    ensures output { IfOk result (λ left. left.output.value ≡ kind.Text ran.output.items) }
    ensures diagnostics { IfOk result (λ left. left.diagnostics.value
        ≡ kind.Text ran.diagnostics.items) }
    ensures ended { OnOk result (ran.end ≡ Err failure.Memory → ⊥) }
    ensures refused { IfErr result (λ refusal. refusal ≡ Memory) }
{
    let status = match ran.end {
        Err(Failure::Memory) => return Err(Refusal::Memory),
        _ => ran.status(),
    };
    let Ran {
        end: _,
        output,
        diagnostics,
    } = ran;
    Ok(Left {
        status,
        output: kept_text(alloc, output)?,
        diagnostics: kept_text(alloc, diagnostics)?,
    })
}

/// Runs the whole program: its words, of which the first is the program's name, on files that are
/// given as a path and its bytes by turns and on this standard input, which is no terminal.
///
/// It is refused where the lengths of words or files don't add up to their bytes. It takes memory
/// for what the task takes and for what is printed.
pub fn run_joined(
    alloc: Global,
    words: Joined,
    files: Joined,
    input: &[u8],
) -> Result<Left, Refusal>
    ensures left { IfOk result (λ left. Runs words.entry.lengths.now words.entry.bytes.now
        files.entry.lengths.now files.entry.bytes.now input.now (Some left.output.value)
        (Some left.diagnostics.value) (pos left.status)) }
    ensures refused { IfErr result (λ refusal. (refusal ≡ Memory) ⊎ ((refusal ≡ Parts)
        × AreNoParts words.entry.lengths.now words.entry.bytes.now
        files.entry.lengths.now files.entry.bytes.now)) }
{
    let Some(words) = cut_parts(alloc, words.lengths, words.bytes)? else {
        return Err(Refusal::Parts);
    };
    let Some(files) = cut_parts(alloc, files.lengths, files.bytes)? else {
        return Err(Refusal::Parts);
    };
    left_by(alloc, run_bytes(alloc, &words, &files, input))
}

/// Leaves what the run left: the texts in slots, the status at its place. Answers the code.
pub fn leave_run(
    alloc: Global,
    outcome: Result<Left, Refusal>,
    output: &mut Slot,
    diagnostics: &mut Slot,
    status: &mut i32,
) -> i32
    ensures left { IfOk outcome (λ left. (result ≡ pos 0)
        × (object output.new ≡ Some left.output.value)
        × (object diagnostics.new ≡ Some left.diagnostics.value) × (status.new ≡ pos left.status)) }
    ensures refused { IfErr outcome (λ refusal. (result ≡ number refusal)
        × (object output.new ≡ object output.old)
        × (object diagnostics.new ≡ object diagnostics.old) × (status.new ≡ status.old)) }
{
    match outcome {
        Ok(left) => {
            output.put(alloc, Some(left.output));
            diagnostics.put(alloc, Some(left.diagnostics));
            *status = i32::from(left.status);
            OK
        }
        Err(refusal) => refusal.number(),
    }
}
