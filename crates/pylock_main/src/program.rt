//! The program as one call.

ghost use Rattle.std.specs.Prelude.{◌≡◌, ◌⊎◌, pos};
ghost use Rattle.pylock_slots.specs.Program.{AreNoParts, Runs};
ghost use Rattle.pylock_slots.specs.Slot.{object};

use pylock_slots::{Joined, Slot, leave_run, run_joined};
use std::alloc::Global;

/// Runs the whole program on files and a standard input in memory.
#[unsafe(no_mangle)]
pub extern "C" fn pylock_main(
    alloc: Global,
    word_lengths: &[usize],
    words: &[u8],
    file_lengths: &[usize],
    files: &[u8],
    input: &[u8],
    output: &mut Slot,
    diagnostics: &mut Slot,
    status: &mut i32,
) -> i32
    ensures run { result ≡ pos 0 → Runs word_lengths.now words.now file_lengths.now files.now
        input.now (object output.new) (object diagnostics.new) status.new }
    ensures kept { (result ≡ pos 0 → ⊥) → (object output.new ≡ object output.old)
        × (object diagnostics.new ≡ object diagnostics.old) × (status.new ≡ status.old) }
    ensures refused { (result ≡ pos 0 → ⊥) → (result ≡ pos 1) ⊎ ((result ≡ pos 5)
        × AreNoParts word_lengths.now words.now file_lengths.now files.now) }
{
    let words = Joined {
        lengths: word_lengths,
        bytes: words,
    };
    let files = Joined {
        lengths: file_lengths,
        bytes: files,
    };
    let outcome = run_joined(alloc, words, files, input);
    leave_run(alloc, outcome, output, diagnostics, status)
}
