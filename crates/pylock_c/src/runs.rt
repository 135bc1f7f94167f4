//! Runs of `select` by the pieces of their input (PEP 751), and what `select` is asked.

ghost use Rattle.std.specs.Prelude.{◌≡◌, ◌⊎◌, ℕ, List, None, Some, pos};
ghost use Rattle.pylock_memory.specs.Parts.{cut_by};
ghost use Rattle.pylock_run.specs.Report.{open_state};
ghost use Rattle.pylock_slots.specs.Asked.{AsksOfJoined};
ghost use Rattle.pylock_slots.specs.Refusal.{number};
ghost use Rattle.pylock_slots.specs.Runs.{Begins, Ends, Feeds, IsEndRefusal, IsFeedRefusal};
ghost use Rattle.pylock_slots.specs.Sessions.{form_of};
ghost use Rattle.pylock_slots.specs.Slot.{object};
ghost use Rattle.pylock_slots.specs.declared.object.Object.TheVariants as kind;
ghost use Rattle.pylock_slots.specs.declared.refusal.Refusal.{Refusal as Refused};

use pylock_slots::{
    Joined, Slot, asked_of_select, begin_run_in, end_run_in, feed_run_in, form_of, keep_asked,
};
use std::alloc::Global;

/// What `select` is asked by the words.
#[unsafe(no_mangle)]
pub extern "C" fn pylock_select_asked(
    alloc: Global,
    word_lengths: &[usize],
    words: &[u8],
    asked: &mut Slot,
) -> i32
    ensures told { result ≡ pos 0 → (told : List ℕ) × AsksOfJoined word_lengths.now words.now told
        × (object asked.new ≡ Some (kind.Text told)) }
    ensures kept { (result ≡ pos 0 → ⊥) → object asked.new ≡ object asked.old }
    ensures refused { (result ≡ pos 0 → ⊥) → (result ≡ pos 1) ⊎ ((result ≡ pos 5)
        × (cut_by word_lengths.now words.now ≡ None)) }
{
    let words = Joined {
        lengths: word_lengths,
        bytes: words,
    };
    keep_asked(alloc, asked_of_select(alloc, words), asked)
}

/// Begins a run on a lock and an environment, or leaves the line of a refusal.
#[unsafe(no_mangle)]
pub extern "C" fn pylock_run_start(
    alloc: Global,
    run: &mut Slot,
    lock: &[u8],
    environment: &[u8],
    json: bool,
    output: &mut Slot,
) -> i32
    ensures { Begins (form_of json) (open_state lock.now environment.now) (object run.old)
        (object run.new) (object output.old) (object output.new) result }
{
    begin_run_in(alloc, lock, environment, form_of(json), run, output)
}

/// Edits the run by the next piece of its input.
#[unsafe(no_mangle)]
pub extern "C" fn pylock_run_feed(
    alloc: Global,
    run: &mut Slot,
    json: bool,
    piece: &[u8],
    output: &mut Slot,
) -> i32
    ensures fed { result ≡ pos 0 → Feeds (form_of json) piece.now (object run.old)
        (object run.new) (object output.new) }
    ensures kept { (result ≡ pos 0 → ⊥) → object output.new ≡ object output.old }
    ensures refused { (result ≡ pos 0 → ⊥) → (refused : Refused) × (result ≡ number refused)
        × IsFeedRefusal piece.now (object run.old) refused }
{
    feed_run_in(alloc, run, form_of(json), piece, output)
}

/// Ends the input of the run, and frees it.
#[unsafe(no_mangle)]
pub extern "C" fn pylock_run_end(
    alloc: Global,
    run: &mut Slot,
    json: bool,
    output: &mut Slot,
    status: &mut i32,
) -> i32
    ensures ended { result ≡ pos 0 → Ends (form_of json) (object run.old) (object output.new)
        status.new }
    ensures over { object run.new ≡ None }
    ensures kept { (result ≡ pos 0 → ⊥) → (object output.new ≡ object output.old)
        × (status.new ≡ status.old) }
    ensures refused { (result ≡ pos 0 → ⊥) → (refused : Refused) × (result ≡ number refused)
        × IsEndRefusal (object run.old) refused }
{
    end_run_in(alloc, run, form_of(json), output, status)
}

/// Empties the slot.
#[unsafe(no_mangle)]
pub extern "C" fn pylock_run_free(alloc: Global, run: &mut Slot)
    ensures { object run.new ≡ None }
{
    let _kept = run.take(alloc);
}
