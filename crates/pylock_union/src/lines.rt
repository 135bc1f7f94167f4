//! The lines of the files of several locks.

ghost use Rattle.std.specs.Prelude.{◌≡◌, ◌++◌, ◌∷◌, ℕ, List, OnOk, codes, decimal, true};
ghost use Rattle.std.specs.List.{flat_map};
ghost use Rattle.pylock_union.specs.Listed.{all_lent, lent};
ghost use Rattle.pylock_union.specs.Text.{listed_line, listed_text};

use crate::listed::LockSource;
use pylock_run::{push_decimal, push_source_line};
use std::alloc::AllocError;

/// Pushes `files K` and a line for each source, as `files` of one lock has it; with `tells_lock`
/// each line has one field more, the number of the source's lock. It takes memory for the lines.
pub fn push_lines(
    out: &mut Vec<u8>,
    list: &[LockSource<'_>],
    tells_lock: bool,
) -> Result<(), AllocError>
    ensures { OnOk result (out.new.items
        ≡ out.old.items ++ listed_text tells_lock (all_lent list.now)) }
{
    push_count(out, list.len() as u64)?;
    push_each(out, list, tells_lock)
}

/// Pushes how many there are.
fn push_count(out: &mut Vec<u8>, count: u64) -> Result<(), AllocError>
    ensures { OnOk result (out.new.items
        ≡ out.old.items ++ (codes "files " ++ decimal count ++ codes "\n")) }
{
    out.extend_from_slice(b"files ")?;
    push_decimal(out, count)?;
    out.push(b'\n')?;
    Ok(())
}

fn push_each(out: &mut Vec<u8>, list: &[LockSource<'_>], tells_lock: bool) -> Result<(), AllocError>
    ensures { OnOk result (out.new.items
        ≡ out.old.items ++ flat_map (listed_line tells_lock) (all_lent list.now)) }
{
    for source in list {
        push_line(out, source, tells_lock)?;
    }
    Ok(())
}

#[tactic(auto, using(crate::proofs::TextLemmas::line_alone))]
fn push_line(out: &mut Vec<u8>, source: &LockSource<'_>, tells_lock: bool) -> Result<(), AllocError>
    ensures { OnOk result (out.new.items
        ≡ out.old.items ++ listed_line tells_lock (lent source.now)) }
{
    if tells_lock {
        push_with_lock(out, source)
    } else {
        push_source_line(out, source.number, source.entry, Some(source.source))
    }
}

/// Pushes the line of a source, the last field of which is the number of its lock.
fn push_with_lock(out: &mut Vec<u8>, source: &LockSource<'_>) -> Result<(), AllocError>
    ensures { OnOk result (out.new.items
        ≡ out.old.items ++ listed_line true (lent source.now)) }
{
    push_source_line(out, source.number, source.entry, Some(source.source))?;
    push_lock(out, source.lock)
}

/// Pushes the number of a lock as one field more of the line that stands last.
fn push_lock(out: &mut Vec<u8>, lock: u64) -> Result<(), AllocError>
    ensures { OnOk result ((line : List ℕ) → out.old.items ≡ line ++ codes "\n"
        → out.new.items ≡ line ++ ((9 ∷ decimal lock) ++ codes "\n")) }
{
    take_end(out);
    out.push(b'\t')?;
    push_decimal(out, lock)?;
    out.push(b'\n')?;
    Ok(())
}

/// Takes the end of the last line away.
#[tactic(auto, using(crate::proofs::TextLemmas::cut_end))]
fn take_end(out: &mut Vec<u8>)
    ensures { (line : List ℕ) → out.old.items ≡ line ++ codes "\n" → out.new.items ≡ line }
{
    let _end = out.pop();
}
