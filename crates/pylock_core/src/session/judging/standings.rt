//! What an edit has found so far of how entries stand, by the numbers of their conditions. Of more
//! conditions than places, two that share one are judged in turn, once for each change from the one
//! to the other. The mix has no key: who chooses markers that share places loses what numbers gain,
//! and no more.

ghost use Rattle.std.specs.Prelude.{◌≡◌, ◌⊎◌, ℕ, Option, Some, None, IfOk, IfSome, slice_index_or};
ghost use Rattle.pylock_core.specs.Inner.Judging.Standings.{IsFound};
ghost use Rattle.pylock_core.specs.declared.session.judging.standings.FoundStanding.{FoundStanding};

use crate::answer::Standing;
use std::alloc::{AllocError, Global};

/// How entries of a number stand.
#[derive(Clone, Copy)]
pub(crate) struct FoundStanding {
    pub(crate) number: u32,
    pub(crate) standing: Standing,
}

/// Fewer entries than these are judged one by one.
const FEW: usize = 16;

/// At most two to this power are kept, which is 1,024.
const MOST: u32 = 10;

/// Nothing yet, where so many entries are judged. What is found of a number has one place, which it
/// shares with others; numbers below the count of places share none. It takes no memory for few
/// entries, and no more than 24 bytes for each.
pub(crate) fn no_standings(
    alloc: Global,
    entries: usize,
) -> Result<Vec<Option<FoundStanding>>, AllocError>
    ensures { IfOk result (λ found. (place : ℕ) → slice_index_or found.items place None ≡ None) }
{
    Ok(vec![in alloc; None; capacity_for(entries)]?)
}

/// How many places there are: the least power of two that isn't below the count of the entries, and
/// no more than are kept at most.
fn capacity_for(entries: usize) -> usize {
    if entries < FEW {
        return 0;
    }
    1 << (usize::BITS - (entries - 1).leading_zeros()).min(MOST)
}

/// The place of what is found of a number, among so many.
fn place_of(number: u32, capacity: usize) -> usize {
    number as usize & capacity.saturating_sub(1)
}

/// How entries of this number stand, if it was found and is still kept.
pub(crate) fn standing_under(found: &[Option<FoundStanding>], number: u32) -> Option<Standing>
    ensures { IfSome result (λ standing. IsFound found.now number standing) }
{
    let kept = (*found.get(place_of(number, found.len()))?)?;
    if kept.number == number {
        return Some(kept.standing);
    }
    None
}

/// Keeps how entries of this number stand, in place of what was found of another.
pub(crate) fn keep_standing(found: &mut Vec<Option<FoundStanding>>, number: u32, standing: Standing)
    ensures { (place : ℕ) (kept : FoundStanding)
        → slice_index_or found.new.items place None ≡ Some kept
        → (slice_index_or found.old.items place None ≡ Some kept)
        ⊎ (kept ≡ record { number = number; standing = standing }) }
{
    let place = place_of(number, found.len());
    if place < found.len() {
        found[place] = Some(FoundStanding { number, standing });
    }
}
