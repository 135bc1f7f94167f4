//! Findings of two lists as one.

ghost use Rattle.std.specs.Prelude.{◌≡◌, ◌++◌, IfOk, OnOk};
ghost use Rattle.std.specs.Option.{option_copied};
ghost use Rattle.pylock_findings.specs.Inner.{IsTaken, is_below};
ghost use Rattle.pylock_findings.specs.Merging.{from_number, merged, numbers_below};

use pylock_audit::LockFinding;
use std::alloc::{AllocError, Global};
use std::collections::VecDeque;

/// The findings of both lists, which are moved, by the number of the entry where each list is; of
/// one number those of `found` come first. It takes memory for the list, and time for one pass.
pub fn merged(
    alloc: Global,
    found: Vec<LockFinding>,
    others: Vec<LockFinding>,
) -> Result<Vec<LockFinding>, AllocError>
    ensures { IfOk result (λ all. all.items ≡ merged found.items others.items) }
{
    let mut others = VecDeque::from_vec(others);
    let mut all = Vec::new(alloc);
    for one in found {
        push_below(&mut all, &mut others, one.number())?;
        all.push(one)?;
    }
    push_all(&mut all, others.into_vec())?;
    Ok(all)
}

/// Moves those from the front on that have a lower number.
fn push_below(
    all: &mut Vec<LockFinding>,
    others: &mut VecDeque<LockFinding>,
    number: usize,
) -> Result<(), AllocError>
    ensures pushed { OnOk result (all.new.items
        ≡ all.old.items ++ numbers_below number others.old.items) }
    ensures rest { OnOk result (others.new.items ≡ from_number number others.old.items) }
{
    while let Some(other) = first_below(others, number) {
        all.push(other)?;
    }
    Ok(())
}

/// Takes the first of them, where its number is lower.
#[tactic(auto, using(crate::proofs::MergingLemmas::takings))]
fn first_below(others: &mut VecDeque<LockFinding>, number: usize) -> Option<LockFinding>
    ensures { IsTaken number others.old.items others.new.items result }
{
    if is_below(others.front(), number) {
        others.pop_front()
    } else {
        None
    }
}

/// Whether it is there and has a lower number.
fn is_below(first: Option<&LockFinding>, number: usize) -> bool
    ensures { result ≡ is_below number (option_copied first.entry) }
{
    match first {
        Some(first) => first.number() < number,
        None => false,
    }
}

fn push_all(all: &mut Vec<LockFinding>, others: Vec<LockFinding>) -> Result<(), AllocError>
    ensures { OnOk result (all.new.items ≡ all.old.items ++ others.items) }
{
    for other in others {
        all.push(other)?;
    }
    Ok(())
}
