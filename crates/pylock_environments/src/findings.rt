//! What is found of a lock in all of its environments.

ghost use Rattle.std.specs.Prelude.{◌≡◌, ℕ, ◌+◌, List, IfOk, OnOk, Some, map, slice_get};
ghost use Rattle.std.specs.List.{All};
ghost use Rattle.pylock_core.specs.Session.State.{Rises};
ghost use Rattle.pylock_readers.specs.Entry.{EntryValue};
ghost use Rattle.pylock_environments.specs.Findings.{AreWhole, Clashes, IsShown, place, place_of};
ghost use Rattle.pylock_environments.specs.Inner.{AreBefore, named_before, numbered, with_told};

use crate::budget::Budget;
use crate::finding::{EnvironmentFinding, Found};
use crate::lock::{WeighedEntry, WeighedHead};
use crate::names::{add_value, no_values, values_under};
use crate::rows::{clash, narrower, never};
use pylock_core::{Entry, Head};
use std::alloc::{AllocError, Global};

/// What is found of the entries of a lock in all environments that its head admits, in the order of
/// the entries, and of an entry at most one finding of each of three rows: that it clashes with an
/// earlier one, or may; that it never stands, or may not; that its `requires-python` is narrower,
/// or may be.
///
/// It takes memory for the clauses of two markers at a time, an environment, an index for each
/// entry and the findings. `README.md` says how long it looks.
pub fn environment_findings(
    alloc: Global,
    head: &Head,
    entries: &[Entry],
) -> Result<Vec<EnvironmentFinding>, AllocError>
    ensures shown { IfOk result (λ findings. All (IsShown head.now entries.now) findings.items) }
    ensures whole { IfOk result (λ findings. AreWhole head.now entries.now findings.items) }
    ensures order { IfOk result (λ findings. Rises 0 (map place_of findings.items)) }
{
    let mut budget = Budget::new();
    let lock = WeighedHead::new(alloc, head, &mut budget)?;
    let mut passed = no_values(alloc);
    let mut findings = Vec::new(alloc);
    for (index, entry) in entries.iter().enumerate() {
        let number = index + 1;
        let weighed = WeighedEntry::new(alloc, number, entry, &mut budget)?;
        let others = values_under(&passed, entry.name());
        push_entry(&mut findings, &lock, &weighed, others, &mut budget)?;
        add_value(&mut passed, entry.name(), weighed)?;
    }
    Ok(findings)
}

/// Adds what is found of the entry, before which these others have its name.
fn push_entry<'s, 'a>(
    findings: &mut Vec<EnvironmentFinding>,
    lock: &WeighedHead<'_>,
    weighed: &'s WeighedEntry<'a>,
    others: &'s [WeighedEntry<'a>],
    budget: &mut Budget,
) -> Result<(), AllocError>
    ensures { OnOk result ((entries : List EntryValue) (i : ℕ) → weighed.now.number ≡ i + 1
        → slice_get entries i ≡ Some weighed.now.entry.now
        → numbered others.now ≡ named_before weighed.now.entry.now.name i entries
        → AreBefore lock.now.head.now entries (place weighed.now.number Clashes) findings.old.items
        → AreBefore lock.now.head.now entries (place (weighed.now.number + 1) Clashes)
        findings.new.items) }
{
    let clashes = clash(lock, weighed, others, budget)?;
    push_told(findings, weighed.number, clashes)?;
    let standings = never(lock, weighed, budget)?;
    push_told(findings, weighed.number, standings)?;
    let pythons = narrower(lock, weighed, budget)?;
    push_told(findings, weighed.number, pythons)?;
    Ok(())
}

/// Adds what is told of the entry of this number.
fn push_told(
    findings: &mut Vec<EnvironmentFinding>,
    entry: usize,
    told: Option<Found>,
) -> Result<(), AllocError>
    ensures { OnOk result (findings.new.items ≡ with_told findings.old.items entry told) }
{
    if let Some(found) = told {
        findings.push(EnvironmentFinding { entry, found })?;
    }
    Ok(())
}
