//! The rows of the table of findings, for one entry.

ghost use Rattle.std.specs.Prelude.{◌≡◌, IfOk, option_map};
ghost use Rattle.pylock_environments.specs.Findings.{Pythons, Standings};
ghost use Rattle.pylock_environments.specs.Inner.{IsClashTold, IsToldAlone, never_by};
ghost use Rattle.pylock_environments.specs.Inner.{numbered};

use crate::asking::{ask, ask_narrower};
use crate::budget::Budget;
use crate::finding::Found;
use crate::lock::{WeighedEntry, WeighedHead};
use crate::sought::Sought;
use pymark_algebra::Answer;
use std::alloc::AllocError;

/// The clash of the entry with one of these others, or that there may be one.
pub(crate) fn clash<'s, 'a>(
    lock: &WeighedHead<'_>,
    weighed: &'s WeighedEntry<'a>,
    others: &'s [WeighedEntry<'a>],
    budget: &mut Budget,
) -> Result<Option<Found>, AllocError>
    ensures { IfOk result (IsClashTold lock.now.head.now (numbered others.now)
        weighed.now.entry.now) }
{
    let mut undecided = None;
    for other in others {
        if budget.is_spent() {
            let other = undecided.unwrap_or(other.number);
            return Ok(Some(Found::MayClash { other }));
        }
        match ask(lock, &Sought::Together(other, weighed), budget)? {
            Answer::Yes => {}
            Answer::No(environment) => {
                let other = other.number;
                return Ok(Some(Found::Clash { other, environment }));
            }
            Answer::Undecided => undecided = Some(undecided.unwrap_or(other.number)),
        }
    }
    Ok(may_clash(undecided))
}

/// That the entry may clash with the one of this number.
fn may_clash(other: Option<usize>) -> Option<Found>
    ensures { result ≡ option_map (λ number. Found.MayClash number) other }
{
    let other = other?;
    Some(Found::MayClash { other })
}

/// That the entry never stands, or that it may not.
pub(crate) fn never(
    lock: &WeighedHead<'_>,
    weighed: &WeighedEntry<'_>,
    budget: &mut Budget,
) -> Result<Option<Found>, AllocError>
    ensures { IfOk result (IsToldAlone lock.now.head.now weighed.now.entry.now Standings) }
{
    let answer = ask(lock, &Sought::Standing(weighed), budget)?;
    Ok(never_by(&answer))
}

/// What is told of an entry that stands in no environment of the lock, or does.
fn never_by(answer: &Answer) -> Option<Found>
    ensures { result ≡ never_by answer.now }
{
    match answer {
        Answer::Yes => Some(Found::Never),
        Answer::No(_) => None,
        Answer::Undecided => Some(Found::MayNever),
    }
}

/// That the entry's `requires-python` is narrower, or that it may be.
pub(crate) fn narrower(
    lock: &WeighedHead<'_>,
    weighed: &WeighedEntry<'_>,
    budget: &mut Budget,
) -> Result<Option<Found>, AllocError>
    ensures { IfOk result (IsToldAlone lock.now.head.now weighed.now.entry.now Pythons) }
{
    match ask_narrower(lock, weighed, budget)? {
        Answer::Yes => Ok(None),
        Answer::No(environment) => Ok(Some(Found::NarrowerPython { environment })),
        Answer::Undecided => Ok(Some(Found::MayBeNarrower)),
    }
}
