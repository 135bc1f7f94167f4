//! Questions about all environments of a lock.

ghost use Rattle.std.specs.Prelude.{◌≡◌, IfOk, if◌then◌else◌};
ghost use Rattle.std.specs.Option.{option_copied};
ghost use Rattle.pymark_algebra.specs.Coherent.{IsCoherent};
ghost use Rattle.pylock_environments.specs.Environments.{IsMarked, IsNarrower};
ghost use Rattle.pylock_environments.specs.Inner.{IsShownBy, IsSoughtIn, Says};

use crate::budget::{Budget, Weight};
use crate::lock::{WeighedEntry, WeighedHead};
use crate::sought::{Sought, is_shown};
use crate::wanted::wanted_for;
use pymark_algebra::{Answer, are_never_of};
use pymark_core::{Environment, Marker};
use std::alloc::AllocError;

/// Whether what is sought is so in no environment of the lock.
pub(crate) fn ask(
    lock: &WeighedHead<'_>,
    sought: &Sought<'_, '_>,
    budget: &mut Budget,
) -> Result<Answer, AllocError>
    ensures { IfOk result (Says lock.now.head.now
        (λ environment. IsSoughtIn environment sought.now)
        (λ environment. IsShownBy environment sought.now)) }
{
    let markers = lock.head.environments();
    if markers.is_empty() {
        return ask_under(lock, None, Weight::of_specifiers(0), sought, budget);
    }
    let mut is_decided = true;
    for (index, marker) in markers.iter().enumerate() {
        let weight = lock.weight_at(index);
        match ask_under(lock, Some(marker), weight, sought, budget)? {
            Answer::Yes => {}
            Answer::No(environment) => return Ok(Answer::No(environment)),
            Answer::Undecided => is_decided = false,
        }
    }
    Ok(yes_where(is_decided))
}

/// `Yes` or `Undecided`.
fn yes_where(is_decided: bool) -> Answer
    ensures { result ≡ (if is_decided then Answer.Yes else Answer.Undecided) }
{
    if is_decided {
        Answer::Yes
    } else {
        Answer::Undecided
    }
}

/// Whether it is so in none of its environments in which this marker is absent or true, which has
/// this weight.
fn ask_under(
    lock: &WeighedHead<'_>,
    marker: Option<&Marker>,
    weight: Weight,
    sought: &Sought<'_, '_>,
    budget: &mut Budget,
) -> Result<Answer, AllocError>
    ensures { IfOk result (Says lock.now.head.now
        (λ environment. IsMarked (option_copied marker.entry) environment
        × IsSoughtIn environment sought.now)
        (λ environment. IsShownBy environment sought.now)) }
{
    if budget.is_spent() {
        return Ok(Answer::Undecided);
    }
    let wanted = wanted_for(lock, marker, weight, sought)?;
    if !budget.spend(wanted.weight) {
        return Ok(Answer::Undecided);
    }
    match are_never_of(lock.alloc, &wanted.pythons, &wanted.markers)? {
        Answer::Yes => Ok(Answer::Yes),
        Answer::No(environment) => confirmed(lock, sought, environment),
        Answer::Undecided => Ok(Answer::Undecided),
    }
}

/// `No` with the environment, if it is one of the lock's and shows what is sought.
fn confirmed(
    lock: &WeighedHead<'_>,
    sought: &Sought<'_, '_>,
    environment: Environment,
) -> Result<Answer, AllocError>
    requires { IsCoherent environment }
    ensures { IfOk result (Says lock.now.head.now
        (λ environment. Unit {0}) (λ environment. IsShownBy environment sought.now)) }
{
    if is_shown(lock.alloc, lock.head, sought, &environment)? {
        Ok(Answer::No(environment))
    } else {
        Ok(Answer::Undecided)
    }
}

/// Whether in no environment of the lock the entry's `requires-python` is narrower.
pub(crate) fn ask_narrower<'a>(
    lock: &WeighedHead<'_>,
    weighed: &WeighedEntry<'a>,
    budget: &mut Budget,
) -> Result<Answer, AllocError>
    ensures { IfOk result (Says lock.now.head.now
        (IsNarrower weighed.now.entry.now) (IsNarrower weighed.now.entry.now)) }
{
    let Some(set) = weighed.entry.requires_python() else {
        return Ok(Answer::Yes);
    };
    let mut is_decided = true;
    for specifier in set.items() {
        match ask(lock, &Sought::Refused(&*weighed, specifier), budget)? {
            Answer::Yes => {}
            Answer::No(environment) => return Ok(Answer::No(environment)),
            Answer::Undecided => is_decided = false,
        }
    }
    Ok(yes_where(is_decided))
}
