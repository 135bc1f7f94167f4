//! Questions about markers and the version of Python, asked of every coherent environment.

ghost use Rattle.std.specs.Prelude.{◌≡◌, IfOk, false, true};
ghost use Rattle.pymark_algebra.specs.Questions.{AllHave, AllSay, Has, SaysNever};

use crate::answer::{Answer, Condition, PythonCondition};
use crate::open::{all_clauses, first_open};
use crate::python;
use crate::valueless::is_one_valueless;
use crate::witness::find_environment;
use pymark_core::Marker;
use std::alloc::{AllocError, Global};

/// Whether in no coherent environment both markers are true. `No` has one in which they are. It
/// takes memory as [`are_never`] does.
pub fn are_disjoint(alloc: Global, first: &Marker, second: &Marker) -> Result<Answer, AllocError>
    ensures { IfOk result (SaysNever (λ environment.
        Has environment first.now.tree true × Has environment second.now.tree true)) }
{
    are_never(alloc, &[is_true(first), is_true(second)])
}

/// Whether in every coherent environment in which the first marker is true, and the second one has
/// a value, it is true too. `No` has one in which the first is true and the second false. It takes
/// memory as [`are_never`] does.
pub fn implies(alloc: Global, first: &Marker, second: &Marker) -> Result<Answer, AllocError>
    ensures { IfOk result (SaysNever (λ environment.
        Has environment first.now.tree true × Has environment second.now.tree false)) }
{
    are_never(alloc, &[is_true(first), is_false(second)])
}

/// Whether in no coherent environment the marker is true. `No` has one in which it is. It takes
/// memory as [`are_never`] does.
pub fn is_never_true(alloc: Global, marker: &Marker) -> Result<Answer, AllocError>
    ensures { IfOk result (SaysNever (λ environment. Has environment marker.now.tree true)) }
{
    are_never(alloc, &[is_true(marker)])
}

/// Whether in no coherent environment the marker is false. `No` has one in which it is. It takes
/// memory as [`are_never`] does.
pub fn is_never_false(alloc: Global, marker: &Marker) -> Result<Answer, AllocError>
    ensures { IfOk result (SaysNever (λ environment. Has environment marker.now.tree false)) }
{
    are_never(alloc, &[is_false(marker)])
}

/// Whether in no coherent environment each marker has the value that is wanted of it. `No` has one
/// in which they do. It takes memory for the clauses, of which there are at most 4,096, and for the
/// environments that are tried, one at a time.
pub fn are_never(alloc: Global, conditions: &[Condition<'_>]) -> Result<Answer, AllocError>
    ensures { IfOk result (SaysNever (λ environment. AllHave environment conditions.now)) }
{
    are_never_of(alloc, &[], conditions)
}

/// Whether in no coherent environment `python_full_version` spells a version of which each
/// specifier says what is wanted of it, and each marker has the value that is wanted of it. `No`
/// has one in which they do. Without specifiers the variable may be unset. It takes memory as
/// [`are_never`] does, and for limits of the version.
pub fn are_never_of(
    alloc: Global,
    pythons: &[PythonCondition<'_>],
    conditions: &[Condition<'_>],
) -> Result<Answer, AllocError>
    ensures { IfOk result (SaysNever (λ environment.
        AllSay environment pythons.now × AllHave environment conditions.now)) }
{
    if is_one_valueless(alloc, conditions)? {
        return Ok(Answer::Yes);
    }
    if python::is_refuted(alloc, pythons, &[])? {
        return Ok(Answer::Yes);
    }
    let Some(clauses) = all_clauses(alloc, conditions)? else {
        return Ok(Answer::Undecided);
    };
    let Some(first) = first_open(alloc, pythons, &clauses)? else {
        return Ok(Answer::Yes);
    };
    match find_environment(alloc, pythons, conditions, clauses.split_at(first).1)? {
        Some(environment) => Ok(Answer::No(environment)),
        None => Ok(Answer::Undecided),
    }
}

fn is_true<'a>(marker: &'a Marker) -> Condition<'a>
    ensures marker { result.marker.now ≡ marker.now }
    ensures wanted { result.wanted ≡ true }
{
    Condition {
        marker,
        wanted: true,
    }
}

fn is_false<'a>(marker: &'a Marker) -> Condition<'a>
    ensures marker { result.marker.now ≡ marker.now }
    ensures wanted { result.wanted ≡ false }
{
    Condition {
        marker,
        wanted: false,
    }
}
