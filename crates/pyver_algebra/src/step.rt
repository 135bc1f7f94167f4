//! Where versions stand that have the first two numbers of an operand, or that begin with some.

ghost use Rattle.std.specs.Prelude.{◌≡◌, ◌==◌, ◌∷◌, [], IfOk, IfSome, List, false};
ghost use Rattle.std.specs.Prelude.{if◌then◌else◌, ℕ};
ghost use Rattle.std.specs.List.{list_all};
ghost use Rattle.pyver_core.specs.Version.Order.{release_cmp};
ghost use Rattle.pyver_core.specs.Set.Admission.{matches_prefix};
ghost use Rattle.pyver_core.specs.Version.Parts.{Parts};
ghost use Rattle.pyver_algebra.specs.FirstTwo.{first_two};
ghost use Rattle.pyver_algebra.specs.Limits.{is_between};
ghost use Rattle.pyver_algebra.specs.Steps.{IsStepOf};

use crate::first::{first_of, with_last_raised};
use crate::limit::Cut;
use crate::specifier::is_final;
use pyver_core::Version;
use std::alloc::{AllocError, Global};

/// The cuts between which versions lie that have the first two numbers of an operand, or whose
/// release begins with some numbers.
#[derive(Drop)]
pub(crate) struct Step {
    pub(crate) begin: Cut,
    pub(crate) end: Cut,
}

/// The step of an operand that is a release, without an epoch; none for any other, and where the
/// second number is the largest one. Where a number behind the second isn't zero, no version has
/// the operand's numbers, and the step begins where it ends.
pub(crate) fn step_of(alloc: Global, operand: &Version) -> Result<Option<Step>, AllocError>
    ensures { IfOk result (λ step. IfSome step (λ s. IsStepOf operand.now s)) }
{
    if operand.epoch() != 0 || !is_final(operand) {
        return Ok(None);
    }
    let Some((major, minor, behind)) = first_numbers(operand.release()) else {
        return Ok(None);
    };
    let Some(next) = minor.checked_add(1) else {
        return Ok(None);
    };
    let least = least_second(minor, next, behind);
    let begin = first_of(alloc, 0, Vec::from_array(alloc, [major, least])?)?;
    let end = first_of(alloc, 0, Vec::from_array(alloc, [major, next])?)?;
    match (begin, end) {
        (Some(begin), Some(end)) => Ok(Some(Step {
            begin: Cut::before(begin),
            end: Cut::before(end),
        })),
        _ => Ok(None),
    }
}

/// The step of the versions whose release begins with these numbers; none where there is no number,
/// or where the last is the largest one.
pub(crate) fn prefix_step(
    alloc: Global,
    epoch: u128,
    release: &[u128],
) -> Result<Option<Step>, AllocError>
    ensures { IfOk result (λ step. IfSome step (λ s. (v : Parts)
        → is_between s.begin s.end v ≡ matches_prefix epoch release.now v)) }
{
    let Some(raised) = with_last_raised(alloc, release)? else {
        return Ok(None);
    };
    let release = Vec::from_slice(alloc, release)?;
    let begin = first_of(alloc, epoch, release)?;
    let end = first_of(alloc, epoch, raised)?;
    match (begin, end) {
        (Some(begin), Some(end)) => Ok(Some(Step {
            begin: Cut::before(begin),
            end: Cut::before(end),
        })),
        _ => Ok(None),
    }
}

/// The step of the versions whose first two numbers, padded with zeros, begin with these numbers;
/// none where there is no number, or where the last of the first two is the largest one. Where a
/// number behind the second isn't zero, there are no such versions.
pub(crate) fn first_prefix_step(alloc: Global, release: &[u128]) -> Result<Option<Step>, AllocError>
    ensures { IfOk result (λ step. IfSome step (λ s. (v : Parts) → v.epoch ≡ 0
        → is_between s.begin s.end v ≡ matches_prefix 0 release.now (first_two v))) }
{
    let (front, behind) = release.split_at(release.len().min(2));
    let Some(step) = prefix_step(alloc, 0, front)? else {
        return Ok(None);
    };
    if are_zeros(behind) {
        return Ok(Some(step));
    }
    Ok(Some(empty_step(step.end)?))
}

/// The step that begins where it ends.
fn empty_step(end: Cut) -> Result<Step, AllocError>
    ensures { IfOk result (λ step. (v : Parts) → is_between step.begin step.end v ≡ false) }
{
    let begin = Cut {
        version: end.version.clone()?,
        after: end.after,
    };
    Ok(Step { begin, end })
}

/// The first two numbers of a release, the second one 0 where there is none, and those behind them.
fn first_numbers(release: &[u128]) -> Option<(u128, u128, &[u128])>
    ensures { IfSome result (λ numbers. (other : List ℕ) → release_cmp other release.now
        ≡ release_cmp other (numbers.0 ∷ numbers.1 ∷ numbers.2.now)) }
{
    match release {
        [] => None,
        [major] => Some((*major, 0, &[])),
        [major, minor, behind @ ..] => Some((*major, *minor, behind)),
    }
}

/// The second of the least two numbers that are at least a release: its own where all behind it are
/// zeros, else the next one.
fn least_second(minor: u128, next: u128, behind: &[u128]) -> u128
    ensures { result ≡ if list_all (λ n. n == 0) behind.now then minor else next }
{
    if are_zeros(behind) { minor } else { next }
}

fn are_zeros(numbers: &[u128]) -> bool
    ensures { result ≡ list_all (λ n. n == 0) numbers.now }
{
    numbers.iter().all(|number| *number == 0)
}
