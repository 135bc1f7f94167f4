//! What is true of every version, and of every environment that an interpreter of Python may have.

ghost use Rattle.std.specs.Prelude.{◌≡◌, ℤ, Ok, Option, Some, pos};
ghost use Rattle.pytext.specs.Agreement.{Gives};
ghost use Rattle.pyver_core.specs.Version.Normal.{normal_text};
ghost use Rattle.pylock_c.specs.Algebra.{Answers, SaysDisjoint, SaysImplied, SaysNeverBoth};
ghost use Rattle.pylock_c.specs.Algebra.{SaysNeverFalse, SaysNeverTrue, SaysSubset};
ghost use Rattle.pylock_c.specs.Algebra.{SaysUnsatisfiable, environment_told, markers_in, sets_in};
ghost use Rattle.pylock_c.specs.Algebra.{told_of, version_told};
ghost use Rattle.pylock_c.specs.Answered.{IsAnswered};
ghost use Rattle.pylock_c.specs.Markers.{marker_in};
ghost use Rattle.pylock_c.specs.Sets.{set_in};
ghost use Rattle.pylock_slots.specs.Answer.{Tells};
ghost use Rattle.pylock_slots.specs.Slot.{kept_object, object};
ghost use Rattle.pylock_slots.specs.declared.object.Object.{Object as Kind};
ghost use Rattle.pylock_slots.specs.declared.object.Object.TheVariants as kind;
ghost use Rattle.pylock_slots.specs.declared.refusal.Refusal.TheVariants.{Memory};

use crate::markers::marker_in;
use crate::sets::set_in;
use pylock_slots::{Bytes, OK, Object, Refusal, Slot, keep_with};
use pymark_algebra::{are_disjoint, implies, is_never_false, is_never_true};
use pyver_algebra::{is_disjoint, is_subset, is_unsatisfiable};
use pyver_core::Version;
use std::alloc::Global;

type SetAnswer = pyver_algebra::Answer;

type MarkerAnswer = pymark_algebra::Answer;

/// The numbers of the answers in `pylock.h`.
const NO: i32 = 0;

const YES: i32 = 1;

const UNDECIDED: i32 = 2;

// ---- questions about sets

/// The text of the version that shows `no`, and its number.
fn no_by(alloc: Global, version: &Version) -> Result<(Object, i32), Refusal>
    ensures { Gives {V = Option Kind × ℤ} Memory (λ told. (Some told.0, told.1)) result
        (Ok (Some (kind.Text (normal_text version.now)), pos 0)) }
{
    let text = String::from_str(alloc, version.text())?;
    Ok((Object::Text(Bytes::new(text.into_bytes())), NO))
}

/// Leaves the number of the answer at its place, and of `no` the version in the slot, and answers
/// the code.
#[tactic(auto, using(crate::proofs::AlgebraLemmas::told_answers))]
fn leave_version(
    alloc: Global,
    outcome: Result<SetAnswer, Refusal>,
    slot: &mut Slot,
    answer: &mut i32,
) -> i32
    ensures { Tells (told_of (version_told (object slot.old, answer.old)) outcome)
        (object slot.old, answer.old) (object slot.new, answer.new) result }
{
    match outcome {
        Ok(SetAnswer::Yes) => {
            *answer = YES;
            OK
        }
        Ok(SetAnswer::No(version)) => keep_with(alloc, no_by(alloc, &version), slot, answer),
        Ok(SetAnswer::Undecided) => {
            *answer = UNDECIDED;
            OK
        }
        Err(refusal) => refusal.number(),
    }
}

fn subset_in(
    alloc: Global,
    first: &Option<Box<Object>>,
    second: &Option<Box<Object>>,
) -> Result<SetAnswer, Refusal>
    ensures { IsAnswered (sets_in (kept_object first.now) (kept_object second.now)) SaysSubset
        result }
{
    let first = set_in(first)?;
    let second = set_in(second)?;
    Ok(is_subset(alloc, first, second)?)
}

/// Whether the second set admits each version that the first one does.
#[unsafe(no_mangle)]
pub extern "C" fn pylock_set_is_subset(
    alloc: Global,
    first: &mut Slot,
    second: &mut Slot,
    answer: &mut i32,
    witness: &mut Slot,
) -> i32
    ensures first { object first.new ≡ object first.old }
    ensures second { object second.new ≡ object second.old }
    ensures told { Answers (sets_in (object first.old) (object second.old)) SaysSubset
        version_told (object witness.old, answer.old) (object witness.new, answer.new) result }
{
    let kept = first.take(alloc);
    let other = second.take(alloc);
    let code = leave_version(alloc, subset_in(alloc, &kept, &other), witness, answer);
    first.put(alloc, kept);
    second.put(alloc, other);
    code
}

fn disjoint_in(
    alloc: Global,
    first: &Option<Box<Object>>,
    second: &Option<Box<Object>>,
) -> Result<SetAnswer, Refusal>
    ensures { IsAnswered (sets_in (kept_object first.now) (kept_object second.now)) SaysDisjoint
        result }
{
    let first = set_in(first)?;
    let second = set_in(second)?;
    Ok(is_disjoint(alloc, first, second)?)
}

/// Whether no version is admitted by both sets.
#[unsafe(no_mangle)]
pub extern "C" fn pylock_set_is_disjoint(
    alloc: Global,
    first: &mut Slot,
    second: &mut Slot,
    answer: &mut i32,
    witness: &mut Slot,
) -> i32
    ensures first { object first.new ≡ object first.old }
    ensures second { object second.new ≡ object second.old }
    ensures told { Answers (sets_in (object first.old) (object second.old)) SaysDisjoint
        version_told (object witness.old, answer.old) (object witness.new, answer.new) result }
{
    let kept = first.take(alloc);
    let other = second.take(alloc);
    let code = leave_version(alloc, disjoint_in(alloc, &kept, &other), witness, answer);
    first.put(alloc, kept);
    second.put(alloc, other);
    code
}

fn unsatisfiable_in(alloc: Global, set: &Option<Box<Object>>) -> Result<SetAnswer, Refusal>
    ensures { IsAnswered (set_in (kept_object set.now)) SaysUnsatisfiable result }
{
    Ok(is_unsatisfiable(alloc, set_in(set)?)?)
}

/// Whether a set admits no version.
#[unsafe(no_mangle)]
pub extern "C" fn pylock_set_is_unsatisfiable(
    alloc: Global,
    set: &mut Slot,
    answer: &mut i32,
    witness: &mut Slot,
) -> i32
    ensures set { object set.new ≡ object set.old }
    ensures told { Answers (set_in (object set.old)) SaysUnsatisfiable version_told
        (object witness.old, answer.old) (object witness.new, answer.new) result }
{
    let kept = set.take(alloc);
    let code = leave_version(alloc, unsatisfiable_in(alloc, &kept), witness, answer);
    set.put(alloc, kept);
    code
}

// ---- questions about markers

/// Leaves the number of the answer at its place, and of `no` the environment in the slot, and
/// answers the code.
#[tactic(auto, using(crate::proofs::AlgebraLemmas::told_answers))]
fn leave_environment(
    alloc: Global,
    outcome: Result<MarkerAnswer, Refusal>,
    slot: &mut Slot,
    answer: &mut i32,
) -> i32
    ensures { Tells (told_of (environment_told (object slot.old, answer.old)) outcome)
        (object slot.old, answer.old) (object slot.new, answer.new) result }
{
    match outcome {
        Ok(MarkerAnswer::Yes) => {
            *answer = YES;
            OK
        }
        Ok(MarkerAnswer::No(environment)) => {
            let told = (Object::Environment(environment), NO);
            keep_with(alloc, Ok(told), slot, answer)
        }
        Ok(MarkerAnswer::Undecided) => {
            *answer = UNDECIDED;
            OK
        }
        Err(refusal) => refusal.number(),
    }
}

fn never_both_in(
    alloc: Global,
    first: &Option<Box<Object>>,
    second: &Option<Box<Object>>,
) -> Result<MarkerAnswer, Refusal>
    ensures { IsAnswered (markers_in (kept_object first.now) (kept_object second.now)) SaysNeverBoth
        result }
{
    let first = marker_in(first)?;
    let second = marker_in(second)?;
    Ok(are_disjoint(alloc, first, second)?)
}

/// Whether in no coherent environment both markers are true.
#[unsafe(no_mangle)]
pub extern "C" fn pylock_marker_is_disjoint(
    alloc: Global,
    first: &mut Slot,
    second: &mut Slot,
    answer: &mut i32,
    witness: &mut Slot,
) -> i32
    ensures first { object first.new ≡ object first.old }
    ensures second { object second.new ≡ object second.old }
    ensures told { Answers (markers_in (object first.old) (object second.old)) SaysNeverBoth
        environment_told (object witness.old, answer.old) (object witness.new, answer.new) result }
{
    let kept = first.take(alloc);
    let other = second.take(alloc);
    let code = leave_environment(alloc, never_both_in(alloc, &kept, &other), witness, answer);
    first.put(alloc, kept);
    second.put(alloc, other);
    code
}

fn implied_in(
    alloc: Global,
    first: &Option<Box<Object>>,
    second: &Option<Box<Object>>,
) -> Result<MarkerAnswer, Refusal>
    ensures { IsAnswered (markers_in (kept_object first.now) (kept_object second.now)) SaysImplied
        result }
{
    let first = marker_in(first)?;
    let second = marker_in(second)?;
    Ok(implies(alloc, first, second)?)
}

/// Whether in no coherent environment the first marker is true and the second one false.
#[unsafe(no_mangle)]
pub extern "C" fn pylock_marker_implies(
    alloc: Global,
    first: &mut Slot,
    second: &mut Slot,
    answer: &mut i32,
    witness: &mut Slot,
) -> i32
    ensures first { object first.new ≡ object first.old }
    ensures second { object second.new ≡ object second.old }
    ensures told { Answers (markers_in (object first.old) (object second.old)) SaysImplied
        environment_told (object witness.old, answer.old) (object witness.new, answer.new) result }
{
    let kept = first.take(alloc);
    let other = second.take(alloc);
    let code = leave_environment(alloc, implied_in(alloc, &kept, &other), witness, answer);
    first.put(alloc, kept);
    second.put(alloc, other);
    code
}

fn never_true_in(alloc: Global, marker: &Option<Box<Object>>) -> Result<MarkerAnswer, Refusal>
    ensures { IsAnswered (marker_in (kept_object marker.now)) SaysNeverTrue result }
{
    Ok(is_never_true(alloc, marker_in(marker)?)?)
}

/// Whether in no coherent environment the marker is true.
#[unsafe(no_mangle)]
pub extern "C" fn pylock_marker_is_never_true(
    alloc: Global,
    marker: &mut Slot,
    answer: &mut i32,
    witness: &mut Slot,
) -> i32
    ensures marker { object marker.new ≡ object marker.old }
    ensures told { Answers (marker_in (object marker.old)) SaysNeverTrue environment_told
        (object witness.old, answer.old) (object witness.new, answer.new) result }
{
    let kept = marker.take(alloc);
    let code = leave_environment(alloc, never_true_in(alloc, &kept), witness, answer);
    marker.put(alloc, kept);
    code
}

fn never_false_in(alloc: Global, marker: &Option<Box<Object>>) -> Result<MarkerAnswer, Refusal>
    ensures { IsAnswered (marker_in (kept_object marker.now)) SaysNeverFalse result }
{
    Ok(is_never_false(alloc, marker_in(marker)?)?)
}

/// Whether in no coherent environment the marker is false.
#[unsafe(no_mangle)]
pub extern "C" fn pylock_marker_is_never_false(
    alloc: Global,
    marker: &mut Slot,
    answer: &mut i32,
    witness: &mut Slot,
) -> i32
    ensures marker { object marker.new ≡ object marker.old }
    ensures told { Answers (marker_in (object marker.old)) SaysNeverFalse environment_told
        (object witness.old, answer.old) (object witness.new, answer.new) result }
{
    let kept = marker.take(alloc);
    let code = leave_environment(alloc, never_false_in(alloc, &kept), witness, answer);
    marker.put(alloc, kept);
    code
}
