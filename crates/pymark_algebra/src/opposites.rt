//! Whether one comparison of a clause is wanted true and false.

ghost use Rattle.std.specs.Prelude.{◌≡◌, IsTrue};
ghost use Rattle.pymark_algebra.specs.Refuted.{AreOpposite, IsRefuted, IsRefutedBeside};

use pymark_clauses::Literal;
use pymark_core::{Comparator, Comparison};

/// The most literals of a clause of which each is put to all others, so that the time is linear in
/// the clause.
const MOST_COMPARED: usize = 64;

/// Whether one literal wants of a comparison what another doesn't want of the same.
pub(crate) fn is_refuted(clause: &[Literal<'_>]) -> bool
    ensures { IsTrue result → IsRefuted clause.now }
{
    for literal in clause.iter().take(MOST_COMPARED) {
        if is_refuted_beside(literal, clause) {
            return true;
        }
    }
    false
}

/// Whether some literal is the opposite of this one.
fn is_refuted_beside(literal: &Literal<'_>, clause: &[Literal<'_>]) -> bool
    ensures { IsTrue result → IsRefutedBeside literal.now clause.now }
{
    for other in clause {
        if are_opposite(literal, other) {
            return true;
        }
    }
    false
}

/// Whether the two literals are of one comparison, which can't have both values, or of `in` and
/// `not in` of the same operands, which can't have one.
#[tactic(auto, using(crate::proofs::ValueLemmas::in_excludes))]
fn are_opposite(first: &Literal<'_>, second: &Literal<'_>) -> bool
    ensures { IsTrue result → AreOpposite first.now second.now }
{
    if !has_same_operands(first.comparison, second.comparison) {
        return false;
    }
    if first.wanted == second.wanted {
        return is_in_and_not_in(first.comparison, second.comparison);
    }
    has_same_comparator(first.comparison, second.comparison)
}

fn has_same_comparator(first: &Comparison, second: &Comparison) -> bool
    ensures { IsTrue result → first.now.comparator ≡ second.now.comparator }
{
    first.comparator() == second.comparator()
}

/// Whether the first operator is `in` and the second `not in`.
fn is_in_and_not_in(first: &Comparison, second: &Comparison) -> bool
    ensures { IsTrue result → (first.now.comparator ≡ Comparator.In)
        × (second.now.comparator ≡ Comparator.NotIn) }
{
    match (first.comparator(), second.comparator()) {
        (Comparator::In, Comparator::NotIn) => true,
        _ => false,
    }
}

/// Whether both have the same operands, which are variables and quoted texts.
fn has_same_operands(first: &Comparison, second: &Comparison) -> bool
    ensures { IsTrue result → (first.now.left ≡ second.now.left)
        × (first.now.right ≡ second.now.right) }
{
    if !has_same_left(first, second) {
        return false;
    }
    has_same_right(first, second)
}

fn has_same_left(first: &Comparison, second: &Comparison) -> bool
    ensures { IsTrue result → first.now.left ≡ second.now.left }
{
    if let (Some(left), Some(right)) = (first.left_variable(), second.left_variable()) {
        return left == right;
    }
    if let (Some(left), Some(right)) = (first.left_text(), second.left_text()) {
        return left == right;
    }
    false
}

fn has_same_right(first: &Comparison, second: &Comparison) -> bool
    ensures { IsTrue result → first.now.right ≡ second.now.right }
{
    if let (Some(left), Some(right)) = (first.right_variable(), second.right_variable()) {
        return left == right;
    }
    if let (Some(left), Some(right)) = (first.right_text(), second.right_text()) {
        return left == right;
    }
    false
}
