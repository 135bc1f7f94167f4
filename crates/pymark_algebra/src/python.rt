//! Whether the literals of a clause hold together, by the version of the Python.

ghost use Rattle.std.specs.Prelude.{◌≡◌, IfOk, IfSome, IsTrue, OnOk, Some};
ghost use Rattle.pymark_core.specs.Marker.Asked.{operand_variable};
ghost use Rattle.pyver_algebra.specs.Limits.{Keeps};
ghost use Rattle.pyver_core.specs.Version.Parts.{Parts};
ghost use Rattle.pymark_algebra.specs.Refuted.{AllJudge, FollowFrom, IsRefutedUnder};
ghost use Rattle.pymark_algebra.specs.Specifiers.{Asks};

use crate::answer::PythonCondition;
use pymark_clauses::Literal;
use pymark_core::{Comparator, Comparison, Var};
use pyver_algebra::Bounds;
use pyver_core::{Specifier, SpecifierError};
use std::alloc::{AllocError, Global};

/// Whether no version of a Python is what all literals want, and judged by the specifiers as is
/// wanted.
#[tactic(auto, using(crate::proofs::PythonLemmas::all_judge))]
pub(crate) fn is_refuted(
    alloc: Global,
    pythons: &[PythonCondition<'_>],
    clause: &[Literal<'_>],
) -> Result<bool, AllocError>
    ensures { IfOk result (λ is. IsTrue is → IsRefutedUnder pythons.now clause.now) }
{
    let mut bounds = judged_bounds(alloc, pythons)?;
    for literal in clause {
        add_literal(alloc, &mut bounds, literal)?;
    }
    Ok(bounds.are_empty())
}

/// What follows of a version that the specifiers judge as is wanted.
fn judged_bounds(alloc: Global, pythons: &[PythonCondition<'_>]) -> Result<Bounds, AllocError>
    ensures { IfOk result (λ bounds. (version : Parts)
        → AllJudge pythons.now version → Keeps bounds version) }
{
    let mut bounds = Bounds::new(alloc);
    for python in pythons {
        bounds.add(alloc, python.specifier, python.wanted)?;
    }
    Ok(bounds)
}

/// Adds what follows of the version where the literal holds.
fn add_literal(alloc: Global, bounds: &mut Bounds, literal: &Literal<'_>) -> Result<(), AllocError>
    ensures { OnOk result (FollowFrom literal.now bounds.old bounds.new) }
{
    let comparison = literal.comparison;
    match comparison.left_variable() {
        Some(Var::PythonFullVersion) => add_whole(alloc, bounds, literal),
        Some(Var::PythonVersion) => add_first_two(alloc, bounds, literal),
        _ => Ok(()),
    }
}

/// The same where `python_full_version` stands on the left.
fn add_whole(alloc: Global, bounds: &mut Bounds, literal: &Literal<'_>) -> Result<(), AllocError>
    requires { operand_variable literal.now.comparison.now.left ≡ Some Var.PythonFullVersion }
    ensures { OnOk result (FollowFrom literal.now bounds.old bounds.new) }
{
    match specifier_of(alloc, literal.comparison)? {
        Some(specifier) => bounds.add(alloc, &specifier, literal.wanted),
        None => Ok(()),
    }
}

/// The same where `python_version` does.
fn add_first_two(
    alloc: Global,
    bounds: &mut Bounds,
    literal: &Literal<'_>,
) -> Result<(), AllocError>
    requires { operand_variable literal.now.comparison.now.left ≡ Some Var.PythonVersion }
    ensures { OnOk result (FollowFrom literal.now bounds.old bounds.new) }
{
    match specifier_of(alloc, literal.comparison)? {
        Some(specifier) => bounds.add_first_two(alloc, &specifier, literal.wanted),
        None => Ok(()),
    }
}

/// The specifier that stands right of the variable, if the text there is one.
fn specifier_of(alloc: Global, comparison: &Comparison) -> Result<Option<Specifier>, AllocError>
    ensures { IfOk result (λ found. IfSome found (λ specifier. Asks comparison.now specifier)) }
{
    let Comparator::By(operator) = comparison.comparator() else {
        return Ok(None);
    };
    let Some(text) = comparison.right_text() else {
        return Ok(None);
    };
    match Specifier::new(alloc, operator, text) {
        Ok(specifier) => Ok(Some(specifier)),
        Err(SpecifierError::Memory) => Err(AllocError),
        Err(_) => Ok(None),
    }
}
