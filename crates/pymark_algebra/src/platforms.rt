//! Whether the literals of a clause hold together on any platform.

ghost use Rattle.std.specs.Prelude.{◌≡◌, IfOk, IfSome, IsTrue, false};
ghost use Rattle.pymark_algebra.specs.Refuted.{IsNeverOn, IsRefuted, IsRefutedOn, IsVariableOf};

use crate::platform::Platform;
use crate::text::{can_hold_at, told_text};
use pymark_clauses::Literal;
use pymark_core::{Comparison, Var};
use std::alloc::{AllocError, Global};

/// Whether on no platform all literals hold, by the texts of its three variables.
pub(crate) fn is_refuted(alloc: Global, clause: &[Literal<'_>]) -> Result<bool, AllocError>
    ensures { IfOk result (λ is. IsTrue is → IsRefuted clause.now) }
{
    if !is_refuted_on(alloc, Platform::Linux, clause)? {
        return Ok(false);
    }
    if !is_refuted_on(alloc, Platform::MacOs, clause)? {
        return Ok(false);
    }
    if !is_refuted_on(alloc, Platform::Windows, clause)? {
        return Ok(false);
    }
    is_refuted_on(alloc, Platform::Other, clause)
}

/// Whether some literal can't hold on the platform.
pub(crate) fn is_refuted_on(
    alloc: Global,
    platform: Platform,
    clause: &[Literal<'_>],
) -> Result<bool, AllocError>
    ensures { IfOk result (λ is. IsTrue is → IsRefutedOn platform clause.now) }
{
    for literal in clause {
        if !can_hold_on(alloc, platform, literal)? {
            return Ok(true);
        }
    }
    Ok(false)
}

/// Whether the literal can hold on the platform.
fn can_hold_on(alloc: Global, platform: Platform, literal: &Literal<'_>) -> Result<bool, AllocError>
    ensures { IfOk result (λ can. can ≡ false → IsNeverOn platform literal.now) }
{
    if !agrees_with_known(platform, literal) {
        return Ok(false);
    }
    agrees_with_told(alloc, platform, literal)
}

/// Whether the literal can hold at the text that its variable has on the platform.
fn agrees_with_known(platform: Platform, literal: &Literal<'_>) -> bool
    ensures { result ≡ false → IsNeverOn platform literal.now }
{
    let Some(variable) = variable_of(literal.comparison) else {
        return true;
    };
    match platform.known_text(variable) {
        Some(text) => can_hold_at(literal, variable, text),
        None => true,
    }
}

/// Whether the platform may have the text that the literal tells of a variable.
fn agrees_with_told(
    alloc: Global,
    platform: Platform,
    literal: &Literal<'_>,
) -> Result<bool, AllocError>
    ensures { IfOk result (λ can. can ≡ false → IsNeverOn platform literal.now) }
{
    let Some(told) = told_text(alloc, literal)? else {
        return Ok(true);
    };
    Ok(platform.may_have(told.variable, told.text))
}

/// The variable of the comparison, if it has one.
fn variable_of(comparison: &Comparison) -> Option<Var>
    ensures { IfSome result (λ variable. IsVariableOf variable comparison.now) }
{
    match comparison.left_variable() {
        Some(variable) => Some(variable),
        None => comparison.right_variable(),
    }
}
