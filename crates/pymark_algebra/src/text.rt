//! What a literal says of the text of a variable.

ghost use Rattle.std.specs.Prelude.{◌≡◌, None, Ok, Some, IfOk, IfSome, IsTrue, false};
ghost use Rattle.pymark_core.specs.Marker.Asked.{operand_variable};
ghost use Rattle.pyver_core.specs.Set.Reading.{operand_of};
ghost use Rattle.pyver_core.specs.Version.Reading.{version_of};
ghost use Rattle.pymark_core.specs.Marker.Value.{is_substring, texts_value};
ghost use Rattle.pymark_algebra.specs.Literals.{HasAt, IsAgainstQuoted, IsNeverAt, IsOfQuoted};
ghost use Rattle.pymark_algebra.specs.Literals.{IsEquation, IsTold};

use pymark_clauses::Literal;
use pymark_core::{Comparator, Comparison, Var};
use pyver_core::{Operator, Specifier, SpecifierError};
use std::alloc::{AllocError, Global};

/// Whether the first text stands somewhere in the second.
pub(crate) fn stands_in(part: &str, whole: &str) -> bool
    ensures { result ≡ is_substring part.now whole.now }
{
    whole.contains(part)
}

/// The value of the texts by an operator, by their code points, unless that is a fault.
pub(crate) fn value_of_texts(operator: Operator, left: &str, right: &str) -> Option<bool>
    ensures { IfSome result (λ value. texts_value operator left.now right.now ≡ Ok value) }
{
    match operator {
        Operator::Equal => Some(left == right),
        Operator::NotEqual => Some(left != right),
        Operator::AtMost => Some(left <= right),
        Operator::AtLeast => Some(left >= right),
        Operator::Before => Some(left < right),
        Operator::After => Some(left > right),
        Operator::Compatible | Operator::Arbitrary => None,
    }
}

/// The value of a text that spells no version against a quoted one.
fn value_against_quoted(text: &str, comparator: Comparator, right: &str) -> Option<bool>
    requires { version_of text.now ≡ None }
    ensures { IfSome result (λ value. IsAgainstQuoted text.now comparator right.now value) }
{
    match comparator {
        Comparator::By(operator) => value_of_texts(operator, text, right),
        Comparator::In => Some(stands_in(text, right)),
        Comparator::NotIn => Some(!stands_in(text, right)),
    }
}

/// The value of a quoted text against a variable that has this text.
fn value_of_quoted(left: &str, comparator: Comparator, text: &str) -> Option<bool>
    ensures { IfSome result (λ value. IsOfQuoted left.now comparator text.now value) }
{
    match comparator {
        Comparator::By(_) => None,
        Comparator::In => Some(stands_in(left, text)),
        Comparator::NotIn => Some(!stands_in(left, text)),
    }
}

/// The value of the comparison wherever the variable has this text, which spells no version; none
/// where it isn't known.
fn value_at(comparison: &Comparison, variable: Var, text: &str) -> Option<bool>
    requires { version_of text.now ≡ None }
    ensures { IfSome result (λ value. HasAt variable text.now comparison.now value) }
{
    if is_left(comparison, variable) {
        value_left(comparison, variable, text)
    } else if is_right(comparison, variable) {
        value_right(comparison, variable, text)
    } else {
        None
    }
}

/// Whether the variable stands left of the operator.
fn is_left(comparison: &Comparison, variable: Var) -> bool
    ensures { IsTrue result → operand_variable comparison.now.left ≡ Some variable }
{
    comparison.left_variable() == Some(variable)
}

/// Whether the variable stands right of the operator.
fn is_right(comparison: &Comparison, variable: Var) -> bool
    ensures { IsTrue result → operand_variable comparison.now.right ≡ Some variable }
{
    comparison.right_variable() == Some(variable)
}

/// The value where the variable stands on the left.
fn value_left(comparison: &Comparison, variable: Var, text: &str) -> Option<bool>
    requires left { operand_variable comparison.now.left ≡ Some variable }
    requires spells { version_of text.now ≡ None }
    ensures { IfSome result (λ value. HasAt variable text.now comparison.now value) }
{
    let right = comparison.right_text()?;
    value_against_quoted(text, comparison.comparator(), right)
}

/// The value where the variable stands on the right.
fn value_right(comparison: &Comparison, variable: Var, text: &str) -> Option<bool>
    requires { operand_variable comparison.now.right ≡ Some variable }
    ensures { IfSome result (λ value. HasAt variable text.now comparison.now value) }
{
    let left = comparison.left_text()?;
    value_of_quoted(left, comparison.comparator(), text)
}

/// Whether the literal can hold where the variable has this text, which spells no version.
pub(crate) fn can_hold_at(literal: &Literal<'_>, variable: Var, text: &str) -> bool
    requires { version_of text.now ≡ None }
    ensures { result ≡ false → IsNeverAt variable text.now literal.now }
{
    match value_at(literal.comparison, variable, text) {
        Some(value) => value == literal.wanted,
        None => true,
    }
}

/// The variable that a literal gives a text, which spells no version.
#[derive(Clone, Copy)]
pub(crate) struct Told<'a> {
    pub(crate) variable: Var,
    pub(crate) text: &'a str,
}

/// The text that a variable has wherever the literal holds, if the literal tells one. It takes
/// memory only where the text reads as a version.
pub(crate) fn told_text<'a>(
    alloc: Global,
    literal: &Literal<'a>,
) -> Result<Option<Told<'a>>, AllocError>
    ensures { IfOk result (λ found. IfSome found (λ told. IsTold told literal.now)) }
{
    let comparison = literal.comparison;
    let Comparator::By(operator) = comparison.comparator() else {
        return Ok(None);
    };
    let Some(variable) = comparison.left_variable() else {
        return Ok(None);
    };
    let Some(text) = comparison.right_text() else {
        return Ok(None);
    };
    if !is_equation(operator, literal.wanted) || !reads_nothing(alloc, operator, text)? {
        return Ok(None);
    }
    Ok(Some(Told { variable, text }))
}

/// Whether texts are the same that have this value by the operator.
fn is_equation(operator: Operator, wanted: bool) -> bool
    ensures { IsTrue result → IsEquation operator wanted }
{
    match operator {
        Operator::Equal => wanted,
        Operator::NotEqual => !wanted,
        _ => false,
    }
}

/// Whether the operator reads no operand in the text, so that texts are compared.
fn reads_nothing(alloc: Global, operator: Operator, text: &str) -> Result<bool, AllocError>
    ensures { IfOk result (λ is. IsTrue is → operand_of operator text.now ≡ None) }
{
    match Specifier::new(alloc, operator, text) {
        Err(SpecifierError::Syntax) => Ok(true),
        Err(SpecifierError::Memory) => Err(AllocError),
        Ok(_) | Err(SpecifierError::NumberTooLarge) => Ok(false),
    }
}
