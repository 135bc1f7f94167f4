//! Specifiers whose version stands in its text in normal form, as nearly each does. It stands
//! beside `read_operand`, which reads every text; both give `operand_of` of it.

ghost use Rattle.std.specs.Prelude.{◌≡◌, IfOk, IfSome, Some, false};
ghost use Rattle.pyver_core.specs.Inner.NormalOperand.{least_numbers, with_version};
ghost use Rattle.pyver_core.specs.Set.Grammar.{specifier_numbers};
ghost use Rattle.pyver_core.specs.Set.Reading.{operand_of};
ghost use Rattle.pyver_core.specs.Version.Grammar.{has_large};

use crate::set::{Operator, Specifier};
use crate::version::Version;
use pytext::after_white;
use std::alloc::{AllocError, Global};

/// How many numbers the release of a version has at least behind this operator, where a version
/// stands there.
fn least_numbers(operator: Operator) -> Option<usize>
    ensures { result ≡ least_numbers operator }
{
    match operator {
        Operator::Equal
        | Operator::NotEqual
        | Operator::AtMost
        | Operator::AtLeast
        | Operator::Before
        | Operator::After => Some(1),
        Operator::Compatible => Some(2),
        Operator::Arbitrary => None,
    }
}

/// The specifier with this operator and version.
fn with_version(operator: Operator, version: Version) -> Option<Specifier>
    ensures { result ≡ with_version operator version }
{
    Some(match operator {
        Operator::Equal => Specifier::Equal(version),
        Operator::NotEqual => Specifier::NotEqual(version),
        Operator::AtMost => Specifier::AtMost(version),
        Operator::AtLeast => Specifier::AtLeast(version),
        Operator::Before => Specifier::Before(version),
        Operator::After => Specifier::After(version),
        Operator::Compatible => Specifier::Compatible(version),
        Operator::Arbitrary => return None,
    })
}

/// The specifier with this operator, where the text of the operand is the normal form of a version
/// behind white space or none. There may be a specifier where this finds none; then it takes no
/// memory.
pub(crate) fn read_normal_operand(
    alloc: Global,
    operator: Operator,
    text: &str,
) -> Result<Option<Specifier>, AllocError>
    ensures { IfOk result (λ found. IfSome found (λ s. (operand_of operator text.now ≡ Some s)
        × (has_large (specifier_numbers s) ≡ false))) }
{
    let Some(least) = least_numbers(operator) else {
        return Ok(None);
    };
    match Version::parse_normal(alloc, after_white(text), least)? {
        Some(version) => Ok(with_version(operator, version)),
        None => Ok(None),
    }
}
