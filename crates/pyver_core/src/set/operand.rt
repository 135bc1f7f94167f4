//! Specifiers from their texts, and from an operator and the text of an operand.

ghost use Rattle.std.specs.Prelude.{◌≡◌, IfOk, IsErrOf, IsTrue};
ghost use Rattle.pytext.specs.Agreement.{Gives};
ghost use Rattle.pyver_core.specs.Version.Grammar.{has_large};
ghost use Rattle.pyver_core.specs.Parsed.{parsed_operand, parsed_specifier};
ghost use Rattle.pyver_core.specs.Set.Grammar.{IsOperand, IsSpecifier, specifier_numbers};
ghost use Rattle.pyver_core.specs.Set.Normal.{operator_of};
ghost use Rattle.pyver_core.specs.declared.set.specifier.Specifier.{Specifier};

use super::reading::{read_normal_operand, read_operand};
use crate::set::{Operator, Specifier, SpecifierError};
use crate::version::VersionError;
use pytext::after_white;
use std::alloc::Global;

impl Specifier {
    /// The specifier that the text writes, such as `>=1.0` (PEP 440, "Version specifiers"): an
    /// operator, which is the longest that stands there, and its operand.
    ///
    /// White space (TAB, LF, VT, FF, CR, space) may stand round each of them. A text with a comma
    /// is no specifier, and neither is one of white space alone: both are refused as `Syntax`.
    /// `NumberTooLarge` is answered only to a text that follows the grammar, so `Syntax` comes
    /// first. A refusal as `Syntax` takes no memory; a specifier takes that of its operand.
    pub fn parse(alloc: Global, text: &str) -> Result<Specifier, SpecifierError>
        ensures ok { IfOk result (λ s. IsSpecifier text.now s) }
        ensures fits { IfOk result (λ s. IsTrue (has_large (specifier_numbers s)) → ⊥) }

        ensures syntax { IsErrOf result SpecifierError.Syntax
            → (s : Specifier) → IsSpecifier text.now s → ⊥ }
        ensures large { IsErrOf result SpecifierError.NumberTooLarge
            → (s : Specifier) × IsSpecifier text.now s
            × IsTrue (has_large (specifier_numbers s)) }

        // The same, over the one answer of the grammar.
        ensures exact { Gives SpecifierError.Memory (λ s. s) result (parsed_specifier text.now) }
    {
        specifier_from_text(alloc, text)
    }

    /// The specifier with this operator and operand (PEP 440, "Version specifiers").
    ///
    /// White space (TAB, LF, VT, FF, CR, space) may stand round the operand. `NumberTooLarge` is
    /// answered only to an operand that follows the grammar, so `Syntax` comes first. A refusal as
    /// `Syntax` takes no memory.
    pub fn new(
        alloc: Global,
        operator: Operator,
        operand: &str,
    ) -> Result<Specifier, SpecifierError>
        ensures ok { IfOk result (λ s. (operator_of s ≡ operator) × IsOperand operand.now s) }
        ensures fits { IfOk result (λ s. IsTrue (has_large (specifier_numbers s)) → ⊥) }

        ensures syntax { IsErrOf result SpecifierError.Syntax
            → (s : Specifier) → operator_of s ≡ operator → IsOperand operand.now s → ⊥ }
        ensures large { IsErrOf result SpecifierError.NumberTooLarge
            → (s : Specifier) × (operator_of s ≡ operator) × IsOperand operand.now s
            × IsTrue (has_large (specifier_numbers s)) }

        // The same, over the one answer of the grammar.
        ensures exact { Gives SpecifierError.Memory (λ s. s) result
            (parsed_operand operator operand.now) }
    {
        specifier_from_operand(alloc, operator, operand)
    }
}

fn specifier_from_text(alloc: Global, text: &str) -> Result<Specifier, SpecifierError>
    ensures { Gives SpecifierError.Memory (λ s. s) result (parsed_specifier text.now) }
{
    let Some((operator, operand)) = Operator::read(after_white(text)) else {
        return Err(SpecifierError::Syntax);
    };
    specifier_from_operand(alloc, operator, operand)
}

#[tactic(auto, unfolding(crate::specs::Parsed::parsed_operand))]
fn specifier_from_operand(
    alloc: Global,
    operator: Operator,
    operand: &str,
) -> Result<Specifier, SpecifierError>
    ensures { Gives SpecifierError.Memory (λ s. s) result (parsed_operand operator operand.now) }
{
    if let Some(specifier) = read_normal_operand(alloc, operator, operand)? {
        return Ok(specifier);
    }
    let Some(draft) = read_operand(operator, operand) else {
        return Err(SpecifierError::Syntax);
    };
    match draft.to_specifier(alloc) {
        Ok(specifier) => Ok(specifier),
        Err(VersionError::NumberTooLarge) => Err(SpecifierError::NumberTooLarge),
        Err(VersionError::Syntax | VersionError::Memory) => Err(SpecifierError::Memory),
    }
}
