//! Specifier sets from their texts.

ghost use Rattle.std.specs.Prelude.{◌≡◌, List, ◌∷◌, ◌++◌, [], IfOk, IsErrOf, MatchBool, true};
ghost use Rattle.std.specs.Prelude.{false};
ghost use Rattle.pytext.specs.Agreement.{Gives};
ghost use Rattle.pyver_core.specs.Version.Grammar.{has_large};
ghost use Rattle.pyver_core.specs.Parsed.{parsed_set};
ghost use Rattle.pyver_core.specs.Set.Grammar.{IsLargeSet, SetText, specifier_numbers};
ghost use Rattle.pyver_core.specs.Inner.SpecifierDraft.{draft_specifier};
ghost use Rattle.pyver_core.specs.declared.set.specifier.Specifier.{Specifier};

use super::normal::set_text;
use super::reading::{SpecifierDraft, read_normal_operand, read_operand};
use crate::set::{Operator, Specifier, SpecifierError, SpecifierSet};
use crate::version::VersionError;
use pytext::{after_white, is_blank};
use std::alloc::{AllocError, Global};

impl SpecifierSet {
    /// The set that the text writes (PEP 440, "Version specifiers"): specifiers with commas between
    /// them, in any of the forms of their operators and versions.
    ///
    /// White space (TAB, LF, VT, FF, CR, space) may stand round each operator and operand, and
    /// pieces of white space alone are passed over. `NumberTooLarge` is answered only to a text
    /// that follows the grammar as a whole, so `Syntax` comes first. A set takes memory for its
    /// specifiers and its normal form.
    pub fn parse(alloc: Global, text: &str) -> Result<SpecifierSet, SpecifierError>
        ensures ok { IfOk result (λ set. SetText text.now set) }
        ensures fits { IfOk result (λ set. IsLargeSet set → ⊥) }

        ensures syntax { IsErrOf result SpecifierError.Syntax
            → (s : List Specifier) → SetText text.now s → ⊥ }
        ensures large { IsErrOf result SpecifierError.NumberTooLarge
            → (s : List Specifier) × SetText text.now s × IsLargeSet s }

        // The same, over the one answer of the grammar.
        ensures exact { Gives SpecifierError.Memory (λ set. set) result (parsed_set text.now) }
    {
        set_from_text(alloc, text)
    }
}

fn set_from_text(alloc: Global, text: &str) -> Result<SpecifierSet, SpecifierError>
    ensures { Gives SpecifierError.Memory (λ set. set) result (parsed_set text.now) }
{
    let items = read_items(alloc, text)?;
    let normal = set_text(alloc, &items)?;
    let is_normal = normal.as_str() == text;
    Ok(SpecifierSet {
        items,
        text: normal,
        is_normal,
    })
}

/// The specifiers of a set. A number past the limit is answered only once the whole text was read.
fn read_items(alloc: Global, text: &str) -> Result<Vec<Specifier>, SpecifierError>
    ensures { Gives SpecifierError.Memory (λ items. items.items) result (parsed_set text.now) }
{
    let mut items = Vec::new(alloc);
    let mut is_large = false;
    for piece in text.split(',') {
        if is_blank(piece.as_bytes()) {
            continue;
        }
        let Some((operator, operand)) = Operator::read(after_white(piece)) else {
            return Err(SpecifierError::Syntax);
        };
        if let Some(specifier) = read_normal_operand(alloc, operator, operand)? {
            items.push(specifier)?;
            continue;
        }
        let Some(draft) = read_operand(operator, operand) else {
            return Err(SpecifierError::Syntax);
        };
        let is_within = push_within_limit(alloc, &mut items, &draft)?;
        if !is_within {
            is_large = true;
        }
    }
    if is_large {
        return Err(SpecifierError::NumberTooLarge);
    }
    Ok(items)
}

/// Puts the specifier after the others and answers true, or answers false where one of its numbers
/// is past the limit.
fn push_within_limit(
    alloc: Global,
    items: &mut Vec<Specifier>,
    draft: &SpecifierDraft<'_>,
) -> Result<bool, AllocError>
    ensures { IfOk result (λ is_within. MatchBool is_within
        ((items.new.items ≡ items.old.items ++ draft_specifier draft.now ∷ [])
        × (has_large (specifier_numbers (draft_specifier draft.now)) ≡ false))
        (has_large (specifier_numbers (draft_specifier draft.now)) ≡ true)) }
{
    match draft.to_specifier(alloc) {
        Ok(specifier) => {
            items.push(specifier)?;
            Ok(true)
        }
        Err(VersionError::NumberTooLarge) => Ok(false),
        Err(VersionError::Syntax | VersionError::Memory) => Err(AllocError),
    }
}
