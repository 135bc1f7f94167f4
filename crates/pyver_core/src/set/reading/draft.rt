//! A specifier as it stands in its text.

ghost use Rattle.std.specs.Prelude.{◌≡◌, ◌∷◌, IfOk, option_map};
ghost use Rattle.pyver_core.specs.Inner.Limit.{Makes};
ghost use Rattle.pyver_core.specs.Set.Grammar.{specifier_numbers};
ghost use Rattle.pyver_core.specs.Set.Reading.{operand_of};
ghost use Rattle.pyver_core.specs.Inner.SpecifierDraft.{base_prefix, draft_specifier};

use super::operand::{
    read_arbitrary_text, read_compatible_version, read_prefix, read_public_version,
};
use crate::set::{Operator, ReleasePrefix, Specifier};
use crate::version::VersionError;
use crate::version::reading::{Base, VersionDraft, read_version};
use pytext::Text;
use std::alloc::Global;

/// A specifier as it stands in its text. It holds no memory.
#[derive(Drop)]
pub(crate) enum SpecifierDraft<'a> {
    Equal(VersionDraft<'a>),
    EqualPrefix(Base<'a>),
    NotEqual(VersionDraft<'a>),
    NotEqualPrefix(Base<'a>),
    AtMost(VersionDraft<'a>),
    AtLeast(VersionDraft<'a>),
    Before(VersionDraft<'a>),
    After(VersionDraft<'a>),
    Compatible(VersionDraft<'a>),
    Arbitrary(&'a str),
}

impl SpecifierDraft<'_> {
    /// The specifier in memory of its own.
    pub(crate) fn to_specifier(&self, alloc: Global) -> Result<Specifier, VersionError>
        ensures { Makes (λ s. s) result (draft_specifier self.now)
            (specifier_numbers (draft_specifier self.now)) }
    {
        Ok(match self {
            SpecifierDraft::Equal(draft) => Specifier::Equal(draft.to_version(alloc)?),
            SpecifierDraft::EqualPrefix(base) => Specifier::EqualPrefix(to_prefix(base, alloc)?),
            SpecifierDraft::NotEqual(draft) => Specifier::NotEqual(draft.to_version(alloc)?),
            SpecifierDraft::NotEqualPrefix(base) => {
                Specifier::NotEqualPrefix(to_prefix(base, alloc)?)
            }
            SpecifierDraft::AtMost(draft) => Specifier::AtMost(draft.to_version(alloc)?),
            SpecifierDraft::AtLeast(draft) => Specifier::AtLeast(draft.to_version(alloc)?),
            SpecifierDraft::Before(draft) => Specifier::Before(draft.to_version(alloc)?),
            SpecifierDraft::After(draft) => Specifier::After(draft.to_version(alloc)?),
            SpecifierDraft::Compatible(draft) => Specifier::Compatible(draft.to_version(alloc)?),
            SpecifierDraft::Arbitrary(text) => Specifier::Arbitrary(Text::copy_of(alloc, text)?),
        })
    }
}

/// An epoch and a release in memory of their own.
fn to_prefix(base: &Base<'_>, alloc: Global) -> Result<ReleasePrefix, VersionError>
    ensures { Makes (λ p. p) result (base_prefix base.now) (base.now.epoch ∷ base.now.release) }
{
    let epoch = base.epoch.number()?;
    let release = base.release.to_numbers(alloc)?;
    Ok(ReleasePrefix::new(epoch, release))
}

/// What stands after the operator, read in its terms.
#[tactic(auto, unfolding(crate::specs::Set::Reading::operand_of))]
pub(crate) fn read_operand(operator: Operator, text: &str) -> Option<SpecifierDraft<'_>>
    ensures { option_map draft_specifier result ≡ operand_of operator text.now }
{
    let bytes = text.as_bytes();
    Some(match operator {
        Operator::Equal => match read_prefix(bytes) {
            Some(base) => SpecifierDraft::EqualPrefix(base),
            None => SpecifierDraft::Equal(read_version(bytes)?),
        },
        Operator::NotEqual => match read_prefix(bytes) {
            Some(base) => SpecifierDraft::NotEqualPrefix(base),
            None => SpecifierDraft::NotEqual(read_version(bytes)?),
        },
        Operator::AtMost => SpecifierDraft::AtMost(read_public_version(bytes)?),
        Operator::AtLeast => SpecifierDraft::AtLeast(read_public_version(bytes)?),
        Operator::Before => SpecifierDraft::Before(read_public_version(bytes)?),
        Operator::After => SpecifierDraft::After(read_public_version(bytes)?),
        Operator::Compatible => SpecifierDraft::Compatible(read_compatible_version(bytes)?),
        Operator::Arbitrary => SpecifierDraft::Arbitrary(read_arbitrary_text(text)?),
    })
}
