//! Specifiers that are seen to admit the same versions.

ghost use Rattle.std.specs.Prelude.{◌≡◌, IsTrue};
ghost use Rattle.pyver_core.specs.Set.Admission.{admits, admits_all};
ghost use Rattle.pyver_core.specs.Version.Order.{IsSame};
ghost use Rattle.pyver_core.specs.Version.Parts.{Parts};

use pyver_core::{Specifier, Version};

/// Whether one of the specifiers is seen to admit the same versions as this one. `false` says
/// nothing.
pub(crate) fn is_among(specifier: &Specifier, specifiers: &[Specifier]) -> bool
    ensures { IsTrue result → (v : Parts) → IsTrue (admits_all specifiers.now v)
        → IsTrue (admits specifier.now v) }
{
    for other in specifiers {
        if are_alike(other, specifier) {
            return true;
        }
    }
    false
}

/// Whether the specifiers have one operator and operands of which no comparison tells one from the
/// other. The operators are those of which limits don't tell all.
fn are_alike(left: &Specifier, right: &Specifier) -> bool
    ensures { IsTrue result → (v : Parts) → admits left.now v ≡ admits right.now v }
{
    match (left, right) {
        (Specifier::Equal(left), Specifier::Equal(right)) => are_same(left, right),
        (Specifier::NotEqual(left), Specifier::NotEqual(right)) => are_same(left, right),
        (Specifier::Before(left), Specifier::Before(right)) => are_same(left, right),
        (Specifier::After(left), Specifier::After(right)) => are_same(left, right),
        (Specifier::Arbitrary(left), Specifier::Arbitrary(right)) => {
            left.as_str() == right.as_str()
        }
        _ => false,
    }
}

fn are_same(left: &Version, right: &Version) -> bool
    ensures { IsTrue result → IsSame left.now right.now }
{
    left.cmp(right).is_eq()
}
