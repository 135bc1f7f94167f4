//! Specifiers and what they are made of (PEP 440, "Version specifiers").

ghost use Rattle.std.specs.Prelude.{◌≡◌, nat_eq};
ghost use Rattle.std.specs.Cmp.{partial_equiv_from_equiv};
ghost use Rattle.std.specs.Cmp.Lexicographic.{pointwise};
ghost use Rattle.pyver_core.specs.Inner.EqualityLaws.{specifier_equivalence};
ghost use Rattle.pyver_core.specs.Inner.Operand.{lent_pieces, lent_text};
ghost use Rattle.pyver_core.specs.Set.Equality.{operand_pieces, specifier_eq};
ghost use Rattle.pyver_core.specs.Set.Normal.{operand_text, operator_of, operator_text};

use crate::version::Version;
use pytext::Text;
use std::alloc::AllocError;
use std::marker::Model;

/// The operator of a specifier.
#[derive(Clone, Copy, PartialEq, Eq, Hash, Debug)]
pub enum Operator {
    /// `==`
    Equal,
    /// `!=`
    NotEqual,
    /// `<=`
    AtMost,
    /// `>=`
    AtLeast,
    /// `<`
    Before,
    /// `>`
    After,
    /// `~=`
    Compatible,
    /// `===`
    Arbitrary,
}

/// What `==R.*` and `!=R.*` name: an epoch, and the numbers that a release begins with.
pub struct ReleasePrefix {
    epoch: u128,
    release: Vec<u128>,
}

impl Model for ReleasePrefix {
    ghost use Rattle.pyver_core.specs.Set.Prefix.{Prefix};

    ghost Value = { Prefix };

    ghost view = { λ a. record { epoch = a.epoch; release = a.release.items } };
}

/// An operator with its operand.
#[derive(Drop)]
pub enum Specifier {
    /// `==V`: the version itself, with any local part where V has none.
    Equal(Version),
    /// `==R.*`: the versions whose release begins with R.
    EqualPrefix(ReleasePrefix),
    /// `!=V`: the versions that `==V` doesn't admit.
    NotEqual(Version),
    /// `!=R.*`: the versions that `==R.*` doesn't admit.
    NotEqualPrefix(ReleasePrefix),
    /// `<=V`: the versions up to V, local parts ignored.
    AtMost(Version),
    /// `>=V`: the versions from V on, local parts ignored.
    AtLeast(Version),
    /// `<V`: the versions before V, but for the pre-releases of V where V is none.
    Before(Version),
    /// `>V`: the versions after V, but for the post-releases of V where V is none, and V with a
    /// local part.
    After(Version),
    /// `~=V`: the versions from V on whose release begins with that of V without its last number.
    Compatible(Version),
    /// `===T`: the version whose normal form is T, letter case ignored.
    Arbitrary(Text),
}

/// What stands after an operator, lent to be compared or written.
#[derive(Clone, Copy)]
pub(crate) enum Operand<'a> {
    /// The normal form of a version, or a text as it is.
    Text(&'a str),
    /// `R.*`
    Prefix(&'a ReleasePrefix),
}

impl ReleasePrefix {
    pub(crate) fn new(epoch: u128, release: Vec<u128>) -> ReleasePrefix
        ensures { result ≡ record { epoch = epoch; release = release.items } }
    {
        ReleasePrefix { epoch, release }
    }

    /// The epoch, 0 where none is written.
    pub fn epoch(&self) -> u128
        ensures { result ≡ self.now.epoch }
    {
        self.epoch
    }

    /// The numbers.
    pub fn release(&self) -> &[u128]
        ensures { result.now ≡ self.now.release }
    {
        &self.release
    }
}

impl Operator {
    /// The operator as it is written.
    pub fn as_str(self) -> &'static str
        ensures { result.now ≡ operator_text self }
    {
        match self {
            Operator::Equal => "==",
            Operator::NotEqual => "!=",
            Operator::AtMost => "<=",
            Operator::AtLeast => ">=",
            Operator::Before => "<",
            Operator::After => ">",
            Operator::Compatible => "~=",
            Operator::Arbitrary => "===",
        }
    }
}

impl Specifier {
    /// The operator.
    pub fn operator(&self) -> Operator
        ensures { result ≡ operator_of self.now }
    {
        match self {
            Specifier::Equal(_) | Specifier::EqualPrefix(_) => Operator::Equal,
            Specifier::NotEqual(_) | Specifier::NotEqualPrefix(_) => Operator::NotEqual,
            Specifier::AtMost(_) => Operator::AtMost,
            Specifier::AtLeast(_) => Operator::AtLeast,
            Specifier::Before(_) => Operator::Before,
            Specifier::After(_) => Operator::After,
            Specifier::Compatible(_) => Operator::Compatible,
            Specifier::Arbitrary(_) => Operator::Arbitrary,
        }
    }

    /// The operand, lent.
    pub(crate) fn operand(&self) -> Operand<'_>
        ensures pieces { lent_pieces result ≡ operand_pieces self.now }
        ensures text { lent_text result ≡ operand_text self.now }
    {
        match self {
            Specifier::EqualPrefix(prefix) | Specifier::NotEqualPrefix(prefix) => {
                Operand::Prefix(prefix)
            }
            Specifier::Equal(version)
            | Specifier::NotEqual(version)
            | Specifier::AtMost(version)
            | Specifier::AtLeast(version)
            | Specifier::Before(version)
            | Specifier::After(version)
            | Specifier::Compatible(version) => Operand::Text(version.text()),
            Specifier::Arbitrary(text) => Operand::Text(text.as_str()),
        }
    }
}

impl Drop for ReleasePrefix {
    fn drop(self) {
        let ReleasePrefix {
            epoch: _,
            release: _,
        } = self;
    }
}

/// A copy takes memory for the numbers.
impl Clone for ReleasePrefix {
    ghost is_clone = { λ prefix copy. copy ≡ prefix };

    fn clone(&self) -> Result<ReleasePrefix, AllocError> {
        Ok(ReleasePrefix {
            epoch: self.epoch,
            release: self.release.clone()?,
        })
    }
}

/// A copy takes memory for the operand.
impl Clone for Specifier {
    ghost is_clone = { λ specifier copy. copy ≡ specifier };

    fn clone(&self) -> Result<Specifier, AllocError> {
        Ok(match self {
            Specifier::Equal(version) => Specifier::Equal(version.clone()?),
            Specifier::EqualPrefix(prefix) => Specifier::EqualPrefix(prefix.clone()?),
            Specifier::NotEqual(version) => Specifier::NotEqual(version.clone()?),
            Specifier::NotEqualPrefix(prefix) => Specifier::NotEqualPrefix(prefix.clone()?),
            Specifier::AtMost(version) => Specifier::AtMost(version.clone()?),
            Specifier::AtLeast(version) => Specifier::AtLeast(version.clone()?),
            Specifier::Before(version) => Specifier::Before(version.clone()?),
            Specifier::After(version) => Specifier::After(version.clone()?),
            Specifier::Compatible(version) => Specifier::Compatible(version.clone()?),
            Specifier::Arbitrary(text) => Specifier::Arbitrary(text.clone()?),
        })
    }
}

/// Whether two operands are equal as they are written.
fn is_same_operand(left: &Operand<'_>, right: &Operand<'_>) -> bool
    ensures { result ≡ pointwise (pointwise nat_eq) (lent_pieces left.now) (lent_pieces right.now) }
{
    match (left, right) {
        (Operand::Text(left), Operand::Text(right)) => left == right,
        (Operand::Prefix(left), Operand::Prefix(right)) => {
            left.epoch == right.epoch && left.release == right.release
        }
        (Operand::Text(_), Operand::Prefix(_)) | (Operand::Prefix(_), Operand::Text(_)) => false,
    }
}

/// Equal as they are written: the same operator, and the same normal form of the operand. So
/// `>=1.0` isn't `>=1`, though both admit the same versions. It takes no memory.
impl PartialEq for Specifier {
    ghost eq = { specifier_eq };

    ghost laws = { partial_equiv_from_equiv specifier_equivalence };

    fn eq(&self, other: &Specifier) -> bool {
        self.operator().as_str() == other.operator().as_str()
            && is_same_operand(&self.operand(), &other.operand())
    }
}

impl Eq for Specifier {
    ghost laws = { specifier_equivalence };
}
