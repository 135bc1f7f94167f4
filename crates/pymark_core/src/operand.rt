//! What a comparison of a marker is made of (PEP 508, "Environment Markers").

ghost use Rattle.std.specs.Prelude.{◌≡◌};
ghost use Rattle.std.specs.Option.{option_copied};
ghost use Rattle.pymark_core.specs.Marker.Pieces.{operand_word};

use crate::variable::Var;
use pytext::Text;
use pyver_core::Operator;

/// What stands left or right of a comparison's operator.
#[derive(Debug, Drop)]
pub enum Operand {
    /// A quoted text.
    Text(Text),
    /// A variable of the environment.
    Variable(Var),
    /// `extra`: the extra that a package's metadata is read for. In a lock it has no text.
    Extra,
    /// `extras`: the set of the extras that are asked for.
    Extras,
    /// `dependency_groups`: the set of the groups that are asked for.
    Groups,
}

impl Operand {
    /// The word that it is, if it is no quoted text.
    pub(crate) fn word(&self) -> Option<&'static str>
        ensures { option_copied result ≡ operand_word self.now }
    {
        match self {
            Operand::Text(_) => None,
            Operand::Variable(variable) => Some(variable.name()),
            Operand::Extra => Some("extra"),
            Operand::Extras => Some("extras"),
            Operand::Groups => Some("dependency_groups"),
        }
    }
}

/// The operator of a comparison.
#[derive(Clone, Copy, PartialEq, Eq, Debug)]
pub enum Comparator {
    /// An operator of specifiers (PEP 440).
    By(Operator),
    /// `in`
    In,
    /// `not in`
    NotIn,
}
