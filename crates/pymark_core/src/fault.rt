//! Why a marker has no value.

ghost use Rattle.std.specs.Prelude.{◌≡◌};
ghost use Rattle.pymark_core.specs.declared.fault.EvalFault.TheVariants.{Memory};

use crate::variable::Var;
use std::alloc::AllocError;

/// Why a marker is neither true nor false in an environment (PEP 508, "Environment Markers").
#[derive(Clone, Copy, PartialEq, Eq, Debug)]
pub enum EvalFault {
    /// The marker reads a variable that has no text.
    Unset(Var),
    /// The marker reads `extra`, which has no text in a lock.
    Extra,
    /// `~=` or `===` stands between texts that it can't compare, or an operator other than `==`,
    /// `!=`, `in` and `not in` beside an `extra` that has a text.
    Undefined,
    /// A version with a number past [`u128::MAX`] is compared.
    NumberTooLarge,
    /// There was no memory to judge the marker.
    Memory,
}

impl<E: Into<AllocError> + Drop> From<E> for EvalFault {
    ghost from_gives = { λ _ e. e ≡ Memory };

    fn from(_refused: E) -> EvalFault {
        EvalFault::Memory
    }
}
