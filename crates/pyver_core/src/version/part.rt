//! The parts of a version that are more than a number.

ghost use Rattle.std.specs.Prelude.{◌≡◌};

use pytext::Text;
use std::alloc::AllocError;

/// The letter of a pre-release, lowest first: `a`, `b` or `rc` (PEP 440, "Pre-releases").
#[derive(Clone, Copy, PartialEq, Eq, PartialOrd, Ord, Hash, Debug)]
pub enum PreKind {
    /// An alpha release.
    A,
    /// A beta release.
    B,
    /// A release candidate.
    Rc,
}

/// A segment of a local part, lowest first (PEP 440, "Local version identifiers").
#[derive(PartialEq, Eq, PartialOrd, Ord, Hash, Debug, Drop)]
pub enum LocalPart {
    /// A segment with a letter in it, in lower case.
    Text(Text),
    /// A segment of digits alone.
    Number(u128),
}

/// A copy takes memory for a text.
impl Clone for LocalPart {
    ghost is_clone = { λ part copy. copy ≡ part };

    fn clone(&self) -> Result<LocalPart, AllocError> {
        Ok(match self {
            LocalPart::Text(label) => LocalPart::Text(label.clone()?),
            LocalPart::Number(number) => LocalPart::Number(*number),
        })
    }
}
