//! What becomes of an entry.

use crate::answer::{FaultCode, PickSource};
use crate::edit::Policy;

/// What becomes of an entry, judged for itself (PEP 751, "Installation", steps 5 and 6). The first
/// that holds is the entry's.
#[derive(Clone, Copy, Debug, PartialEq, Eq)]
pub enum Fate {
    /// Its marker is false: it isn't installed.
    Skipped,
    /// Its marker or its Python check has this fault.
    Faulty(FaultCode),
    /// The entry of this number, an earlier one, has the same name and is to be installed too.
    Ambiguous(u32),
    /// It has sources of more than one kind.
    Sources,
    /// It has no source to install from under this policy of its name.
    NoFile(Policy),
    /// It is installed from this source.
    Picked(PickSource),
}
