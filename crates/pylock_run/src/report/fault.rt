//! Why a run ends before its report.

ghost use Rattle.std.specs.Prelude.{◌≡◌};
ghost use Rattle.pylock_run.specs.declared.report.fault.RunFault.TheVariants.{Memory};

use std::alloc::AllocError;

/// Why a run ends before its report is written; the first that is met.
#[derive(Clone, Copy, Debug, PartialEq, Eq)]
pub enum RunFault {
    /// A read of the input failed.
    Read,
    /// A write failed, or took nothing.
    Write,
    /// The input has more than 1,000,000 lines or more than 268,435,456 bytes.
    Input,
    /// An allocation was refused.
    Memory,
}

impl From<AllocError> for RunFault {
    ghost from_gives = { λ _ fault. fault ≡ Memory };

    fn from(_refused: AllocError) -> RunFault {
        RunFault::Memory
    }
}
