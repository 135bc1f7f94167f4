//! The answer of the installation steps (PEP 751).
ghost use Rattle.std.specs.Prelude.{◌≡◌};

use pymark_core::EvalFault;
use std::marker::Model;

/// The source that an entry is installed from (PEP 751, installation step 6).
#[derive(Clone, Copy, Debug, PartialEq, Eq)]
pub enum PickSource {
    /// The entry's `vcs`.
    Vcs,
    /// The entry's `directory`.
    Directory,
    /// The entry's `archive`.
    Archive,
    /// One of the entry's `wheels`: its place among them, counted from 0.
    Wheel(usize),
    /// The entry's `sdist`.
    Sdist,
}

/// An entry of the plan: its number in the session, and the source to install it from.
#[derive(Clone, Copy, Debug, PartialEq, Eq)]
pub struct Pick {
    /// The entry's number.
    pub id: u32,
    /// The source.
    pub source: PickSource,
}

/// What is to be installed, in the order of the entries; made from a `Vec` and given back as one
/// without memory.
#[derive(Debug)]
pub struct Plan {
    picks: Vec<Pick>,
}

impl Model for Plan {
    ghost use Rattle.std.specs.Prelude.{List};
    ghost use Rattle.pylock_core.specs.declared.answer.Pick.{Pick};

    ghost Value = { List Pick };

    ghost view = { λ p. p.picks.items };
}

impl Drop for Plan {
    fn drop(self) {
        let Plan { picks: _ } = self;
    }
}

impl Plan {
    /// The plan of these picks.
    pub fn new(picks: Vec<Pick>) -> Plan
        ensures { result ≡ picks.items }
    {
        Plan { picks }
    }

    /// The picks of the plan.
    pub fn picks(&self) -> &[Pick]
        ensures { result.now ≡ self.now }
    {
        self.picks.as_slice()
    }

    /// Gives the picks back.
    pub fn into_vec(self) -> Vec<Pick>
        ensures { result.items ≡ self }
    {
        let Plan { picks } = self;
        picks
    }
}

/// Why the installation steps end without a plan (PEP 751).
#[derive(Clone, Copy, Debug, PartialEq, Eq)]
pub enum FaultCode {
    /// `python_full_version` is unset or no version.
    PythonUnknown,
    /// `requires-python` doesn't admit the version of Python.
    PythonNotMet,
    /// The marker compares a variable that isn't set.
    MarkerUnset,
    /// The marker compares `extra`, which has no value in a lock.
    MarkerExtra,
    /// The marker compares by an operator that has no meaning for its operands.
    MarkerUndefined,
    /// The marker compares with a version that has a number past the limit.
    MarkerNumber,
    /// None of the lock's `environments` is true.
    NoEnvironment,
    /// An earlier entry of the same name is to be installed too (step 5).
    Ambiguous,
    /// The entry has sources of more than one kind (step 5).
    Sources,
    /// The entry has no source to install from (step 6).
    NoFile,
}

/// The code of a fault of a marker; of `Memory`, which no marker has as its value, it is
/// `MarkerUnset`.
impl From<EvalFault> for FaultCode {
    ghost use Rattle.pylock_core.specs.Session.Steps.{fault_code};

    ghost from_gives = { λ fault code. code ≡ fault_code fault };

    fn from(fault: EvalFault) -> FaultCode {
        match fault {
            EvalFault::Unset(_) | EvalFault::Memory => FaultCode::MarkerUnset,
            EvalFault::Extra => FaultCode::MarkerExtra,
            EvalFault::Undefined => FaultCode::MarkerUndefined,
            EvalFault::NumberTooLarge => FaultCode::MarkerNumber,
        }
    }
}

/// How an entry stands in step 5 by its marker and its Python check alone.
#[derive(Clone, Copy, Debug, PartialEq, Eq)]
pub enum Standing {
    /// Its marker is false: it isn't installed.
    Skipped,
    /// Its marker or its Python check has this fault.
    Faulty(FaultCode),
    /// It is to be installed.
    Active,
}

/// The answer of the installation steps.
#[derive(Debug, Drop)]
pub enum Answer {
    /// Every entry has its pick.
    Plan(Plan),
    /// The first fault, with the number of its entry.
    Fault {
        /// The number of the entry.
        id: u32,
        /// Why it stops the installation.
        code: FaultCode,
    },
}
