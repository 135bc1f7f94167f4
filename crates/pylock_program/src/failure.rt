//! Why the program ends without an answer.

ghost use Rattle.std.specs.Prelude.{◌≡◌, ◌≢◌};
ghost use Rattle.std.specs.Option.{option_copied};
ghost use Rattle.pylock_program.specs.Program.{failure_message, failure_status, program_end};
ghost use Rattle.pylock_program.specs.declared.failure.Failure.TheVariants as failure;

use pylock_run::RunFault;
use std::io::ErrorKind;

/// Why the program ends without an answer.
#[derive(Clone, Copy, Debug, PartialEq, Eq)]
pub enum Failure {
    /// A word of the command line is not UTF-8.
    NotText,
    /// A file can't be read, or has more than 268,435,456 bytes. A person is told already which
    /// file it is, and why.
    File,
    /// A read of standard input failed.
    Read,
    /// A write to standard output failed.
    Write,
    /// The input passes a limit.
    Input,
    /// An allocation was refused.
    Memory,
}

impl Failure {
    /// What stands on standard error behind `pylock: `, where it isn't told yet.
    pub fn message(self) -> Option<&'static str>
        ensures { option_copied result ≡ failure_message self }
    {
        Some(match self {
            Failure::NotText => "a word of the command line is not UTF-8",
            Failure::File => return None,
            Failure::Read => "read",
            Failure::Write => "write",
            Failure::Input => "input",
            Failure::Memory => "memory",
        })
    }

    /// The status of the program: 2 where the command line is refused, else 3.
    pub fn status(self) -> u8
        ensures { result ≡ failure_status self }
    {
        match self {
            Failure::NotText => 2,
            _ => 3,
        }
    }
}

impl From<RunFault> for Failure {
    ghost use Rattle.pylock_program.specs.Program.{run_failure};

    ghost from_gives = { λ fault failure. failure ≡ run_failure fault };

    fn from(fault: RunFault) -> Failure {
        match fault {
            RunFault::Read => Failure::Read,
            RunFault::Write => Failure::Write,
            RunFault::Input => Failure::Input,
            RunFault::Memory => Failure::Memory,
        }
    }
}

/// What an error of the list of words says: one that is not UTF-8, or else that memory ran out.
pub fn words_failure(kind: ErrorKind) -> Failure
    ensures text { kind ≡ ErrorKind.InvalidData → result ≡ failure.NotText }
    ensures memory { kind ≢ ErrorKind.InvalidData → result ≡ failure.Memory }
{
    match kind {
        ErrorKind::InvalidData => Failure::NotText,
        _ => Failure::Memory,
    }
}

/// The end of a run or of a reply, as the program tells it.
pub(crate) fn program_end(end: Result<u8, RunFault>) -> Result<u8, Failure>
    ensures { result ≡ program_end end }
{
    Ok(end?)
}
