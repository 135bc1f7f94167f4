//! Why words that clap takes ask for nothing.
ghost use Rattle.std.specs.Prelude.{◌≡◌};
ghost use Rattle.pylock_command.specs.Misuse.{kind_of_misuse};

use clap::error::ErrorKind;
use std::alloc::AllocError;

/// Why words that clap takes ask for nothing: what clap isn't told, since it then promises nothing
/// of the words that it takes.
#[derive(Clone, Copy)]
pub(crate) enum Misuse {
    /// An argument that has to be there has no text, or the subcommand is none of the program's.
    Missing,
    /// Neither ENV is there nor a target.
    NoMachine,
    /// A file of an environment stands beside `--python` or `--platform`.
    TwoMachines,
    /// Of `--python` and `--platform` one stands alone.
    HalfTarget,
    /// ENV stands beside `--matrix`.
    EnvAndMatrix,
    /// The options of `plan` stand where no plans are asked for.
    NoPlans,
    /// `--format` stands beside `--json`.
    TwoForms,
    /// `--format` of `plan` has another text than the name of a form.
    NoPlanFormat,
    /// `--format` of `files` or `matrix` has another text than the name of a form.
    NoFileFormat,
    /// `--format` of `audit` has another text than the name of a form.
    NoAuditFormat,
    /// `--format` of `matrix` stands without `--files`.
    FormatOfRows,
    /// An SPDX document is asked for without a time.
    NoTime,
    /// A time stands where no SPDX document is asked for.
    StrayTime,
    /// `--created` has another text than a time.
    BadTime,
    /// `--base` stands without a form that has URLs of files.
    NoUrls,
    /// `--base` has another text than two that end in `/` with a `=` between them.
    NoBase,
    /// A file of `select` is standard input.
    EditsAndFile,
    /// Two files are standard input.
    TwoInputs,
}

impl Misuse {
    /// The kind of the error that a person sees.
    pub(crate) fn kind(self) -> ErrorKind
        ensures { result ≡ kind_of_misuse self }
    {
        match self {
            Misuse::Missing
            | Misuse::NoMachine
            | Misuse::HalfTarget
            | Misuse::NoPlans
            | Misuse::FormatOfRows
            | Misuse::NoTime
            | Misuse::NoUrls => ErrorKind::MissingRequiredArgument,
            Misuse::TwoMachines
            | Misuse::EnvAndMatrix
            | Misuse::TwoForms
            | Misuse::StrayTime
            | Misuse::TwoInputs => ErrorKind::ArgumentConflict,
            Misuse::NoPlanFormat
            | Misuse::NoFileFormat
            | Misuse::NoAuditFormat
            | Misuse::BadTime
            | Misuse::NoBase
            | Misuse::EditsAndFile => ErrorKind::InvalidValue,
        }
    }

    /// What a person is told.
    pub(crate) fn message(self) -> &'static str {
        match self {
            Misuse::Missing => "an argument is missing",
            Misuse::NoMachine => "ENV is missing, or --python and --platform in its place",
            Misuse::TwoMachines => {
                "the file of an environment can't be used with --python and --platform"
            }
            Misuse::HalfTarget => "--python and --platform have to be given together",
            Misuse::EnvAndMatrix => "ENV can't be used with --matrix",
            Misuse::NoPlans => { "the options of plan want --in, or --python and --platform" }
            Misuse::TwoForms => "--format can't be used with --json",
            Misuse::NoPlanFormat => {
                "--format takes requirements, requirements-local, sha256sum, aria2, urls, \
                 cyclonedx or spdx"
            }
            Misuse::NoFileFormat => "--format takes sha256sum, aria2 or urls",
            Misuse::NoAuditFormat => "--format takes sarif",
            Misuse::FormatOfRows => "--format of matrix wants --files",
            Misuse::NoTime => "--format spdx wants --created",
            Misuse::StrayTime => "--created can be used with --format spdx alone",
            Misuse::BadTime => "--created takes a time, such as 2026-07-24T12:00:00Z",
            Misuse::NoUrls => "--base wants --format requirements, aria2 or urls",
            Misuse::NoBase => "--base takes FROM=TO, and each of the two ends in /",
            Misuse::EditsAndFile => {
                "select reads its edits from standard input, so LOCK and ENV can't be -"
            }
            Misuse::TwoInputs => "standard input is read once, so only one file can be -",
        }
    }
}

/// Why the words of a subcommand give no task.
#[derive(Clone, Copy)]
pub(crate) enum NoTask {
    /// The words ask for nothing.
    Misused(Misuse),
    /// An allocation was refused.
    Memory,
}

impl From<Misuse> for NoTask {
    ghost use Rattle.pylock_command.specs.declared.misuse.NoTask.TheVariants.{Misused};

    ghost from_gives = { λ misuse none. none ≡ Misused misuse };

    fn from(misuse: Misuse) -> NoTask {
        NoTask::Misused(misuse)
    }
}

impl From<AllocError> for NoTask {
    ghost use Rattle.pylock_command.specs.declared.misuse.NoTask.TheVariants.{Memory};

    ghost from_gives = { λ _ none. none ≡ Memory };

    fn from(_error: AllocError) -> NoTask {
        NoTask::Memory
    }
}
