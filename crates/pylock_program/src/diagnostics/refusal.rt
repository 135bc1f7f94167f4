//! Diagnostics of a lock, an environment or a list of what is installed that is refused, and of
//! findings that are.

use crate::file::{FileBytes, Inputs, MachineInput};
use crate::opening::Unopened;
use pylock_check::ProjectError;
use pylock_core::EnvError;
use pylock_installed::InstalledError;
use pylock_messages::{
    Diagnostic, begins_like_json, environment_diagnostic, lock_diagnostic, target_diagnostic,
};
use pylock_run::OpenError;
use std::alloc::{AllocError, Global};

/// What is taken as a list of what is installed.
const LISTS: &str = "pip list --format json and pip inspect print what is taken";

/// Why there is no session on what was read.
pub(crate) fn unopened_diagnostic(
    alloc: Global,
    unopened: &Unopened,
    inputs: Inputs<'_>,
) -> Result<Option<Diagnostic>, AllocError> {
    let (lock, machine) = (inputs.lock, inputs.machine);
    match unopened {
        Unopened::Findings(_) => findings_diagnostic(alloc, lock),
        Unopened::Refused(OpenError::Lock(error)) => {
            let diagnostic = lock_diagnostic(alloc, lock.path, &lock.bytes, error)?;
            beside_file(alloc, diagnostic, inputs)
        }
        Unopened::Refused(OpenError::Environment(error)) => {
            environment_refusal(alloc, error, machine)
        }
        Unopened::Refused(OpenError::Memory) => Ok(None),
    }
}

/// What is told of a lock that stands beside the file of an environment: where it seems to be one
/// itself, that the two may be swapped.
fn beside_file(
    alloc: Global,
    diagnostic: Option<Diagnostic>,
    inputs: Inputs<'_>,
) -> Result<Option<Diagnostic>, AllocError> {
    match (diagnostic, inputs.machine) {
        (Some(diagnostic), MachineInput::File(_)) if begins_like_json(&inputs.lock.bytes) => {
            Ok(Some(diagnostic.followed_by(alloc, "LOCK and ENV may be swapped")?))
        }
        (diagnostic, _) => Ok(diagnostic),
    }
}

/// What is told of findings in a lock that is taken strictly.
pub(crate) fn findings_diagnostic(
    alloc: Global,
    lock: &FileBytes<'_>,
) -> Result<Option<Diagnostic>, AllocError> {
    let path = lock.path;
    let note = format!(in alloc; "--strict refuses what audit found in {path}")?;
    Ok(Some(Diagnostic::of_message(alloc, note.as_str())?))
}

/// Where an environment is wrong that is refused so, or which word of a target.
pub(crate) fn environment_refusal(
    alloc: Global,
    error: &EnvError,
    machine: &MachineInput<'_>,
) -> Result<Option<Diagnostic>, AllocError> {
    match machine {
        MachineInput::File(file) => environment_diagnostic(alloc, file.path, &file.bytes, error),
        MachineInput::Target(target) => {
            target_diagnostic(alloc, target.python, target.platform, error)
        }
    }
}

/// Why a list of what is installed is refused so.
pub(crate) fn installed_diagnostic(
    alloc: Global,
    error: &InstalledError,
    list: &FileBytes<'_>,
) -> Result<Option<Diagnostic>, AllocError> {
    let path = list.path;
    let note = match error {
        InstalledError::Json => format!(in alloc; "{path}: not JSON; {LISTS}")?,
        InstalledError::Shape => {
            format!(in alloc; "{path}: neither a list nor an object with `installed`; {LISTS}")?
        }
        InstalledError::Element(place) => {
            format!(in alloc;
                "{path}: element {place}: no name, no version, or an unknown direct URL"
            )?
        }
        InstalledError::Twice(place) => {
            format!(in alloc; "{path}: element {place}: an earlier one has the same name")?
        }
        InstalledError::Memory => return Ok(None),
    };
    Ok(Some(Diagnostic::of_message(alloc, note.as_str())?))
}

/// Why a project file is refused so.
pub(crate) fn project_diagnostic(
    alloc: Global,
    error: &ProjectError,
    file: &FileBytes<'_>,
) -> Result<Option<Diagnostic>, AllocError> {
    let path = file.path;
    let what = match error {
        ProjectError::NotText => "not UTF-8",
        ProjectError::Toml => "not TOML",
        ProjectError::WrongType(_) => "a value of another type",
        ProjectError::Specifiers => "requires-python is no specifier set",
        ProjectError::Requirement(_) => "no requirement",
        ProjectError::Name(_) => "no name",
        ProjectError::Twice(_) => "an earlier key has the same name",
        ProjectError::Include(_) => "an element that is no include-group",
        ProjectError::UnknownGroup(_) => "no such group",
        ProjectError::Cycle(_) => "a group that includes itself",
        ProjectError::Memory => return Ok(None),
    };
    let note = match error.place() {
        Some(place) => format!(in alloc; "{path}: {place}: {what}")?,
        None => format!(in alloc; "{path}: {what}")?,
    };
    Ok(Some(Diagnostic::of_message(alloc, note.as_str())?))
}
