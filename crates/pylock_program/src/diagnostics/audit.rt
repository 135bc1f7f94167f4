//! Diagnostics of what an audit reads besides the lock.

use crate::file::FileBytes;
use pylock_advisories::{AdvisoriesError, AdvisoryError};
use pylock_findings::PolicyError;
use pylock_messages::Diagnostic;
use pylock_settings::SettingsError;
use std::alloc::{AllocError, Global};

/// Why the settings of an audit are refused so.
pub(crate) fn settings_diagnostic(
    alloc: Global,
    error: &SettingsError,
    path: &str,
) -> Result<Option<Diagnostic>, AllocError> {
    let what = match error {
        SettingsError::NotUtf8 => "not UTF-8",
        SettingsError::Toml => "not TOML",
        SettingsError::WrongType(_) => "a value of another type",
        SettingsError::UnknownKey(_) => {
            "an unknown key; environments, fail-on, host and ignore are taken"
        }
        SettingsError::Memory => return Ok(None),
    };
    let note = match error.place() {
        Some(place) => format!(in alloc; "{path}: {place}: {what}")?,
        None => format!(in alloc; "{path}: {what}")?,
    };
    Ok(Some(Diagnostic::of_message(alloc, note.as_str())?))
}

/// Why the words that say which findings count are refused so.
pub(crate) fn policy_diagnostic(
    alloc: Global,
    error: &PolicyError,
) -> Result<Option<Diagnostic>, AllocError> {
    let note = match error {
        PolicyError::UnknownFinding(text) => {
            let text = text.as_str();
            format!(in alloc; "{text}: no finding; pylock audit --help has their words")?
        }
        PolicyError::NoName(text) => {
            let text = text.as_str();
            format!(in alloc; "{text}: the name of no package")?
        }
        PolicyError::Memory => return Ok(None),
    };
    Ok(Some(Diagnostic::of_message(alloc, note.as_str())?))
}

/// Why a file of advisories is refused so.
pub(crate) fn advisories_diagnostic(
    alloc: Global,
    error: &AdvisoriesError,
    file: &FileBytes<'_>,
) -> Result<Option<Diagnostic>, AllocError> {
    let AdvisoriesError::Advisory(place, error) = error else {
        return Ok(None);
    };
    let path = file.path;
    let note = match error {
        AdvisoryError::Json => format!(in alloc; "{path}: advisory {place}: not JSON")?,
        AdvisoryError::Object => format!(in alloc; "{path}: advisory {place}: not an object")?,
        AdvisoryError::Member(member) => {
            let member = member.as_str();
            format!(in alloc; "{path}: advisory {place}: {member} isn't as OSV has it")?
        }
        AdvisoryError::Memory => return Ok(None),
    };
    Ok(Some(Diagnostic::of_message(alloc, note.as_str())?))
}
