//! What was expected of a text that a command refused, and where it is wrong.

use crate::diagnostics::{tell, tell_bytes};
use crate::file::MachineInput;
use pylock_command::TextQuestion;
use pylock_pointed::pointed_lines;
use pylock_run::Sink;
use pymark_core::{EvalFault, Marker};
use pymark_expected::{Fault, marker_fault, requirement_fault, set_fault};
use pyver_core::{Version, VersionError};
use pywheel_core::{SdistError, SdistName, WheelError, WheelName};
use std::alloc::{AllocError, Global};

/// What was expected of a text that is no name.
const NAME: &str =
    "Expected a name of ASCII letters, digits, `.`, `_` and `-`, a letter or digit at both ends";

/// Tells of a text that is refused what was expected of it; of a requirement and of a set there is
/// the text below that, with a mark at the place. What memory or the write refuses is left out.
pub(crate) fn tell_text<N: Sink>(alloc: Global, diagnostics: &mut N, question: TextQuestion<'_>) {
    match question {
        TextQuestion::Version(text) => tell_sentence(
            alloc,
            diagnostics,
            version_sentence(alloc, text),
        ),
        TextQuestion::Match(set, version) => tell_match(alloc, diagnostics, set, version),
        TextQuestion::Name(_) => tell(alloc, diagnostics, NAME),
        TextQuestion::Requirement(text) => {
            tell_fault(alloc, diagnostics, text, requirement_fault(alloc, text));
        }
        TextQuestion::Wheel(text) => tell_sentence(alloc, diagnostics, wheel_sentence(alloc, text)),
        TextQuestion::Sdist(text) => tell_sentence(alloc, diagnostics, sdist_sentence(alloc, text)),
    }
}

/// The same of a marker, or why it has no value on the machine.
pub(crate) fn tell_marker<N: Sink>(
    alloc: Global,
    diagnostics: &mut N,
    text: &str,
    machine: &MachineInput<'_>,
) {
    match marker_fault(alloc, text) {
        Ok(None) => {
            if let Ok(Some(sentence)) = value_sentence(alloc, text, machine) {
                tell(alloc, diagnostics, sentence.as_str());
            }
        }
        fault => tell_fault(alloc, diagnostics, text, fault),
    }
}

/// The same of a set, or else of the version beside it.
fn tell_match<N: Sink>(alloc: Global, diagnostics: &mut N, set: &str, version: &str) {
    match set_fault(alloc, set) {
        Ok(None) => tell_sentence(alloc, diagnostics, version_sentence(alloc, version)),
        fault => tell_fault(alloc, diagnostics, set, fault),
    }
}

fn tell_sentence<N: Sink>(alloc: Global, diagnostics: &mut N, sentence: Option<&str>) {
    if let Some(sentence) = sentence {
        tell(alloc, diagnostics, sentence);
    }
}

fn tell_fault<N: Sink>(
    alloc: Global,
    diagnostics: &mut N,
    text: &str,
    fault: Result<Option<Fault>, AllocError>,
) {
    let Ok(Some(fault)) = fault else {
        return;
    };
    if let Ok(sentence) = fault.expected.to_string(alloc) {
        tell(alloc, diagnostics, sentence.as_str());
    }
    if let Ok(lines) = pointed_lines(alloc, text, &fault) {
        tell_bytes(diagnostics, lines.as_bytes());
        tell_bytes(diagnostics, b"\n");
    }
}

/// What was expected of a text that is refused as a version.
fn version_sentence(alloc: Global, text: &str) -> Option<&'static str> {
    match Version::parse(alloc, text) {
        Err(VersionError::Syntax) => Some("Expected a version such as 1.0 or 2.1rc1.post2"),
        Err(VersionError::NumberTooLarge) => {
            Some("Expected a version with numbers of at most 128 bits")
        }
        _ => None,
    }
}

/// What was expected of a text that is refused as the name of a wheel.
fn wheel_sentence(alloc: Global, text: &str) -> Option<&'static str> {
    Some(match WheelName::parse(alloc, text) {
        Err(WheelError::Extension) => "Expected a file name that ends in .whl",
        Err(WheelError::Parts) => {
            "Expected NAME-VERSION-PYTHON-ABI-PLATFORM.whl, with -BUILD behind the version if any"
        }
        Err(WheelError::Name) => {
            "Expected a name of ASCII letters, digits, `_` and `.`, without `__`, at the beginning"
        }
        Err(WheelError::Version) => {
            "Expected a version with numbers of at most 128 bits, such as 1.0, behind the name"
        }
        Err(WheelError::Build) => {
            "Expected a build that begins with a digit, and a number in it of at most 128 bits"
        }
        Err(WheelError::Tags) => {
            "Expected tags such as py3-none-any or py2.py3-none-any, at most 1024 of them"
        }
        _ => return None,
    })
}

/// What was expected of a text that is refused as the name of an sdist.
fn sdist_sentence(alloc: Global, text: &str) -> Option<&'static str> {
    Some(match SdistName::parse(alloc, text) {
        Err(SdistError::Extension) => "Expected a file name that ends in .tar.gz or .zip",
        Err(SdistError::Parts) => "Expected NAME-VERSION.tar.gz or NAME-VERSION.zip",
        Err(SdistError::Name) => {
            "Expected a name before the last `-`, of ASCII letters, digits, `.`, `_` and `-`"
        }
        Err(SdistError::Version) => {
            "Expected a version with numbers of at most 128 bits, such as 1.0, behind the last `-`"
        }
        _ => return None,
    })
}

/// Why a marker is neither true nor false in the environment of a machine.
fn value_sentence(
    alloc: Global,
    text: &str,
    machine: &MachineInput<'_>,
) -> Result<Option<String>, AllocError> {
    let Ok(marker) = Marker::parse(alloc, text) else {
        return Ok(None);
    };
    let Ok((environment, _tags)) = machine.input().read(alloc) else {
        return Ok(None);
    };
    match marker.evaluate(alloc, &environment) {
        Err(fault) => fault_sentence(alloc, fault),
        Ok(_) => Ok(None),
    }
}

fn fault_sentence(alloc: Global, fault: EvalFault) -> Result<Option<String>, AllocError> {
    let sentence = match fault {
        EvalFault::Unset(variable) => {
            let name = variable.name();
            return Ok(Some(format!(in alloc; "{name} has no value in this environment")?));
        }
        EvalFault::Extra => "extra has no value here; a lock's markers ask `'NAME' in extras`",
        EvalFault::Undefined => {
            "~= or === can't compare these texts; ~= wants versions, of two numbers on the right"
        }
        EvalFault::NumberTooLarge => "Expected versions with numbers of at most 128 bits",
        EvalFault::Memory => return Err(AllocError),
    };
    Ok(Some(String::from_str(alloc, sentence)?))
}
