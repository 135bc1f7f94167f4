//! Diagnostics of a fault: where it is, and why.

use crate::diagnostics::tell_made;
use pylock_command::Machine;
use pylock_core::{Entry, Fate, FaultCode, Policy, Session, fault_word};
use pylock_documents::fault_detail;
use pylock_run::Sink;
use pylock_shown::Shown;
use pymark_core::{EvalFault, Marker, Var};
use std::alloc::{AllocError, Global};
use std::fmt::Write;

/// Tells where the fault of an answer is, and why: at the entry of this number, or at the head. A
/// variable that has no text may be given by an option, which is named; and so is the release that
/// the word of a target's Python stands for, where the fault may come from that.
pub(crate) fn tell_fault<N: Sink>(
    alloc: Global,
    diagnostics: &mut N,
    machine: Machine<'_>,
    session: &Session,
    fault: (u32, FaultCode),
) {
    tell_made(
        alloc,
        diagnostics,
        fault_text(alloc, machine, session, fault),
    );
}

fn fault_text(
    alloc: Global,
    machine: Machine<'_>,
    session: &Session,
    fault: (u32, FaultCode),
) -> Result<String, AllocError> {
    let (number, code) = fault;
    let place = place_text(alloc, session, number)?;
    let word = fault_word(code);
    let mut text = match fault_reason(alloc, session, number, code)? {
        Some(reason) => format!(in alloc; "{place}: {word}: {reason}")?,
        None => format!(in alloc; "{place}: {word}")?,
    };
    if matches!(code, FaultCode::MarkerUnset) {
        push_setting(alloc, &mut text, session, number)?;
    } else if let Machine::Target(words) = machine
        && names_no_micro(words.python)
        && asks_for_the_micro(session, number, code)
    {
        push_release(&mut text, words.python)?;
    }
    Ok(text)
}

fn place_text(alloc: Global, session: &Session, number: u32) -> Result<String, AllocError> {
    match session.entry(number) {
        Some(entry) => {
            let name = entry.name();
            format!(in alloc; "entry {number} (`{name}`)")
        }
        None => String::from_str(alloc, "head"),
    }
}

// ---- a variable without a text

/// Adds the option that gives the variable.
fn push_setting(
    alloc: Global,
    text: &mut String,
    session: &Session,
    number: u32,
) -> Result<(), AllocError> {
    if let Some(variable) = unset_at(alloc, session, number)? {
        text.push_str("; give it with --set ")?;
        text.push_str(variable.name())?;
        text.push_str("=..")?;
    }
    Ok(())
}

/// The variable without a text that the marker of the entry reads, or the first marker of the head
/// that isn't false.
fn unset_at(alloc: Global, session: &Session, number: u32) -> Result<Option<Var>, AllocError> {
    if let Some(entry) = session.entry(number) {
        return match entry.marker() {
            Some(marker) => unset_in(alloc, session, marker),
            None => Ok(None),
        };
    }
    for marker in session.head().environments() {
        if let Some(variable) = unset_in(alloc, session, marker)? {
            return Ok(Some(variable));
        }
    }
    Ok(None)
}

fn unset_in(alloc: Global, session: &Session, marker: &Marker) -> Result<Option<Var>, AllocError> {
    match marker.evaluate(alloc, session.environment()) {
        Err(EvalFault::Memory) => Err(AllocError),
        Err(EvalFault::Unset(variable)) => Ok(Some(variable)),
        _ => Ok(None),
    }
}

// ---- a Python without its last number

/// Whether the word names a release of Python by two numbers, as `3.12` and `3.13t`.
fn names_no_micro(python: &str) -> bool {
    python
        .split_once('.')
        .is_some_and(|(_, rest)| !rest.contains("."))
}

/// Whether the fault may come from the third number of Python's release.
fn asks_for_the_micro(session: &Session, number: u32, code: FaultCode) -> bool {
    matches!(code, FaultCode::PythonNotMet)
        || match session.entry(number) {
            Some(entry) => entry.marker().is_some_and(reads_the_release),
            None => session.head().environments().iter().any(reads_the_release),
        }
}

fn reads_the_release(marker: &Marker) -> bool {
    marker.text().contains("python_full_version")
        || marker.text().contains("implementation_version")
}

/// Adds which release the word stands for.
fn push_release(text: &mut String, python: &str) -> Result<(), AllocError> {
    let release = python.strip_suffix("t").unwrap_or(python);
    text.push_str("; --python ")?;
    text.push_str(python)?;
    text.push_str(" stands for ")?;
    text.push_str(release)?;
    text.push_str(".0")
}

// ---- why

/// Why the entry of this number, or the head, has its fault: its detail, with the Python that isn't
/// met behind it; where nothing is to install from, why no file is.
fn fault_reason(
    alloc: Global,
    session: &Session,
    number: u32,
    code: FaultCode,
) -> Result<Option<String>, AllocError> {
    match (session.entry(number), session.fate(number)) {
        (Some(entry), Some(Fate::NoFile(policy))) => {
            let mut text = wheels_reason(alloc, entry.wheels().len(), policy)?;
            text.push_str(sdist_reason(entry))?;
            Ok(Some(text))
        }
        _ => condition_reason(alloc, session, number, code),
    }
}

fn condition_reason(
    alloc: Global,
    session: &Session,
    number: u32,
    code: FaultCode,
) -> Result<Option<String>, AllocError> {
    match (code, fault_detail(alloc, session, number, code)?) {
        (FaultCode::PythonNotMet, Some(set)) => Ok(Some(python_reason(alloc, session, set)?)),
        (FaultCode::PythonUnknown, Some(set)) if set.is_empty() => Ok(None),
        (_, detail) => Ok(detail),
    }
}

/// The set of a Python check, unless it is empty, and the Python that it was judged on.
fn python_reason(alloc: Global, session: &Session, set: String) -> Result<String, AllocError> {
    match session.environment().get(Var::PythonFullVersion) {
        Some(python) if set.is_empty() => {
            let python = Shown(python);
            format!(in alloc; "this environment's Python is {python}")
        }
        Some(python) => {
            let python = Shown(python);
            format!(in alloc; "{set}, and this environment's Python is {python}")
        }
        None => Ok(set),
    }
}

// ---- an entry without a file to install

/// Why no wheel of an entry is installed under the policy of its name.
fn wheels_reason(alloc: Global, count: usize, policy: Policy) -> Result<String, AllocError> {
    match (count, policy) {
        (0, _) => String::from_str(alloc, "it has no wheel"),
        (1, Policy::Source) => String::from_str(alloc, "its only wheel is excluded by --no-binary"),
        (_, Policy::Source) => format!(in alloc; "its {count} wheels are excluded by --no-binary"),
        (1, _) => String::from_str(alloc, "its only wheel doesn't fit this environment"),
        _ => format!(in alloc; "none of its {count} wheels fits this environment"),
    }
}

/// What is told behind the wheels. An sdist is installed but under the policy `wheel`.
fn sdist_reason(entry: &Entry) -> &'static str {
    if entry.sdist().is_some() {
        ", and its sdist is excluded by --only-binary"
    } else if entry.wheels().is_empty() {
        ", and no sdist"
    } else {
        ", and it has no sdist"
    }
}
