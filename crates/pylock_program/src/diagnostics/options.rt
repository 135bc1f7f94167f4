//! Diagnostics of options. They come in the order of the options, that on
//! `python_version` last; an option that is refused is the only line.

use crate::diagnostics::tell_made;
use crate::options::{option_words, split_at_equals};
use pylock_command::PlanOption;
use pylock_core::{Head, HeadNames, Session};
use pylock_messages::Diagnostic;
use pylock_run::Sink;
use pylock_shown::push_hidden;
use pymark_core::Var;
use pyver_core::{is_name, normal_name};
use std::alloc::{AllocError, Global};

/// How many extras or groups of a lock are told.
const MOST_NAMES: usize = 10;

/// The lock that options are for: its path as it was given, and its head.
#[derive(Clone, Copy)]
pub(crate) struct NamedLock<'a> {
    pub(crate) path: &'a str,
    pub(crate) head: &'a Head,
}

/// Why an option is refused, as a value.
pub(crate) fn option_diagnostic(
    alloc: Global,
    lock: NamedLock<'_>,
    option: PlanOption<'_>,
) -> Result<Option<Diagnostic>, AllocError> {
    let note = option_sentence(alloc, lock, option)?;
    Ok(Some(Diagnostic::of_message(alloc, note.as_str())?))
}

fn option_sentence(
    alloc: Global,
    lock: NamedLock<'_>,
    option: PlanOption<'_>,
) -> Result<String, AllocError> {
    let (word, text) = option_words(option);
    let text = text.unwrap_or("");
    let why = refusal_reason(alloc, lock, option)?;
    format!(in alloc; "--{word}: `{text}`: {why}")
}

/// Why an option is refused that is: of a name that the lock hasn't, with those that it has.
fn refusal_reason(
    alloc: Global,
    lock: NamedLock<'_>,
    option: PlanOption<'_>,
) -> Result<String, AllocError> {
    let (path, head) = (lock.path, lock.head);
    match option {
        PlanOption::Extra(name) if is_name(name) => {
            let known = known_names(alloc, "extra", &[head.extras()])?;
            format!(in alloc; "not an extra of {path}; {known}")
        }
        PlanOption::Group(name) | PlanOption::NoGroup(name) if is_name(name) => {
            let known = known_names(alloc, "group", &[head.groups(), head.default_groups()])?;
            format!(in alloc; "not a group of {path}; {known}")
        }
        PlanOption::Set(text) => set_refusal_reason(alloc, text),
        PlanOption::Only(name) | PlanOption::Except(name) if is_name(name) => {
            format!(in alloc; "{path} has no such package")
        }
        _ => String::from_str(alloc, "not a name"),
    }
}

fn set_refusal_reason(alloc: Global, text: &str) -> Result<String, AllocError> {
    if split_at_equals(text).is_none() {
        return String::from_str(alloc, "no =");
    }
    let names: Vec<&str> = Var::all()
        .iter()
        .map(|variable| variable.name())
        .collect(alloc)?;
    let names = names.join(alloc, ", ")?;
    format!(in alloc; "no such variable; the variables are: {names}")
}

// ---- the names that a lock has

/// Adds names that aren't there yet, until one more is there than is told.
fn push_known<'a>(known: &mut Vec<&'a str>, names: &'a [String]) -> Result<(), AllocError> {
    for name in names {
        if known.len() > MOST_NAMES {
            return Ok(());
        }
        if !known.iter().any(|other| *other == name.as_str()) {
            known.push(name.as_str())?;
        }
    }
    Ok(())
}

/// Which names of a kind a lock has in these lists, at most as many as are told.
fn known_names(alloc: Global, kind: &str, lists: &[&HeadNames]) -> Result<String, AllocError> {
    let mut names = Vec::new(alloc);
    for list in lists {
        push_known(&mut names, list.as_slice())?;
    }
    let shown = first_names(alloc, &names)?;
    match names.len() {
        0 => format!(in alloc; "it has no {kind}s"),
        1 => format!(in alloc; "its only {kind} is {shown}"),
        _ => format!(in alloc; "its {kind}s are: {shown}"),
    }
}

/// The names, as they are shown to a person; of many the first.
fn first_names(alloc: Global, names: &[&str]) -> Result<String, AllocError> {
    let mut text = String::new(alloc);
    for (at, name) in names.iter().enumerate() {
        if at == MOST_NAMES {
            text.push_str(", ..")?;
            return Ok(text);
        }
        text.push_str(if at == 0 { "" } else { ", " })?;
        push_hidden(&mut text, name)?;
    }
    Ok(text)
}

// ---- options that are accepted

/// Tells what accepted options may not do as they seem to: a policy for a name that no entry has,
/// and one of the two variables of Python's version without the other.
pub(crate) fn tell_options<N: Sink>(
    alloc: Global,
    diagnostics: &mut N,
    session: &Session,
    options: &[PlanOption<'_>],
) {
    for option in options {
        tell_missing(alloc, diagnostics, session, *option);
    }
    match (
        sets_variable(options, Var::PythonVersion),
        sets_variable(options, Var::PythonFullVersion),
    ) {
        (true, false) => tell_half_set(
            alloc,
            diagnostics,
            Var::PythonVersion,
            Var::PythonFullVersion,
        ),
        (false, true) => tell_half_set(
            alloc,
            diagnostics,
            Var::PythonFullVersion,
            Var::PythonVersion,
        ),
        _ => {}
    }
}

/// Tells of one variable of Python's version that it is set and the other isn't.
fn tell_half_set<N: Sink>(alloc: Global, diagnostics: &mut N, set: Var, left: Var) {
    let (set, left) = (set.name(), left.name());
    let text = format!(in alloc; "note: --set {set} leaves {left} and the tags as they are");
    tell_made(alloc, diagnostics, text);
}

/// Whether one of the options sets the variable.
fn sets_variable(options: &[PlanOption<'_>], variable: Var) -> bool {
    options
        .iter()
        .any(|option| variable_set_by(*option) == Some(variable))
}

/// The variable that an option sets.
fn variable_set_by(option: PlanOption<'_>) -> Option<Var> {
    let PlanOption::Set(text) = option else {
        return None;
    };
    let (name, _) = split_at_equals(text)?;
    Var::of(name)
}

/// Tells of a policy that no entry has its name.
fn tell_missing<N: Sink>(
    alloc: Global,
    diagnostics: &mut N,
    session: &Session,
    option: PlanOption<'_>,
) {
    let name = match option {
        PlanOption::OnlyBinary(name) | PlanOption::NoBinary(name) => name,
        _ => return,
    };
    if name == ":all:" || !matches!(has_entry(alloc, session, name), Ok(false)) {
        return;
    }
    let (word, _) = option_words(option);
    let text = format!(in alloc; "note: --{word}: no entry is named `{name}`");
    tell_made(alloc, diagnostics, text);
}

/// Whether an entry has the name, whose normal form counts.
fn has_entry(alloc: Global, session: &Session, name: &str) -> Result<bool, AllocError> {
    let name = normal_name(alloc, name)?;
    Ok(
        session.entries().iter().any(|entry| entry
            .as_ref()
            .is_some_and(|entry| entry.name() == name.as_str())),
    )
}
