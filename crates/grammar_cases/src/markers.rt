//! Markers: what they are worth, and what they read.

use crate::environments::environment_of;
use crate::told::{filled_text, printed_text, read, refused};
use case_files::{text, texts};
use pymark_core::{Environment, EvalFault, Key, Marker, Reads, Var};
use std::alloc::{AllocError, Global};
use toml::{Table, Value};

/// What `marker` is worth, or why it is refused.
pub(crate) fn judge(alloc: Global, case: &Table) -> anyhow::Result<String> {
    let marker = text(alloc, case, "marker")?;
    judge_marker(alloc, case, &environment_of(alloc, case)?, marker.as_str())
}

/// The same of each of `markers`, with its text.
pub(crate) fn judge_all(alloc: Global, case: &Table) -> anyhow::Result<String> {
    let environment = environment_of(alloc, case)?;
    let mut all = String::new(alloc);
    for marker in texts(alloc, case, "markers")? {
        let value = judge_marker(alloc, case, &environment, marker)?;
        writeln!(all, "{marker:?}: {value}")?;
    }
    Ok(all)
}

fn judge_marker(
    alloc: Global,
    case: &Table,
    environment: &Environment,
    text: &str,
) -> anyhow::Result<String> {
    match Marker::parse(alloc, text) {
        Ok(marker) => value(alloc, environment, extra_of(case), &marker),
        Err(refusal) => refused(alloc, &refusal),
    }
}

/// The text of the operand `extra`, where the case has one.
pub(crate) fn extra_of(case: &Table) -> Option<&str> {
    case.get("extra").and_then(Value::as_str)
}

/// The value or the fault of a marker, with that of its copy in a copy of the environment where it
/// is another.
fn value(
    alloc: Global,
    environment: &Environment,
    extra: Option<&str>,
    marker: &Marker,
) -> anyhow::Result<String> {
    let value = evaluate(alloc, environment, extra, marker)?;
    let copied = evaluate(alloc, &environment.clone()?, extra, &marker.clone()?)?;
    if copied == value {
        return Ok(format!(in alloc; "{value:?}")?);
    }
    Ok(format!(in alloc; "{value:?}, but its copy {copied:?}")?)
}

/// The value of the marker, where `extra` has this text or none. Want of memory is no answer: it
/// ends the program.
pub(crate) fn evaluate(
    alloc: Global,
    environment: &Environment,
    extra: Option<&str>,
    marker: &Marker,
) -> anyhow::Result<Result<bool, EvalFault>> {
    let value = match extra {
        Some(extra) => marker.evaluate_with_extra(alloc, environment, extra),
        None => marker.evaluate(alloc, environment),
    };
    if value == Err(EvalFault::Memory) {
        return Err(anyhow::anyhow!("memory"));
    }
    Ok(value)
}

/// The text of `marker`, in quotes and filled up too, and the keys that it reads.
pub(crate) fn tell_reads(alloc: Global, case: &Table) -> anyhow::Result<String> {
    let marker = read(alloc, case, "marker", Marker::parse)?;
    let mut told = printed_text(alloc, &marker)?;
    if told.as_str() != marker.text() {
        told.push_str("\nbut its text is another")?;
    }
    write!(told, "\n{marker:?} {}", filled_text(alloc, &marker)?)?;
    push_keys(&mut told, marker.reads())?;
    if !is_copied(&marker)? {
        told.push_str("\nbut not its copy")?;
    }
    Ok(told)
}

/// Whether a copy has the same text and reads the same keys.
fn is_copied(marker: &Marker) -> Result<bool, AllocError> {
    let copy = marker.clone()?;
    Ok(copy.text() == marker.text() && copy.reads() == marker.reads())
}

fn push_keys(told: &mut String, reads: Reads) -> Result<(), AllocError> {
    for variable in Var::all() {
        push_key(told, Key::Of(variable), reads)?;
    }
    push_key(told, Key::Extras, reads)?;
    push_key(told, Key::Groups, reads)
}

/// The key, where it is read.
fn push_key(told: &mut String, key: Key, reads: Reads) -> Result<(), AllocError> {
    if reads.has(key) {
        write!(told, "\n{key:?}")?;
    }
    Ok(())
}
