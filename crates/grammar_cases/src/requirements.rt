//! Requirements.

use crate::told::{printed_text, read, tell, with_copy};
use pymark_core::{Marker, Requirement};
use std::alloc::{AllocError, Global};
use toml::Table;

/// The parts of `requirement`, with those of its copy where they are others; or why it is refused.
pub(crate) fn answer_case(alloc: Global, case: &Table) -> anyhow::Result<String> {
    let parse = Requirement::parse;
    tell(alloc, case, "requirement", parse, |alloc, requirement| {
        with_copy(alloc, requirement, parts)
    })
}

/// What is printed of `requirement`, and of that text where it is another.
pub(crate) fn print(alloc: Global, case: &Table) -> anyhow::Result<String> {
    let requirement = read(alloc, case, "requirement", Requirement::parse)?;
    let printed = printed_text(alloc, &requirement)?;
    let again = printed_text(alloc, &Requirement::parse(alloc, printed.as_str())?)?;
    if again.as_str() == printed.as_str() {
        return Ok(printed);
    }
    Ok(format!(in alloc; "{printed}, but of that {again}")?)
}

fn parts(alloc: Global, requirement: &Requirement) -> Result<String, AllocError> {
    let mut parts = String::new(alloc);
    writeln!(parts, "name {}", requirement.name())?;
    push_extras(&mut parts, requirement.extras())?;
    let (set, url) = (requirement.set().text(), requirement.url());
    let marker = requirement.marker().map(Marker::text);
    writeln!(parts, "set {set:?}, url {url:?}, marker {marker:?}")?;
    Ok(parts)
}

/// The extras, or where they are many their count and the last of them.
fn push_extras(parts: &mut String, extras: &[String]) -> Result<(), AllocError> {
    match extras.split_last() {
        Some((last, before)) if before.len() >= 100 => {
            writeln!(parts, "{} extras, the last {last}", extras.len())
        }
        _ => push_each(parts, extras),
    }
}

fn push_each(parts: &mut String, extras: &[String]) -> Result<(), AllocError> {
    for extra in extras {
        writeln!(parts, "extra {extra}")?;
    }
    Ok(())
}
