//! The advisories of a file.
ghost use Rattle.std.specs.Prelude.{◌≡◌, Err, IfOk, map, option_copied, option_map};
ghost use Rattle.serde_json.specs.View.{items_view, view};
ghost use Rattle.pytext.specs.Agreement.{Gives};
ghost use Rattle.pylock_advisories.specs.declared.error.AdvisoriesError.TheVariants as file;
ghost use Rattle.pylock_advisories.specs.declared.error.AdvisoryError.TheVariants as error;
ghost use Rattle.pylock_advisories.specs.File.{advisories_of, at_place, is_blank, is_lf, json_of};
ghost use Rattle.pylock_advisories.specs.File.{line_advisory, lines_from, lines_of, utf8_text};
ghost use Rattle.pylock_advisories.specs.File.{value_advisories, values_from};
ghost use Rattle.pylock_advisories.specs.Reading.{advisory_in};
ghost use Rattle.serde_json.specs.Data.{item, no_items};
ghost use Rattle.serde_json.specs.Find.{as_array};

use super::advisory::read_advisory;
use crate::advisory::Advisory;
use crate::error::{AdvisoriesError, AdvisoryError};
use serde_json::Value;
use std::alloc::{AllocError, Global};

/// The advisories of a file's bytes.
pub(crate) fn read_file(alloc: Global, bytes: &[u8]) -> Result<Vec<Advisory>, AdvisoriesError>
    ensures { Gives file.Memory (λ read. read.items) result (advisories_of bytes.now) }
{
    match json(alloc, bytes)? {
        Some(value) => read_value(alloc, &value),
        None => {
            let lines = lines(alloc, bytes)?;
            read_lines(alloc, &lines)
        }
    }
}

/// The bytes as text, where they are UTF-8.
#[tactic(auto, using(crate::proofs::TextLemmas::utf8_tests))]
fn as_text(bytes: &[u8]) -> Option<&str>
    ensures { option_copied result ≡ utf8_text bytes.now }
{
    std::str::from_utf8(bytes).ok()
}

/// The JSON value that the bytes are.
fn json(alloc: Global, bytes: &[u8]) -> Result<Option<Value>, AllocError>
    ensures { IfOk result (λ value. option_map view value ≡ json_of bytes.now) }
{
    let Some(text) = as_text(bytes) else {
        return Ok(None);
    };
    match Value::from_str(alloc, text) {
        Ok(value) => Ok(Some(value)),
        Err(fault) if fault.is_memory() => Err(AllocError),
        Err(_) => Ok(None),
    }
}

/// The advisories of a file that is one value.
fn read_value(alloc: Global, value: &Value) -> Result<Vec<Advisory>, AdvisoriesError>
    ensures { Gives file.Memory (λ read. read.items) result
        (value_advisories (view value.now) (as_array (view value.now))) }
{
    match value.as_array() {
        Some(values) => read_values(alloc, values),
        None => read_one(alloc, value),
    }
}

fn read_one(alloc: Global, value: &Value) -> Result<Vec<Advisory>, AdvisoriesError>
    ensures { Gives file.Memory (λ read. read.items) result
        (values_from 1 (item (view value.now) no_items)) }
{
    let advisory = at_place(1, read_advisory(alloc, value))?;
    let mut read = Vec::new(alloc);
    read.push(advisory)?;
    Ok(read)
}

#[tactic(auto, using(crate::proofs::PrefixLemmas::prefixes))]
fn read_values(alloc: Global, values: &[Value]) -> Result<Vec<Advisory>, AdvisoriesError>
    ensures { Gives file.Memory (λ read. read.items) result
        (values_from 1 (items_view values.now)) }
{
    let mut read = Vec::with_capacity(alloc, values.len())?;
    for (index, value) in values.iter().enumerate() {
        read.push(at_place(index + 1, read_advisory(alloc, value))?)?;
    }
    Ok(read)
}

/// The lines that are not blank.
fn lines(alloc: Global, bytes: &[u8]) -> Result<Vec<&[u8]>, AllocError>
    ensures { IfOk result (λ lines. map (λ line. line.now) lines.items ≡ lines_of bytes.now) }
{
    bytes
        .split(|byte| is_lf(*byte))
        .filter(|line| !is_blank(line))
        .collect(alloc)
}

fn is_lf(byte: u8) -> bool
    ensures { result ≡ is_lf byte }
{
    byte == b'\n'
}

/// Whether a line has only JSON's white space.
fn is_blank(line: &[u8]) -> bool
    ensures { result ≡ is_blank line.now }
{
    line.iter()
        .all(|byte| *byte == b'\t' || *byte == b'\r' || *byte == b' ')
}

#[tactic(auto, using(crate::proofs::PrefixLemmas::prefixes))]
fn read_lines(alloc: Global, lines: &[&[u8]]) -> Result<Vec<Advisory>, AdvisoriesError>
    ensures { Gives file.Memory (λ read. read.items) result
        (lines_from 1 (map (λ line. line.now) lines.now)) }
{
    let mut read = Vec::with_capacity(alloc, lines.len())?;
    for (index, line) in lines.iter().enumerate() {
        read.push(at_place(index + 1, read_line(alloc, line))?)?;
    }
    Ok(read)
}

fn read_line(alloc: Global, line: &[u8]) -> Result<Advisory, AdvisoryError>
    ensures { Gives error.Memory (λ advisory. advisory) result (line_advisory line.now) }
{
    match json(alloc, line)? {
        Some(value) => read_advisory(alloc, &value),
        None => Err(AdvisoryError::Json),
    }
}

/// The advisory, where it is refused with its place.
fn at_place(
    place: usize,
    read: Result<Advisory, AdvisoryError>,
) -> Result<Advisory, AdvisoriesError>
    ensures value { Gives file.Memory (λ advisory. advisory) result (at_place place read) }
    ensures memory { read ≡ Err error.Memory → result ≡ Err file.Memory }
{
    match read {
        Ok(advisory) => Ok(advisory),
        Err(AdvisoryError::Memory) => Err(AdvisoriesError::Memory),
        Err(refusal) => Err(AdvisoriesError::Advisory(place, refusal)),
    }
}
