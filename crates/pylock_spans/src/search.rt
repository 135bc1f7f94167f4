//! The search for a key of a document.

ghost use Rattle.std.specs.Prelude.{◌≤◌, IfSome, length};

use crate::reading::{Line, behind_blank, line_at, read_pair, rest_of, value_length};
use crate::step::Step;
use std::alloc::{AllocError, Global};
use toml_parser::Key;
use toml_parser::text::first;

/// The table in which a path begins.
#[derive(Clone, Copy, PartialEq, Eq)]
pub(crate) enum Scope {
    /// That of the whole document.
    Head,
    /// The last element of `packages`.
    Entry,
}

/// What a key of the document has to do with a path.
#[derive(Clone, Copy)]
enum Lead {
    /// It leads elsewhere.
    Elsewhere,
    /// The path ends at it.
    Ends,
    /// So many steps of the path lead to what it names.
    Leads(usize),
}

/// Where a search goes on.
#[derive(Clone, Copy)]
enum Next {
    /// The path ends here.
    Here(usize),
    /// It goes on in the value here, behind so many steps.
    In(usize, usize),
}

// ---- keys and paths

/// What a dotted key has to do with a path, of which so many steps lead to its table.
fn lead_of(key: &Key, path: &[Step<'_>], steps: usize) -> Lead {
    let mut steps = steps;
    for part in key.path.iter() {
        match lead_of_part(part.as_str(), path, steps) {
            Lead::Leads(more) => steps = more,
            lead => return lead,
        }
    }
    lead_of_part(key.last.as_str(), path, steps)
}

/// What a part of a key has to do with a path, of which so many steps lead to the part.
fn lead_of_part(part: &str, path: &[Step<'_>], steps: usize) -> Lead {
    match path.get(steps) {
        Some(Step::Key(key)) if *key == part => {
            let steps = steps + 1;
            if steps == path.len() {
                Lead::Ends
            } else {
                Lead::Leads(steps)
            }
        }
        _ => Lead::Elsewhere,
    }
}

/// What a header has to do with a path, where the array at each step of the path has had so many
/// elements in the table that the path leads to.
fn lead_of_header(
    key: &Key,
    of_array: bool,
    scope: Scope,
    path: &[Step<'_>],
    counts: &mut Vec<usize>,
) -> Lead {
    if scope == Scope::Head {
        return lead_of_parts(key, 0, of_array, path, counts);
    }
    match key.path.first() {
        None if key.last.as_str() == "packages" => Lead::Leads(0),
        Some(part) if part.as_str() == "packages" => lead_of_parts(key, 1, of_array, path, counts),
        _ => Lead::Elsewhere,
    }
}

/// The same of the parts of its key behind the first `above`.
fn lead_of_parts(
    key: &Key,
    above: usize,
    of_array: bool,
    path: &[Step<'_>],
    counts: &mut Vec<usize>,
) -> Lead {
    let mut steps: usize = 0;
    for part in key.path.iter().skip(above) {
        match lead_of_part(part.as_str(), path, steps) {
            Lead::Leads(more) => match lead_of_element(path, counts, more, false) {
                Lead::Leads(more) => steps = more,
                lead => return lead,
            },
            lead => return lead,
        }
    }
    match lead_of_part(key.last.as_str(), path, steps) {
        Lead::Leads(steps) => lead_of_element(path, counts, steps, of_array),
        lead => lead,
    }
}

/// Whether the element that a header names, a new one or the last, is the one that the path has at
/// this step. A step that is no element leads on.
fn lead_of_element(path: &[Step<'_>], counts: &mut Vec<usize>, steps: usize, is_new: bool) -> Lead {
    let Some(Step::Element(wanted)) = path.get(steps) else {
        return Lead::Leads(steps);
    };
    let Some(count) = counts.get_mut(steps) else {
        return Lead::Elsewhere;
    };
    if is_new {
        *count = count.saturating_add(1);
    }
    if *count != *wanted {
        Lead::Elsewhere
    } else if steps + 1 == path.len() {
        Lead::Ends
    } else {
        Lead::Leads(steps + 1)
    }
}

// ---- lines

/// Where the lines of a text have what the path leads to, in bytes from its beginning.
pub(crate) fn find_in_lines(
    alloc: Global,
    text: &str,
    scope: Scope,
    path: &[Step<'_>],
) -> Result<Option<usize>, AllocError> {
    let mut counts: Vec<usize> = Vec::from_elem(alloc, 0, path.len())?;
    let mut section = Lead::Leads(0);
    let mut at: usize = 0;
    for _ in 0..text.len() {
        let Some(found) = line_at(alloc, text, at)? else {
            return Ok(None);
        };
        let lead = match &found.line {
            Line::Header { key, of_array } => {
                section = lead_of_header(key, *of_array, scope, path, &mut counts);
                section
            }
            Line::Pair(pair) => lead_of_pair(&pair.key, section, path),
        };
        match (lead, &found.line) {
            (Lead::Ends, _) => return Ok(Some(found.start)),
            (Lead::Leads(steps), Line::Pair(pair)) => {
                return find_in_value(alloc, text, found.start + pair.before_value, path, steps);
            }
            _ => at = found.end,
        }
    }
    Ok(None)
}

/// What the key of a pair has to do with a path, in the table of a header.
fn lead_of_pair(key: &Key, section: Lead, path: &[Step<'_>]) -> Lead {
    match section {
        Lead::Leads(steps) => lead_of(key, path, steps),
        _ => Lead::Elsewhere,
    }
}

// ---- values

/// Where a value that begins at this byte, behind so many steps, has what the path leads to.
pub(crate) fn find_in_value(
    alloc: Global,
    text: &str,
    at: usize,
    path: &[Step<'_>],
    steps: usize,
) -> Result<Option<usize>, AllocError> {
    let mut next = Next::In(at, steps);
    for _ in 0..path.len() {
        let Next::In(at, steps) = next else {
            break;
        };
        match next_in_value(alloc, text, at, path, steps)? {
            Some(found) => next = found,
            None => return Ok(None),
        }
    }
    match next {
        Next::Here(at) => Ok(Some(at)),
        Next::In(_, _) => Ok(None),
    }
}

/// Where the search goes on that has come to the value here, behind so many steps.
fn next_in_value(
    alloc: Global,
    text: &str,
    at: usize,
    path: &[Step<'_>],
    steps: usize,
) -> Result<Option<Next>, AllocError> {
    match path.get(steps) {
        Some(Step::Element(position)) => match next_element(alloc, text, at, *position)? {
            Some(at) if steps + 1 < path.len() => Ok(Some(Next::In(at, steps + 1))),
            Some(at) => Ok(Some(Next::Here(at))),
            None => Ok(None),
        },
        Some(Step::Key(_)) => next_member(alloc, text, at, path, steps),
        None => Ok(None),
    }
}

/// Where the element of an array at this position begins, from 1.
fn next_element(
    alloc: Global,
    text: &str,
    array: usize,
    position: usize,
) -> Result<Option<usize>, AllocError> {
    let Some(mut at) = inside(text, array, b'[') else {
        return Ok(None);
    };
    for _ in 1..position {
        match behind_element(alloc, text, at)? {
            Some(next) => at = next,
            None => return Ok(None),
        }
    }
    Ok(element_at(text, at))
}

/// Where what follows the bracket begins, where this bracket stands at the byte.
pub(crate) fn inside(text: &str, at: usize, bracket: u8) -> Option<usize> {
    let rest = rest_of(text, at)?;
    if first(rest) != bracket {
        return None;
    }
    at.checked_add(1)
}

/// Where the element begins that follows this byte of an array, if one does.
pub(crate) fn element_at(text: &str, at: usize) -> Option<usize>
    ensures { IfSome result (λ start. start ≤ length text.now) }
{
    let at = behind_blank(text, at)?;
    match first(rest_of(text, at)?) {
        b']' | b'}' | 0 => None,
        _ => Some(at),
    }
}

/// What follows the element that follows this byte of an array, and its comma.
pub(crate) fn behind_element(
    alloc: Global,
    text: &str,
    at: usize,
) -> Result<Option<usize>, AllocError> {
    let Some(at) = element_at(text, at) else {
        return Ok(None);
    };
    let Some(element) = rest_of(text, at) else {
        return Ok(None);
    };
    match value_length(alloc, element)? {
        Some(length) => Ok(behind_comma(text, at + length)),
        None => Ok(None),
    }
}

/// What follows the comma that follows this byte; where none does, this byte.
fn behind_comma(text: &str, at: usize) -> Option<usize> {
    let comma = behind_blank(text, at)?;
    match first(rest_of(text, comma)?) {
        b',' => comma.checked_add(1),
        _ => Some(at),
    }
}

/// What a path that goes on with a key leads to in an inline table.
fn next_member(
    alloc: Global,
    text: &str,
    table: usize,
    path: &[Step<'_>],
    steps: usize,
) -> Result<Option<Next>, AllocError> {
    let Some(mut at) = inside(text, table, b'{') else {
        return Ok(None);
    };
    for _ in 0..text.len() {
        let Some(member) = element_at(text, at) else {
            return Ok(None);
        };
        let Some(rest) = rest_of(text, member) else {
            return Ok(None);
        };
        let Some(pair) = read_pair(alloc, rest)? else {
            return Ok(None);
        };
        match lead_of(&pair.key, path, steps) {
            Lead::Ends => return Ok(Some(Next::Here(member))),
            Lead::Leads(steps) => return Ok(Some(Next::In(member + pair.before_value, steps))),
            Lead::Elsewhere => {}
        }
        match behind_comma(text, member + pair.length) {
            Some(next) => at = next,
            None => return Ok(None),
        }
    }
    Ok(None)
}
