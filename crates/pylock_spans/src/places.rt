//! The places of a lock.

ghost use Rattle.std.specs.Prelude.{◌≡◌, ◌≤◌, ℕ, IfOk, IfSome, IsSome, None, Ok, length};
ghost use Rattle.toml.specs.Parse.{parse_document, skip_bom};
ghost use Rattle.pylock_spans.specs.Places.{AreStarts, IsPlaceAt, IsStart};

use crate::place::Place;
use crate::reading::{Line, between, line_at};
use crate::search::{Scope, behind_element, element_at, find_in_lines, find_in_value, inside};
use crate::start::{EntryStart, TEXT_START, moved};
use crate::step::Step;
use std::alloc::{AllocError, Global};
use std::marker::Model;
use toml_parser::Key;
use toml_parser::text::{byte_at, first};

/// Where the entries of a lock stand in its text, and by a search also their keys.
pub struct Places<'t> {
    text: &'t str,
    entries: Vec<EntryStart>,
}

impl<'t> Model for Places<'t> {
    ghost use Rattle.pylock_spans.specs.Places.{AreStarts, PlacesValue};

    ghost Value = { PlacesValue };

    ghost view = { λ p. record {
      text = p.text.now;
      entries = p.entries.items;
    } };

    ghost invariant = { λ p. AreStarts p.text.now p.entries.items };
}

impl<'t> Drop for Places<'t> {
    fn drop(self) {
        let Places {
            text: _,
            entries: _,
        } = self;
    }
}

impl<'t> Places<'t> {
    /// The places of a lock; none where the text is no TOML.
    pub fn read(alloc: Global, text: &'t str) -> Result<Option<Places<'t>>, AllocError>
        ensures none { result ≡ Ok None → parse_document text.now ≡ None }
        ensures some { IfOk result (λ found. IfSome found (λ places.
            IsSome (parse_document text.now) × (places.text ≡ skip_bom text.now))) }
    {
        match toml::table_from_str(alloc, text) {
            Ok(_) => {}
            Err(error) if error.is_memory() => return Err(AllocError),
            Err(_) => return Ok(None),
        }
        Ok(Some(Places::of_toml(alloc, text)?))
    }

    /// The places of a text that was read as TOML before, which isn't read as that again. Of
    /// another text it has the places up to where that is none.
    pub fn of_toml(alloc: Global, text: &'t str) -> Result<Places<'t>, AllocError>
        ensures { IfOk result (λ places. places.text ≡ skip_bom text.now) }
    {
        let text = without_mark(text);
        let starts = entry_starts(alloc, text)?;
        let entries = placed(alloc, text, starts.as_slice())?;
        Ok(Places { text, entries })
    }

    /// Where the entry of this number begins, from 1: the header `[[packages]]`, or the element of
    /// a list.
    pub fn entry(&self, number: usize) -> Option<Place>
        ensures { IfSome result (λ place. (at : ℕ) × IsPlaceAt self.now.text at place) }
    {
        match self.region(number) {
            Some((start, _)) if number > 0 => place_in(self.text, start, 0),
            _ => None,
        }
    }

    /// Where the first key or header stands that leads to what the path names, in the entry of this
    /// number; in the head, where the number is 0.
    pub fn key(
        &self,
        alloc: Global,
        number: usize,
        path: &[Step<'_>],
    ) -> Result<Option<Place>, AllocError>
        ensures { IfOk result (λ found. IfSome found (λ place.
            (at : ℕ) × IsPlaceAt self.now.text at place)) }
    {
        let Some((start, region)) = self.region(number) else {
            return Ok(None);
        };
        match find_in(alloc, region, number == 0, path)? {
            Some(at) => Ok(place_in(self.text, start, at)),
            None => Ok(None),
        }
    }

    /// Where the entry of this number begins, and the text from there to the next entry.
    fn region(&self, number: usize) -> Option<(EntryStart, &'t str)>
        ensures { IfSome result (λ region. IsStart self.now.text region.0) }
    {
        let Some(before) = number.checked_sub(1) else {
            return Some((TEXT_START, self.text));
        };
        let start = *self.entries.get(before)?;
        let end = match self.entries.get(number) {
            Some(next) => next.at,
            None => self.text.len(),
        };
        Some((start, between(self.text, start.at, end)?))
    }
}

/// The place so many bytes behind a start.
fn place_in(text: &str, start: EntryStart, bytes: usize) -> Option<Place>
    requires { IsStart text.now start }
    ensures { IfSome result (λ place. (at : ℕ) × (start.at ≤ at) × IsPlaceAt text.now at place) }
{
    let at = start.at.checked_add(bytes)?;
    Some(moved(start, text, at)?.place)
}

/// Where the text from an entry on, or the whole text, has what the path leads to.
fn find_in(
    alloc: Global,
    text: &str,
    is_head: bool,
    path: &[Step<'_>],
) -> Result<Option<usize>, AllocError> {
    if path.is_empty() {
        Ok(Some(0))
    } else if is_head {
        find_in_lines(alloc, text, Scope::Head, path)
    } else if first(text) == b'[' {
        find_in_lines(alloc, text, Scope::Entry, path)
    } else {
        find_in_value(alloc, text, 0, path, 0)
    }
}

/// The text without the byte order mark that it may begin with.
fn without_mark(text: &str) -> &str
    ensures { result.now ≡ skip_bom text.now }
{
    if first(text) == 0xEF && byte_at(text, 1) == 0xBB && byte_at(text, 2) == 0xBF {
        &text[3..]
    } else {
        text
    }
}

/// Where the entries begin, in bytes from the beginning of the text.
fn entry_starts(alloc: Global, text: &str) -> Result<Vec<usize>, AllocError> {
    let mut starts = Vec::new(alloc);
    let mut is_head = true;
    let mut at: usize = 0;
    for _ in 0..text.len() {
        let Some(found) = line_at(alloc, text, at)? else {
            return Ok(starts);
        };
        match &found.line {
            Line::Header { key, of_array } => {
                is_head = false;
                if *of_array && is_packages(key) {
                    starts.push(found.start)?;
                }
            }
            Line::Pair(pair) => {
                if is_head && is_packages(&pair.key) {
                    push_elements(alloc, &mut starts, text, found.start + pair.before_value)?;
                }
            }
        }
        at = found.end;
    }
    Ok(starts)
}

/// Adds where the elements of an array begin.
fn push_elements(
    alloc: Global,
    starts: &mut Vec<usize>,
    text: &str,
    array: usize,
) -> Result<(), AllocError> {
    let Some(mut at) = inside(text, array, b'[') else {
        return Ok(());
    };
    for _ in 0..text.len() {
        let Some(element) = element_at(text, at) else {
            return Ok(());
        };
        starts.push(element)?;
        match behind_element(alloc, text, at)? {
            Some(next) => at = next,
            None => return Ok(()),
        }
    }
    Ok(())
}

fn is_packages(key: &Key) -> bool {
    key.path.is_empty() && key.last.as_str() == "packages"
}

/// The places of these bytes of the text, one pass for all.
fn placed(alloc: Global, text: &str, starts: &[usize]) -> Result<Vec<EntryStart>, AllocError>
    ensures { IfOk result (λ entries. AreStarts text.now entries.items) }
{
    let mut entries = Vec::with_capacity(alloc, starts.len())?;
    let mut last = TEXT_START;
    for at in starts {
        let Some(start) = moved(last, text, *at) else {
            return Ok(entries);
        };
        entries.push(start)?;
        last = start;
    }
    Ok(entries)
}
