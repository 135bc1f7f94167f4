//! Documents, a line at a time. Only what this short way gives has a clause; where it gives
//! nothing, `toml` decides, so no refusal is proved here.
ghost use Rattle.std.specs.Prelude.{◌≡◌, ◌<◌, ◌≤◌, [], IfOk, OnOk, Some, length, string_bytes};
ghost use Rattle.toml_parser.specs.Reading.{key_view};
ghost use Rattle.toml.specs.View.{table_view, view};
ghost use Rattle.toml.specs.Parse.{header_key, parse_document, parse_value};
ghost use Rattle.toml.specs.Parse as spec;
ghost use Rattle.pytoml.specs.Inner.{Reads, Shortens};
ghost use Rattle.toml.specs.Tables.{Document, array_table, no_nodes, std_table};
ghost use Rattle.toml.specs.Data.{Items, no_items};
ghost use Rattle.pytoml.specs.Elements.{LacksElements};
ghost use Rattle.pytoml.specs.Members.{with_elements};
ghost use Rattle.pytoml.specs.Draft.{Adds, Defines, IsDocument, Puts, array_header};

use crate::draft::Draft;
use crate::fault::Unread;
use crate::key::key_equals;
use crate::outline::{Elements, Outline};
use crate::text::{past_blank, past_ws};
use crate::value::value;
use std::alloc::Global;
use toml::{Table, Value};
use toml_parser::text::{byte_at, first, skip};
use toml_parser::{Key, RECURSION_LIMIT, dotted_key};

/// What the lines of a document are added to.
pub(crate) trait Lines {
    /// The documents that it stands for.
    ghost stands: { Self → Document → Type 0 };

    /// Adds a pair, with whose value the text begins, and gives what follows it.
    fn put<'a>(&mut self, alloc: Global, key: String, s: &'a str) -> Result<&'a str, Unread>
        ensures puts { Puts stands self.old self.new result (string_bytes key) s.now }
        ensures shorter { IfOk result (λ rest. length rest.now < length s.now) };

    /// Begins the table of a header.
    fn open_table(&mut self, alloc: Global, key: Key) -> Result<(), Unread>
        ensures { Defines stands self.old self.new result (key_view key, std_table) };

    /// Begins an element of an array of tables, which it may be the first of.
    fn open_element(&mut self, alloc: Global, key: Key) -> Result<(), Unread>
        ensures { Defines stands self.old self.new result (key_view key, array_table) };
}

/// The table that the text is without the elements that are handed out, and who took those; where
/// the short way knows its shape.
pub(crate) fn document_without<E: Elements>(
    alloc: Global,
    s: &str,
    elements: E,
) -> Result<(Table, E), Unread>
    requires { E.holds elements no_items }
    ensures { IfOk result (λ read. (taken : Items) × E.holds read.1 taken
        × (parse_document s.now ≡ Some (with_elements E.key taken (table_view read.0)))
        × LacksElements E.key taken (table_view read.0)) }
{
    let mut outline = Outline::new(alloc, elements);
    add_lines(alloc, s, &mut outline)?;
    outline.finish()
}

/// Adds the lines of a whole text to what stands for an empty document.
pub(crate) fn add_lines<L: Lines>(alloc: Global, s: &str, draft: &mut L) -> Result<(), Unread>
    requires { L.stands draft.old (no_nodes, []) }
    ensures { OnOk result ((doc : Document) × L.stands draft.new doc × IsDocument s.now doc) }
{
    let mut rest = past_mark(s);
    'lines: loop {
        let start = past_blank(rest);
        if start.is_empty() {
            return Ok(());
        }
        rest = line(alloc, start, draft)?;
    }
}

/// The value that the text is, where the short way knows its shape.
#[tactic(auto, unfolding(toml::specs::Parse::parse_value))]
pub(crate) fn whole_value(alloc: Global, s: &str) -> Result<Value, Unread>
    ensures { IfOk result (λ value. parse_value s.now ≡ Some (view value)) }
{
    let (value, rest) = value(alloc, past_mark(s), RECURSION_LIMIT)?;
    if rest.is_empty() {
        Ok(value)
    } else {
        Err(Unread::Shape)
    }
}

/// Without a byte order mark.
#[tactic(auto, unfolding(toml::specs::Parse::skip_bom))]
fn past_mark(s: &str) -> &str
    ensures rest { result.now ≡ spec.skip_bom s.now }
    ensures within { length result.now ≤ length s.now }
{
    if first(s) == 0xEF && byte_at(s, 1) == 0xBB && byte_at(s, 2) == 0xBF {
        &s[3..]
    } else {
        s
    }
}

/// Adds what a line says, and gives what follows it.
fn line<'a, L: Lines>(alloc: Global, s: &'a str, draft: &mut L) -> Result<&'a str, Unread>
    ensures adds { Adds L.stands draft.old draft.new result (spec.line s.now) }
    ensures shorter { IfOk result (λ rest. length rest.now < length s.now) }
{
    let rest = expression(alloc, s, draft)?;
    let end = past_ws(rest);
    if end.is_empty() || matches!(first(end), b'#' | b'\n' | b'\r') {
        Ok(rest)
    } else {
        Err(Unread::Shape)
    }
}

fn expression<'a, L: Lines>(alloc: Global, s: &'a str, draft: &mut L) -> Result<&'a str, Unread>
    ensures adds { Adds L.stands draft.old draft.new result (spec.expression s.now) }
    ensures shorter { IfOk result (λ rest. length rest.now < length s.now) }
{
    if first(s) == b'[' && byte_at(s, 1) == b'[' {
        array_header(alloc, skip(s, 2), draft)
    } else if first(s) == b'[' {
        let (key, rest) = header_key(alloc, skip(s, 1))?;
        draft.open_table(alloc, key)?;
        Ok(rest)
    } else {
        let (key, at_value) = key_equals(alloc, s)?;
        draft.put(alloc, key, at_value)
    }
}

/// The rest of a header in double brackets.
fn array_header<'a, L: Lines>(alloc: Global, s: &'a str, draft: &mut L) -> Result<&'a str, Unread>
    ensures adds { Adds L.stands draft.old draft.new result (array_header s.now) }
    ensures shorter { IfOk result (λ rest. length rest.now < length s.now) }
{
    let (key, rest) = header_key(alloc, s)?;
    if first(rest) != b']' {
        return Err(Unread::Shape);
    }
    draft.open_element(alloc, key)?;
    Ok(skip(rest, 1))
}

/// The key of a header and its first closing bracket.
#[tactic(auto, unfolding(toml::specs::Parse::header_key))]
fn header_key(alloc: Global, s: &str) -> Result<(Key, &str), Unread>
    ensures value { Reads key_view result (header_key s.now) }
    ensures shorter { Shortens s.now result }
{
    let (key, rest) = dotted_key(alloc, past_ws(s)).map_err(Unread::of)?;
    if first(rest) != b']' {
        return Err(Unread::Shape);
    }
    Ok((key, skip(rest, 1)))
}
