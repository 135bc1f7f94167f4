//! Values: strings, scalars, arrays and inline tables.
ghost use Rattle.std.specs.Prelude.{◌≡◌, ℕ, ◌<◌, ◌≤◌, IfOk, OnOk, length, string_bytes, true};
ghost use Rattle.std.specs.Prelude.{IfSome, None, Some};
ghost use Rattle.toml_parser.specs.Numbers.{unquoted};
ghost use Rattle.toml_parser.specs.Strings.{quoted, starts_string};
ghost use Rattle.toml.specs.Data.{get_member, no_items};
ghost use Rattle.toml.specs.View.{array_view, table_view, view};
ghost use Rattle.toml.specs.Tables.{no_nodes};
ghost use Rattle.toml.specs.Parse.{after_element, atom, items, members, scalar_data, val};
ghost use Rattle.pytoml.specs.Inner.{Reads, Shortens, read_scalar};
ghost use Rattle.pytoml.specs.Members.{with_member};

use crate::basic::basic_string;
use crate::date_time::plain_date_time;
use crate::fault::Unread;
use crate::key::key_equals;
use crate::number::plain_integer;
use crate::text::past_blank;
use std::alloc::Global;
use toml::value::Array;
use toml::{Table, Value};
use toml_parser::text::{byte_at, first, skip};
use toml_parser::{Scalar, quoted, starts_string, unquoted};

/// A value with arrays and inline tables at most `depth` deep.
#[cycle(value)]
pub(crate) fn value(alloc: Global, s: &str, depth: usize) -> Result<(Value, &str), Unread>
    ensures value { Reads view result (val depth s.now) }
    ensures shorter { Shortens s.now result }
{
    let byte = first(s);
    if byte != b'[' && byte != b'{' {
        return atom(alloc, s);
    }
    if depth == 0 {
        return Err(Unread::Shape);
    }
    if byte == b'[' {
        let (items, rest) = array(alloc, skip(s, 1), depth - 1)?;
        Ok((Value::Array(items), rest))
    } else {
        let (members, rest) = inline_table(alloc, skip(s, 1), depth - 1)?;
        Ok((Value::Table(members), rest))
    }
}

#[tactic(auto, unfolding(toml::specs::Parse::atom))]
fn atom(alloc: Global, s: &str) -> Result<(Value, &str), Unread>
    ensures value { Reads view result (atom s.now) }
    ensures shorter { Shortens s.now result }
{
    if starts_string(s) {
        let (text, rest) = string(alloc, s)?;
        Ok((Value::String(text), rest))
    } else {
        let (scalar, rest) = scalar(alloc, s)?;
        Ok((scalar, rest))
    }
}

/// A string. Those in apostrophes, and those in three quotes, are read by `toml_parser`.
fn string(alloc: Global, s: &str) -> Result<(String, &str), Unread>
    requires { starts_string s.now ≡ true }
    ensures value { Reads string_bytes result (quoted s.now) }
    ensures shorter { Shortens s.now result }
{
    if first(s) == b'"' {
        if byte_at(s, 1) != b'"' {
            return basic_string(alloc, skip(s, 1));
        }
        if byte_at(s, 2) != b'"' {
            return Ok((String::new(alloc), skip(s, 2)));
        }
    }
    quoted(alloc, s).map_err(Unread::of)
}

/// A boolean, a number or a date-time.
fn scalar(alloc: Global, s: &str) -> Result<(Value, &str), Unread>
    ensures value { Reads view result (read_scalar s.now) }
    ensures shorter { Shortens s.now result }
{
    if let Some((scalar, rest)) = plain_scalar(s) {
        return Ok((scalar_value(scalar), rest));
    }
    let (scalar, rest) = unquoted(alloc, s).map_err(Unread::of)?;
    Ok((scalar_value(scalar), rest))
}

/// A date-time or an integer of the form that nearly all have. None says nothing of the text.
fn plain_scalar(s: &str) -> Option<(Scalar, &str)>
    ensures value { IfSome result (λ p. unquoted s.now ≡ Some (p.0, p.1.now)) }
    ensures shorter { IfSome result (λ p. length p.1.now < length s.now) }
{
    if let Some((datetime, rest)) = plain_date_time(s) {
        return Some((Scalar::Datetime(datetime), rest));
    }
    let (integer, rest) = plain_integer(s)?;
    Some((Scalar::Integer(integer), rest))
}

fn scalar_value(scalar: Scalar) -> Value
    ensures { view result ≡ scalar_data scalar }
{
    match scalar {
        Scalar::Boolean(b) => Value::Boolean(b),
        Scalar::Integer(n) => Value::Integer(n),
        Scalar::Float(x) => Value::Float(x),
        Scalar::Datetime(datetime) => Value::Datetime(datetime),
    }
}

#[cycle(value)]
fn array(alloc: Global, s: &str, depth: usize) -> Result<(Array, &str), Unread>
    ensures value { (n : ℕ) → length s.now < n → Reads array_view result
        (items (val depth) n no_items s.now) }
    ensures shorter { Shortens s.now result }
{
    let mut found = Vec::new(alloc);
    let mut rest = s;
    'items: loop {
        let start = past_blank(rest);
        if first(start) == b']' {
            return Ok((found, skip(start, 1)));
        }
        let (item, after) = value(alloc, start, depth)?;
        found.push(item)?;
        rest = after_element(after, b']')?;
    }
}

#[cycle(value)]
fn inline_table(alloc: Global, s: &str, depth: usize) -> Result<(Table, &str), Unread>
    ensures value { (n : ℕ) → length s.now < n → Reads table_view result
        (members (val depth) n no_nodes s.now) }
    ensures shorter { Shortens s.now result }
{
    let mut found = Table::new(alloc);
    let mut rest = s;
    'members: loop {
        let start = past_blank(rest);
        if first(start) == b'}' {
            return Ok((found, skip(start, 1)));
        }
        let (key, at_value) = key_equals(alloc, start)?;
        let (member, after) = value(alloc, at_value, depth)?;
        insert_new(&mut found, key, member)?;
        rest = after_element(after, b'}')?;
    }
}

/// After a comma, or at the closing bracket.
#[tactic(auto, unfolding(toml::specs::Parse::after_element))]
pub(crate) fn after_element(s: &str, closing: u8) -> Result<&str, Unread>
    ensures value { IfOk result (λ rest. after_element closing s.now ≡ Some rest.now) }
    ensures within { IfOk result (λ rest. length rest.now ≤ length s.now) }
{
    let rest = past_blank(s);
    if first(rest) == b',' {
        Ok(skip(rest, 1))
    } else if first(rest) == closing {
        Ok(rest)
    } else {
        Err(Unread::Shape)
    }
}

/// Puts a member into a table that has none of this key.
pub(crate) fn insert_new(table: &mut Table, key: String, value: Value) -> Result<(), Unread>
    ensures absent { OnOk result (get_member (string_bytes key) (table_view table.old) ≡ None) }
    ensures put { OnOk result (table_view table.new
        ≡ with_member (string_bytes key) (view value) (table_view table.old)) }
{
    match table.insert(key, value)? {
        None => Ok(()),
        Some(_) => Err(Unread::Shape),
    }
}
