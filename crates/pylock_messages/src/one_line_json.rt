//! JSON values on one line.

use crate::shown_value::shown_front;
use serde_json::{Map, Value};
use std::fmt;
use std::fmt::{Formatter, Write};

/// A value as JSON without white space, in which each key and each text is as it is shown to a
/// person.
#[derive(Clone, Copy)]
pub(crate) struct OneLineJson<'a>(pub(crate) &'a Value);

impl fmt::Display for OneLineJson<'_> {
    fn fmt<W: Write>(&self, f: &mut Formatter<W>) -> fmt::Result {
        write_value(f, self.0)
    }
}

#[cycle(write)]
fn write_value<W: Write>(f: &mut Formatter<W>, value: &Value) -> fmt::Result {
    match value {
        Value::String(text) => write_text(f, text.as_str()),
        Value::Array(values) => write_values(f, values),
        Value::Object(members) => write_members(f, members),
        _ => write!(f, "{value}"),
    }
}

#[cycle(write)]
fn write_values<W: Write>(f: &mut Formatter<W>, values: &Vec<Value>) -> fmt::Result {
    f.write_str("[")?;
    let mut is_first = true;
    for value in values {
        f.write_str(if is_first { "" } else { "," })?;
        write_value(f, value)?;
        is_first = false;
    }
    f.write_str("]")
}

#[cycle(write)]
fn write_members<W: Write>(f: &mut Formatter<W>, members: &Map<String, Value>) -> fmt::Result {
    f.write_str("{")?;
    let mut is_first = true;
    for (key, value) in members.iter() {
        f.write_str(if is_first { "" } else { "," })?;
        write_text(f, key.as_str())?;
        f.write_str(":")?;
        write_value(f, value)?;
        is_first = false;
    }
    f.write_str("}")
}

/// Writes a text as it is shown. By itself, since its text would else take stack in each call of
/// those that call one another.
#[inline(never)]
fn write_text<W: Write>(f: &mut Formatter<W>, text: &str) -> fmt::Result {
    f.write_str("\"")?;
    for character in shown_front(text).as_str().chars() {
        write_character(f, character)?;
    }
    f.write_str("\"")
}

fn write_character<W: Write>(f: &mut Formatter<W>, character: char) -> fmt::Result {
    match character {
        '"' => f.write_str("\\\""),
        '\\' => f.write_str("\\\\"),
        '\u{8}' => f.write_str("\\b"),
        '\u{c}' => f.write_str("\\f"),
        '\n' => f.write_str("\\n"),
        '\r' => f.write_str("\\r"),
        '\t' => f.write_str("\\t"),
        '\0'..='\u{1f}' => write!(f, "\\u{:04x}", u32::from(character)),
        _ => f.write_char(character),
    }
}
