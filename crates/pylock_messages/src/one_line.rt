//! TOML values on one line.

use crate::shown_value::shown_front;
use std::fmt;
use std::fmt::{Formatter, Write};
use toml::{Table, Value};
use toml_writer::{write_key, write_string};

/// A value as TOML that has no line ends, in which each key and each text is as it is shown to a
/// person.
#[derive(Clone, Copy)]
pub(crate) struct OneLine<'a>(pub(crate) &'a Value);

impl fmt::Display for OneLine<'_> {
    fn fmt<W: Write>(&self, f: &mut Formatter<W>) -> fmt::Result {
        write_value(f, self.0)
    }
}

#[cycle(write)]
fn write_value<W: Write>(f: &mut Formatter<W>, value: &Value) -> fmt::Result {
    match value {
        Value::String(text) => write_shown_text(f, text.as_str()),
        Value::Array(values) => write_values(f, values),
        Value::Table(table) => write_table(f, table),
        _ => write!(f, "{value}"),
    }
}

#[cycle(write)]
fn write_values<W: Write>(f: &mut Formatter<W>, values: &Vec<Value>) -> fmt::Result {
    f.write_str("[")?;
    let mut is_first = true;
    for value in values {
        f.write_str(if is_first { "" } else { ", " })?;
        write_value(f, value)?;
        is_first = false;
    }
    f.write_str("]")
}

#[cycle(write)]
fn write_table<W: Write>(f: &mut Formatter<W>, table: &Table) -> fmt::Result {
    if table.is_empty() {
        return f.write_str("{}");
    }
    let mut is_first = true;
    for (key, value) in table.iter() {
        f.write_str(if is_first { "{ " } else { ", " })?;
        write_shown_key(f, key.as_str())?;
        f.write_str(" = ")?;
        write_value(f, value)?;
        is_first = false;
    }
    f.write_str(" }")
}

/// Writes a key as it is shown. By itself, since its text would else take stack in each call of
/// those that call one another.
#[inline(never)]
fn write_shown_key<W: Write>(f: &mut Formatter<W>, key: &str) -> fmt::Result {
    write_key(f, shown_front(key).as_str())
}

/// Writes a text as it is shown, by itself too.
#[inline(never)]
fn write_shown_text<W: Write>(f: &mut Formatter<W>, text: &str) -> fmt::Result {
    write_text(f, shown_front(text).as_str())
}

/// Writes a text. One with LF in it is escaped, since TOML's other forms would break the line.
fn write_text<W: Write>(f: &mut Formatter<W>, text: &str) -> fmt::Result {
    if text.contains('\n') {
        write_escaped(f, text)
    } else {
        write_string(f, text)
    }
}

fn write_escaped<W: Write>(f: &mut Formatter<W>, text: &str) -> fmt::Result {
    f.write_str("\"")?;
    for character in text.chars() {
        write_character(f, character)?;
    }
    f.write_str("\"")
}

fn write_character<W: Write>(f: &mut Formatter<W>, character: char) -> fmt::Result {
    match character {
        '"' => f.write_str("\\\""),
        '\\' => f.write_str("\\\\"),
        '\n' => f.write_str("\\n"),
        '\r' => f.write_str("\\r"),
        '\t' => f.write_str("\\t"),
        '\0'..='\u{1f}' | '\u{7f}' => write!(f, "\\u{:04X}", u32::from(character)),
        _ => f.write_char(character),
    }
}
