//! Values as they are shown to a person.

use crate::one_line::OneLine;
use crate::one_line_json::OneLineJson;
use pylock_shown::Shown;
use std::fmt;
use std::fmt::{Formatter, InlineText, Write};

/// How many characters of a value are shown.
const MOST_CHARACTERS: usize = 60;

/// How many bytes hold so many characters and one more, with the three dots of a text that is cut.
const MOST_BYTES: usize = 247;

/// What stands where something else is to stand: a text between backquotes, and another value as
/// TOML or JSON on one line; of a long one its prefix. Each text is hidden before it is cut.
#[derive(Clone, Copy)]
pub(crate) enum ShownValue<'a> {
    Nothing,
    Text(&'a str),
    Toml(&'a toml::Value),
    Json(&'a serde_json::Value),
}

impl<'a> ShownValue<'a> {
    /// The value of a key of a lock.
    pub(crate) fn toml(field: Option<&'a toml::Value>) -> ShownValue<'a> {
        match field {
            None => ShownValue::Nothing,
            Some(toml::Value::String(text)) => ShownValue::Text(text.as_str()),
            Some(value) => ShownValue::Toml(value),
        }
    }

    /// The value of a member of an environment.
    pub(crate) fn json(member: Option<&'a serde_json::Value>) -> ShownValue<'a> {
        match member {
            None => ShownValue::Nothing,
            Some(serde_json::Value::String(text)) => ShownValue::Text(text.as_str()),
            Some(value) => ShownValue::Json(value),
        }
    }
}

impl fmt::Display for ShownValue<'_> {
    fn fmt<W: Write>(&self, f: &mut Formatter<W>) -> fmt::Result {
        match self {
            ShownValue::Nothing => f.write_str("nothing"),
            ShownValue::Text(text) => write_quoted(f, text),
            ShownValue::Toml(value) => {
                write_prefix(f, InlineText::<MOST_BYTES>::of(OneLine(value)).as_str())
            }
            ShownValue::Json(value) => {
                write_prefix(f, InlineText::<MOST_BYTES>::of(OneLineJson(value)).as_str())
            }
        }
    }
}

/// The text as it is shown to a person; of a long one as much as a value shows of it.
pub(crate) fn shown_front(text: &str) -> InlineText<MOST_BYTES> {
    InlineText::of(Shown(text))
}

fn write_quoted<W: Write>(f: &mut Formatter<W>, text: &str) -> fmt::Result {
    f.write_str("`")?;
    write_prefix(f, shown_front(text).as_str())?;
    f.write_str("`")
}

/// Writes the text, or of a long one its first characters and three dots.
fn write_prefix<W: Write>(f: &mut Formatter<W>, text: &str) -> fmt::Result {
    for character in text.chars().take(MOST_CHARACTERS) {
        f.write_char(character)?;
    }
    if text.chars().nth(MOST_CHARACTERS).is_some() {
        f.write_str("...")?;
    }
    Ok(())
}
