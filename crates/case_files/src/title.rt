//! The titles of cases.

use std::alloc::{AllocError, Global};
use toml::{Table, Value};

/// The title of a case: its name, or else the texts that it is given.
pub(crate) fn title(alloc: Global, case: &Table) -> Result<String, AllocError> {
    match case.get("name") {
        Some(Value::String(name)) => String::from_str(alloc, name.as_str()),
        _ => texts_of(alloc, case),
    }
}

/// The texts of a case in the order of their keys, with two spaces between them.
fn texts_of(alloc: Global, case: &Table) -> Result<String, AllocError> {
    let mut title = String::new(alloc);
    for value in case.values() {
        push_value(&mut title, value)?;
    }
    Ok(title)
}

fn push_value(title: &mut String, value: &Value) -> Result<(), AllocError> {
    match value {
        Value::String(text) => push_text(title, text.as_str()),
        Value::Array(values) => push_texts(title, values),
        _ => Ok(()),
    }
}

fn push_texts(title: &mut String, values: &[Value]) -> Result<(), AllocError> {
    for value in values {
        if let Value::String(text) = value {
            push_text(title, text.as_str())?;
        }
    }
    Ok(())
}

fn push_text(title: &mut String, text: &str) -> Result<(), AllocError> {
    if !title.is_empty() {
        title.push_str("  ")?;
    }
    title.push_str(text)
}
