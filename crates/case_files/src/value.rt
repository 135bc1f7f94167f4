//! What the values of a case stand for.
//!
//! A text is written as it is, or in pieces: a list of texts, of bytes as numbers, and of tables
//! with a `text` that stands so many `times`, where the number of each time is put for `#`.

use std::alloc::Global;
use toml::{Table, Value};

/// The text that the value of the key stands for; none where the key is absent.
pub fn text(alloc: Global, case: &Table, key: &str) -> anyhow::Result<String> {
    Ok(String::from_utf8(bytes(alloc, case, key)?)?)
}

/// The bytes that the value of the key stands for; none where the key is absent.
pub fn bytes(alloc: Global, case: &Table, key: &str) -> anyhow::Result<Vec<u8>> {
    let mut bytes = Vec::new(alloc);
    match case.get(key) {
        Some(Value::Array(pieces)) => push_pieces(alloc, &mut bytes, pieces)?,
        Some(piece) => push_piece(alloc, &mut bytes, piece)?,
        None => (),
    }
    Ok(bytes)
}

fn push_pieces(alloc: Global, bytes: &mut Vec<u8>, pieces: &[Value]) -> anyhow::Result<()> {
    for piece in pieces {
        push_piece(alloc, bytes, piece)?;
    }
    Ok(())
}

fn push_piece(alloc: Global, bytes: &mut Vec<u8>, piece: &Value) -> anyhow::Result<()> {
    match piece {
        Value::String(text) => Ok(bytes.extend_from_slice(text.as_bytes())?),
        Value::Integer(byte) => Ok(bytes.push(u8::try_from(*byte)?)?),
        Value::Table(table) => push_repeated(alloc, bytes, table),
        _ => Err(anyhow::anyhow!("a piece is no text, no byte and no table")),
    }
}

fn push_repeated(alloc: Global, bytes: &mut Vec<u8>, table: &Table) -> anyhow::Result<()> {
    match (table.get("text"), table.get("times")) {
        (Some(Value::String(text)), Some(Value::Integer(times))) => {
            push_times(alloc, bytes, text.as_str(), *times)
        }
        _ => Err(anyhow::anyhow!("a piece has no text or no times")),
    }
}

fn push_times(alloc: Global, bytes: &mut Vec<u8>, text: &str, times: i64) -> anyhow::Result<()> {
    for number in 0..times {
        if text.contains('#') {
            push_numbered(alloc, bytes, text, number)?;
        } else {
            bytes.extend_from_slice(text.as_bytes())?;
        }
    }
    Ok(())
}

fn push_numbered(
    alloc: Global,
    bytes: &mut Vec<u8>,
    text: &str,
    number: i64,
) -> anyhow::Result<()> {
    let number = number.to_string(alloc)?;
    let text = text.replace(alloc, "#", number.as_str())?;
    Ok(bytes.extend_from_slice(text.as_bytes())?)
}

/// The values of the list of the key; none where the key is absent.
pub fn list<'a>(case: &'a Table, key: &str) -> &'a [Value] {
    match case.get(key) {
        Some(Value::Array(values)) => values.as_slice(),
        _ => &[],
    }
}

/// The texts of the list of the key, as they are written; none where the key is absent.
pub fn texts<'a>(alloc: Global, case: &'a Table, key: &str) -> anyhow::Result<Vec<&'a str>> {
    let mut texts = Vec::new(alloc);
    for value in list(case, key) {
        if let Value::String(text) = value {
            texts.push(text.as_str())?;
        }
    }
    Ok(texts)
}
