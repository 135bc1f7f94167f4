//! Codes as they are shown: without their marks, and with each text in them hidden.

ghost use Rattle.std.specs.Prelude.{◌≡◌, ◌<◌, ◌≤◌, ◌++◌, [], IfOk, IfSome, OnOk, filter, length};
ghost use Rattle.std.specs.Prelude.{not, string_bytes};
ghost use Rattle.pytoml_code.specs.Inner.Reading.{AfterByte, behind_end};
ghost use Rattle.pytoml_code.specs.Shown.{byte_value, digit_value, hidden_code, hidden_string};
ghost use Rattle.pytoml_code.specs.Shown.{is_mark, read_escape, read_number, read_text, shown};

use crate::text::push_quoted;
use pylock_shown::hidden;
use std::alloc::{AllocError, Global};

/// The value of a code as inline TOML, in which each text, keys too, is shown as
/// [`pylock_shown::hidden`] shows it. It takes memory for the code and its longest text, each some
/// times.
pub fn shown_code(alloc: Global, code: &[u8]) -> Result<String, AllocError>
    ensures { IfOk result (λ text. string_bytes text ≡ shown code.now) }
{
    let hidden = hidden_code(alloc, code)?;
    let bytes = without_marks(alloc, hidden.as_slice())?;
    String::from_utf8_lossy(alloc, bytes.as_slice())
}

fn without_marks(alloc: Global, code: &[u8]) -> Result<Vec<u8>, AllocError>
    ensures { IfOk result (λ bytes. bytes.items ≡ filter (λ b. not (is_mark b)) code.now) }
{
    let mut bytes = Vec::with_capacity(alloc, code.len())?;
    for byte in code {
        if *byte >= 32 {
            bytes.push(*byte)?;
        }
    }
    Ok(bytes)
}

/// A code in which each text is hidden.
fn hidden_code(alloc: Global, code: &[u8]) -> Result<Vec<u8>, AllocError>
    ensures { IfOk result (λ bytes. bytes.items ≡ hidden_code code.now) }
{
    let mut bytes = Vec::with_capacity(alloc, code.len())?;
    let mut left = code;
    while let [byte, rest @ ..] = left {
        if *byte == b'"' {
            let (text, behind) = read_text(alloc, rest)?;
            push_hidden_string(alloc, &mut bytes, text.as_slice())?;
            left = behind;
        } else {
            bytes.push(*byte)?;
            left = rest;
        }
    }
    Ok(bytes)
}

/// Adds a text as it is shown, as a basic string.
fn push_hidden_string(alloc: Global, out: &mut Vec<u8>, text: &[u8]) -> Result<(), AllocError>
    ensures { OnOk result (out.new.items ≡ out.old.items ++ hidden_string text.now) }
{
    let text = String::from_utf8_lossy(alloc, text)?;
    let shown = hidden(alloc, text.as_str())?;
    push_quoted(out, shown.as_str())
}

// ---- texts in a code

/// The text that ends with the next quotation mark, and what stands behind that.
fn read_text(alloc: Global, bytes: &[u8]) -> Result<(Vec<u8>, &[u8]), AllocError>
    ensures read { IfOk result (λ read. (read.0.items, hidden_code read.1.now)
        ≡ read_text bytes.now) }
    ensures shorter { IfOk result (λ read. length read.1.now ≤ length bytes.now) }
{
    let mut text = Vec::new(alloc);
    let mut left = bytes;
    while let Some((byte, rest)) = next_byte(left) {
        text.push(byte)?;
        left = rest;
    }
    Ok((text, behind_end(left)))
}

/// The next byte of a text, and what stands behind it; nothing where the text ends.
fn next_byte(bytes: &[u8]) -> Option<(u8, &[u8])>
    ensures read { AfterByte (read_text bytes.now) (behind_end bytes.now) result }
    ensures shorter { IfSome result (λ next. length next.1.now < length bytes.now) }
{
    match bytes {
        [] | [b'"', ..] => None,
        [b'\\', rest @ ..] => escaped_byte(rest),
        [byte, rest @ ..] => Some((*byte, rest)),
    }
}

/// The same behind a backslash, where no text ends.
fn escaped_byte(bytes: &[u8]) -> Option<(u8, &[u8])>
    ensures read { AfterByte (read_escape bytes.now) [] result }
    ensures shorter { IfSome result (λ next. length next.1.now < length bytes.now) }
{
    match bytes {
        [] => None,
        [b'u', rest @ ..] => numbered_byte(rest),
        [byte, rest @ ..] => Some((*byte, rest)),
    }
}

/// The same behind `\u`: two zeros, and two digits.
fn numbered_byte(bytes: &[u8]) -> Option<(u8, &[u8])>
    ensures read { AfterByte (read_number bytes.now) [] result }
    ensures shorter { IfSome result (λ next. length next.1.now < length bytes.now) }
{
    match bytes {
        [_, _, high, low, rest @ ..] => Some((byte_value(*high, *low), rest)),
        _ => None,
    }
}

/// What stands behind the quotation mark that ends a text.
fn behind_end(bytes: &[u8]) -> &[u8]
    ensures end { result.now ≡ behind_end bytes.now }
    ensures shorter { length result.now ≤ length bytes.now }
{
    match bytes {
        [b'"', rest @ ..] => rest,
        _ => &[],
    }
}

/// What two hexadecimal digits stand for.
fn byte_value(high: u8, low: u8) -> u8
    ensures { result ≡ byte_value high low }
{
    let value = u32::from(digit_value(high)) * 16 + u32::from(digit_value(low));
    (value % 256) as u8
}

fn digit_value(digit: u8) -> u8
    ensures { result ≡ digit_value digit }
{
    if digit < 65 {
        digit.saturating_sub(48)
    } else {
        digit - 55
    }
}
