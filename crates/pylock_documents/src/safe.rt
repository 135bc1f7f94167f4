//! JSON that is safe to show at a terminal.

ghost use Rattle.std.specs.Prelude.{◌≡◌, ◌++◌, ◌∷◌, [], ◌%◌, IfOk, OnOk, string_bytes};
ghost use Rattle.std.specs.Char.{digit_char};
ghost use Rattle.std.specs.Char.Escape.{encode_utf16};
ghost use Rattle.std.specs.List.{flat_map};
ghost use Rattle.pylock_documents.specs.Safe.{escaped_unit, safe_character, safe_json};

use pylock_shown::{has_control, is_control};
use std::alloc::{AllocError, Global};

/// The JSON, in which each control character is escaped. It takes memory, for the new text, only
/// where there is one.
#[tactic(auto, using(crate::proofs::SafeLemmas::stays))]
pub(crate) fn safe_json(alloc: Global, text: String) -> Result<String, AllocError>
    ensures { IfOk result (λ safe. string_bytes safe ≡ safe_json (string_bytes text)) }
{
    if has_control(text.as_str()) {
        escaped(alloc, text.as_str())
    } else {
        Ok(text)
    }
}

fn escaped(alloc: Global, text: &str) -> Result<String, AllocError>
    ensures { IfOk result (λ safe. string_bytes safe ≡ safe_json text.now) }
{
    let mut safe = String::with_capacity(alloc, text.len())?;
    for character in text.chars() {
        push_safe(&mut safe, character)?;
    }
    Ok(safe)
}

fn push_safe(out: &mut String, character: char) -> Result<(), AllocError>
    ensures { OnOk result (string_bytes out.new
        ≡ string_bytes out.old ++ safe_character character) }
{
    if is_control(character) {
        push_units(out, character)
    } else {
        out.push(character)
    }
}

/// Pushes the code units of a character in UTF-16, each as its number.
fn push_units(out: &mut String, character: char) -> Result<(), AllocError>
    ensures { OnOk result (string_bytes out.new
        ≡ string_bytes out.old ++ flat_map escaped_unit (encode_utf16 character)) }
{
    let mut capacity = [0; 2];
    let units: &[u16] = character.encode_utf16(&mut capacity);
    for unit in units {
        push_unit(out, *unit)?;
    }
    Ok(())
}

fn push_unit(out: &mut String, unit: u16) -> Result<(), AllocError>
    ensures { OnOk result (string_bytes out.new ≡ string_bytes out.old ++ escaped_unit unit) }
{
    out.push_str("\\u")?;
    push_digit(out, unit / 4096)?;
    push_digit(out, unit / 256)?;
    push_digit(out, unit / 16)?;
    push_digit(out, unit)
}

/// Pushes the last hex digit of a number.
fn push_digit(out: &mut String, number: u16) -> Result<(), AllocError>
    ensures { OnOk result (string_bytes out.new
        ≡ string_bytes out.old ++ digit_char (number % 16) ∷ []) }
{
    out.push(hex_digit(number))
}

fn hex_digit(number: u16) -> char
    ensures { result ≡ digit_char (number % 16) }
{
    char::from_digit(u32::from(number % 16), 16).unwrap_or('0')
}
