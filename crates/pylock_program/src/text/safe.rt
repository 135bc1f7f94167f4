//! Fields that are safe to show at a terminal.

ghost use Rattle.std.specs.Prelude.{◌≡◌, ◌++◌, ◌∷◌, OnOk, Some};
ghost use Rattle.std.specs.Option.{option_copied};
ghost use Rattle.pylock_program.specs.Text.Safe.{safe_text, safe_character, safe_field};

use pylock_shared::LabelledText;
use pylock_shown::{is_control, push_character, push_control};
use std::alloc::AllocError;

/// Pushes a TAB and a field that is safe to show.
pub(crate) fn push_next_safe(out: &mut Vec<u8>, text: Option<&str>) -> Result<(), AllocError>
    ensures { OnOk result (out.new.items
        ≡ out.old.items ++ 9 ∷ safe_field (option_copied text.entry)) }
{
    out.push(b'\t')?;
    push_safe_field(out, text)
}

/// The same of a text that may have a label.
pub(crate) fn push_next_labelled(
    out: &mut Vec<u8>,
    text: Option<&LabelledText>,
) -> Result<(), AllocError>
    ensures { OnOk result (out.new.items
        ≡ out.old.items ++ 9 ∷ safe_field (option_copied text.entry)) }
{
    match text {
        Some(text) => push_next_parts(out, text.parts()),
        None => push_next_safe(out, None),
    }
}

/// The same of a text in two parts.
fn push_next_parts(out: &mut Vec<u8>, parts: (&str, &str)) -> Result<(), AllocError>
    ensures { OnOk result (out.new.items ≡ out.old.items
        ++ 9 ∷ safe_field (Some (parts.entry.0.now ++ parts.entry.1.now))) }
{
    out.push(b'\t')?;
    push_parts(out, parts.0, parts.1)
}

/// Pushes a field that is safe to show, of a text in two parts.
fn push_parts(out: &mut Vec<u8>, front: &str, back: &str) -> Result<(), AllocError>
    ensures { OnOk result (out.new.items
        ≡ out.old.items ++ safe_field (Some (front.now ++ back.now))) }
{
    if front.is_empty() {
        return push_safe_field(out, Some(back));
    }
    if back.is_empty() {
        return push_safe_field(out, Some(front));
    }
    push_safe(out, front)?;
    push_safe(out, back)
}

/// Pushes a field that is safe to show: a text, or one that is absent.
fn push_safe_field(out: &mut Vec<u8>, text: Option<&str>) -> Result<(), AllocError>
    ensures { OnOk result (out.new.items ≡ out.old.items ++ safe_field (option_copied text.entry)) }
{
    match text {
        None => out.extend_from_slice(b"-")?,
        Some("-") => out.extend_from_slice(b"\\-")?,
        Some(text) => push_safe(out, text)?,
    }
    Ok(())
}

fn push_safe(out: &mut Vec<u8>, text: &str) -> Result<(), AllocError>
    ensures { OnOk result (out.new.items ≡ out.old.items ++ safe_text text.now) }
{
    for character in text.chars() {
        push_safe_character(out, character)?;
    }
    Ok(())
}

fn push_safe_character(out: &mut Vec<u8>, character: char) -> Result<(), AllocError>
    ensures { OnOk result (out.new.items ≡ out.old.items ++ safe_character character) }
{
    if is_control(character) {
        push_control(out, character)
    } else if character == '\\' {
        out.extend_from_slice(b"\\\\")
    } else {
        push_character(out, character)
    }
}
