//! Texts that are searched for a byte, joined, and shown.

ghost use Rattle.std.specs.Prelude.{◌≡◌, ◌==◌, ◌++◌, IfOk, option_map, string_bytes};
ghost use Rattle.std.specs.List.{list_any};
ghost use Rattle.std.specs.Option.{option_copied};
ghost use Rattle.pylock_shown.specs.Hidden.{hidden};

use pylock_shown::hidden;
use std::alloc::{AllocError, Global};

/// Whether the text has this byte.
pub(crate) fn has_byte(text: &str, wanted: u8) -> bool
    ensures { result ≡ list_any (λ b. b == wanted) text.now }
{
    text.bytes().any(|b| b == wanted)
}

/// Two texts, one behind the other. It takes memory for the text, once more while it grows.
pub fn joined(alloc: Global, front: &str, back: &str) -> Result<String, AllocError>
    ensures { IfOk result (λ text. string_bytes text ≡ front.now ++ back.now) }
{
    let mut text = String::from_str(alloc, front)?;
    text.push_str(back)?;
    Ok(text)
}

/// The text as it is shown, where there is one. It takes memory for the text, once more while it
/// grows.
pub fn hidden_text(alloc: Global, text: Option<&str>) -> Result<Option<String>, AllocError>
    ensures { IfOk result (λ shown. option_map string_bytes shown
        ≡ option_map hidden (option_copied text.entry)) }
{
    match text {
        Some(text) => Ok(Some(hidden(alloc, text)?)),
        None => Ok(None),
    }
}
