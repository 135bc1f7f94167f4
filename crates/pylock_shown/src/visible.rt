//! Texts that are safe to show at a terminal.

ghost use Rattle.std.specs.Prelude.{◌≡◌, ◌++◌, OnOk};
ghost use Rattle.std.specs.Char.{encode_utf8};
ghost use Rattle.std.specs.List.{list_all};
ghost use Rattle.pylock_shown.specs.Inner.Printable.{is_printable};
ghost use Rattle.pylock_shown.specs.Visible.{control_text, has_control, is_control, steers};
ghost use Rattle.pylock_shown.specs.Visible.{visible, visible_character};

use std::alloc::{AllocError, Global};
use ucd_category::GeneralCategory;

/// Whether a character steers a terminal, isn't seen and changes what is seen, or ends a line:
/// those of Unicode's classes Cc, Cf, Zl and Zp. It takes no memory.
#[tactic(auto, using(crate::proofs::PrintableLemmas::plain_is_none))]
pub fn is_control(character: char) -> bool
    ensures { result ≡ is_control character }
{
    !matches!(character, ' '..='~') && steers(GeneralCategory::for_char(character))
}

/// Whether the characters of a class are control characters.
fn steers(category: GeneralCategory) -> bool
    ensures { result ≡ steers category }
{
    matches!(
        category,
        GeneralCategory::Control
            | GeneralCategory::Format
            | GeneralCategory::LineSeparator
            | GeneralCategory::ParagraphSeparator
    )
}

/// Whether each byte is a printable character of ASCII, so that the text has no control character.
/// The least and the greatest byte are kept, so that many bytes are looked at at once. It takes no
/// memory.
pub fn is_printable(bytes: &[u8]) -> bool
    ensures { result ≡ list_all is_printable bytes.now }
{
    let mut least = u8::MAX;
    let mut most = 0;
    for byte in bytes {
        least = least.min(*byte);
        most = most.max(*byte);
    }
    least > 31 && most < 127
}

/// Whether the text has a control character. Of nearly each text it is seen at once that it has
/// none. It takes no memory.
#[tactic(auto, using(crate::proofs::PrintableLemmas::printable_has_none))]
pub fn has_control(text: &str) -> bool
    ensures { result ≡ has_control text.now }
{
    !is_printable(text.as_bytes()) && any_control(text)
}

/// The same, character by character.
fn any_control(text: &str) -> bool
    ensures { result ≡ has_control text.now }
{
    text.chars().any(|c| is_control(c))
}

/// Pushes a character as `\u{HEX}`. It takes memory where the text has no room.
pub fn push_control(out: &mut Vec<u8>, character: char) -> Result<(), AllocError>
    ensures { OnOk result (out.new.items ≡ out.old.items ++ control_text character) }
{
    let text = format!(in *out.allocator(); "\\u{{{:x}}}", u32::from(character))?;
    out.extend_from_slice(text.as_bytes())
}

/// Pushes a character in UTF-8. It takes memory where the text has no room.
pub fn push_character(out: &mut Vec<u8>, character: char) -> Result<(), AllocError>
    ensures { OnOk result (out.new.items ≡ out.old.items ++ encode_utf8 character) }
{
    let mut bytes = [0; 4];
    out.extend_from_slice(character.encode_utf8(&mut bytes).as_bytes())
}

/// Pushes a text, in which each control character stands as `\u{HEX}`. It takes memory where the
/// other text has no room.
pub fn push_visible(out: &mut Vec<u8>, text: &str) -> Result<(), AllocError>
    ensures { OnOk result (out.new.items ≡ out.old.items ++ visible text.now) }
{
    for character in text.chars() {
        push_visible_character(out, character)?;
    }
    Ok(())
}

fn push_visible_character(out: &mut Vec<u8>, character: char) -> Result<(), AllocError>
    ensures { OnOk result (out.new.items ≡ out.old.items ++ visible_character character) }
{
    if is_control(character) {
        push_control(out, character)
    } else {
        push_character(out, character)
    }
}

/// The text as it is safe to show. It takes memory for the text, twice.
pub fn visible_text(alloc: Global, text: &str) -> Result<String, AllocError> {
    let mut out = Vec::with_capacity(alloc, text.len())?;
    push_visible(&mut out, text)?;
    String::from_utf8_lossy(alloc, &out)
}
