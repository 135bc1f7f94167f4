//! The fields of a line.

ghost use Rattle.std.specs.Prelude.{◌≡◌, ◌++◌, ◌∷◌, ◌<◌, ◌≤◌, [], OnOk, IsTrue, decimal, true};
ghost use Rattle.std.specs.List.{list_all};
ghost use Rattle.std.specs.Option.{option_copied};
ghost use Rattle.pylock_run.specs.Inner.Fields.{is_ordinary};
ghost use Rattle.pylock_run.specs.Text.Field.{escape_byte, escaped_text, field, line_of};

use itoa::Buffer;
use std::alloc::AllocError;

/// Pushes the decimal digits of a number.
pub fn push_decimal(out: &mut Vec<u8>, number: u64) -> Result<(), AllocError>
    ensures { OnOk result (out.new.items ≡ out.old.items ++ decimal number) }
{
    let mut digits = Buffer::new();
    out.extend_from_slice(digits.format(number).as_bytes())
}

/// Pushes a field: a text, or one that is absent.
pub fn push_field(out: &mut Vec<u8>, text: Option<&str>) -> Result<(), AllocError>
    ensures { OnOk result (out.new.items ≡ out.old.items ++ field (option_copied text.entry)) }
{
    match text {
        None => out.extend_from_slice(b"-")?,
        Some("-") => out.extend_from_slice(b"\\-")?,
        Some(text) => push_escaped_text(out, text)?,
    }
    Ok(())
}

/// Pushes a text with its escapes.
#[tactic(auto, using(crate::proofs::OrdinaryBytesLemmas::ordinary_stands))]
pub fn push_escaped_text(out: &mut Vec<u8>, text: &str) -> Result<(), AllocError>
    ensures { OnOk result (out.new.items ≡ out.old.items ++ escaped_text text.now) }
{
    if is_ordinary_text(text.as_bytes()) {
        out.extend_from_slice(text.as_bytes())?;
        Ok(())
    } else {
        push_escaped_bytes(out, text.as_bytes())
    }
}

/// Whether the text is seen at once to stand in a field as it is, as nearly each does. Of a longer
/// text whole chunks are tested, the last of which may lie over the one before it.
// In line it cost the line of a file without a hash a sixth, and that of a directory a ninth.
#[inline(never)]
pub(crate) fn is_ordinary_text(text: &[u8]) -> bool
    ensures { IsTrue result → list_all is_ordinary text.now ≡ true }
{
    match text.len() {
        64.. => are_ordinary_chunks::<64>(text),
        32..64 => are_ordinary_chunks::<32>(text),
        16..32 => are_ordinary_chunks::<16>(text),
        8..16 => are_ordinary_chunks::<8>(text),
        4..8 => are_ordinary_chunks::<4>(text),
        _ => are_ordinary(text),
    }
}

/// The same for a text of at least `N` bytes, by chunks of `N`.
fn are_ordinary_chunks<const N: usize>(text: &[u8]) -> bool
    requires { (0 < N) × (N ≤ 64) }
    ensures { IsTrue result → list_all is_ordinary text.now ≡ true }
{
    let (chunks, rest) = text.as_chunks::<N>();
    for chunk in chunks {
        if !are_ordinary(chunk) {
            return false;
        }
    }
    if rest.is_empty() {
        return true;
    }
    match text.last_chunk::<N>() {
        Some(last) => are_ordinary(last),
        None => false,
    }
}

/// Of each byte the least is kept, where a backslash counts as 0, so that many bytes are tested at
/// once.
fn are_ordinary(bytes: &[u8]) -> bool
    ensures { result ≡ list_all is_ordinary bytes.now }
{
    let mut least = u8::MAX;
    for byte in bytes {
        least = least.min(if *byte == b'\\' { 0 } else { *byte });
    }
    least > 13
}

#[inline(never)]
fn push_escaped_bytes(out: &mut Vec<u8>, text: &[u8]) -> Result<(), AllocError>
    ensures { OnOk result (out.new.items ≡ out.old.items ++ escaped_text text.now) }
{
    for byte in text {
        push_escaped_byte(out, *byte)?;
    }
    Ok(())
}

fn push_escaped_byte(out: &mut Vec<u8>, byte: u8) -> Result<(), AllocError>
    ensures { OnOk result (out.new.items ≡ out.old.items ++ escape_byte byte) }
{
    match byte {
        b'\t' => out.extend_from_slice(b"\\t")?,
        b'\n' => out.extend_from_slice(b"\\n")?,
        b'\r' => out.extend_from_slice(b"\\r")?,
        b'\\' => out.extend_from_slice(b"\\\\")?,
        _ => out.push(byte)?,
    }
    Ok(())
}

/// Pushes a TAB and a field.
pub fn push_next_field(out: &mut Vec<u8>, text: Option<&str>) -> Result<(), AllocError>
    ensures { OnOk result (out.new.items ≡ out.old.items ++ 9 ∷ field (option_copied text.entry)) }
{
    match text {
        None => out.extend_from_slice(b"\t-"),
        Some(_) => {
            out.push(b'\t')?;
            push_field(out, text)
        }
    }
}

/// Pushes a TAB, a word and the LF of its line.
pub fn push_last_word(out: &mut Vec<u8>, word: &[u8]) -> Result<(), AllocError>
    ensures { OnOk result (out.new.items ≡ out.old.items ++ line_of [] (word.now ∷ [])) }
{
    push_word(out, word)?;
    out.push(b'\n')?;
    Ok(())
}

/// Pushes a TAB and a word.
pub fn push_word(out: &mut Vec<u8>, word: &[u8]) -> Result<(), AllocError>
    ensures { OnOk result (out.new.items ≡ out.old.items ++ 9 ∷ word.now) }
{
    out.push(b'\t')?;
    out.extend_from_slice(word)
}
