//! Names (PEP 508, "Names") and their normal form (PEP 503, "Normalized Names").

ghost use Rattle.std.specs.Prelude.{◌≡◌, ◌<◌, ◌≤◌, ◌+◌, ◌++◌, IfNone, IfOk, IfSome, SomeIff};
ghost use Rattle.std.specs.Prelude.{drop, length, string_bytes, take};
ghost use Rattle.std.specs.List.{list_all};
ghost use Rattle.std.specs.Option.{option_copied};
ghost use Rattle.pytext.specs.Bytes.{is_separator, is_name_byte};
ghost use Rattle.pyver_core.specs.Inner.Names.{added};
ghost use Rattle.pyver_core.specs.Name.{is_name, is_name_end, normal_name};

mod normal;
mod same;

pub use normal::{NormalForm, NormalName};
use pytext::is_name_byte;
pub use same::is_same_name;
use std::alloc::{AllocError, Global};

/// Whether the text is a name: one or more ASCII letters, digits, `.`, `_` and `-`, first and last
/// a letter or a digit. It takes no memory.
pub fn is_name(text: &str) -> bool
    ensures { result ≡ is_name text.now }
{
    let bytes = text.as_bytes();
    has_name_bytes(bytes) && is_name_end(bytes.first()) && is_name_end(bytes.last())
}

fn has_name_bytes(bytes: &[u8]) -> bool
    ensures { result ≡ list_all is_name_byte bytes.now }
{
    bytes.iter().all(|byte| is_name_byte(*byte))
}

fn is_name_end(byte: Option<&u8>) -> bool
    ensures { result ≡ is_name_end (option_copied byte.entry) }
{
    byte.is_some_and(|byte| byte.is_ascii_alphanumeric())
}

/// The normal form of any text: each longest run of `.`, `_` and `-` becomes one `-`, ASCII letters
/// become lower case, and other characters stay. It takes the memory of one text as long as the
/// given one.
pub fn normal_name(alloc: Global, text: &str) -> Result<String, AllocError>
    ensures { IfOk result (λ name. string_bytes name ≡ normal_name text.now) }
{
    let mut name = String::with_capacity(alloc, text.len())?;
    let mut in_run = false;
    for character in text.chars() {
        let separates = is_separator(character);
        if !separates {
            name.push(character.to_ascii_lowercase())?;
        } else if !in_run {
            name.push('-')?;
        }
        in_run = separates;
    }
    Ok(name)
}

/// Writes the normal form of any text, as [`normal_name`] makes it, at the front of `out`, and
/// answers its length: `None`, and `out` as it was, where `out` is shorter than the text. It takes
/// no memory.
pub fn write_normal_name(text: &str, out: &mut [u8]) -> Option<usize>
    ensures count { SomeIff result (length text.now ≤ length out.old)
        (length (normal_name text.now)) }
    ensures capacity { IfSome result (λ count. count ≤ length out.old) }
    ensures written { IfSome result (λ count. out.new
        ≡ normal_name text.now ++ drop count out.old) }
    ensures kept { IfNone result (out.new ≡ out.old) }
{
    let bytes = text.as_bytes();
    if out.len() < bytes.len() {
        return None;
    }
    let mut count = 0;
    let mut in_run = false;
    for byte in bytes {
        count = add_byte(*byte, in_run, out, count);
        in_run = pytext::is_separator(*byte);
    }
    Some(count)
}

/// Writes what a byte adds to the normal form, behind a separator or not, at a place of `out`, and
/// answers the place behind it.
#[inline(always)]
fn add_byte(byte: u8, in_run: bool, out: &mut [u8], place: usize) -> usize
    requires { place < length out.old }
    ensures end { result ≤ place + 1 }
    ensures start { place ≤ result }
    ensures len { length out.new ≡ length out.old }
    ensures front { take result out.new ≡ take place out.old ++ added in_run byte }
    ensures behind { drop result out.new ≡ drop result out.old }
{
    if !pytext::is_separator(byte) {
        out[place] = byte.to_ascii_lowercase();
        return place + 1;
    }
    if in_run {
        return place;
    }
    out[place] = b'-';
    place + 1
}

fn is_separator(character: char) -> bool
    ensures { result ≡ is_separator character }
{
    matches!(character, '.' | '_' | '-')
}
