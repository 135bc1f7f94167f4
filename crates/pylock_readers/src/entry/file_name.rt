//! The file names of sdists and wheels (PEP 751, `packages.sdist.name`).
ghost use Rattle.std.specs.Prelude.{◌≡◌, ◌==◌, ◌<◌, option_map, IfOk, string_bytes};
ghost use Rattle.std.specs.Option.{option_copied};
ghost use Rattle.std.specs.List.{before_first, after_last, list_any};
ghost use Rattle.pylock_readers.specs.Entry.FileName.{is_slash, ends_segment, text_unless_empty};
ghost use Rattle.pylock_readers.specs.Entry.FileName.{last_of_path};
ghost use Rattle.pylock_readers.specs.Entry.FileName.{last_of_url, decode_escapes, file_name_of};

use percent_encoding::{DecodeError, percent_decode};
use std::alloc::{AllocError, Global};

/// The file name that the key `name` gives, else the path, else the URL. Nothing where each of them
/// is absent or ends in an empty name. It takes memory for the name.
pub fn file_name_of(
    alloc: Global,
    name: Option<&str>,
    path: Option<&str>,
    url: Option<&str>,
) -> Result<Option<String>, AllocError>
    ensures { IfOk result (λ file. option_map string_bytes file
        ≡ file_name_of (option_copied name.entry) (option_copied path.entry)
        (option_copied url.entry)) }
{
    let written = name
        .and_then(text_unless_empty)
        .or(path.and_then(path_file_name));
    match (written, url) {
        (Some(text), _) => Ok(Some(String::from_str(alloc, text)?)),
        (None, Some(url)) => url_file_name(alloc, url),
        (None, None) => Ok(None),
    }
}

/// The file name that a path ends in, after its last `/` or `\`; nothing where it ends in one. It
/// takes no memory.
pub fn path_file_name(path: &str) -> Option<&str>
    ensures { option_copied result ≡ text_unless_empty (last_of_path path.now) }
{
    text_unless_empty(last_of_path(path))
}

/// The file name that a URL ends in: the last segment of its path, percent-decoded where the
/// decoded bytes are text (RFC 3986, sections 2.1 and 3.3); nothing where that is empty. It takes
/// memory for the name.
pub fn url_file_name(alloc: Global, url: &str) -> Result<Option<String>, AllocError>
    ensures { IfOk result
        (λ file. option_map string_bytes file
        ≡ text_unless_empty (decode_escapes (last_of_url url.now))) }
{
    let name = decode_escapes(alloc, last_of_url(url))?;
    Ok(if name.is_empty() { None } else { Some(name) })
}

#[tactic(auto, using(crate::proofs::FileNameLemmas::decoding))]
fn decode_escapes(alloc: Global, text: &str) -> Result<String, AllocError>
    ensures { IfOk result (λ name. string_bytes name ≡ decode_escapes text.now) }
{
    if !has_byte(text, b'%') {
        return String::from_str(alloc, text);
    }
    match percent_decode(text.as_bytes()).decode_utf8(alloc) {
        Ok(name) => {
            let owned = name.into_owned(alloc)?;
            Ok(owned)
        }
        Err(DecodeError::Utf8(_)) => String::from_str(alloc, text),
        Err(DecodeError::OutOfMemory) => Err(AllocError),
    }
}

/// Whether the byte stands in the text, many bytes tested at a time.
fn has_byte(text: &str, byte: u8) -> bool
    ensures { result ≡ list_any (λ b. b == byte) text.now }
{
    text.as_bytes().contains(&byte)
}

/// The text, unless it is empty.
fn text_unless_empty(text: &str) -> Option<&str>
    ensures { option_copied result ≡ text_unless_empty text.now }
{
    if text.is_empty() { None } else { Some(text) }
}

#[tactic(auto, using(crate::proofs::FileNameLemmas::after_last_none))]
fn last_of_path(path: &str) -> &str
    ensures { result.now ≡ last_of_path path.now }
{
    match path.as_bytes().iter().rposition(|byte| ends_segment(*byte)) {
        Some(at) => &path[at + 1..],
        None => path,
    }
}

fn last_of_url(url: &str) -> &str
    ensures { result.now ≡ last_of_url url.now }
{
    last_segment(text_before(text_before(url, b'#'), b'?'))
}

#[tactic(auto, using(crate::proofs::FileNameLemmas::after_ascii))]
fn last_segment(path: &str) -> &str
    ensures { result.now ≡ after_last is_slash path.now }
{
    match path.as_bytes().iter().rposition(|byte| is_slash(*byte)) {
        Some(at) => &path[at + 1..],
        None => path,
    }
}

/// The text before the first such byte, or all of it, as nearly always.
#[tactic(auto, using(crate::proofs::FileNameLemmas::before_none))]
fn text_before(text: &str, end: u8) -> &str
    requires { end < 128 }
    ensures { result.now ≡ before_first (λ b. b == end) text.now }
{
    if !has_byte(text, end) {
        return text;
    }
    match text.split_once(end as char) {
        Some((prefix, _)) => prefix,
        None => text,
    }
}

fn is_slash(byte: u8) -> bool
    ensures { result ≡ is_slash byte }
{
    byte == b'/'
}

fn ends_segment(byte: u8) -> bool
    ensures { result ≡ ends_segment byte }
{
    matches!(byte, b'/' | b'\\')
}
