//! The line of a wheel or an sdist whose texts stand in their fields as they are, as nearly all do:
//! the quick way to `source_line` with `file_fields`. Any other line goes the slow way beside it,
//! part by part (`push_source_line` of `plan.rt`).
//!
//! The capacity of the line is reserved at once, its texts are put in their places with `-`
//! between them, all of them are tested in one look, and then the marks of a line stand in place of
//! each `-`.

ghost use Rattle.std.specs.Prelude.{◌≡◌, ◌++◌, ◌∷◌, ◌+◌, ◌≤◌, length, take, drop, false, true};
ghost use Rattle.std.specs.Prelude.{IfSome, IfOk, IsTrue};
ghost use Rattle.std.specs.List.{list_all};
ghost use Rattle.std.specs.Option.{option_copied};
ghost use Rattle.pylock_readers.specs.Text.{text_pairs};
ghost use Rattle.pylock_run.specs.Inner.FileLine.{file_fields, file_line, file_line_size};
ghost use Rattle.pylock_run.specs.Inner.FileLine.{AreOrdinary, AreShort, StandIn, joined_texts};
ghost use Rattle.pylock_run.specs.Inner.Fields.{is_ordinary};
ghost use Rattle.pylock_run.specs.Text.Field.{escaped_text, field};
ghost use Rattle.pylock_run.specs.Text.Plan.{hashes_text, source_line};

use crate::text::field::is_ordinary_text;
use itoa::Buffer;
use pylock_core::{DistributionFile, Entry};
use std::alloc::AllocError;

/// The texts that are put in their places are at most this long, so that the size of a line is a
/// number.
const SHORT_BYTES: usize = 65_536;

/// The texts of a line as they stand in it. Of the hashes there is one.
#[derive(Drop)]
struct FileTexts<'a> {
    number: &'a [u8],
    name: &'a [u8],
    version: &'a [u8],
    kind: &'a [u8],
    file_name: &'a [u8],
    place: &'a [u8],
    algorithm: &'a [u8],
    value: &'a [u8],
}

/// Pushes the line of a wheel or an sdist if it has one hash and its texts are seen at once to
/// stand in it as they are, and answers whether it did. The hashes are counted before all else.
pub(crate) fn push_file_line(
    out: &mut Vec<u8>,
    number: u64,
    entry: &Entry,
    kind: &[u8; 5],
    file: &DistributionFile,
) -> Result<bool, AllocError>
    ensures pushed { IfOk result (λ done. IsTrue done → out.new.items
        ≡ out.old.items ++ source_line number entry.now (file_fields kind.now file.now)) }
    ensures left { IfOk result (λ done. done ≡ false → out.new.items ≡ out.old.items) }
{
    if file.hashes().len() != 1 {
        return Ok(false);
    }
    let mut digits = Buffer::new();
    let number = digits.format(number).as_bytes();
    match file_texts(number, entry, kind, file) {
        Some(texts) => push_texts(out, &texts),
        None => Ok(false),
    }
}

/// The texts of the line, if each is short. They stand in it as they are if they are ordinary.
#[inline]
fn file_texts<'a>(
    number: &'a [u8],
    entry: &'a Entry,
    kind: &'a [u8],
    file: &'a DistributionFile,
) -> Option<FileTexts<'a>>
    requires { (length number.now ≤ 20) × (length kind.now ≡ 5) }
    ensures stand { IfSome result (λ texts. AreOrdinary texts
        → StandIn texts number.now entry.now kind.now file.now) }
    ensures short { IfSome result AreShort }
{
    let name = short_field(Some(entry.name()))?;
    let version = short_field(entry.version())?;
    let file_name = short_field(file.file_name())?;
    let place = short_field(Some(file.place()))?;
    let (algorithm, value) = short_hash(file.hashes())?;
    Some(FileTexts {
        number,
        name,
        version,
        kind,
        file_name,
        place,
        algorithm,
        value,
    })
}

/// A text that is short, or the field of one that is absent. Where it is ordinary, it stands in its
/// field as it is.
#[inline]
fn short_field<'a>(text: Option<&'a str>) -> Option<&'a [u8]>
    ensures stands { IfSome result (λ short. list_all is_ordinary short.now ≡ true
        → short.now ≡ field (option_copied text.entry)) }
    ensures short { IfSome result (λ short. length short.now ≤ 65536) }
{
    match text {
        None => Some(b"-"),
        Some("-") => None,
        Some(text) => short_text(text),
    }
}

/// A text that is short. Where it is ordinary, it has no escapes.
#[inline]
#[tactic(auto, using(crate::proofs::OrdinaryBytesLemmas::ordinary_stands))]
fn short_text<'a>(text: &'a str) -> Option<&'a [u8]>
    ensures stands { IfSome result (λ short. list_all is_ordinary short.now ≡ true
        → short.now ≡ escaped_text text.now) }
    ensures short { IfSome result (λ short. length short.now ≤ 65536) }
{
    if text.len() <= SHORT_BYTES {
        Some(text.as_bytes())
    } else {
        None
    }
}

/// The algorithm and the value of the only hash, each a short text. Where they are ordinary, they
/// stand in their field as they are.
#[inline]
fn short_hash<'a>(hashes: &'a [(String, String)]) -> Option<(&'a [u8], &'a [u8])>
    ensures stands { IfSome result (λ hash. list_all is_ordinary hash.0.now ≡ true
        → list_all is_ordinary hash.1.now ≡ true
        → hash.0.now ++ 61 ∷ hash.1.now ≡ field (hashes_text (text_pairs hashes.now))) }
    ensures short { IfSome result (λ hash. (length hash.0.now ≤ 65536)
        × (length hash.1.now ≤ 65536)) }
{
    let (hash, rest) = hashes.split_first()?;
    if !rest.is_empty() {
        return None;
    }
    let (algorithm, value) = hash;
    Some((short_text(algorithm.as_str())?, short_text(value.as_str())?))
}

/// Pushes the line of these texts if all are ordinary, and answers whether it did.
fn push_texts(out: &mut Vec<u8>, texts: &FileTexts<'_>) -> Result<bool, AllocError>
    requires { AreShort texts.now }
    ensures pushed { IfOk result (λ done. IsTrue done
        → out.new.items ≡ out.old.items ++ file_line texts.now) }
    ensures ordinary { IfOk result (λ done. IsTrue done → AreOrdinary texts.now) }
    ensures left { IfOk result (λ done. done ≡ false → out.new.items ≡ out.old.items) }
{
    let start = out.len();
    out.resize(start + line_size(texts), b'-')?;
    let done = put_line(out, start, texts);
    if !done {
        out.truncate(start);
    }
    Ok(done)
}

/// Puts the line where its capacity begins, which is the last of `line`, if all texts are
/// ordinary, and answers whether they are.
#[inline]
fn put_line(line: &mut [u8], start: usize, texts: &FileTexts<'_>) -> bool
    requires { start + file_line_size texts.now ≡ length line.old }
    ensures put { IsTrue result → line.new ≡ take start line.old ++ file_line texts.now }
    ensures ordinary { IsTrue result → AreOrdinary texts.now }
    ensures front { take start line.new ≡ take start line.old }
{
    put_texts(line, start, texts);
    if !is_ordinary_text(&line[start..]) {
        return false;
    }
    put_marks(line, start, texts);
    true
}

#[inline]
fn line_size(texts: &FileTexts<'_>) -> usize
    requires { AreShort texts.now }
    ensures { result ≡ file_line_size texts.now }
{
    texts.number.len()
        + texts.name.len()
        + texts.version.len()
        + texts.kind.len()
        + texts.file_name.len()
        + texts.place.len()
        + texts.algorithm.len()
        + texts.value.len()
        + 12
}

/// Puts the texts where the room of the line begins, which is the last of `line`, with `-` between
/// them.
#[inline]
fn put_texts(line: &mut [u8], start: usize, texts: &FileTexts<'_>)
    requires { start + file_line_size texts.now ≡ length line.old }
    ensures { line.new ≡ take start line.old ++ joined_texts texts.now }
{
    let at = put(line, start, texts.number);
    let at = put_after(line, at, texts.name);
    let at = put_after(line, at, texts.version);
    let at = put_after(line, at, texts.kind);
    let at = put_after(line, at, texts.file_name);
    let at = put_after(line, at, texts.place);
    let at = put_after(line, at, texts.algorithm);
    let at = put_after(line, at, texts.value);
    put(line, at, b"-----");
}

/// Puts `-` and a text at a place, and answers the place behind them.
#[inline]
fn put_after(line: &mut [u8], at: usize, text: &[u8]) -> usize
    requires { at + 1 + length text.now ≤ length line.old }
    ensures end { result ≡ at + 1 + length text.now }
    ensures len { length line.new ≡ length line.old }
    ensures front { take result line.new ≡ take at line.old ++ 45 ∷ text.now }
{
    line[at] = b'-';
    put(line, at + 1, text)
}

/// Puts a text at a place, and answers the place behind it.
#[inline]
fn put(line: &mut [u8], at: usize, text: &[u8]) -> usize
    requires { at + length text.now ≤ length line.old }
    ensures end { result ≡ at + length text.now }
    ensures len { length line.new ≡ length line.old }
    ensures front { take result line.new ≡ take at line.old ++ text.now }
{
    let end = at + text.len();
    line[at..end].copy_from_slice(text);
    end
}

/// Puts the marks of the line in place of each `-` between its texts.
#[inline]
fn put_marks(line: &mut [u8], start: usize, texts: &FileTexts<'_>)
    requires size { start + file_line_size texts.now ≡ length line.old }
    requires texts { line.old ≡ take start line.old ++ joined_texts texts.now }
    ensures { line.new ≡ take start line.old ++ file_line texts.now }
{
    let at = mark(line, start + texts.number.len(), b'\t', texts.name);
    let at = mark(line, at, b'\t', texts.version);
    let at = mark(line, at, b'\t', texts.kind);
    let at = mark(line, at, b'\t', texts.file_name);
    let at = mark(line, at, b'\t', texts.place);
    let at = mark(line, at, b'\t', texts.algorithm);
    let at = mark(line, at, b'=', texts.value);
    put(line, at, b"\t-\t-\n");
}

/// Puts a mark at a place before a text, and answers the place behind that.
#[inline]
fn mark(line: &mut [u8], at: usize, mark: u8, text: &[u8]) -> usize
    requires { at + 1 + length text.now ≤ length line.old }
    ensures end { result ≡ at + 1 + length text.now }
    ensures len { length line.new ≡ length line.old }
    ensures line { line.new ≡ take at line.old ++ mark ∷ drop (at + 1) line.old }
{
    line[at] = mark;
    at + 1 + text.len()
}
