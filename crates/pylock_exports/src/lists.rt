//! The forms that list files.

ghost use Rattle.std.specs.Prelude.{◌≡◌, ◌++◌, ◌∷◌, [], IfOk, OnOk, option_map, string_bytes};
ghost use Rattle.std.specs.Prelude.{false};
ghost use Rattle.std.specs.BTreeMap.{get_by_text};
ghost use Rattle.std.specs.List.{flat_map};
ghost use Rattle.std.specs.Option.{option_copied};
ghost use Rattle.pytext.specs.Agreement.{Gives};
ghost use Rattle.pylock_exports.specs.Inner.{all_lent, Holds, lent, written};
ghost use Rattle.pylock_exports.specs.Lists.{aria2_name_check, fetched_check, is_control_file};
ghost use Rattle.pylock_exports.specs.Lists.{is_left, key_of, lacks, lines_named, list_check};
ghost use Rattle.pylock_exports.specs.Lists.{listed_check, name_in, own_sum_check, source_lines};
ghost use Rattle.pylock_exports.specs.Lists.{sum_name, sum_name_check, value_of, with_source};
ghost use Rattle.pylock_exports.specs.Lists.{with_sources};
ghost use Rattle.pylock_exports.specs.Parts.{at_number};
ghost use Rattle.pylock_exports.specs.Texts.{format_text, lines_text};
ghost use Rattle.pylock_command.specs.declared.form.PlanFormat.TheVariants as format;
ghost use Rattle.pylock_command.specs.declared.form.FileFormat.TheVariants.{Aria2, Sha256sum};
ghost use Rattle.pylock_exports.specs.declared.refusal.ExportError.TheVariants as export;

use crate::class::Class;
use crate::file_names::last_part;
use crate::hashes::sha256_of;
use crate::listed::{Listed, file_name_of, owned, path_alone, url_of};
use crate::parts::{
    check_end, check_file_name, check_hash, check_path, check_web_url, missing, require,
};
use crate::refusal::{ExportError, Field, FieldFault, Reason, at_number};
use crate::requirements::push_path;
use crate::source::Source;
use pylock_command::FileFormat;
use std::alloc::{AllocError, Global};
use std::collections::BTreeMap;

// ---- what a list names a file by, and what it can hold

/// What a list names a file by: its file name; of `sha256sum` its path, where it has no URL; of
/// `urls` its URL.
pub(crate) fn name_in(
    alloc: Global,
    format: FileFormat,
    source: Source<'_>,
) -> Result<Option<String>, AllocError>
    ensures { IfOk result (λ name. option_map string_bytes name
        ≡ name_in format (written source.entry)) }
{
    match format {
        FileFormat::Sha256sum => match path_alone(source) {
            Some(path) => owned(alloc, Some(path)),
            None => file_name_of(alloc, source),
        },
        FileFormat::Aria2 => file_name_of(alloc, source),
        FileFormat::Urls => owned(alloc, url_of(source)),
    }
}

/// What is one for each of these: the SHA-256 of a file, and of `urls` again the URL.
fn value_of(format: FileFormat, source: Source<'_>) -> &str
    ensures { result.now ≡ value_of format (written source.entry) }
{
    let value = match format {
        FileFormat::Sha256sum | FileFormat::Aria2 => sha256_of(source),
        FileFormat::Urls => url_of(source),
    };
    value.unwrap_or("")
}

/// Whether a source lacks what a list has beside its name: the SHA-256, or the URL that it is
/// fetched from.
fn lacks(format: FileFormat, source: Source<'_>) -> bool
    ensures { result ≡ lacks format (written source.entry) }
{
    match format {
        FileFormat::Sha256sum => sha256_of(source).is_none(),
        FileFormat::Aria2 => sha256_of(source).is_none() || url_of(source).is_none(),
        FileFormat::Urls => false,
    }
}

/// Whether a list leaves out a source.
pub(crate) fn is_left(
    alloc: Global,
    format: FileFormat,
    source: Source<'_>,
) -> Result<bool, AllocError>
    ensures { IfOk result (λ left. left ≡ is_left format (written source.entry)) }
{
    match name_in(alloc, format, source)? {
        Some(_) => Ok(lacks(format, source)),
        None => Ok(true),
    }
}

// ---- what a file has to have

/// A URL that is fetched, which ends in this file name.
fn check_fetched(url: Option<&str>, last: Option<&str>) -> Result<(), FieldFault>
    ensures { result ≡ fetched_check (option_copied url.entry) (option_copied last.entry) }
{
    let Some(url) = url else {
        return Err(missing(Field::Url));
    };
    check_web_url(Class::Url, url)?;
    check_end(Field::UrlEnd, last)
}

/// The path of a file without a URL, else its file name.
fn check_sum_name(path: Option<&str>, name: &str) -> Result<(), FieldFault>
    ensures { result ≡ sum_name_check (option_copied path.entry) name.now }
{
    match path {
        Some(path) => check_path(path),
        None => check_file_name(Field::FileName, name),
    }
}

/// Whether `aria2c` keeps what it knows of a download in a file of this name.
fn is_control_file(name: &str) -> bool
    ensures { result ≡ is_control_file name.now }
{
    let name = name.as_bytes();
    name.ends_with(b".aria2") || name.ends_with(b".aria2__temp")
}

fn check_aria2_name(name: &str) -> Result<(), FieldFault>
    ensures { result ≡ aria2_name_check name.now }
{
    check_file_name(Field::FileName, name)?;
    require(Field::FileName, Reason::Control, !is_control_file(name))
}

/// A SHA-256 that has to be there.
fn check_own_sum(source: Source<'_>) -> Result<(), FieldFault>
    ensures { result ≡ own_sum_check (written source.entry) }
{
    match sha256_of(source) {
        Some(value) => check_hash(64, value),
        None => Err(missing(Field::Hash)),
    }
}

/// A source that is named so, and whose URL ends so.
fn check_listed(
    format: FileFormat,
    source: Source<'_>,
    name: &str,
    last: Option<&str>,
) -> Result<(), FieldFault>
    ensures { result ≡ listed_check format (written source.entry) name.now
        (option_copied last.entry) }
{
    match format {
        FileFormat::Sha256sum => {
            check_sum_name(path_alone(source), name)?;
            check_own_sum(source)
        }
        FileFormat::Aria2 => {
            check_aria2_name(name)?;
            check_own_sum(source)?;
            check_fetched(url_of(source), last)
        }
        FileFormat::Urls => check_fetched(url_of(source), last),
    }
}

/// The same, under the number of its entry.
fn check_at_number(
    alloc: Global,
    format: FileFormat,
    listed: &Listed<'_>,
    name: &str,
) -> Result<(), ExportError>
    requires { name.now ≡ key_of format (lent listed.now).source }
    ensures { Gives export.Memory (λ u. u) result
        (at_number (lent listed.now).number (list_check format (lent listed.now).source)) }
{
    let last = last_part(alloc, url_of(listed.source), None)?;
    at_number(
        listed.number,
        check_listed(format, listed.source, name, last.as_deref()),
    )
}

// ---- each file once

/// The sources of a list, each file once; what lacks something is left out. Names are found by an
/// ordered table, so that no lock makes it slow.
pub(crate) fn kept_sources<'a>(
    alloc: Global,
    format: FileFormat,
    list: &[Listed<'a>],
) -> Result<Vec<Listed<'a>>, ExportError>
    ensures { Gives export.Memory (λ kept. all_lent kept.items) result
        (with_sources format [] (all_lent list.now)) }
{
    let mut kept = Vec::new(alloc);
    let mut values = BTreeMap::new(alloc);
    for listed in list {
        keep(alloc, format, &mut kept, &mut values, listed)?;
    }
    Ok(kept)
}

/// Adds a source, unless it is left out or stands there.
fn keep<'a>(
    alloc: Global,
    format: FileFormat,
    kept: &mut Vec<Listed<'a>>,
    values: &mut BTreeMap<String, &'a str>,
    listed: &Listed<'a>,
) -> Result<(), ExportError>
    requires { Holds format (get_by_text values.old) (all_lent kept.old.items) }
    ensures kept { Gives export.Memory (λ _. all_lent kept.new.items) result
        (with_source format (all_lent kept.old.items) (lent listed.now)) }
    ensures holds { OnOk result (Holds format (get_by_text values.new)
        (all_lent kept.new.items)) }
{
    let Some(key) = name_in(alloc, format, listed.source)? else {
        return Ok(());
    };
    if lacks(format, listed.source) {
        return Ok(());
    }
    keep_named(alloc, format, kept, values, listed, key)
}

/// Adds a source that has this name, unless it stands there.
fn keep_named<'a>(
    alloc: Global,
    format: FileFormat,
    kept: &mut Vec<Listed<'a>>,
    values: &mut BTreeMap<String, &'a str>,
    listed: &Listed<'a>,
    key: String,
) -> Result<(), ExportError>
    requires holds { Holds format (get_by_text values.old) (all_lent kept.old.items) }
    requires named { string_bytes key ≡ key_of format (lent listed.now).source }
    requires held { is_left format (lent listed.now).source ≡ false }
    ensures kept { Gives export.Memory (λ _. all_lent kept.new.items) result
        (with_source format (all_lent kept.old.items) (lent listed.now)) }
    ensures holds { OnOk result (Holds format (get_by_text values.new)
        (all_lent kept.new.items)) }
{
    check_at_number(alloc, format, listed, key.as_str())?;
    let value = value_of(format, listed.source);
    match values.get(key.as_str()) {
        None => {
            values.insert(key, value)?;
            Ok(kept.push(*listed)?)
        }
        Some(known) => at_number(
            listed.number,
            require(Field::Hash, Reason::OtherValue, *known == value),
        ),
    }
}

// ---- the lines

/// Pushes a line in these pieces.
fn push_line(text: &mut String, front: &str, back: &str) -> Result<(), AllocError>
    ensures { OnOk result (string_bytes text.new
        ≡ string_bytes text.old ++ lines_text ((front.now ++ back.now) ∷ [])) }
{
    text.push_str(front)?;
    text.push_str(back)?;
    text.push_str("\n")
}

/// Pushes a path as it is written, else the file name.
fn push_sum_name(text: &mut String, path: Option<&str>, name: &str) -> Result<(), AllocError>
    ensures { OnOk result (string_bytes text.new ≡ string_bytes text.old
        ++ sum_name (option_copied path.entry) name.now) }
{
    match path {
        Some(_) => push_path(text, name),
        None => text.push_str(name),
    }
}

#[tactic(auto, using(crate::proofs::TextLemmas::four_parts))]
fn push_sum(text: &mut String, source: Source<'_>, name: &str) -> Result<(), AllocError>
    ensures { OnOk result (string_bytes text.new ≡ string_bytes text.old
        ++ lines_text (lines_named Sha256sum (written source.entry) name.now)) }
{
    text.push_str(value_of(FileFormat::Sha256sum, source))?;
    text.push_str("  ")?;
    push_sum_name(text, path_alone(source), name)?;
    text.push_str("\n")
}

/// Pushes a whole line.
fn push_whole(text: &mut String, line: &str) -> Result<(), AllocError>
    ensures { OnOk result (string_bytes text.new
        ≡ string_bytes text.old ++ lines_text (line.now ∷ [])) }
{
    text.push_str(line)?;
    text.push_str("\n")
}

fn push_aria2(text: &mut String, source: Source<'_>, name: &str) -> Result<(), AllocError>
    ensures { OnOk result (string_bytes text.new ≡ string_bytes text.old
        ++ lines_text (lines_named Aria2 (written source.entry) name.now)) }
{
    push_whole(text, url_of(source).unwrap_or(""))?;
    push_line(text, " out=", name)?;
    push_line(
        text,
        " checksum=sha-256=",
        value_of(FileFormat::Aria2, source),
    )?;
    push_whole(text, " follow-torrent=false")?;
    push_whole(text, " follow-metalink=false")?;
    push_whole(text, " auto-file-renaming=false")
}

/// Pushes the lines of a source that is named so.
fn push_named_lines(
    text: &mut String,
    format: FileFormat,
    source: Source<'_>,
    name: &str,
) -> Result<(), AllocError>
    ensures { OnOk result (string_bytes text.new ≡ string_bytes text.old
        ++ lines_text (lines_named format (written source.entry) name.now)) }
{
    match format {
        FileFormat::Sha256sum => push_sum(text, source, name),
        FileFormat::Aria2 => push_aria2(text, source, name),
        FileFormat::Urls => push_whole(text, name),
    }
}

/// Pushes the lines of a source.
fn push_lines(
    alloc: Global,
    text: &mut String,
    format: FileFormat,
    source: Source<'_>,
) -> Result<(), AllocError>
    ensures { OnOk result (string_bytes text.new ≡ string_bytes text.old
        ++ lines_text (source_lines format (written source.entry))) }
{
    let name = name_in(alloc, format, source)?;
    push_named_lines(text, format, source, name.as_deref().unwrap_or(""))
}

fn push_kept(
    alloc: Global,
    text: &mut String,
    format: FileFormat,
    kept: &[Listed<'_>],
) -> Result<(), AllocError>
    ensures { OnOk result (string_bytes text.new ≡ string_bytes text.old
        ++ flat_map (λ s. lines_text (source_lines format s.source)) (all_lent kept.now)) }
{
    for listed in kept {
        push_lines(alloc, text, format, listed.source)?;
    }
    Ok(())
}

/// The text of a list.
pub(crate) fn list_text(
    alloc: Global,
    form: FileFormat,
    list: &[Listed<'_>],
) -> Result<String, ExportError>
    ensures { Gives export.Memory string_bytes result
        (format_text (format.Files form) (all_lent list.now)) }
{
    let kept = kept_sources(alloc, form, list)?;
    let mut text = String::new(alloc);
    push_kept(alloc, &mut text, form, kept.as_slice())?;
    Ok(text)
}
