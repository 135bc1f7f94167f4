//! The order key and the kind of a version, its normal form, the numbers of its parts, and the
//! record of these (PEP 440).

ghost use Rattle.std.specs.Prelude.{◌≡◌, ◌≢◌, ◌++◌, ◌∷◌, [], IfOk, OnOk, Some, codes, drop, map};
ghost use Rattle.std.specs.Prelude.{option_map, string_bytes, take};
ghost use Rattle.pytext.specs.Agreement.{Gives};
ghost use Rattle.pyver_core.specs.Version.Normal.{decimal_text, normal_text, pre_text};
ghost use Rattle.pyver_core.specs.Version.Normal.{release_text, segment_text};
ghost use Rattle.pyver_core.specs.Version.Parts.{release_alone};
ghost use Rattle.pylock_run.specs.Text.Field.{field, fields_text};
ghost use Rattle.pylock_values.specs.Record.{joined, record_of};
ghost use Rattle.pylock_slots.specs.Answer.{Writes, WritesBoth, WritesWith};
ghost use Rattle.pylock_c.specs.Versions.{key_of, normal_of, parts_of, read_of, split_of};
ghost use Rattle.pylock_c.specs.Reading.{values_of};
ghost use Rattle.pylock_c.specs.Versions.{split_text, told_of, version_record, whole_of};
ghost use Rattle.pylock_slots.specs.declared.refusal.Refusal.TheVariants.{Memory};

use crate::sets::version;
use pylock_run::{push_field, push_next_field};
use pylock_slots::{Refusal, put_both, text, write_made, write_with};
use pylock_values::{
    VersionKind, VersionNumbers, base_of, kind_of, normal_form, plain_kind, words_of,
};
use pyver_core::{LocalPart, PlainVersion, PreKind, Version};
use std::alloc::{AllocError, Global};
use std::fmt::Write;

fn key(alloc: Global, bytes: &[u8]) -> Result<Vec<u8>, Refusal>
    ensures { Gives Memory (λ key. key.items) result (key_of bytes.now) }
{
    Ok(version(alloc, bytes)?.order_key(alloc)?)
}

/// The order key of a version.
#[unsafe(no_mangle)]
pub extern "C" fn pylock_version_key(
    alloc: Global,
    text: &[u8],
    out: &mut [u8],
    needed: &mut usize,
) -> i32
    ensures { Writes (key_of text.now) out.old out.new needed.old needed.new result }
{
    write_made(key(alloc, text), out, needed)
}

fn read(alloc: Global, bytes: &[u8]) -> Result<(Vec<u8>, VersionKind), Refusal>
    ensures { Gives Memory (λ read. (read.0.items, read.1)) result (read_of bytes.now) }
{
    let version = version(alloc, bytes)?;
    let text = text(bytes)?;
    let key = version.order_key(alloc)?;
    Ok((key, kind_of(&version, text)))
}

/// The order key of a version, and its kind.
#[unsafe(no_mangle)]
pub extern "C" fn pylock_version_read(
    alloc: Global,
    text: &[u8],
    out: &mut [u8],
    needed: &mut usize,
    kind: &mut VersionKind,
) -> i32
    ensures { WritesWith (read_of text.now) out.old out.new needed.old needed.new kind.old kind.new
        result }
{
    write_with(read(alloc, text), out, needed, kind)
}

fn normal(alloc: Global, bytes: &[u8], short: bool) -> Result<Vec<u8>, Refusal>
    ensures { Gives Memory (λ normal. normal.items) result (normal_of short bytes.now) }
{
    let version = version(alloc, bytes)?;
    Ok(normal_form(alloc, &version, short)?)
}

/// The normal form of a version, or without the zeros at the end of its release.
#[unsafe(no_mangle)]
pub extern "C" fn pylock_version_normal(
    alloc: Global,
    text: &[u8],
    strip: bool,
    out: &mut [u8],
    needed: &mut usize,
) -> i32
    ensures { Writes (normal_of strip text.now) out.old out.new needed.old needed.new result }
{
    write_made(normal(alloc, text, strip), out, needed)
}

fn split(alloc: Global, bytes: &[u8]) -> Result<(Vec<u64>, VersionNumbers), Refusal>
    ensures { Gives Memory (λ split. (split.0.items, split.1)) result (split_of bytes.now) }
{
    let text = text(bytes)?;
    let Some(version) = PlainVersion::read(text) else {
        return split_any(alloc, text);
    };
    let release = words_of(alloc, version.release())?;
    Ok((release, VersionNumbers::of_plain(&version, text)))
}

/// The same of any text.
fn split_any(alloc: Global, text: &str) -> Result<(Vec<u64>, VersionNumbers), Refusal>
    ensures { Gives Memory (λ split. (split.0.items, split.1)) result (split_text text.now) }
{
    let version = Version::parse(alloc, text)?;
    let release = words_of(alloc, version.release())?;
    Ok((release, VersionNumbers::of(&version)))
}

/// The parts of a version as numbers.
#[unsafe(no_mangle)]
pub extern "C" fn pylock_version_split(
    alloc: Global,
    text: &[u8],
    parts: &mut VersionNumbers,
    release: &mut [u64],
    needed: &mut usize,
) -> i32
    ensures { WritesWith (split_of text.now) release.old release.new needed.old needed.new
        parts.old parts.new result }
{
    write_with(split(alloc, text), release, needed, parts)
}

/// What one reading of a version tells.
#[derive(Drop)]
struct Reading {
    key: Vec<u8>,
    release: Vec<u64>,
    kind: VersionKind,
    parts: VersionNumbers,
}

fn whole(alloc: Global, bytes: &[u8]) -> Result<Reading, Refusal>
    ensures { Gives Memory values_of result (whole_of bytes.now) }
{
    let text = text(bytes)?;
    match PlainVersion::read(text) {
        Some(version) => Ok(tell_plain(alloc, &version, text)?),
        None => Ok(tell_any(alloc, &Version::parse(alloc, text)?, text)?),
    }
}

/// What is told of a version that the text spells.
fn tell_any(alloc: Global, version: &Version, text: &str) -> Result<Reading, AllocError>
    ensures { IfOk result (λ made. values_of made ≡ told_of text.now version.now) }
{
    Ok(Reading {
        key: version.order_key(alloc)?,
        release: words_of(alloc, version.release())?,
        kind: kind_of(version, text),
        parts: VersionNumbers::of(version),
    })
}

/// The same of a version of which the text is the normal form, with two allocations.
fn tell_plain(alloc: Global, version: &PlainVersion, text: &str) -> Result<Reading, AllocError>
    requires alone { version.now ≡ release_alone version.now.release }
    requires normal { normal_text version.now ≡ text.now }
    ensures { IfOk result (λ made. values_of made ≡ told_of text.now version.now) }
{
    Ok(Reading {
        key: version.order_key(alloc)?,
        release: words_of(alloc, version.release())?,
        kind: plain_kind(version, text),
        parts: VersionNumbers::of_plain(version, text),
    })
}

/// The order key of a version, its kind and its parts as numbers, of one reading.
#[unsafe(no_mangle)]
pub extern "C" fn pylock_version_whole(
    alloc: Global,
    text: &[u8],
    key: &mut [u8],
    key_needed: &mut usize,
    kind: &mut VersionKind,
    parts: &mut VersionNumbers,
    release: &mut [u64],
    release_needed: &mut usize,
) -> i32
    ensures { WritesBoth (whole_of text.now) (key.old, key_needed.old) (key.new, key_needed.new)
        (release.old, release_needed.old) (release.new, release_needed.new)
        (kind.old, parts.old) (kind.new, parts.new) result }
{
    match whole(alloc, text) {
        Ok(whole) => {
            *kind = whole.kind;
            *parts = whole.parts;
            put_both(
                &whole.key,
                key,
                key_needed,
                &whole.release,
                release,
                release_needed,
            )
        }
        Err(refusal) => refusal.number(),
    }
}

fn version_record(alloc: Global, bytes: &[u8]) -> Result<Vec<u8>, Refusal>
    ensures { Gives Memory (λ made. made.items) result (version_record bytes.now) }
{
    let version = version(alloc, bytes)?;
    let mut out = Vec::new(alloc);
    push_versions(alloc, &mut out, &version)?;
    push_rest(alloc, &mut out, &version)?;
    Ok(out)
}

/// The record of a version's parts.
#[unsafe(no_mangle)]
pub extern "C" fn pylock_version(
    alloc: Global,
    text: &[u8],
    out: &mut [u8],
    needed: &mut usize,
) -> i32
    ensures { Writes (version_record text.now) out.old out.new needed.old needed.new result }
{
    write_made(version_record(alloc, text), out, needed)
}

/// Pushes the first three parts, which are versions.
fn push_versions(alloc: Global, out: &mut Vec<u8>, version: &Version) -> Result<(), AllocError>
    ensures { OnOk result (out.new.items
        ≡ out.old.items ++ record_of (take 3 (parts_of version.now))) }
{
    push_field(out, Some(version.text()))?;
    push_next_field(out, Some(version.public_part(alloc)?.text()))?;
    push_next_field(out, Some(version.base_release(alloc)?.text()))
}

/// Pushes the others behind them.
fn push_rest(alloc: Global, out: &mut Vec<u8>, version: &Version) -> Result<(), AllocError>
    ensures { OnOk result (out.new.items
        ≡ out.old.items ++ fields_text (map field (drop 3 (parts_of version.now)))) }
{
    push_number(alloc, out, Some(version.epoch()))?;
    push_release(alloc, out, version.release())?;
    push_pre(alloc, out, version.pre())?;
    push_number(alloc, out, version.post())?;
    push_number(alloc, out, version.dev())?;
    push_local(alloc, out, version.local())
}

/// Pushes a TAB and the field of a number.
fn push_number(alloc: Global, out: &mut Vec<u8>, number: Option<u128>) -> Result<(), AllocError>
    ensures { OnOk result (out.new.items
        ≡ out.old.items ++ 9 ∷ field (option_map decimal_text number)) }
{
    let Some(number) = number else {
        return push_next_field(out, None);
    };
    let text = number_text(alloc, number)?;
    push_next_field(out, Some(text.as_str()))
}

#[tactic(auto, using(pyver_core::proofs::Lemmas::Version::Normal::Decimal::decimal_is_text))]
fn number_text(alloc: Global, number: u128) -> Result<String, AllocError>
    ensures { IfOk result (λ text. string_bytes text ≡ decimal_text number) }
{
    format!(in alloc; "{number}")
}

/// Pushes a TAB and the field of a release.
fn push_release(alloc: Global, out: &mut Vec<u8>, release: &[u128]) -> Result<(), AllocError>
    requires { release.now ≢ [] }
    ensures { OnOk result (out.new.items
        ≡ out.old.items ++ 9 ∷ field (Some (release_text release.now))) }
{
    let alone = base_of(alloc, 0, release)?;
    push_next_field(out, Some(alone.text()))
}

/// Pushes a TAB and the field of a pre-release.
fn push_pre(
    alloc: Global,
    out: &mut Vec<u8>,
    pre: Option<(PreKind, u128)>,
) -> Result<(), AllocError>
    ensures { OnOk result (out.new.items
        ≡ out.old.items ++ 9 ∷ field (option_map (λ pre. pre_text (Some pre)) pre)) }
{
    let Some((kind, number)) = pre else {
        return push_next_field(out, None);
    };
    let text = pre_text(alloc, kind, number)?;
    push_next_field(out, Some(text.as_str()))
}

#[tactic(auto, using(pyver_core::proofs::Lemmas::Version::Normal::Decimal::decimal_is_text))]
fn pre_text(alloc: Global, kind: PreKind, number: u128) -> Result<String, AllocError>
    ensures { IfOk result (λ text. string_bytes text ≡ pre_text (Some (kind, number))) }
{
    match kind {
        PreKind::A => format!(in alloc; "a{number}"),
        PreKind::B => format!(in alloc; "b{number}"),
        PreKind::Rc => format!(in alloc; "rc{number}"),
    }
}

/// Pushes a TAB and the field of a local part.
fn push_local(alloc: Global, out: &mut Vec<u8>, local: &[LocalPart]) -> Result<(), AllocError>
    ensures { OnOk result (out.new.items
        ≡ out.old.items ++ 9 ∷ field (joined segment_text (codes ".") local.now)) }
{
    let Some((first, rest)) = local.split_first() else {
        return push_next_field(out, None);
    };
    let mut text = String::new(alloc);
    push_segment(&mut text, first)?;
    for segment in rest {
        text.push_str(".")?;
        push_segment(&mut text, segment)?;
    }
    push_next_field(out, Some(text.as_str()))
}

#[tactic(auto, using(pyver_core::proofs::Lemmas::Version::Normal::Decimal::decimal_is_text))]
fn push_segment(text: &mut String, segment: &LocalPart) -> Result<(), AllocError>
    ensures { OnOk result (string_bytes text.new
        ≡ string_bytes text.old ++ segment_text segment.now) }
{
    match segment {
        LocalPart::Number(number) => {
            let number = *number;
            write!(text, "{number}")
        }
        LocalPart::Text(label) => text.push_str(label.as_str()),
    }
}
