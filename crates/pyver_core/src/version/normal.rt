//! The normal form of a version, written from its parts (PEP 440, "Normalization").

ghost use Rattle.std.specs.Prelude.{◌≡◌, ◌<◌, ◌++◌, IfOk, OnOk, Some, string_bytes};
ghost use Rattle.std.specs.Fmt.{padded};
ghost use Rattle.std.specs.List.{flat_map};
ghost use Rattle.pyver_core.specs.Inner.PartsRef.{parts_of};
ghost use Rattle.pyver_core.specs.Version.Normal as normal;

use crate::version::{LocalPart, PartsRef, PreKind, Version};
use itoa::Buffer;
use std::alloc::{AllocError, Global};
use std::fmt;
use std::fmt::Write;

/// The room that a normal form begins with, which nearly each keeps to. The C library's allocator
/// gives no less.
const USUAL_LENGTH: usize = 24;

/// The normal form of a version with these parts.
pub(crate) fn normal_text(alloc: Global, parts: &PartsRef<'_>) -> Result<String, AllocError>
    ensures { IfOk result (λ t. string_bytes t ≡ normal.normal_text (parts_of parts.now)) }
{
    let mut text = String::with_capacity(alloc, USUAL_LENGTH)?;
    push_epoch(&mut text, parts.epoch)?;
    push_release(&mut text, parts.release)?;
    push_pre(&mut text, parts.pre)?;
    push_post(&mut text, parts.post)?;
    push_dev(&mut text, parts.dev)?;
    push_local(&mut text, parts.local)?;
    Ok(text)
}

#[tactic(auto, using(crate::proofs::Lemmas::Version::Normal::Decimal::decimal_is_text))]
fn push_number(text: &mut String, number: u128) -> Result<(), AllocError>
    ensures { OnOk result (string_bytes text.new
        ≡ string_bytes text.old ++ normal.decimal_text number) }
{
    match u64::try_from(number) {
        Ok(short) if short < 10 => push_digit(text, short as u8),
        Ok(short) => text.push_str(Buffer::new().format(short)),
        Err(_) => write!(text, "{number}"),
    }
}

/// Writes a number of one digit, as most are.
#[tactic(auto, using(crate::proofs::Lemmas::Version::Normal::Decimal::digit_is_text))]
fn push_digit(text: &mut String, digit: u8) -> Result<(), AllocError>
    requires { digit < 10 }
    ensures { OnOk result (string_bytes text.new
        ≡ string_bytes text.old ++ normal.decimal_text digit) }
{
    text.push(char::from(b'0' + digit))
}

/// Writes the epoch where it isn't 0.
pub(crate) fn push_epoch(text: &mut String, epoch: u128) -> Result<(), AllocError>
    ensures { OnOk result (string_bytes text.new
        ≡ string_bytes text.old ++ normal.epoch_text epoch) }
{
    if epoch != 0 {
        push_number(text, epoch)?;
        text.push_str("!")?;
    }
    Ok(())
}

/// Writes the numbers of a release.
pub(crate) fn push_release(text: &mut String, release: &[u128]) -> Result<(), AllocError>
    ensures { OnOk result (string_bytes text.new
        ≡ string_bytes text.old ++ normal.release_text release.now) }
{
    if let Some((first, rest)) = release.split_first() {
        push_number(text, *first)?;
        push_dotted(text, rest)?;
    }
    Ok(())
}

fn push_dotted(text: &mut String, numbers: &[u128]) -> Result<(), AllocError>
    ensures { OnOk result (string_bytes text.new
        ≡ string_bytes text.old ++ flat_map normal.dotted_number numbers.now) }
{
    for number in numbers {
        text.push('.')?;
        push_number(text, *number)?;
    }
    Ok(())
}

fn push_pre(text: &mut String, pre: Option<(PreKind, u128)>) -> Result<(), AllocError>
    ensures { OnOk result (string_bytes text.new ≡ string_bytes text.old ++ normal.pre_text pre) }
{
    if let Some((kind, number)) = pre {
        text.push_str(kind_text(kind))?;
        push_number(text, number)?;
    }
    Ok(())
}

fn kind_text(kind: PreKind) -> &'static str
    ensures { result.now ≡ normal.kind_text kind }
{
    match kind {
        PreKind::A => "a",
        PreKind::B => "b",
        PreKind::Rc => "rc",
    }
}

fn push_post(text: &mut String, post: Option<u128>) -> Result<(), AllocError>
    ensures { OnOk result (string_bytes text.new ≡ string_bytes text.old ++ normal.post_text post) }
{
    if let Some(number) = post {
        text.push_str(".post")?;
        push_number(text, number)?;
    }
    Ok(())
}

fn push_dev(text: &mut String, dev: Option<u128>) -> Result<(), AllocError>
    ensures { OnOk result (string_bytes text.new ≡ string_bytes text.old ++ normal.dev_text dev) }
{
    if let Some(number) = dev {
        text.push_str(".dev")?;
        push_number(text, number)?;
    }
    Ok(())
}

fn push_local(text: &mut String, local: &[LocalPart]) -> Result<(), AllocError>
    ensures { OnOk result (string_bytes text.new
        ≡ string_bytes text.old ++ normal.local_text local.now) }
{
    if let Some((first, rest)) = local.split_first() {
        text.push_str("+")?;
        push_segment(text, first)?;
        for segment in rest {
            text.push_str(".")?;
            push_segment(text, segment)?;
        }
    }
    Ok(())
}

fn push_segment(text: &mut String, segment: &LocalPart) -> Result<(), AllocError>
    ensures { OnOk result (string_bytes text.new
        ≡ string_bytes text.old ++ normal.segment_text segment.now) }
{
    match segment {
        LocalPart::Number(number) => push_number(text, *number),
        LocalPart::Text(label) => text.push_str(label.as_str()),
    }
}

/// The normal form in quotes.
impl fmt::Debug for Version {
    fn fmt<W: fmt::Write>(&self, f: &mut fmt::Formatter<W>) -> fmt::Result {
        fmt::Debug::fmt(self.text(), f)
    }
}

/// The normal form (PEP 440, "Normalization").
impl fmt::Display for Version {
    ghost output = { λ v. Some (normal.normal_text v) };

    ghost styled_output = { λ v spec. Some (padded spec (normal.normal_text v)) };

    fn fmt<W: fmt::Write>(&self, f: &mut fmt::Formatter<W>) -> fmt::Result {
        f.pad(self.text())
    }
}
