//! The parts after the release: pre, post and dev.

ghost use Rattle.std.specs.Prelude.{◌≡◌, option_map};
ghost use Rattle.pyver_core.specs.Version.Reading as reading;

use super::digits::Digits;
use super::scan;
use crate::version::PreKind;

#[tactic(auto, unfolding(crate::specs::Version::Reading::tagged_pre_at))]
fn read_tagged_pre(bytes: &[u8]) -> Option<(PreKind, Digits<'_>, &[u8])>
    ensures { option_map (λ x. ((x.0, x.1), x.2.now)) result ≡ reading.tagged_pre_at bytes.now }
{
    let (kind, rest) = scan::read_pre_word(scan::after_separator(bytes))?;
    let (number, rest) = scan::read_trailing_count(rest);
    Some((kind, number, rest))
}

#[tactic(auto, unfolding(crate::specs::Version::Reading::tagged_post_at))]
fn read_tagged_post(bytes: &[u8]) -> Option<(Digits<'_>, &[u8])>
    ensures { option_map (λ x. (x.0, x.1.now)) result ≡ reading.tagged_post_at bytes.now }
{
    let rest = scan::after_post_word(scan::after_separator(bytes))?;
    Some(scan::read_trailing_count(rest))
}

/// `-` and digits.
#[tactic(auto, unfolding(crate::specs::Version::Reading::dashed_number_at))]
fn read_dashed_number(bytes: &[u8]) -> Option<(Digits<'_>, &[u8])>
    ensures { option_map (λ x. (x.0, x.1.now)) result ≡ reading.dashed_number_at bytes.now }
{
    match bytes {
        [b'-', rest @ ..] => scan::read_number(rest),
        _ => None,
    }
}

#[tactic(auto, unfolding(crate::specs::Version::Reading::tagged_dev_at))]
fn read_tagged_dev(bytes: &[u8]) -> Option<(Digits<'_>, &[u8])>
    ensures { option_map (λ x. (x.0, x.1.now)) result ≡ reading.tagged_dev_at bytes.now }
{
    let rest = scan::after_word(scan::after_separator(bytes), b"dev")?;
    Some(scan::read_trailing_count(rest))
}

/// The pre-release, and the text after it.
pub(super) fn read_pre(bytes: &[u8]) -> (Option<(PreKind, Digits<'_>)>, &[u8])
    ensures { (result.0, result.1.now) ≡ reading.optional_at reading.tagged_pre_at bytes.now }
{
    match read_tagged_pre(bytes) {
        Some((kind, number, rest)) => (Some((kind, number)), rest),
        None => (None, bytes),
    }
}

/// The number of the post-release, and the text after it.
#[tactic(auto, unfolding(crate::specs::Version::Reading::dashed_or_tagged_post_at))]
pub(super) fn read_post(bytes: &[u8]) -> (Option<Digits<'_>>, &[u8])
    ensures { (result.0, result.1.now)
        ≡ reading.optional_at reading.dashed_or_tagged_post_at bytes.now }
{
    if let Some((number, rest)) = read_dashed_number(bytes) {
        return (Some(number), rest);
    }
    match read_tagged_post(bytes) {
        Some((number, rest)) => (Some(number), rest),
        None => (None, bytes),
    }
}

/// The number of the developmental release, and the text after it.
pub(super) fn read_dev(bytes: &[u8]) -> (Option<Digits<'_>>, &[u8])
    ensures { (result.0, result.1.now) ≡ reading.optional_at reading.tagged_dev_at bytes.now }
{
    match read_tagged_dev(bytes) {
        Some((number, rest)) => (Some(number), rest),
        None => (None, bytes),
    }
}
