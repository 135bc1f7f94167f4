//! What a text begins with: separators, numbers and words.

ghost use Rattle.std.specs.Prelude.{◌≡◌, option_map};
ghost use Rattle.std.specs.Char.{is_ascii_alphanumeric};
ghost use Rattle.std.specs.List.{prefix_len};
ghost use Rattle.std.specs.Str.{str_to_ascii_lowercase};
ghost use Rattle.pyver_core.specs.Version.Reading as reading;

use super::digits::Digits;
use super::segment::Segment;
use crate::version::PreKind;
use pytext::digits_len;

pub(super) fn alphanumeric_len(bytes: &[u8]) -> usize
    ensures { result ≡ prefix_len is_ascii_alphanumeric bytes.now }
{
    bytes
        .iter()
        .take_while(|b| b.is_ascii_alphanumeric())
        .count()
}

/// The text after a separator, or the text.
pub(super) fn after_separator(bytes: &[u8]) -> &[u8]
    ensures { result.now ≡ reading.after_separator bytes.now }
{
    match bytes {
        [b'-' | b'_' | b'.', rest @ ..] => rest,
        _ => bytes,
    }
}

/// Digits or none, and the text after them.
#[tactic(auto, using(pytext::proofs::BytesLemmas::prefixes))]
pub(super) fn read_count(bytes: &[u8]) -> (Digits<'_>, &[u8])
    ensures { (result.0, result.1.now) ≡ reading.count_at bytes.now }
{
    let (digits, rest) = bytes.split_at(digits_len(bytes));
    (Digits::new(digits), rest)
}

/// One digit or more, and the text after them.
pub(super) fn read_number(bytes: &[u8]) -> Option<(Digits<'_>, &[u8])>
    ensures { option_map (λ x. (x.0, x.1.now)) result ≡ reading.number_at bytes.now }
{
    match bytes {
        [b'0'..=b'9', ..] => Some(read_count(bytes)),
        _ => None,
    }
}

/// A dot and a number.
#[tactic(auto, unfolding(crate::specs::Version::Reading::dotted_number_at))]
pub(super) fn read_dotted_number(bytes: &[u8]) -> Option<(Digits<'_>, &[u8])>
    ensures { option_map (λ x. (x.0, x.1.now)) result ≡ reading.dotted_number_at bytes.now }
{
    match bytes {
        [b'.', rest @ ..] => read_number(rest),
        _ => None,
    }
}

/// The text after the word, letter case ignored.
pub(super) fn after_word<'a>(bytes: &'a [u8], word: &[u8]) -> Option<&'a [u8]>
    requires { str_to_ascii_lowercase word.now ≡ word.now }
    ensures { option_map (λ rest. rest.now) result ≡ reading.after_word word.now bytes.now }
{
    let (first, rest) = bytes.split_at_checked(word.len())?;
    first.eq_ignore_ascii_case(word).then_some(rest)
}

/// The text after the longer word, or else after the shorter.
fn after_either_word<'a>(bytes: &'a [u8], longer: &[u8], shorter: &[u8]) -> Option<&'a [u8]>
    requires longer { str_to_ascii_lowercase longer.now ≡ longer.now }
    requires shorter { str_to_ascii_lowercase shorter.now ≡ shorter.now }
    ensures { option_map (λ rest. rest.now) result
        ≡ reading.after_either_word longer.now shorter.now bytes.now }
{
    match after_word(bytes, longer) {
        Some(rest) => Some(rest),
        None => after_word(bytes, shorter),
    }
}

/// The word of a pre-release, and the text after it.
#[tactic(auto, unfolding(crate::specs::Version::Reading::pre_word_at))]
pub(super) fn read_pre_word(bytes: &[u8]) -> Option<(PreKind, &[u8])>
    ensures { option_map (λ x. (x.0, x.1.now)) result ≡ reading.pre_word_at bytes.now }
{
    if let Some(rest) = after_either_word(bytes, b"alpha", b"a") {
        return Some((PreKind::A, rest));
    }
    if let Some(rest) = after_either_word(bytes, b"beta", b"b") {
        return Some((PreKind::B, rest));
    }
    if let Some(rest) = after_either_word(bytes, b"preview", b"pre") {
        return Some((PreKind::Rc, rest));
    }
    let rest = after_either_word(bytes, b"rc", b"c")?;
    Some((PreKind::Rc, rest))
}

/// The text after the word of a post-release.
#[tactic(auto, unfolding(crate::specs::Version::Reading::after_post_word))]
pub(super) fn after_post_word(bytes: &[u8]) -> Option<&[u8]>
    ensures { option_map (λ rest. rest.now) result ≡ reading.after_post_word bytes.now }
{
    match after_word(bytes, b"post") {
        Some(rest) => Some(rest),
        None => after_either_word(bytes, b"rev", b"r"),
    }
}

/// What stands after a word: at most one separator, digits or none.
pub(super) fn read_trailing_count(bytes: &[u8]) -> (Digits<'_>, &[u8])
    ensures { (result.0, result.1.now) ≡ reading.trailing_count_at bytes.now }
{
    read_count(after_separator(bytes))
}

/// A segment of a local part, and the text after it.
#[tactic(auto, unfolding(crate::specs::Version::Reading::segment_at))]
pub(super) fn read_segment(bytes: &[u8]) -> Option<(Segment<'_>, &[u8])>
    ensures { option_map (λ x. (x.0, x.1.now)) result ≡ reading.segment_at bytes.now }
{
    match bytes {
        [first, ..] if first.is_ascii_alphanumeric() => {
            let (run, rest) = bytes.split_at(alphanumeric_len(bytes));
            Some((Segment::new(run), rest))
        }
        _ => None,
    }
}

/// A separator and a segment.
#[tactic(auto, unfolding(crate::specs::Version::Reading::separated_segment_at))]
pub(super) fn read_separated_segment(bytes: &[u8]) -> Option<(Segment<'_>, &[u8])>
    ensures { option_map (λ x. (x.0, x.1.now)) result ≡ reading.separated_segment_at bytes.now }
{
    match bytes {
        [b'-' | b'_' | b'.', rest @ ..] => read_segment(rest),
        _ => None,
    }
}

/// `+` and a segment.
#[tactic(auto, unfolding(crate::specs::Version::Reading::added_segment_at))]
pub(super) fn read_added_segment(bytes: &[u8]) -> Option<(Segment<'_>, &[u8])>
    ensures { option_map (λ x. (x.0, x.1.now)) result ≡ reading.added_segment_at bytes.now }
{
    match bytes {
        [b'+', rest @ ..] => read_segment(rest),
        _ => None,
    }
}
