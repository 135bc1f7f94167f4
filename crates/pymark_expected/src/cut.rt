//! Cuts of a text behind what it begins with.

ghost use Rattle.std.specs.Prelude.{◌≡◌, ◌==◌, ◌<◌, ◌≤◌, IfSome, length, option_map};
ghost use Rattle.std.specs.Char.{is_ascii_alphanumeric};
ghost use Rattle.std.specs.List.{after_first, prefix_len, suffix_len};
ghost use Rattle.pytext.specs.Bytes.{is_name_byte, is_separator, starts};
ghost use Rattle.pymark_core.specs.Requirement.Reading.{after_byte};
ghost use Rattle.pymark_expected.specs.Requirement.{after_name, name_len};

use pytext::{is_name_byte, is_separator};

/// The text behind this byte, where it stands at the beginning.
#[tactic(auto, using(pymark_core::proofs::BoundaryLemmas::boundary_after_first))]
pub(crate) fn after_byte(byte: u8, text: &str) -> Option<&str>
    requires { byte < 128 }
    ensures shorter { IfSome result (λ rest. length rest.now < length text.now) }
    ensures value { option_map (λ rest. rest.now) result ≡ after_byte byte text.now }
{
    match text.as_bytes() {
        [first, ..] if *first == byte => Some(text.split_at(1).1),
        _ => None,
    }
}

/// The text behind the first of these ASCII characters; nothing where none stands there.
pub(crate) fn after_first(mark: char, text: &str) -> &str
    requires { mark < 128 }
    ensures { result.now ≡ after_first (λ b. b == mark) text.now }
{
    match text.split_once(mark) {
        Some((_, rest)) => rest,
        None => "",
    }
}

/// Whether a name begins there.
pub(crate) fn begins_name(text: &str) -> bool
    ensures { result ≡ starts is_ascii_alphanumeric text.now }
{
    match text.as_bytes() {
        [first, ..] => first.is_ascii_alphanumeric(),
        _ => false,
    }
}

/// The text behind the longest name that stands at its beginning; the text itself where none does.
#[tactic(auto, using(crate::proofs::CutLemmas::name_boundary))]
pub(crate) fn after_name(text: &str) -> &str
    ensures shorter { length result.now ≤ length text.now }
    ensures value { result.now ≡ after_name text.now }
{
    if begins_name(text) {
        text.split_at(name_len(text.as_bytes())).1
    } else {
        text
    }
}

/// How long the run of letters, digits, `.`, `_` and `-` is, without those of the latter at its
/// end.
fn name_len(bytes: &[u8]) -> usize
    ensures within { result ≤ length bytes.now }
    ensures value { result ≡ name_len bytes.now }
{
    let run = name_run(bytes);
    run.saturating_sub(separators_at_end(bytes.split_at(run).0))
}

fn name_run(bytes: &[u8]) -> usize
    ensures within { result ≤ length bytes.now }
    ensures value { result ≡ prefix_len is_name_byte bytes.now }
{
    bytes.iter().take_while(|b| is_name_byte(**b)).count()
}

fn separators_at_end(bytes: &[u8]) -> usize
    ensures { result ≡ suffix_len is_separator bytes.now }
{
    bytes.iter().rev().take_while(|b| is_separator(**b)).count()
}
