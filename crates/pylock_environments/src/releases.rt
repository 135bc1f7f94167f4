//! The releases of CPython.

ghost use Rattle.std.specs.Prelude.{◌≡◌, [], nat_le, true};
ghost use Rattle.std.specs.Char.{is_ascii_digit};
ghost use Rattle.std.specs.List.{list_all};
ghost use Rattle.std.specs.Str.Parse.{digits_value};
ghost use Rattle.pylock_environments.specs.Inner.{is_plain_number};
ghost use Rattle.pylock_environments.specs.Releases.{is_among, is_release};

use pytext::{digits_value, is_number};

/// Whether this is the text of a final release of CPython, up to 3.14.2.
#[tactic(auto, unfolding(crate::specs::Releases::is_release))]
pub(crate) fn is_release(text: &str) -> bool
    ensures { result ≡ is_release text.now }
{
    is_among(text, "2.7.", 18)
        || is_among(text, "3.0.", 1)
        || is_among(text, "3.1.", 5)
        || is_among(text, "3.2.", 6)
        || is_among(text, "3.3.", 7)
        || is_among(text, "3.4.", 10)
        || is_among(text, "3.5.", 10)
        || is_among(text, "3.6.", 15)
        || is_among(text, "3.7.", 17)
        || is_among(text, "3.8.", 20)
        || is_among(text, "3.9.", 25)
        || is_among(text, "3.10.", 19)
        || is_among(text, "3.11.", 14)
        || is_among(text, "3.12.", 12)
        || is_among(text, "3.13.", 11)
        || is_among(text, "3.14.", 2)
}

/// Whether the text begins so, and ends in a number up to the last.
fn is_among(text: &str, front: &str, last: u8) -> bool
    ensures { result ≡ is_among text.now front.now last }
{
    match text.as_bytes().strip_prefix(front.as_bytes()) {
        Some(digits) => is_up_to(digits, last),
        None => false,
    }
}

/// Whether these are the digits of a number up to the last.
#[tactic(auto, using(crate::proofs::ReleaseLemmas::plain_up_to))]
fn is_up_to(digits: &[u8], last: u8) -> bool
    ensures { result ≡ is_among digits.now [] last }
{
    is_plain_number(digits) && is_at_most(digits, last)
}

/// Whether these are digits, one or more, without a zero in front of others.
fn is_plain_number(digits: &[u8]) -> bool
    ensures { result ≡ is_plain_number digits.now }
{
    is_number(digits) && (digits.len() == 1 || digits[0] != b'0')
}

/// Whether the number that the digits write is at most the last.
fn is_at_most(digits: &[u8], last: u8) -> bool
    requires { list_all is_ascii_digit digits.now ≡ true }
    ensures { result ≡ nat_le (digits_value 10 digits.now) last }
{
    digits_value(digits).is_some_and(|value| value <= u128::from(last))
}
