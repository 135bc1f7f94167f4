//! Integers as nearly all of them are written, in one pass: decimal digits alone. Each other form,
//! and each refusal, is left to `toml_parser`.
ghost use Rattle.std.specs.Prelude.{◌≡◌, ◌<◌, ◌≤◌, ◌==◌, ◌&&◌, ◌||◌, IfSome, Some, length};
ghost use Rattle.std.specs.Prelude.{slice_index, take, true};
ghost use Rattle.std.specs.Char.{is_ascii_digit};
ghost use Rattle.std.specs.List.{list_all};
ghost use Rattle.std.specs.Str.Parse.{digits_value};
ghost use Rattle.toml_parser.specs.declared.scalar.Scalar.TheVariants.{Integer};
ghost use Rattle.toml_parser.specs.Lexical.{first, is_word};
ghost use Rattle.toml_parser.specs.Numbers.{unquoted};

use toml_parser::bytes::is_word;
use toml_parser::text::{byte_at, first, skip};

/// A number from here on may have 18 digits, and no digit is taken behind it: so no number is too
/// large for an `i64`.
const ENOUGH: u64 = 100_000_000_000_000_000;

/// The integer at the front, and what follows it. None says nothing of the text.
#[inline]
pub(crate) fn plain_integer(s: &str) -> Option<(i64, &str)>
    ensures value { IfSome result (λ p. unquoted s.now ≡ Some (Integer p.0, p.1.now)) }
    ensures shorter { IfSome result (λ p. length p.1.now < length s.now) }
{
    let (value, len) = leading_digits(s.as_bytes());
    if len == 0 || (len > 1 && first(s) == b'0') {
        return None;
    }
    let rest = skip(s, len);
    if goes_on(rest) {
        None
    } else {
        Some((value as i64, rest))
    }
}

/// The number that digits at the front write, and how many they are.
#[inline]
fn leading_digits(bytes: &[u8]) -> (u64, usize)
    ensures within { result.1 ≤ length bytes.now }
    ensures digits { list_all is_ascii_digit (take result.1 bytes.now) ≡ true }
    ensures value { result.0 ≡ digits_value 10 (take result.1 bytes.now) }
    ensures small { result.0 < 1000000000000000000 }
{
    let mut value = 0;
    let mut len = 0;
    while value < ENOUGH && len < bytes.len() && bytes[len].is_ascii_digit() {
        value = value * 10 + u64::from(bytes[len] - b'0');
        len += 1;
    }
    (value, len)
}

/// Whether a word may go on with this text: a space before a digit joins a date and a time.
#[inline]
pub(crate) fn goes_on(rest: &str) -> bool
    ensures { result ≡ (is_word (first rest.now)
        || (first rest.now == 32 && is_ascii_digit (slice_index rest.now 1))) }
{
    is_word(first(rest)) || (first(rest) == b' ' && byte_at(rest, 1).is_ascii_digit())
}
