//! Date-times as tools write them, `2024-01-02T03:04:05Z`, in one look. Each other form, and each
//! refusal, is left to `toml_parser`.
ghost use Rattle.std.specs.Prelude.{◌≡◌, ◌+◌, ◌<◌, ◌≤◌, ◌++◌, IfSome, Some, drop, length};
ghost use Rattle.toml_datetime.specs.Text.{date_text, time_text};
ghost use Rattle.toml_parser.specs.declared.scalar.Scalar.TheVariants as scalar;
ghost use Rattle.toml_parser.specs.Numbers.{unquoted};
ghost use Rattle.pytoml.specs.Text.{IsTwoWide};

use crate::number::goes_on;
use toml_datetime::{Date, Datetime, Offset, Time};
use toml_parser::text::{byte_at, skip};

/// The date-time at the front, of 20 bytes, and what follows it. None says nothing of the text.
pub(crate) fn plain_date_time(s: &str) -> Option<(Datetime, &str)>
    ensures value { IfSome result (λ p. unquoted s.now ≡ Some (scalar.Datetime p.0, p.1.now)) }
    ensures shorter { IfSome result (λ p. length p.1.now < length s.now) }
{
    if byte_at(s, 10) != b'T' || byte_at(s, 19) != b'Z' {
        return None;
    }
    let bytes = s.as_bytes();
    let datetime = Datetime {
        date: Some(date(bytes)?),
        time: Some(time(bytes)?),
        offset: Some(Offset::Z),
    };
    let rest = skip(s, 20);
    if !datetime.is_valid() || goes_on(rest) {
        return None;
    }
    Some((datetime, rest))
}

/// The date that the first ten bytes write, be it one of the calendar or not.
fn date(bytes: &[u8]) -> Option<Date>
    requires { 10 ≤ length bytes.now }
    ensures { IfSome result (λ date. bytes.now ≡ date_text date ++ drop 10 bytes.now) }
{
    if bytes[4] != b'-' || bytes[7] != b'-' {
        return None;
    }
    let century = two_digits(bytes, 0)?;
    let year = two_digits(bytes, 2)?;
    let month = two_digits(bytes, 5)?;
    let day = two_digits(bytes, 8)?;
    Some(Date {
        year: 100 * u16::from(century) + u16::from(year),
        month,
        day,
    })
}

/// The time of day that eight bytes write, from the place 11 on, be it one of a day or not.
fn time(bytes: &[u8]) -> Option<Time>
    requires { 19 ≤ length bytes.now }
    ensures { IfSome result (λ time. drop 11 bytes.now ≡ time_text time ++ drop 19 bytes.now) }
{
    if bytes[13] != b':' || bytes[16] != b':' {
        return None;
    }
    let hour = two_digits(bytes, 11)?;
    let minute = two_digits(bytes, 14)?;
    let second = two_digits(bytes, 17)?;
    Some(Time {
        hour,
        minute,
        second: Some(second),
        nanosecond: None,
    })
}

/// The number that the digits at this place and the next write.
#[inline(always)]
fn two_digits(bytes: &[u8], at: usize) -> Option<u8>
    requires { at + 1 < length bytes.now }
    ensures { IfSome result (λ n. IsTwoWide bytes.now at n) }
{
    let (tens, ones) = (bytes[at], bytes[at + 1]);
    if !tens.is_ascii_digit() || !ones.is_ascii_digit() {
        return None;
    }
    Some(10 * (tens - b'0') + (ones - b'0'))
}
