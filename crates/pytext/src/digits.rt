//! Digits and the number that they write.

ghost use Rattle.std.specs.Prelude.{◌≡◌, ◌+◌, ◌*◌, ◌<◌, ◌^◌, true, SomeIff};
ghost use Rattle.std.specs.Char.{digit_value, is_ascii_digit};
ghost use Rattle.std.specs.List.{list_all, prefix_len};
ghost use Rattle.std.specs.Str.Parse.{digits_value};
ghost use Rattle.pytext.specs.Digits.{is_number, number_limit};

/// How many digits the bytes begin with.
pub fn digits_len(bytes: &[u8]) -> usize
    ensures { result ≡ prefix_len is_ascii_digit bytes.now }
{
    bytes.iter().take_while(|b| b.is_ascii_digit()).count()
}

/// Whether these are ASCII digits alone; there may be none.
pub fn are_digits(bytes: &[u8]) -> bool
    ensures { result ≡ list_all is_ascii_digit bytes.now }
{
    bytes.iter().all(|b| b.is_ascii_digit())
}

/// Whether these are ASCII digits, one or more.
pub fn is_number(bytes: &[u8]) -> bool
    ensures { result ≡ is_number bytes.now }
{
    !bytes.is_empty() && are_digits(bytes)
}

/// The number that the digits write, where it isn't past [`u128::MAX`]; 0 where there are none.
pub fn digits_value(digits: &[u8]) -> Option<u128>
    requires { list_all is_ascii_digit digits.now ≡ true }
    ensures { SomeIff result (digits_value 10 digits.now < number_limit)
        (digits_value 10 digits.now) }
{
    match short_value(digits) {
        Some(value) => Some(u128::from(value)),
        None => long_value(digits),
    }
}

/// The number, where 64 bits hold it, as they hold nearly each: the short way.
#[tactic(auto, using(crate::proofs::DigitsLemmas::digits))]
fn short_value(digits: &[u8]) -> Option<u64>
    requires { list_all is_ascii_digit digits.now ≡ true }
    ensures { SomeIff result (digits_value 10 digits.now < 2 ^ 64) (digits_value 10 digits.now) }
{
    let mut value = 0u64;
    for digit in digits {
        value = with_short_digit(value, *digit)?;
    }
    Some(value)
}

#[tactic(auto, using(crate::proofs::DigitsLemmas::digits))]
fn long_value(digits: &[u8]) -> Option<u128>
    requires { list_all is_ascii_digit digits.now ≡ true }
    ensures { SomeIff result (digits_value 10 digits.now < number_limit)
        (digits_value 10 digits.now) }
{
    let mut value = 0u128;
    for digit in digits {
        value = with_digit(value, *digit)?;
    }
    Some(value)
}

/// The number with one more digit, where 64 bits hold it.
fn with_short_digit(value: u64, digit: u8) -> Option<u64>
    requires { is_ascii_digit digit ≡ true }
    ensures { SomeIff result (value * 10 + digit_value digit < 2 ^ 64)
        (value * 10 + digit_value digit) }
{
    value.checked_mul(10)?.checked_add(u64::from(digit - b'0'))
}

/// The number with one more digit, where it isn't past the limit.
fn with_digit(value: u128, digit: u8) -> Option<u128>
    requires { is_ascii_digit digit ≡ true }
    ensures { SomeIff result (value * 10 + digit_value digit < number_limit)
        (value * 10 + digit_value digit) }
{
    value.checked_mul(10)?.checked_add(u128::from(digit - b'0'))
}
