//! The time at which a document was made (SPDX 2.3, section 6.9).

ghost use Rattle.std.specs.Prelude.{◌≡◌};
ghost use Rattle.std.specs.Option.{option_copied};
ghost use Rattle.pylock_command.specs.Created.{after_field, after_time, after_two, is_created};
ghost use Rattle.pylock_command.specs.Created.{is_two_digits};

/// Whether a text is a time as SPDX has it, `YYYY-MM-DDThh:mm:ssZ`: the month from 1 to 12, the day
/// from 1 to 31, the hour to 23, the minute and the second to 59 (SPDX 2.3, section 6.9). Which
/// days a month has isn't looked at. It takes no memory.
pub fn is_created(text: &str) -> bool
    ensures { result ≡ is_created text.now }
{
    match after_time(text.as_bytes()) {
        Some(rest) => rest.is_empty(),
        None => false,
    }
}

/// What stands behind the time.
fn after_time(text: &[u8]) -> Option<&[u8]>
    ensures { option_copied result ≡ after_time text.now }
{
    let century = after_two(text)?;
    let year = after_field(century, 0, 99, b'-')?;
    let month = after_field(year, 1, 12, b'-')?;
    let day = after_field(month, 1, 31, b'T')?;
    let hour = after_field(day, 0, 23, b':')?;
    let minute = after_field(hour, 0, 59, b':')?;
    after_field(minute, 0, 59, b'Z')
}

/// What stands behind two digits.
fn after_two(text: &[u8]) -> Option<&[u8]>
    ensures { option_copied result ≡ after_two text.now }
{
    if let [a, b, rest @ ..] = text {
        if a.is_ascii_digit() && b.is_ascii_digit() {
            return Some(rest);
        }
    }
    None
}

/// What stands behind two digits, whose number lies between these two, and this mark.
fn after_field(text: &[u8], least: u8, most: u8, mark: u8) -> Option<&[u8]>
    ensures { option_copied result ≡ after_field least most mark text.now }
{
    if let [tens, ones, end, rest @ ..] = text {
        if *end == mark && is_two_digits(least, most, *tens, *ones) {
            return Some(rest);
        }
    }
    None
}

/// Whether these are two digits, whose number lies between these two.
fn is_two_digits(least: u8, most: u8, tens: u8, ones: u8) -> bool
    ensures { result ≡ is_two_digits least most tens ones }
{
    if !tens.is_ascii_digit() || !ones.is_ascii_digit() {
        return false;
    }
    let number = (tens - b'0') * 10 + (ones - b'0');
    least <= number && number <= most
}
