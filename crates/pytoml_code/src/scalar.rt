//! Numbers, dates and times.

ghost use Rattle.std.specs.Prelude.{◌≡◌, ◌++◌, ◌<◌, ◌^◌, OnOk, string_bytes};
ghost use Rattle.std.specs.Prelude.{IfOk, Some, replicate};
ghost use Rattle.pytoml_code.specs.Proper.{IsDate, IsDatetime, IsOffset, IsTime, IfThere, IsSmall};
ghost use Rattle.pytoml_code.specs.Scalar.{between, date_code, datetime_code, float_word};
ghost use Rattle.pytoml_code.specs.Scalar.{nanosecond_code, offset_code, padded, part};
ghost use Rattle.pytoml_code.specs.Scalar.{second_code, sign_of, time_code};
ghost use Rattle.toml_datetime.specs.Valid.{magnitude};

use crate::text::push_ended;
use itoa::Buffer;
use std::alloc::{AllocError, Global};
use toml_datetime::{Date, Datetime, Offset, Time};

/// The word of a float.
pub(crate) fn float_word(alloc: Global, x: f64) -> Result<String, AllocError>
    ensures { IfOk result (λ word. string_bytes word ≡ float_word x) }
{
    if x.is_nan() {
        return String::from_str(alloc, "nan");
    }
    let bits = x.to_bits();
    format!(in alloc; "0x{bits:x}")
}

/// Adds a number with zeros in front, so that so many digits stand at least.
fn push_padded(out: &mut Vec<u8>, width: usize, number: u64) -> Result<(), AllocError>
    ensures { OnOk result (out.new.items ≡ out.old.items ++ padded width number) }
{
    let mut buffer = Buffer::new();
    let digits = buffer.format(number);
    let zeros = width.saturating_sub(digits.len());
    push_zeros(out, zeros)?;
    out.push(1)?;
    push_ended(out, digits)
}

fn push_zeros(out: &mut Vec<u8>, count: usize) -> Result<(), AllocError>
    ensures { OnOk result (out.new.items ≡ out.old.items ++ replicate count 48) }
{
    for _ in 0..count {
        out.push(b'0')?;
    }
    Ok(())
}

/// Adds a date-time, whose numbers are small.
pub(crate) fn push_datetime(out: &mut Vec<u8>, moment: &Datetime) -> Result<(), AllocError>
    ensures code { OnOk result (out.new.items ≡ out.old.items ++ datetime_code moment.now) }
    ensures small { OnOk result (IsDatetime moment.now) }
{
    push_date(out, moment.date)?;
    push_time(out, moment.date, moment.time)?;
    push_offset(out, moment.offset)
}

fn push_date(out: &mut Vec<u8>, date: Option<Date>) -> Result<(), AllocError>
    ensures code { OnOk result (out.new.items ≡ out.old.items ++ part date_code date) }
    ensures small { OnOk result (IfThere IsDate date) }
{
    let Some(date) = date else {
        out.push(0)?;
        return Ok(());
    };
    out.push(1)?;
    push_padded(out, 4, u64::from(date.year))?;
    out.push(b'-')?;
    push_padded(out, 2, u64::from(date.month))?;
    out.push(b'-')?;
    push_padded(out, 2, u64::from(date.day))
}

/// Adds a time, and a `T` before it where a date stands.
fn push_time(out: &mut Vec<u8>, date: Option<Date>, time: Option<Time>) -> Result<(), AllocError>
    ensures code { OnOk result (out.new.items
        ≡ out.old.items ++ part (time_code (between date)) time) }
    ensures small { OnOk result (IfThere IsTime time) }
{
    let Some(time) = time else {
        out.push(0)?;
        return Ok(());
    };
    out.push(1)?;
    push_between(out, date)?;
    push_padded(out, 2, u64::from(time.hour))?;
    out.push(b':')?;
    push_padded(out, 2, u64::from(time.minute))?;
    push_second(out, time.second)?;
    push_nanosecond(out, time.nanosecond)
}

fn push_between(out: &mut Vec<u8>, date: Option<Date>) -> Result<(), AllocError>
    ensures { OnOk result (out.new.items ≡ out.old.items ++ between date) }
{
    if date.is_some() {
        out.push(b'T')?;
    }
    Ok(())
}

fn push_second(out: &mut Vec<u8>, second: Option<u8>) -> Result<(), AllocError>
    ensures code { OnOk result (out.new.items ≡ out.old.items ++ part second_code second) }
    ensures small { OnOk result (IfThere IsSmall second) }
{
    let Some(second) = second else {
        out.push(0)?;
        return Ok(());
    };
    out.extend_from_slice(&[1, b':'])?;
    push_padded(out, 2, u64::from(second))
}

fn push_nanosecond(out: &mut Vec<u8>, nanosecond: Option<u32>) -> Result<(), AllocError>
    ensures code { OnOk result (out.new.items
        ≡ out.old.items ++ part nanosecond_code nanosecond) }
    ensures small { OnOk result (IfThere IsSmall nanosecond) }
{
    let Some(nanosecond) = nanosecond else {
        out.push(0)?;
        return Ok(());
    };
    out.extend_from_slice(&[1, b'.'])?;
    push_padded(out, 9, u64::from(nanosecond))
}

fn push_offset(out: &mut Vec<u8>, offset: Option<Offset>) -> Result<(), AllocError>
    ensures code { OnOk result (out.new.items ≡ out.old.items ++ part offset_code offset) }
    ensures small { OnOk result (IfThere IsOffset offset) }
{
    match offset {
        None => {
            out.push(0)?;
            Ok(())
        }
        Some(Offset::Z) => out.extend_from_slice(&[1, 1, b'Z']),
        Some(Offset::Custom { minutes }) => push_minutes(out, minutes),
    }
}

/// Adds minutes from UTC.
fn push_minutes(out: &mut Vec<u8>, minutes: i16) -> Result<(), AllocError>
    ensures code { OnOk result (out.new.items
        ≡ out.old.items ++ part offset_code (Some (Offset.Custom minutes))) }
    ensures small { OnOk result (IsOffset (Offset.Custom minutes)) }
{
    out.extend_from_slice(&[1, 2])?;
    out.push(if minutes < 0 { b'-' } else { b'+' })?;
    let magnitude = u64::from(minutes.unsigned_abs());
    push_padded(out, 2, magnitude / 60)?;
    out.push(b':')?;
    push_padded(out, 2, magnitude % 60)
}
