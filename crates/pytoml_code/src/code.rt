//! Values.

ghost use Rattle.std.specs.Prelude.{◌≡◌, ◌++◌, ◌∷◌, OnOk, codes, true};
ghost use Rattle.toml.specs.Data.{boolean, float, integer};
ghost use Rattle.toml.specs.View.{array_view, table_view, view};
ghost use Rattle.pytoml_code.specs.Code.{before_item, before_member, code, items_code};
ghost use Rattle.pytoml_code.specs.Code.{members_code, table_end};
ghost use Rattle.pytoml_code.specs.HiddenValue.{HasTexts, HaveTexts, MembersHaveTexts};
ghost use Rattle.pytoml_code.specs.Text.{key_code};
ghost use Rattle.pytoml_code.specs.Proper.{AreProper, HasProper, IsProper};

use crate::scalar::{float_word, push_datetime};
use crate::text::{push_ended, push_key, push_quoted};
use itoa::Buffer;
use std::alloc::AllocError;
use toml::value::Array;
use toml::{Table, Value};

/// Adds the code of a value. Out of memory is the only refusal; what was added then is some of it.
pub fn push_code(out: &mut Vec<u8>, value: &Value) -> Result<(), AllocError>
    ensures code { OnOk result (out.new.items ≡ out.old.items ++ code (view value.now)) }
    ensures proper { OnOk result (IsProper (view value.now)) }
    ensures texts { OnOk result (HasTexts (view value.now)) }
{
    push_value(value, out)
}

#[cycle(codes)]
fn push_value(value: &Value, out: &mut Vec<u8>) -> Result<(), AllocError>
    ensures code { OnOk result (out.new.items ≡ out.old.items ++ code (view value.now)) }
    ensures proper { OnOk result (IsProper (view value.now)) }
    ensures texts { OnOk result (HasTexts (view value.now)) }
{
    match value {
        Value::String(text) => push_quoted(out, text.as_str()),
        Value::Integer(number) => push_integer(out, *number),
        Value::Float(x) => push_float(out, *x),
        Value::Boolean(flag) => push_boolean(out, *flag),
        Value::Datetime(moment) => {
            out.push(6)?;
            push_datetime(out, moment)
        }
        Value::Array(items) => {
            out.push(b'[')?;
            push_items(items, out)
        }
        Value::Table(table) => {
            out.push(b'{')?;
            push_members(table, out)
        }
    }
}

fn push_integer(out: &mut Vec<u8>, number: i64) -> Result<(), AllocError>
    ensures code { OnOk result (out.new.items ≡ out.old.items ++ code (integer number)) }
    ensures proper { OnOk result (IsProper (integer number)) }
{
    out.push(2)?;
    push_ended(out, Buffer::new().format(number))
}

fn push_float(out: &mut Vec<u8>, x: f64) -> Result<(), AllocError>
    ensures code { OnOk result (out.new.items ≡ out.old.items ++ code (float x)) }
    ensures proper { OnOk result (IsProper (float x)) }
{
    let word = float_word(*out.allocator(), x)?;
    out.push(3)?;
    push_ended(out, word.as_str())
}

fn push_boolean(out: &mut Vec<u8>, flag: bool) -> Result<(), AllocError>
    ensures { OnOk result (out.new.items ≡ out.old.items ++ code (boolean flag)) }
{
    if flag {
        out.extend_from_slice(b"\x04true")
    } else {
        out.extend_from_slice(b"\x05false")
    }
}

#[cycle(codes)]
fn push_items(items: &Array, out: &mut Vec<u8>) -> Result<(), AllocError>
    ensures code { OnOk result (out.new.items
        ≡ out.old.items ++ items_code true (array_view items.now)) }
    ensures proper { OnOk result (AreProper (array_view items.now)) }
    ensures texts { OnOk result (HaveTexts (array_view items.now)) }
{
    let mut is_first = true;
    'items: for item in items {
        push_before_item(out, is_first)?;
        push_value(item, out)?;
        is_first = false;
    }
    out.extend_from_slice(&[1, b']'])
}

/// Adds what stands before an element.
fn push_before_item(out: &mut Vec<u8>, is_first: bool) -> Result<(), AllocError>
    ensures { OnOk result (out.new.items ≡ out.old.items ++ 2 ∷ before_item is_first) }
{
    out.push(2)?;
    if !is_first {
        out.extend_from_slice(b", ")?;
    }
    Ok(())
}

#[cycle(codes)]
fn push_members(table: &Table, out: &mut Vec<u8>) -> Result<(), AllocError>
    ensures code { OnOk result (out.new.items
        ≡ out.old.items ++ members_code true (table_view table.now)) }
    ensures proper { OnOk result (HasProper (table_view table.now)) }
    ensures texts { OnOk result (MembersHaveTexts (table_view table.now)) }
{
    let mut is_first = true;
    'members: for (key, member) in table.iter() {
        push_before_member(out, is_first, key.as_str())?;
        push_value(member, out)?;
        is_first = false;
    }
    push_table_end(out, is_first)
}

/// Adds a key and what stands round it.
fn push_before_member(out: &mut Vec<u8>, is_first: bool, key: &str) -> Result<(), AllocError>
    ensures { OnOk result (out.new.items ≡ out.old.items ++ 2 ∷ before_member is_first
        ++ key_code key.now ++ codes " = ") }
{
    out.push(2)?;
    out.extend_from_slice(if is_first { " " } else { ", " }.as_bytes())?;
    push_key(out, key)?;
    out.extend_from_slice(b" = ")
}

fn push_table_end(out: &mut Vec<u8>, is_first: bool) -> Result<(), AllocError>
    ensures { OnOk result (out.new.items ≡ out.old.items ++ 1 ∷ table_end is_first) }
{
    out.push(1)?;
    out.extend_from_slice(if is_first { "}" } else { " }" }.as_bytes())
}
