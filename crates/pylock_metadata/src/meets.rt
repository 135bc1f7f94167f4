//! Whether a value is what is wanted of it, key by key.

ghost use Rattle.std.specs.Prelude.{◌≡◌, ◌==◌, ◌&&◌, IfOk};
ghost use Rattle.std.specs.Str.{bytes_eq};
ghost use Rattle.toml.specs.Data.{type_of};
ghost use Rattle.toml.specs.View.{array_view, table_view, view};
ghost use Rattle.pytoml_code.specs.Code.{code};
ghost use Rattle.pylock_metadata.specs.Meets.{all_meet, has_members, has_others, is_equal, meets};

use crate::table::field;
use pytoml_code::push_code;
use std::alloc::{AllocError, Global};
use toml::value::Array;
use toml::{Table, Value};

/// Whether an entry's table has each key of this element of `dependencies` but `name`, with what
/// is wanted there.
pub(crate) fn has_others(alloc: Global, element: &Table, entry: &Table) -> Result<bool, AllocError>
    ensures { IfOk result (λ has. has ≡ has_others (table_view element.now)
        (table_view entry.now)) }
{
    'members: for (key, wanted) in element.iter() {
        if key.as_str() == "name" {
            continue;
        }
        let Some(given) = field(entry, key.as_str()) else {
            return Ok(false);
        };
        if !meets(alloc, wanted, given)? {
            return Ok(false);
        }
    }
    Ok(true)
}

/// Whether a value is what is wanted of it: of a table that it has at least these keys, each with
/// what is wanted there; of an array that it has as many elements, each what is wanted of it;
/// anything else is equal.
#[cycle(meeting)]
fn meets(alloc: Global, wanted: &Value, given: &Value) -> Result<bool, AllocError>
    ensures { IfOk result (λ met. met ≡ meets (view wanted.now) (view given.now)) }
{
    match wanted {
        Value::String(text) => Ok(given.as_str() == Some(text.as_str())),
        Value::Array(items) => match given.as_array() {
            Some(given) => all_meet(alloc, items, given),
            None => Ok(false),
        },
        Value::Table(members) => match given.as_table() {
            Some(given) => has_members(alloc, members, given),
            None => Ok(false),
        },
        _ => is_equal(alloc, wanted, given),
    }
}

#[cycle(meeting)]
fn all_meet(alloc: Global, wanted: &Array, given: &Array) -> Result<bool, AllocError>
    ensures { IfOk result (λ met. met ≡ all_meet (array_view wanted.now)
        (array_view given.now)) }
{
    let mut place = 0;
    'items: for item in wanted {
        let Some(other) = given.get(place) else {
            return Ok(false);
        };
        if !meets(alloc, item, other)? {
            return Ok(false);
        }
        place += 1;
    }
    Ok(place == given.len())
}

#[cycle(meeting)]
fn has_members(alloc: Global, wanted: &Table, given: &Table) -> Result<bool, AllocError>
    ensures { IfOk result (λ has. has ≡ has_members (table_view wanted.now)
        (table_view given.now)) }
{
    'members: for (key, value) in wanted.iter() {
        let Some(other) = field(given, key.as_str()) else {
            return Ok(false);
        };
        if !meets(alloc, value, other)? {
            return Ok(false);
        }
    }
    Ok(true)
}

/// Whether two values have one type and one code, and are equal then (the law
/// `equal_codes_are_of_equal_values` of `pytoml_code`).
fn is_equal(alloc: Global, wanted: &Value, given: &Value) -> Result<bool, AllocError>
    ensures { IfOk result (λ equal. equal ≡ is_equal (view wanted.now) (view given.now)) }
{
    if !wanted.same_type(given) {
        return Ok(false);
    }
    let wanted = code_of(alloc, wanted)?;
    let given = code_of(alloc, given)?;
    Ok(wanted.as_slice() == given.as_slice())
}

fn code_of(alloc: Global, value: &Value) -> Result<Vec<u8>, AllocError>
    ensures { IfOk result (λ bytes. bytes.items ≡ code (view value.now)) }
{
    let mut bytes = Vec::new(alloc);
    push_code(&mut bytes, value)?;
    Ok(bytes)
}
