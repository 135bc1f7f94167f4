//! The fields of a TOML table, taken by value, so that a string of the document moves into the
//! lock.
ghost use Rattle.std.specs.Prelude.{◌≡◌, ◌⊎◌, Err, IfErr, IfOk, MatchOption};
ghost use Rattle.std.specs.Prelude.{None, Ok, Result, Some, option_map, string_bytes};
ghost use Rattle.std.specs.Option.{ForSome, option_transpose};
ghost use Rattle.toml.specs.Data.{Data, get_member};
ghost use Rattle.toml.specs.View.{view, items_view, table_view};
ghost use Rattle.pytext.specs.Agreement.{Gives};
ghost use Rattle.pylock_readers.specs.declared.field.FieldError.TheVariants as field;
ghost use Rattle.pylock_readers.specs.Entry.Fields.{require, text_of, members_of, name_of, text_in};
ghost use Rattle.pylock_readers.specs.Entry.Fields.{optional_text_in, flag_in, items_in, list_in};
ghost use Rattle.pylock_readers.specs.Inner.Tables.{table_without};

use pyver_core::{NormalName, is_name};
use std::alloc::{AllocError, Global};
use std::mem;
use toml::{Table, Value};

/// Why a field was not read.
#[derive(Drop)]
pub(crate) enum FieldError {
    /// It is not of its form.
    Wrong,
    /// Memory was refused.
    Memory,
}

impl<E: Into<AllocError> + Drop> From<E> for FieldError {
    ghost from_gives = { λ _ e. e ≡ field.Memory };

    fn from(_refused: E) -> FieldError {
        FieldError::Memory
    }
}

/// What the value of a key, or an element of a list, is read as.
pub(crate) trait FromValue: Drop {
    ghost use Rattle.pylock_readers.specs.declared.field.FieldError.{FieldError};

    /// What a value says as such.
    ghost form: { Data → Result Self FieldError };

    fn from_value(alloc: Global, value: Value) -> Result<Self, FieldError>
        ensures { Gives FieldError.Memory (λ read. read) result (form (view value)) };
}

/// Takes the value of the key, once, and leaves a small one in its place: to take a member out of a
/// table that is soon freed would cost more.
#[tactic(auto, using(crate::proofs::TableLemmas::taken))]
pub(crate) fn take(table: &mut Table, key: &str) -> Option<Value>
    ensures taken { option_map view result ≡ get_member key.now (table_view table.old) }
    ensures left { table_view table.new ≡ table_without key.now (table_view table.old) }
{
    match table.get_mut(key) {
        Some(value) => Some(mem::replace(value, Value::Boolean(false))),
        None => None,
    }
}

/// What was read, where this is the refusal of what is not of its form.
pub(crate) fn or_refused<T, E: From<AllocError> + Drop>(
    wrong: E,
    read: Result<T, FieldError>,
) -> Result<T, E>
    ensures ok { IfOk result (λ x. read ≡ Ok x) }
    ensures err { IfErr result (λ e. ((read ≡ Err field.Wrong) × (e ≡ wrong))
        ⊎ ((a : _) × E.from_gives a e)) }
{
    match read {
        Ok(value) => Ok(value),
        Err(FieldError::Wrong) => Err(wrong),
        Err(FieldError::Memory) => Err(E::from(AllocError)),
    }
}

/// A field that may be absent.
pub(crate) fn optional_field<T, F: FnOnce(Value) -> Result<T, FieldError>>(
    field: Option<Value>,
    read: F,
) -> Result<Option<T>, FieldError>
    requires { ForSome field (F.pre read) }
    ensures { MatchOption field (result ≡ Ok None)
        (λ value. (given : _) × F.post read value given
        × (result ≡ option_transpose (Some given))) }
{
    match field {
        None => Ok(None),
        Some(value) => Ok(Some(read(value)?)),
    }
}

/// Refuses where the test fails.
pub(crate) fn require(test: bool) -> Result<(), FieldError>
    ensures { Gives FieldError.Memory (λ u. u) result (require test) }
{
    if test { Ok(()) } else { Err(FieldError::Wrong) }
}

/// The text that a value is.
pub(crate) fn into_text(value: Value) -> Result<String, FieldError>
    ensures { Gives FieldError.Memory string_bytes result (text_of (view value)) }
{
    match value {
        Value::String(text) => Ok(text),
        _ => Err(FieldError::Wrong),
    }
}

/// The table that a value is.
pub(crate) fn into_table(value: Value) -> Result<Table, FieldError>
    ensures { Gives FieldError.Memory table_view result (members_of (view value)) }
{
    match value {
        Value::Table(table) => Ok(table),
        _ => Err(FieldError::Wrong),
    }
}

/// A name, in normal form.
pub(crate) fn into_name(alloc: Global, value: Value) -> Result<NormalName, FieldError>
    ensures { Gives FieldError.Memory (λ name. name) result (name_of (view value)) }
{
    let text = into_text(value)?;
    if !is_name(text.as_str()) {
        return Err(FieldError::Wrong);
    }
    Ok(NormalName::from_string(alloc, text)?)
}

/// A text that has to be there.
pub(crate) fn text(field: Option<Value>) -> Result<String, FieldError>
    ensures { Gives FieldError.Memory string_bytes result (text_in (option_map view field)) }
{
    into_text(field.ok_or(FieldError::Wrong)?)
}

/// A text that may be absent.
pub(crate) fn optional_text(field: Option<Value>) -> Result<Option<String>, FieldError>
    ensures { Gives FieldError.Memory (option_map string_bytes) result
        (optional_text_in (option_map view field)) }
{
    optional_field(field, into_text)
}

/// A boolean, which is false where it is absent.
pub(crate) fn flag(field: Option<Value>) -> Result<bool, FieldError>
    ensures { Gives FieldError.Memory (λ flag. flag) result (flag_in (option_map view field)) }
{
    match field {
        None => Ok(false),
        Some(Value::Boolean(flag)) => Ok(flag),
        Some(_) => Err(FieldError::Wrong),
    }
}

/// A list, which is empty where it is absent.
pub(crate) fn items(alloc: Global, field: Option<Value>) -> Result<Vec<Value>, FieldError>
    ensures { Gives FieldError.Memory (λ values. items_view values.items) result
        (items_in (option_map view field)) }
{
    match field {
        None => Ok(Vec::new(alloc)),
        Some(Value::Array(values)) => Ok(values),
        Some(_) => Err(FieldError::Wrong),
    }
}

/// What each of a list is read as; nothing where the list is absent.
#[tactic(auto, using(crate::proofs::PrefixLemmas::prefix_more))]
pub(crate) fn read_list<T: FromValue>(
    alloc: Global,
    field: Option<Value>,
) -> Result<Vec<T>, FieldError>
    ensures { Gives FieldError.Memory (λ list. list.items) result
        (list_in T.form (option_map view field)) }
{
    let values = items(alloc, field)?;
    let mut list = Vec::with_capacity(alloc, values.len())?;
    for value in values {
        list.push(T::from_value(alloc, value)?)?;
    }
    Ok(list)
}
