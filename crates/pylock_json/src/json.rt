//! A value.

ghost use Rattle.std.specs.Prelude.{◌≡◌, IfOk, false, string_bytes};
ghost use Rattle.serde_json.specs.Data.{boolean, number, string, unsigned};
ghost use Rattle.serde_json.specs.View.{view as data_of};
ghost use Rattle.serde_json.specs.Written.{compact_text, has_float};

use serde_json::Value;
use std::alloc::{AllocError, Global};
use std::marker::Model;

/// A JSON value without floats. Contracts see its data.
pub struct Json {
    pub(crate) value: Value,
}

impl Model for Json {
    ghost use Rattle.std.specs.Prelude.{◌≡◌, false};
    ghost use Rattle.std.specs.Coded.{codes};
    ghost use Rattle.serde_json.specs.View.{view as data_of};
    ghost use Rattle.serde_json.specs.Written.{has_float};
    ghost use Rattle.serde_json.specs.contracts.value.Value as value_contracts;
    ghost use Rattle.serde_json.specs.declared.value.Value.{Value as JsonValue};

    ghost Value = { JsonValue };

    ghost coded = { Prim.hlevel (codes, value_contracts.the_row.coded) };

    ghost view = { λ j. j.value };

    ghost invariant = { λ j. has_float (data_of j.value) ≡ false };
}

impl Drop for Json {
    fn drop(self) {
        let Json { value: _ } = self;
    }
}

impl Json {
    /// A number. It takes no memory.
    pub fn number(value: u64) -> Json
        ensures { data_of result ≡ number (unsigned value) }
    {
        Json {
            value: Value::from(value),
        }
    }

    /// True or false. It takes no memory.
    pub fn boolean(value: bool) -> Json
        ensures { data_of result ≡ boolean value }
    {
        Json {
            value: Value::from(value),
        }
    }

    /// A text, which is copied.
    pub fn text(alloc: Global, text: &str) -> Result<Json, AllocError>
        ensures { IfOk result (λ json. data_of json ≡ string text.now) }
    {
        let value = Value::try_from_str(alloc, text)?;
        Ok(Json { value })
    }

    /// The text of `serde_json`, without white space. It takes memory for the text, once more while
    /// it grows.
    pub fn to_text(&self, alloc: Global) -> Result<String, AllocError>
        ensures { IfOk result (λ text. string_bytes text ≡ compact_text (data_of self.now)) }
    {
        self.value.to_string(alloc)
    }

    /// The value itself.
    pub(crate) fn into_value(self) -> Value
        ensures data { result ≡ self }
        ensures no_float { has_float (data_of self) ≡ false }
    {
        let Json { value } = self;
        value
    }
}
