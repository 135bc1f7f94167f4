//! An object that grows.

ghost use Rattle.std.specs.Prelude.{◌≡◌, OnErr, OnOk, Some};
ghost use Rattle.std.specs.Option.{option_copied};
ghost use Rattle.serde_json.specs.Data.{no_members, object};
ghost use Rattle.serde_json.specs.View.{members_view, view as data_of};
ghost use Rattle.pylock_json.specs.Json.{maybe, maybe_numbered, numbered, there, truth, with_row};

use crate::json::Json;
use serde_json::{Map, Value, put};
use std::alloc::{AllocError, Global};
use std::marker::Model;

/// An object that grows. Contracts see its members, in the order of their keys.
pub struct Object {
    members: Map<String, Value>,
}

impl Model for Object {
    ghost use Rattle.std.specs.Prelude.{◌≡◌, List, String, false};
    ghost use Rattle.std.specs.Coded.{codes};
    ghost use Rattle.std.specs.declared.alloc.Global.{Global};
    ghost use Rattle.serde_json.specs.View.{members_view};
    ghost use Rattle.serde_json.specs.Written.{members_have_float};
    ghost use Rattle.serde_json.specs.contracts.value.Value as value_contracts;
    ghost use Rattle.serde_json.specs.declared.value.Value.{Value as JsonValue};

    ghost Value = { List (String Global × JsonValue) };

    ghost coded = { Prim.hlevel (codes, value_contracts.the_row.coded) };

    ghost view = { λ o. o.members.entries };

    ghost invariant = { λ o. members_have_float (members_view o.members.entries) ≡ false };
}

impl Drop for Object {
    fn drop(self) {
        let Object { members: _ } = self;
    }
}

impl Object {
    /// An object without members. It takes no memory.
    pub fn new(alloc: Global) -> Object
        ensures { members_view result ≡ no_members }
    {
        Object {
            members: Map::new(alloc),
        }
    }

    /// Puts a value at a key, which is copied.
    #[tactic(auto, using(crate::proofs::Floats::put_has_none))]
    pub fn put(&mut self, alloc: Global, key: &str, value: Json) -> Result<(), AllocError>
        ensures ok { OnOk result (members_view self.new
            ≡ with_row (key.now, Some (data_of value)) (members_view self.old)) }
        ensures err { OnErr result (self.new ≡ self.old) }
    {
        put(&mut self.members, alloc, key, value.into_value())
    }

    /// Puts a copy of a text at a key.
    pub fn put_text(&mut self, alloc: Global, key: &str, text: &str) -> Result<(), AllocError>
        ensures ok { OnOk result (members_view self.new
            ≡ with_row (key.now, there text.now) (members_view self.old)) }
        ensures err { OnErr result (self.new ≡ self.old) }
    {
        self.put(alloc, key, Json::text(alloc, text)?)
    }

    /// Puts a copy of a text at a key, where it is there.
    pub fn put_maybe(
        &mut self,
        alloc: Global,
        key: &str,
        text: Option<&str>,
    ) -> Result<(), AllocError>
        ensures ok { OnOk result (members_view self.new
            ≡ with_row (key.now, maybe (option_copied text.entry)) (members_view self.old)) }
        ensures err { OnErr result (self.new ≡ self.old) }
    {
        match text {
            Some(text) => self.put_text(alloc, key, text),
            None => Ok(()),
        }
    }

    /// Puts a number at a key.
    pub fn put_number(&mut self, alloc: Global, key: &str, number: u64) -> Result<(), AllocError>
        ensures ok { OnOk result (members_view self.new
            ≡ with_row (key.now, numbered number) (members_view self.old)) }
        ensures err { OnErr result (self.new ≡ self.old) }
    {
        self.put(alloc, key, Json::number(number))
    }

    /// Puts a number at a key, where it is there.
    pub fn put_maybe_number(
        &mut self,
        alloc: Global,
        key: &str,
        number: Option<u64>,
    ) -> Result<(), AllocError>
        ensures ok { OnOk result (members_view self.new
            ≡ with_row (key.now, maybe_numbered number) (members_view self.old)) }
        ensures err { OnErr result (self.new ≡ self.old) }
    {
        match number {
            Some(number) => self.put_number(alloc, key, number),
            None => Ok(()),
        }
    }

    /// Puts true or false at a key.
    pub fn put_boolean(&mut self, alloc: Global, key: &str, value: bool) -> Result<(), AllocError>
        ensures ok { OnOk result (members_view self.new
            ≡ with_row (key.now, truth value) (members_view self.old)) }
        ensures err { OnErr result (self.new ≡ self.old) }
    {
        self.put(alloc, key, Json::boolean(value))
    }

    /// The object as a value.
    pub fn into_json(self) -> Json
        ensures { data_of result ≡ object (members_view self) }
    {
        let Object { members } = self;
        Json {
            value: Value::Object(members),
        }
    }
}
