//! A list that grows.

ghost use Rattle.std.specs.Prelude.{◌≡◌, ◌++◌, ◌∷◌, [], OnErr, OnOk, map};
ghost use Rattle.serde_json.specs.Data.{string};
ghost use Rattle.serde_json.specs.View.{view as data_of};
ghost use Rattle.pylock_json.specs.Json.{list_of};

use crate::json::Json;
use serde_json::Value;
use std::alloc::{AllocError, Global};
use std::marker::Model;

/// A list that grows. Contracts see its items.
pub struct List {
    items: Vec<Value>,
}

impl Model for List {
    ghost use Rattle.std.specs.Prelude.{◌≡◌, List, false};
    ghost use Rattle.std.specs.Coded.{codes};
    ghost use Rattle.serde_json.specs.View.{items_view};
    ghost use Rattle.serde_json.specs.Written.{items_have_float};
    ghost use Rattle.serde_json.specs.contracts.value.Value as value_contracts;
    ghost use Rattle.serde_json.specs.declared.value.Value.{Value as JsonValue};

    ghost Value = { List JsonValue };

    ghost coded = { Prim.hlevel (codes, value_contracts.the_row.coded) };

    ghost view = { λ l. l.items.items };

    ghost invariant = { λ l. items_have_float (items_view l.items.items) ≡ false };
}

impl Drop for List {
    fn drop(self) {
        let List { items: _ } = self;
    }
}

impl List {
    /// A list without items. It takes no memory.
    pub fn new(alloc: Global) -> List
        ensures { result ≡ [] }
    {
        List {
            items: Vec::new(alloc),
        }
    }

    /// Adds an item.
    #[tactic(auto, using(crate::proofs::Floats::push_has_none))]
    pub fn push(&mut self, item: Json) -> Result<(), AllocError>
        ensures ok { OnOk result (self.new ≡ self.old ++ item ∷ []) }
        ensures err { OnErr result (self.new ≡ self.old) }
    {
        self.items.push(item.into_value())?;
        Ok(())
    }

    /// Adds a copy of a text.
    pub fn push_text(&mut self, alloc: Global, text: &str) -> Result<(), AllocError>
        ensures ok { OnOk result (map data_of self.new
            ≡ map data_of self.old ++ string text.now ∷ []) }
        ensures err { OnErr result (self.new ≡ self.old) }
    {
        self.push(Json::text(alloc, text)?)
    }

    /// The list as a value.
    pub fn into_json(self) -> Json
        ensures { data_of result ≡ list_of (map data_of self) }
    {
        let List { items } = self;
        Json {
            value: Value::Array(items),
        }
    }
}
