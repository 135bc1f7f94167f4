//! The codes of the keys of a table, from which documents are compared.

ghost use Rattle.std.specs.Prelude.{◌≡◌, ◌++◌, ◌∷◌, [], IfOk, OnOk, map};
ghost use Rattle.toml.specs.Data.{string};
ghost use Rattle.toml.specs.View.{table_view, view};
ghost use Rattle.pylock_diff.specs.Codes.{code_row, member_rows};
ghost use Rattle.pytoml_code.specs.Code.{code};
ghost use Rattle.pytoml_code.specs.Proper.{HasProper, IsProper};

use pytoml_code::{push_code, push_text_code};
use std::alloc::{AllocError, Global};
use std::marker::Model;
use toml::{Table, Value};

/// Keys, each with the code of its value. Contracts see the rows.
pub(crate) struct Codes {
    rows: Vec<(String, Vec<u8>)>,
}

impl Model for Codes {
    ghost use Rattle.std.specs.Prelude.{List, ℕ, map};
    ghost use Rattle.pylock_compare.specs.Rows.{Row};
    ghost use Rattle.pylock_diff.specs.Codes.{code_row};

    ghost Value = { List (Row (List ℕ)) };

    ghost view = { λ c. map code_row c.rows.items };
}

impl Drop for Codes {
    fn drop(self) {
        let Codes { rows: _ } = self;
    }
}

impl Codes {
    /// No key. It takes no memory.
    pub(crate) fn new(alloc: Global) -> Codes
        ensures { result ≡ [] }
    {
        Codes {
            rows: Vec::new(alloc),
        }
    }

    /// The keys of a table, in order.
    pub(crate) fn of(alloc: Global, table: &Table) -> Result<Codes, AllocError>
        ensures codes { IfOk result (λ codes. codes ≡ member_rows (table_view table.now)) }
        ensures proper { IfOk result (λ codes. HasProper (table_view table.now)) }
    {
        let mut codes = Codes::new(alloc);
        for (key, value) in table.iter() {
            codes.push_value(alloc, key.as_str(), value)?;
        }
        Ok(codes)
    }

    /// Adds a key with the code of its value.
    pub(crate) fn push_value(
        &mut self,
        alloc: Global,
        key: &str,
        value: &Value,
    ) -> Result<(), AllocError>
        ensures codes { OnOk result
            (self.new ≡ self.old ++ (key.now, code (view value.now)) ∷ []) }
        ensures proper { OnOk result (IsProper (view value.now)) }
    {
        let mut code = Vec::new(alloc);
        push_code(&mut code, value)?;
        self.push(alloc, key, code)
    }

    /// Adds a key with the code of a text.
    pub(crate) fn push_text(
        &mut self,
        alloc: Global,
        key: &str,
        text: &str,
    ) -> Result<(), AllocError>
        ensures { OnOk result (self.new ≡ self.old ++ (key.now, code (string text.now)) ∷ []) }
    {
        let mut code = Vec::new(alloc);
        push_text_code(&mut code, text)?;
        self.push(alloc, key, code)
    }

    fn push(&mut self, alloc: Global, key: &str, code: Vec<u8>) -> Result<(), AllocError>
        ensures { OnOk result (self.new ≡ self.old ++ (key.now, code.items) ∷ []) }
    {
        let key = String::from_str(alloc, key)?;
        self.rows.push((key, code))?;
        Ok(())
    }

    /// The rows.
    pub(crate) fn rows(&self) -> &[(String, Vec<u8>)]
        ensures { map code_row result.now ≡ self.now }
    {
        self.rows.as_slice()
    }
}
