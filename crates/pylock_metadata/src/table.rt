//! What a table has at a key.

ghost use Rattle.std.specs.Prelude.{◌≡◌, option_map};
ghost use Rattle.toml.specs.Data.{get_member};
ghost use Rattle.toml.specs.View.{items_view, table_view, view};
ghost use Rattle.pylock_metadata.specs.Table.{items_at};

use toml::{Table, Value};

/// The value at a key.
pub(crate) fn field<'a>(table: &'a Table, key: &str) -> Option<&'a Value>
    ensures { option_map (λ v. view v.now) result ≡ get_member key.now (table_view table.now) }
{
    table.get(key)
}

/// The list at a key, or none.
pub(crate) fn items_at<'a>(table: &'a Table, key: &str) -> &'a [Value]
    ensures { items_view result.now ≡ items_at key.now (table_view table.now) }
{
    match field(table, key) {
        Some(Value::Array(items)) => items.as_slice(),
        _ => &[],
    }
}
