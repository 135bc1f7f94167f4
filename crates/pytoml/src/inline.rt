//! The elements of an array that is one value, each handed over as soon as it is read.
ghost use Rattle.std.specs.Prelude.{◌≡◌, ℕ, ◌<◌, IfOk, OnOk, Some, length};
ghost use Rattle.toml.specs.Data.{Items, no_items, push_item};
ghost use Rattle.toml.specs.Parse.{items, val};
ghost use Rattle.toml.specs.View.{view};
ghost use Rattle.pytoml.specs.Inline.{begins_elements};

use crate::fault::Unread;
use crate::outline::Elements;
use crate::text::past_blank;
use crate::value::{after_element, value};
use std::alloc::Global;
use toml::Value;
use toml_parser::text::{first, skip};

/// Whether the text begins with an array that isn't empty.
pub(crate) fn begins_elements(s: &str) -> bool
    ensures { result ≡ begins_elements s.now }
{
    first(s) == b'[' && first(past_blank(skip(s, 1))) != b']'
}

/// Hands over the elements of an array, from behind its opening bracket on, where they are tables,
/// and gives what follows it.
pub(crate) fn take_elements<'a, E: Elements>(
    alloc: Global,
    s: &'a str,
    depth: usize,
    elements: &mut E,
) -> Result<&'a str, Unread>
    ensures taken { E.holds elements.old no_items → (n : ℕ) → length s.now < n
        → IfOk result (λ rest. (taken : Items) × E.holds elements.new taken
        × (items (val depth) n no_items s.now ≡ Some (taken, rest.now))) }
    ensures shorter { IfOk result (λ rest. length rest.now < length s.now) }
{
    let mut rest = s;
    'items: loop {
        let start = past_blank(rest);
        if first(start) == b']' {
            return Ok(skip(start, 1));
        }
        let (element, after) = value(alloc, start, depth)?;
        take_table(elements, element)?;
        rest = after_element(after, b']')?;
    }
}

/// Hands over an element that is a table.
fn take_table<E: Elements>(elements: &mut E, element: Value) -> Result<(), Unread>
    ensures { OnOk result ((taken : Items) → E.holds elements.old taken
        → E.holds elements.new (push_item taken (view element))) }
{
    match element {
        Value::Table(table) => Ok(elements.take(table)?),
        _ => Err(Unread::Shape),
    }
}
