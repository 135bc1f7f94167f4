//! TOML documents and values from their texts, faster than by `toml`, and the same.
//!
//! It stands on `toml`, whose `Table` and `Value` it makes and whose definitions say what a text
//! means, and on `toml_parser` for its tokens. The short way reads a text in one pass: a table is
//! put together where it will stay, and the tables that headers opened last stand at hand, so that
//! no line walks down from the root. A text that the short way doesn't know, a refused one among
//! them, is read by `toml` itself.
//!
//! So `pylock_readers` reads a document, each element of one array of tables being handed out, in
//! `crates/pylock_readers/src/lock/read.rt`:
//!
//! ```rust
//! match read_table_without(alloc, text, elements)? {
//!     Some((document, elements)) => Ok((document, Some(elements))),
//!     None => Ok((document_by_toml(alloc, text)?, None)),
//! }
//! ```
#![tactic(auto)]

ghost use Rattle.std.specs.Prelude.{◌≡◌, Err, IfOk, IfSome, None, Some};
ghost use Rattle.toml.specs.Data.{Items, no_items};
ghost use Rattle.toml.specs.Parse.{parse_document, parse_value};
ghost use Rattle.toml.specs.View.{table_view, view};
ghost use Rattle.pytoml.specs.Elements.{LacksElements};
ghost use Rattle.pytoml.specs.Members.{with_elements};
ghost use Rattle.pytoml.specs.declared.fault.TomlError.TheVariants as fault;

mod basic;
mod date_time;
mod document;
mod draft;
mod fault;
mod inline;
mod key;
mod number;
mod outline;
mod text;
mod value;

use document::{document_without, whole_value};
pub use fault::TomlError;
use fault::Unread;
pub use outline::Elements;
use std::alloc::{AllocError, Global};
use toml::{Table, Value};

/// The table that a document of TOML 1.1 is without the elements of one array of tables, at the key
/// of `elements`, to which they are handed in their order, each as soon as it is complete: so one
/// element's table stands at a time, be the array written with a header for each element or as one
/// value. What else stands at the key stays in the table: a value that is no array, or an array
/// with no elements. None where the text is of a shape that the short way doesn't know, a refused
/// one among them; `elements` is let go then, and [`read_table_by_toml`] decides.
///
/// Takes memory for the table, for one element, and for what `elements` takes.
pub fn read_table_without<E: Elements>(
    alloc: Global,
    text: &str,
    elements: E,
) -> Result<Option<(Table, E)>, AllocError>
    requires { E.holds elements no_items }
    ensures { IfOk result (λ read. IfSome read (λ r. (taken : Items) × E.holds r.1 taken
        × (parse_document text.now ≡ Some (with_elements E.key taken (table_view r.0)))
        × LacksElements E.key taken (table_view r.0))) }
{
    match document_without(alloc, text, elements) {
        Ok(read) => Ok(Some(read)),
        Err(Unread::Memory) => Err(AllocError),
        Err(Unread::Shape) => Ok(None),
    }
}

/// The value that a text is, with nothing before or after it.
///
/// Takes memory for the value alone, but where the text is of a shape that the short way doesn't
/// know: then also what `toml` takes.
pub fn read_value(alloc: Global, text: &str) -> Result<Value, TomlError>
    ensures ok { IfOk result (λ value. parse_value text.now ≡ Some (view value)) }
    ensures syntax { result ≡ Err fault.Syntax → parse_value text.now ≡ None }
{
    match whole_value(alloc, text) {
        Ok(value) => Ok(value),
        Err(Unread::Memory) => Err(TomlError::Memory),
        Err(Unread::Shape) => Value::from_str(alloc, text).map_err(TomlError::of),
    }
}

/// The table that a document of TOML 1.1 is, read by `toml` alone: for a text of which the short
/// way is known to give none.
pub fn read_table_by_toml(alloc: Global, text: &str) -> Result<Table, TomlError>
    ensures ok { IfOk result (λ table. parse_document text.now ≡ Some (table_view table)) }
    ensures syntax { result ≡ Err fault.Syntax → parse_document text.now ≡ None }
{
    toml::table_from_str(alloc, text).map_err(TomlError::of)
}
