//! Entries from TOML values.
ghost use Rattle.std.specs.Prelude.{◌≡◌, option_map, string_bytes};
ghost use Rattle.toml.specs.View.{view, table_view};
ghost use Rattle.pytext.specs.Agreement.{Gives};
ghost use Rattle.pylock_readers.specs.Entry.Reading.{table_in, name_in, version_in, marker_in};
ghost use Rattle.pylock_readers.specs.Entry.Reading.{requires_python_in, entry_in, entry_of};
ghost use Rattle.pylock_readers.specs.Entry.Reading.{toml_value};

use crate::entry::Entry;
use crate::entry::sources::Sources;
use crate::error::{EntryError, EntryKey};
use crate::field::{into_name, into_text, optional_field, optional_text, or_refused, take};
use crate::interner::Interner;
use pymark_core::Marker;
use pytoml::{TomlError, read_value};
use pyver_core::{NormalName, SpecifierSet};
use std::alloc::Global;
use std::rc::Rc;
use toml::{Table, Value};

impl Entry {
    /// Reads an entry from a text that is one TOML value, a table, with nothing before or after it.
    /// The refusals come in the order of `EntryError`; keys that are not named there are ignored.
    ///
    /// Takes memory for the value and for the entry.
    #[tactic(auto, unfolding(crate::specs::Entry::Reading::entry_of))]
    pub fn read_text(alloc: Global, text: &str) -> Result<Entry, EntryError>
        ensures { Gives EntryError.Memory (λ e. e) result (entry_of text.now) }
    {
        let value = toml_value(alloc, text)?;
        let mut interner = Interner::new(alloc);
        read_entry(alloc, value, &mut interner)
    }
}

fn toml_value(alloc: Global, text: &str) -> Result<Value, EntryError>
    ensures { Gives EntryError.Memory view result (toml_value text.now) }
{
    match read_value(alloc, text) {
        Ok(value) => Ok(value),
        Err(TomlError::Memory) => Err(EntryError::Memory),
        Err(_) => Err(EntryError::Toml),
    }
}

/// The entry that the value is.
#[tactic(auto, using(crate::proofs::kept), unfolding(crate::specs::Entry::Reading::entry_in))]
pub(crate) fn read_entry(
    alloc: Global,
    value: Value,
    interner: &mut Interner,
) -> Result<Entry, EntryError>
    ensures { Gives EntryError.Memory (λ e. e) result (entry_in (view value)) }
{
    let mut table = require_table(value)?;
    let name = read_name(alloc, take(&mut table, "name"))?;
    let version = read_version(take(&mut table, "version"))?;
    let marker = take(&mut table, "marker");
    let requires_python = take(&mut table, "requires-python");
    let sources = Sources::read(alloc, table, &mut interner.wheels)?;
    let marker = read_marker(alloc, marker, interner)?;
    let requires_python = read_requires_python(alloc, requires_python, interner)?;
    Ok(Entry {
        name,
        version,
        sources,
        marker,
        requires_python,
    })
}

fn require_table(value: Value) -> Result<Table, EntryError>
    ensures { Gives EntryError.Memory table_view result (table_in (view value)) }
{
    match value {
        Value::Table(table) => Ok(table),
        _ => Err(EntryError::NotTable),
    }
}

fn read_name(alloc: Global, field: Option<Value>) -> Result<NormalName, EntryError>
    ensures { Gives EntryError.Memory (λ name. name) result (name_in (option_map view field)) }
{
    let value = field.ok_or(EntryError::Name)?;
    or_refused(EntryError::Name, into_name(alloc, value))
}

fn read_version(field: Option<Value>) -> Result<Option<String>, EntryError>
    ensures { Gives EntryError.Memory (option_map string_bytes) result
        (version_in (option_map view field)) }
{
    or_refused(EntryError::Key(EntryKey::Version), optional_text(field))
}

fn read_marker(
    alloc: Global,
    field: Option<Value>,
    interner: &mut Interner,
) -> Result<Option<Marker>, EntryError>
    ensures { Gives EntryError.Memory (λ m. m) result
        (marker_in (option_map view field)) }
{
    let read = |value| interner.markers.read(alloc, into_text(value)?);
    or_refused(EntryError::Marker, optional_field(field, read))
}

fn read_requires_python(
    alloc: Global,
    field: Option<Value>,
    interner: &mut Interner,
) -> Result<Option<Rc<SpecifierSet>>, EntryError>
    ensures { Gives EntryError.Memory (option_map (λ s. s.value)) result
        (requires_python_in (option_map view field)) }
{
    let read = |value| interner.sets.read(alloc, into_text(value)?);
    or_refused(EntryError::RequiresPython, optional_field(field, read))
}
