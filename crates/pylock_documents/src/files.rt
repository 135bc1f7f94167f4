//! Every source that a lock names.

ghost use Rattle.std.specs.Prelude.{◌≡◌, ◌++◌, IfOk, OnOk, map};
ghost use Rattle.serde_json.specs.View.{members_view, view as data_of};
ghost use Rattle.pylock_json.specs.Json.{members_of};
ghost use Rattle.pylock_core.specs.Session.Picks.{sources};
ghost use Rattle.pylock_documents.specs.Documents.{files_from, files_rows};
ghost use Rattle.pylock_documents.specs.Source.{source_data};

use crate::source::source_object;
use pylock_core::{Entry, sources};
use pylock_json::{List, Object};
use std::alloc::{AllocError, Global};

/// The document of all sources of the entries, which have the numbers 1, 2, .. in their order. It
/// takes memory for the object, and for the list of the sources of an entry at a time.
pub fn files_document(alloc: Global, entries: &[Entry]) -> Result<Object, AllocError>
    ensures { IfOk result (λ object. members_view object ≡ members_of (files_rows entries.now)) }
{
    let files = files_list(alloc, entries)?;
    let mut object = Object::new(alloc);
    object.put(alloc, "files", files.into_json())?;
    Ok(object)
}

fn files_list(alloc: Global, entries: &[Entry]) -> Result<List, AllocError>
    ensures { IfOk result (λ list. map data_of list ≡ files_from 1 entries.now) }
{
    let mut list = List::new(alloc);
    for (place, entry) in entries.iter().enumerate() {
        push_sources(alloc, &mut list, place as u64 + 1, entry)?;
    }
    Ok(list)
}

/// Adds each source of an entry, which has this number.
fn push_sources(
    alloc: Global,
    list: &mut List,
    number: u64,
    entry: &Entry,
) -> Result<(), AllocError>
    ensures { OnOk result (map data_of list.new ≡ map data_of list.old
        ++ map (λ s. source_data number entry.now s.1) (sources entry.now)) }
{
    let sources = sources(alloc, entry)?;
    let named = sources.as_slice();
    for source in named {
        list.push(source_object(alloc, number, entry, source.source)?)?;
    }
    Ok(())
}
