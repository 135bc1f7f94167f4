//! The changes as a JSON document.

ghost use Rattle.std.specs.Prelude.{◌≡◌, IfOk, map};
ghost use Rattle.serde_json.specs.View.{members_view, view as data_of};
ghost use Rattle.pylock_json.specs.Json.{members_of, object_of};
ghost use Rattle.pylock_diff.specs.Document.{change_rows, changes_rows};

use crate::change::Change;
use pylock_json::{Json, List, Object};
use pylock_shared::whole_text;
use std::alloc::{AllocError, Global};

/// The document of changes, in their order. It takes memory for the object.
pub fn diff_document(alloc: Global, changes: &[Change]) -> Result<Object, AllocError>
    ensures { IfOk result (λ object. members_view object
        ≡ members_of (changes_rows changes.now)) }
{
    let list = changes_list(alloc, changes)?;
    let mut object = Object::new(alloc);
    object.put(alloc, "changes", list.into_json())?;
    Ok(object)
}

fn changes_list(alloc: Global, changes: &[Change]) -> Result<List, AllocError>
    ensures { IfOk result (λ list. map data_of list
        ≡ map (λ change. object_of (change_rows change)) changes.now) }
{
    let mut list = List::new(alloc);
    for change in changes {
        list.push(change_json(alloc, change)?)?;
    }
    Ok(list)
}

fn change_json(alloc: Global, change: &Change) -> Result<Json, AllocError>
    ensures { IfOk result (λ json. data_of json ≡ object_of (change_rows change.now)) }
{
    let mut object = Object::new(alloc);
    object.put_text(alloc, "change", change.kind().word())?;
    object.put_maybe(alloc, "name", change.name())?;
    let from = whole_text(alloc, change.from())?;
    object.put_maybe(alloc, "from", from.as_deref())?;
    let to = whole_text(alloc, change.to())?;
    object.put_maybe(alloc, "to", to.as_deref())?;
    Ok(object.into_json())
}
