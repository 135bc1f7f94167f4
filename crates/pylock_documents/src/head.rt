//! The head of a lock.

ghost use Rattle.std.specs.Prelude.{◌≡◌, IfOk, map, string_bytes};
ghost use Rattle.serde_json.specs.Data.{string};
ghost use Rattle.serde_json.specs.View.{members_view, view as data_of};
ghost use Rattle.pylock_json.specs.Json.{members_of};
ghost use Rattle.pylock_documents.specs.Documents.{lock_head_rows};

use pylock_json::{List, Object};
use pylock_readers::Head;
use pymark_core::Marker;
use std::alloc::{AllocError, Global};

/// The document of the head of a lock: what it asks of the Python that is installed for, and the
/// names of its extras and dependency groups. It takes memory for the object.
pub fn head_document(alloc: Global, head: &Head) -> Result<Object, AllocError>
    ensures { IfOk result (λ object. members_view object ≡ members_of (lock_head_rows head.now)) }
{
    let requires_python = head.requires_python().map(|set| set.text());
    let environments = marker_texts(alloc, head.environments())?;
    let extras = texts(alloc, head.extras().as_slice())?;
    let groups = texts(alloc, head.groups().as_slice())?;
    let default_groups = texts(alloc, head.default_groups().as_slice())?;
    let mut object = Object::new(alloc);
    object.put_maybe(alloc, "requires_python", requires_python)?;
    object.put(alloc, "environments", environments.into_json())?;
    object.put(alloc, "extras", extras.into_json())?;
    object.put(alloc, "groups", groups.into_json())?;
    object.put(alloc, "default_groups", default_groups.into_json())?;
    Ok(object)
}

/// The texts of markers, as they are written.
fn marker_texts(alloc: Global, markers: &[Marker]) -> Result<List, AllocError>
    ensures { IfOk result (λ list. map data_of list
        ≡ map string (map (λ marker. marker.text) markers.now)) }
{
    let mut list = List::new(alloc);
    for marker in markers {
        list.push_text(alloc, marker.text())?;
    }
    Ok(list)
}

fn texts(alloc: Global, texts: &[String]) -> Result<List, AllocError>
    ensures { IfOk result (λ list. map data_of list ≡ map string (map string_bytes texts.now)) }
{
    let mut list = List::new(alloc);
    for text in texts {
        list.push_text(alloc, text.as_str())?;
    }
    Ok(list)
}
