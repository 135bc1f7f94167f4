//! The document of the files of several locks.

ghost use Rattle.std.specs.Prelude.{◌≡◌, IfOk, None, OnOk, Some, if◌then◌else◌, map};
ghost use Rattle.serde_json.specs.View.{members_view, view as data_of};
ghost use Rattle.pylock_json.specs.Json.{members_of, with_rows};
ghost use Rattle.pylock_union.specs.Document.{known_rows, listed_data, listed_rows};
ghost use Rattle.pylock_union.specs.Listed.{all_lent, lent};

use crate::listed::LockSource;
use pylock_documents::source_members;
use pylock_json::{Json, List, Object};
use std::alloc::{AllocError, Global};

/// The document `{"files": [..]}` of these sources: each as in the document of its own lock, with
/// `size` and `upload-time` where these are known, and with `tells_lock` the number of its lock as
/// `lock`. It takes memory for the object.
pub fn listed_document(
    alloc: Global,
    list: &[LockSource<'_>],
    tells_lock: bool,
) -> Result<Object, AllocError>
    ensures { IfOk result (λ object. members_view object
        ≡ members_of (listed_rows tells_lock (all_lent list.now))) }
{
    let files = files_list(alloc, list, tells_lock)?;
    let mut object = Object::new(alloc);
    object.put(alloc, "files", files.into_json())?;
    Ok(object)
}

fn files_list(alloc: Global, list: &[LockSource<'_>], tells_lock: bool) -> Result<List, AllocError>
    ensures { IfOk result (λ files. map data_of files
        ≡ map (listed_data tells_lock) (all_lent list.now)) }
{
    let mut files = List::new(alloc);
    for source in list {
        files.push(source_json(alloc, source, tells_lock)?)?;
    }
    Ok(files)
}

#[tactic(auto, using(pylock_documents::proofs::JsonLemmas::put_behind))]
fn source_json(alloc: Global, source: &LockSource<'_>, tells_lock: bool) -> Result<Json, AllocError>
    ensures { IfOk result (λ json. data_of json ≡ listed_data tells_lock (lent source.now)) }
{
    let mut object = source_members(alloc, source.number, source.entry, source.source)?;
    put_known(alloc, &mut object, source, tells_lock)?;
    Ok(object.into_json())
}

/// Puts what is known of the file besides, and its lock where it is told.
fn put_known(
    alloc: Global,
    object: &mut Object,
    source: &LockSource<'_>,
    tells_lock: bool,
) -> Result<(), AllocError>
    ensures { OnOk result (members_view object.new
        ≡ with_rows (known_rows tells_lock (lent source.now)) (members_view object.old)) }
{
    object.put_maybe_number(alloc, "size", source.size)?;
    object.put_maybe(alloc, "upload-time", source.upload_time)?;
    object.put_maybe_number(alloc, "lock", lock_told(source.lock, tells_lock))
}

fn lock_told(lock: u64, tells_lock: bool) -> Option<u64>
    ensures { result ≡ (if tells_lock then Some lock else None) }
{
    if tells_lock { Some(lock) } else { None }
}
