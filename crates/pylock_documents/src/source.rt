//! The object of a source.

ghost use Rattle.std.specs.Prelude.{◌≡◌, ◌++◌, IfOk, OnOk, codes, map, option_map};
ghost use Rattle.std.specs.Option.{option_copied};
ghost use Rattle.serde_json.specs.View.{members_view, view as data_of};
ghost use Rattle.pylock_json.specs.Json.{members_of, object_of, with_row, with_rows};
ghost use Rattle.pylock_readers.specs.Text.{text_pairs};
ghost use Rattle.pylock_core.specs.Session.Picks.{lent_source, source_vcs};
ghost use Rattle.pylock_documents.specs.Source.{entry_rows, hash_row, hashes_data, revision_data};
ghost use Rattle.pylock_documents.specs.Source.{source_data, source_rows};

use pylock_core::{Entry, PickedSource, Vcs};
use pylock_json::{Json, Object};
use std::alloc::{AllocError, Global};

/// The object of a source of an entry, which has this number.
pub(crate) fn source_object(
    alloc: Global,
    number: u64,
    entry: &Entry,
    source: PickedSource<'_>,
) -> Result<Json, AllocError>
    ensures { IfOk result (λ json. data_of json
        ≡ source_data number entry.now (lent_source source.entry)) }
{
    Ok(source_members(alloc, number, entry, source)?.into_json())
}

/// The members that a source has in the document of files: those of its entry, which has this
/// number, and its own. It takes memory for the object.
#[tactic(auto, using(crate::proofs::JsonLemmas::put_behind))]
pub fn source_members(
    alloc: Global,
    number: u64,
    entry: &Entry,
    source: PickedSource<'_>,
) -> Result<Object, AllocError>
    ensures { IfOk result (λ object. members_view object ≡ members_of
        (entry_rows number entry.now entry.now.version ++ source_rows (lent_source source.entry))) }
{
    let mut object = entry_object(alloc, number, entry, entry.version())?;
    put_source(alloc, &mut object, source)?;
    Ok(object)
}

/// An object with the number, the name and the version of an entry, which is shown so.
pub(crate) fn entry_object(
    alloc: Global,
    number: u64,
    entry: &Entry,
    version: Option<&str>,
) -> Result<Object, AllocError>
    ensures { IfOk result (λ object. members_view object
        ≡ members_of (entry_rows number entry.now (option_copied version.entry))) }
{
    let mut object = Object::new(alloc);
    object.put_number(alloc, "id", number)?;
    object.put_text(alloc, "name", entry.name())?;
    object.put_maybe(alloc, "version", version)?;
    Ok(object)
}

#[tactic(auto, unfolding(crate::specs::Source::source_rows))]
fn put_source(
    alloc: Global,
    object: &mut Object,
    source: PickedSource<'_>,
) -> Result<(), AllocError>
    ensures { OnOk result (members_view object.new
        ≡ with_rows (source_rows (lent_source source.entry)) (members_view object.old)) }
{
    object.put_text(alloc, "kind", source.word())?;
    object.put_maybe(alloc, "file", source.file_name())?;
    object.put_text(alloc, "place", source.place())?;
    object.put_maybe(alloc, "url", source.url())?;
    object.put_maybe(alloc, "path", source.path())?;
    put_revision(alloc, object, source)?;
    put_hashes(alloc, object, source.hashes())?;
    object.put_maybe(alloc, "subdirectory", source.subdirectory())
}

/// Puts the revision of a checkout.
fn put_revision(
    alloc: Global,
    object: &mut Object,
    source: PickedSource<'_>,
) -> Result<(), AllocError>
    ensures { OnOk result (members_view object.new ≡ with_row
        (codes "revision", option_map revision_data (source_vcs (lent_source source.entry)))
        (members_view object.old)) }
{
    match source.vcs() {
        Some(vcs) => object.put(alloc, "revision", revision_object(alloc, vcs)?),
        None => Ok(()),
    }
}

fn revision_object(alloc: Global, vcs: &Vcs) -> Result<Json, AllocError>
    ensures { IfOk result (λ json. data_of json ≡ revision_data vcs.now) }
{
    let mut object = Object::new(alloc);
    object.put_text(alloc, "type", vcs.kind())?;
    object.put_text(alloc, "commit", vcs.commit_id())?;
    Ok(object.into_json())
}

/// Puts the hashes, where there are any.
fn put_hashes(
    alloc: Global,
    object: &mut Object,
    hashes: &[(String, String)],
) -> Result<(), AllocError>
    ensures { OnOk result (members_view object.new
        ≡ with_row (codes "hashes", hashes_data (text_pairs hashes.now))
        (members_view object.old)) }
{
    if hashes.is_empty() {
        return Ok(());
    }
    object.put(alloc, "hashes", hashes_object(alloc, hashes)?)
}

fn hashes_object(alloc: Global, hashes: &[(String, String)]) -> Result<Json, AllocError>
    ensures { IfOk result (λ json. data_of json
        ≡ object_of (map hash_row (text_pairs hashes.now))) }
{
    let mut object = Object::new(alloc);
    for (algorithm, value) in hashes {
        object.put_text(alloc, algorithm.as_str(), value.as_str())?;
    }
    Ok(object.into_json())
}
