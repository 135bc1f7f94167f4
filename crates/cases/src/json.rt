//! JSON documents that are built member by member. The texts are those of Python's `json`.

ghost use Rattle.std.specs.Prelude.{◌≡◌, ◌∷◌, [], IfOk, Some, codes};
ghost use Rattle.std.specs.Option.{option_copied};
ghost use Rattle.serde_json.specs.View.{view as data_of};
ghost use Rattle.pylock_json.specs.Json.{maybe, numbered, object_of, texts_of, there};

use case_files::{list, text};
use pylock_documents::document;
use pylock_json::{Json, List, Object};
use std::alloc::{AllocError, Global};
use toml::{Table, Value};

/// The document with the `texts`, and with the `entries` where there are some; or the object with a
/// key that is put again.
pub(crate) fn answer_case(alloc: Global, case: &Table) -> anyhow::Result<String> {
    if case.contains_key("again") {
        return Ok(put_again(alloc)?);
    }
    let mut object = Object::new(alloc);
    if let Some(Value::Table(texts)) = case.get("texts") {
        for (key, text) in texts {
            object.put_text(alloc, key.as_str(), text.as_str().unwrap_or(""))?;
        }
    }
    if case.contains_key("entries") {
        object.put(alloc, "files", entries(alloc, list(case, "entries"))?)?;
    }
    Ok(document(alloc, object)?)
}

/// The later value stands.
fn put_again(alloc: Global) -> Result<String, AllocError> {
    let mut object = Object::new(alloc);
    object.put_number(alloc, "b", 1)?;
    object.put(alloc, "a", Json::text(alloc, "x")?)?;
    object.put(alloc, "b", Json::number(2))?;
    object.into_json().to_text(alloc)
}

fn entries(alloc: Global, entries: &[Value]) -> anyhow::Result<Json> {
    let mut files = List::new(alloc);
    for one in entries.iter().filter_map(Value::as_table) {
        let (id, name) = (text(alloc, one, "id")?, text(alloc, one, "name")?);
        let version = one.get("version").and_then(Value::as_str);
        let place = text(alloc, one, "place")?;
        let id = id.parse()?;
        files.push(entry(alloc, id, name.as_str(), version, place.as_str())?)?;
    }
    Ok(files.into_json())
}

/// A caller's chain of seven rows in one function.
fn entry(
    alloc: Global,
    id: u64,
    name: &str,
    version: Option<&str>,
    place: &str,
) -> Result<Json, AllocError>
    ensures { IfOk result (λ json. data_of json ≡ object_of (
        (codes "id", numbered id)
        ∷ (codes "name", there name.now)
        ∷ (codes "version", maybe (option_copied version.entry))
        ∷ (
          codes "source",
          Some (object_of (
              (codes "kind", there (codes "file"))
              ∷ (codes "place", there place.now)
              ∷ [])),
        )
        ∷ (codes "tags", Some (texts_of (codes "a" ∷ codes "b" ∷ [])))
        ∷ (codes "again", maybe (option_copied version.entry))
        ∷ (codes "note", there (codes "\"quoted\""))
        ∷ [])) }
{
    let mut object = Object::new(alloc);
    object.put_number(alloc, "id", id)?;
    object.put_text(alloc, "name", name)?;
    object.put_maybe(alloc, "version", version)?;
    let mut source = Object::new(alloc);
    source.put_text(alloc, "kind", "file")?;
    source.put_text(alloc, "place", place)?;
    object.put(alloc, "source", source.into_json())?;
    let mut tags = List::new(alloc);
    tags.push_text(alloc, "a")?;
    tags.push_text(alloc, "b")?;
    object.put(alloc, "tags", tags.into_json())?;
    object.put_maybe(alloc, "again", version)?;
    object.put_text(alloc, "note", "\"quoted\"")?;
    Ok(object.into_json())
}
