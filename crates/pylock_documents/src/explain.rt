//! What becomes of the head and of each entry, and why.

ghost use Rattle.std.specs.Prelude.{◌≡◌, ◌++◌, IfOk, OnOk, map};
ghost use Rattle.std.specs.List.{flat_map};
ghost use Rattle.std.specs.Option.{option_copied};
ghost use Rattle.serde_json.specs.View.{members_view, view as data_of};
ghost use Rattle.pylock_json.specs.Json.{members_of, object_of, with_rows};
ghost use Rattle.pylock_documents.specs.Documents.{explain_rows, fate_rows, head_data};
ghost use Rattle.pylock_documents.specs.Documents.{verdict_data, verdict_rows};

use crate::reasons::{detail, head_detail, shown_version};
use crate::source::entry_object;
use pylock_core::{Entry, Fate, Session, fault_word, verdict_word};
use pylock_json::{Json, List, Object};
use std::alloc::{AllocError, Global};

/// The document of what becomes of the head and of each entry, each judged for itself. It takes
/// memory for the object, for what `fates` takes, and for one detail at a time.
pub fn explain_document(alloc: Global, session: &Session) -> Result<Object, AllocError>
    ensures { IfOk result (λ object. members_view object
        ≡ members_of (explain_rows session.now.state)) }
{
    let head = head_object(alloc, session)?;
    let fates = session.fates()?;
    let entries = verdicts_list(alloc, session, fates.as_slice())?;
    let mut object = Object::new(alloc);
    object.put(alloc, "head", head)?;
    object.put(alloc, "entries", entries.into_json())?;
    Ok(object)
}

fn head_object(alloc: Global, session: &Session) -> Result<Json, AllocError>
    ensures { IfOk result (λ json. data_of json ≡ head_data session.now.state) }
{
    let mut object = Object::new(alloc);
    let Some(code) = session.head_fault() else {
        put_verdict(alloc, &mut object, "ok", None)?;
        return Ok(object.into_json());
    };
    let detail = head_detail(alloc, session.head(), session.environment(), code)?;
    put_verdict(alloc, &mut object, fault_word(code), detail.as_deref())?;
    Ok(object.into_json())
}

fn verdicts_list(
    alloc: Global,
    session: &Session,
    fates: &[(u32, Fate)],
) -> Result<List, AllocError>
    ensures { IfOk result (λ list. map data_of list
        ≡ flat_map (verdict_data session.now.state) fates.now) }
{
    let mut list = List::new(alloc);
    for fate in fates {
        push_verdict(alloc, &mut list, session, fate)?;
    }
    Ok(list)
}

/// Adds the verdict on the entry of a fate.
fn push_verdict(
    alloc: Global,
    list: &mut List,
    session: &Session,
    fate: &(u32, Fate),
) -> Result<(), AllocError>
    ensures { OnOk result (map data_of list.new
        ≡ map data_of list.old ++ verdict_data session.now.state fate.now) }
{
    let (number, fate) = *fate;
    match session.entry(number) {
        Some(entry) => list.push(fate_object(alloc, session, number, fate, entry)?),
        None => Ok(()),
    }
}

#[tactic(auto, using(crate::proofs::JsonLemmas::put_behind))]
fn fate_object(
    alloc: Global,
    session: &Session,
    number: u32,
    fate: Fate,
    entry: &Entry,
) -> Result<Json, AllocError>
    ensures { IfOk result (λ json. data_of json
        ≡ object_of (fate_rows session.now.state number fate entry.now)) }
{
    let detail = detail(alloc, session, entry, fate)?;
    let version = shown_version(alloc, entry)?;
    let number = u64::from(number);
    let mut object = entry_object(alloc, number, entry, version.as_deref())?;
    put_verdict(
        alloc,
        &mut object,
        verdict_word(entry, fate),
        detail.as_deref(),
    )?;
    Ok(object.into_json())
}

/// Puts a verdict and its detail.
fn put_verdict(
    alloc: Global,
    object: &mut Object,
    verdict: &str,
    detail: Option<&str>,
) -> Result<(), AllocError>
    ensures { OnOk result (members_view object.new ≡ with_rows
        (verdict_rows verdict.now (option_copied detail.entry)) (members_view object.old)) }
{
    object.put_text(alloc, "verdict", verdict)?;
    object.put_maybe(alloc, "detail", detail)
}
