//! An answer: the plan, or the fault.

ghost use Rattle.std.specs.Prelude.{◌≡◌, ◌++◌, IfOk, OnOk, map, option_map};
ghost use Rattle.std.specs.Prelude.{string_bytes};
ghost use Rattle.std.specs.List.{flat_map};
ghost use Rattle.serde_json.specs.View.{members_view, view as data_of};
ghost use Rattle.pylock_json.specs.Json.{members_of, object_of};
ghost use Rattle.pylock_documents.specs.Documents.{answer_rows, fault_detail, fault_rows};
ghost use Rattle.pylock_documents.specs.Documents.{pick_data, picked_rows};

use crate::reasons::{detail, head_detail};
use crate::source::source_object;
use pylock_core::{Answer, FaultCode, Pick, Session, fault_word};
use pylock_json::{Json, List, Object};
use std::alloc::{AllocError, Global};

/// The document of an answer on the state of its session: a plan with its sources, or the fault
/// and why. It takes memory for the object, and for a fault its reason.
pub fn plan_document(
    alloc: Global,
    session: &Session,
    answer: &Answer,
) -> Result<Object, AllocError>
    ensures { IfOk result (λ object. members_view object
        ≡ members_of (answer_rows session.now.state answer.now)) }
{
    let mut object = Object::new(alloc);
    match answer {
        Answer::Plan(plan) => {
            let picks = picks_list(alloc, session, plan.picks())?;
            object.put(alloc, "plan", picks.into_json())?;
        }
        Answer::Fault { id, code } => {
            let fault = fault_object(alloc, session, *id, *code)?;
            object.put(alloc, "fault", fault)?;
        }
    }
    Ok(object)
}

/// The document of the sources that picks name, as [`files_document`](crate::files_document) has
/// those of a lock. It takes memory for the object.
pub fn picked_document(
    alloc: Global,
    session: &Session,
    picks: &[Pick],
) -> Result<Object, AllocError>
    ensures { IfOk result (λ object. members_view object
        ≡ members_of (picked_rows session.now.state picks.now)) }
{
    let files = picks_list(alloc, session, picks)?;
    let mut object = Object::new(alloc);
    object.put(alloc, "files", files.into_json())?;
    Ok(object)
}

fn picks_list(alloc: Global, session: &Session, picks: &[Pick]) -> Result<List, AllocError>
    ensures { IfOk result (λ list. map data_of list
        ≡ flat_map (pick_data session.now.state) picks.now) }
{
    let mut list = List::new(alloc);
    for pick in picks {
        push_pick(alloc, &mut list, session, pick)?;
    }
    Ok(list)
}

/// Adds the source of a pick.
fn push_pick(
    alloc: Global,
    list: &mut List,
    session: &Session,
    pick: &Pick,
) -> Result<(), AllocError>
    ensures { OnOk result (map data_of list.new
        ≡ map data_of list.old ++ pick_data session.now.state pick.now) }
{
    let Some(entry) = session.entry(pick.id) else {
        return Ok(());
    };
    let Some(source) = pick.source.of(entry) else {
        return Ok(());
    };
    list.push(source_object(alloc, u64::from(pick.id), entry, source)?)
}

fn fault_object(
    alloc: Global,
    session: &Session,
    number: u32,
    code: FaultCode,
) -> Result<Json, AllocError>
    ensures { IfOk result (λ json. data_of json
        ≡ object_of (fault_rows session.now.state number code)) }
{
    let detail = fault_detail(alloc, session, number, code)?;
    let name = session.entry(number).map(|entry| entry.name());
    let mut object = Object::new(alloc);
    object.put_number(alloc, "id", u64::from(number))?;
    object.put_maybe(alloc, "name", name)?;
    object.put_text(alloc, "code", fault_word(code))?;
    object.put_maybe(alloc, "detail", detail.as_deref())?;
    Ok(object.into_json())
}

/// Why the entry of this number, or the head, has its fault.
pub fn fault_detail(
    alloc: Global,
    session: &Session,
    number: u32,
    code: FaultCode,
) -> Result<Option<String>, AllocError>
    ensures { IfOk result (λ text. option_map string_bytes text
        ≡ fault_detail session.now.state number code) }
{
    let Some(fate) = session.fate(number) else {
        return head_detail(alloc, session.head(), session.environment(), code);
    };
    match session.entry(number) {
        Some(entry) => detail(alloc, session, entry, fate),
        None => Ok(None),
    }
}
