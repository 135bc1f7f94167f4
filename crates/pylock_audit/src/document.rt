//! The findings as a JSON document.

ghost use Rattle.std.specs.Prelude.{◌≡◌, IfOk, map};
ghost use Rattle.serde_json.specs.View.{members_view, view as data_of};
ghost use Rattle.pylock_json.specs.Json.{members_of, object_of};
ghost use Rattle.pylock_audit.specs.Document.{findings_rows, finding_rows};

use crate::finding::LockFinding;
use pylock_json::{Json, List, Object};
use pylock_shared::whole_text;
use std::alloc::{AllocError, Global};

/// The document of findings, in their order. It takes memory for the object.
pub fn findings_document(alloc: Global, found: &[LockFinding]) -> Result<Object, AllocError>
    ensures { IfOk result (λ object. members_view object ≡ members_of (findings_rows found.now)) }
{
    let findings = findings_list(alloc, found)?;
    let mut object = Object::new(alloc);
    object.put(alloc, "findings", findings.into_json())?;
    Ok(object)
}

fn findings_list(alloc: Global, found: &[LockFinding]) -> Result<List, AllocError>
    ensures { IfOk result (λ list. map data_of list
        ≡ map (λ one. object_of (finding_rows one)) found.now) }
{
    let mut list = List::new(alloc);
    for one in found {
        list.push(finding_json(alloc, one)?)?;
    }
    Ok(list)
}

fn finding_json(alloc: Global, found: &LockFinding) -> Result<Json, AllocError>
    ensures { IfOk result (λ json. data_of json ≡ object_of (finding_rows found.now)) }
{
    Ok(finding_object(alloc, found)?.into_json())
}

/// The object of a finding in such a document. It takes memory for the object.
pub fn finding_object(alloc: Global, found: &LockFinding) -> Result<Object, AllocError>
    ensures { IfOk result (λ object. members_view object ≡ members_of (finding_rows found.now)) }
{
    let mut object = Object::new(alloc);
    object.put_number(alloc, "id", found.number() as u64)?;
    object.put_maybe(alloc, "name", found.name())?;
    object.put_text(alloc, "finding", found.finding().kind().word())?;
    let detail = whole_text(alloc, found.finding().detail())?;
    object.put_maybe(alloc, "detail", detail.as_deref())?;
    Ok(object)
}
