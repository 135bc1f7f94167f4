//! Differences as a JSON document.

ghost use Rattle.std.specs.Prelude.{◌≡◌, ◌++◌, IfOk, OnOk, map};
ghost use Rattle.std.specs.List.{flat_map};
ghost use Rattle.serde_json.specs.View.{members_view, view as data_of};
ghost use Rattle.pylock_json.specs.Json.{members_of, object_of, with_rows};
ghost use Rattle.pylock_matrix.specs.Document.{cell_members, fault_members};
ghost use Rattle.pylock_check.specs.Targets.{check_items, difference_on, target_checks_rows};
ghost use Rattle.pylock_check.specs.Targets.{target_items};
ghost use Rattle.pylock_check.specs.Written.{difference_rows, differences_rows};

use crate::difference::{Difference, lent};
use crate::targets::{TargetCheck, TargetOutcome};
use pylock_core::FaultCode;
use pylock_json::{Json, List, Object};
use pylock_matrix::{Cell, put_cell, put_fault};
use std::alloc::{AllocError, Global};

/// The document of differences: `differences`, their list in order, each with `difference`, its
/// word, `where`, `name` and `detail`. A field that is absent is left out. It takes memory for the
/// object.
pub fn differences_document(alloc: Global, differences: &[Difference]) -> Result<Object, AllocError>
    ensures { IfOk result (λ object. members_view object
        ≡ members_of (differences_rows differences.now)) }
{
    let list = differences_list(alloc, differences)?;
    let mut object = Object::new(alloc);
    object.put(alloc, "differences", list.into_json())?;
    Ok(object)
}

fn differences_list(alloc: Global, differences: &[Difference]) -> Result<List, AllocError>
    ensures { IfOk result (λ list. map data_of list
        ≡ map (λ d. object_of (difference_rows d)) differences.now) }
{
    let mut list = List::new(alloc);
    for difference in differences {
        list.push(difference_json(alloc, difference)?)?;
    }
    Ok(list)
}

fn difference_json(alloc: Global, difference: &Difference) -> Result<Json, AllocError>
    ensures { IfOk result (λ json. data_of json ≡ object_of (difference_rows difference.now)) }
{
    let mut object = Object::new(alloc);
    put_difference(alloc, &mut object, difference)?;
    Ok(object.into_json())
}

/// Puts the members of a difference.
fn put_difference(
    alloc: Global,
    object: &mut Object,
    difference: &Difference,
) -> Result<(), AllocError>
    ensures { OnOk result (members_view object.new
        ≡ with_rows (difference_rows difference.now) (members_view object.old)) }
{
    object.put_text(alloc, "difference", difference.kind.word())?;
    object.put_text(alloc, "where", difference.place.as_str())?;
    object.put_maybe(alloc, "name", lent(&difference.name))?;
    object.put_maybe(alloc, "detail", lent(&difference.detail))
}

/// The document of what differs on many targets: `differences`, a list of objects. First are those
/// of the head, as in [`differences_document`]; then of each target in turn those of its
/// differences, with `python` and `platform` before the rest, or one with these and `fault`, an
/// object of `id` and `code`. It takes memory for the object.
pub fn target_checks_document(
    alloc: Global,
    of_head: &[Difference],
    checks: &[TargetCheck],
) -> Result<Object, AllocError>
    ensures { IfOk result (λ object. members_view object
        ≡ members_of (target_checks_rows of_head.now checks.now)) }
{
    let list = target_list(alloc, of_head, checks)?;
    let mut object = Object::new(alloc);
    object.put(alloc, "differences", list.into_json())?;
    Ok(object)
}

fn target_list(
    alloc: Global,
    of_head: &[Difference],
    checks: &[TargetCheck],
) -> Result<List, AllocError>
    ensures { IfOk result (λ list. map data_of list ≡ target_items of_head.now checks.now) }
{
    let mut list = differences_list(alloc, of_head)?;
    for check in checks {
        push_items_of(alloc, &mut list, check)?;
    }
    Ok(list)
}

/// Pushes the objects of a target.
fn push_items_of(alloc: Global, list: &mut List, check: &TargetCheck) -> Result<(), AllocError>
    ensures { OnOk result (map data_of list.new
        ≡ map data_of list.old ++ check_items check.now) }
{
    match &check.outcome {
        TargetOutcome::Differences(found) => {
            push_items_on(alloc, list, &check.cell, found.as_slice())
        }
        TargetOutcome::Fault { id, code } => {
            list.push(fault_json(alloc, &check.cell, *id, *code)?)
        }
    }
}

fn push_items_on(
    alloc: Global,
    list: &mut List,
    cell: &Cell,
    found: &[Difference],
) -> Result<(), AllocError>
    ensures { OnOk result (map data_of list.new
        ≡ map data_of list.old ++ map (difference_on cell.now) found.now) }
{
    for difference in found {
        list.push(difference_on(alloc, cell, difference)?)?;
    }
    Ok(())
}

/// The object of a difference on a target.
fn difference_on(alloc: Global, cell: &Cell, difference: &Difference) -> Result<Json, AllocError>
    ensures { IfOk result (λ json. data_of json ≡ difference_on cell.now difference.now) }
{
    let mut object = Object::new(alloc);
    put_cell(alloc, &mut object, cell)?;
    put_difference(alloc, &mut object, difference)?;
    Ok(object.into_json())
}

/// The object of a fault on a target.
fn fault_json(alloc: Global, cell: &Cell, id: u32, code: FaultCode) -> Result<Json, AllocError>
    ensures { IfOk result (λ json. data_of json
        ≡ object_of (cell_members cell.now ++ fault_members id code)) }
{
    let mut object = Object::new(alloc);
    put_cell(alloc, &mut object, cell)?;
    put_fault(alloc, &mut object, id, code)?;
    Ok(object.into_json())
}
