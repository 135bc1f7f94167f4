//! The document of a matrix.

ghost use Rattle.std.specs.Prelude.{◌≡◌, IfOk, OnOk, map};
ghost use Rattle.serde_json.specs.Data.{number, unsigned};
ghost use Rattle.serde_json.specs.View.{members_view, view as data_of};
ghost use Rattle.pylock_json.specs.Json.{members_of, with_rows};
ghost use Rattle.pylock_matrix.specs.Document.{cell_members, fault_data, fault_members};
ghost use Rattle.pylock_matrix.specs.Document.{matrix_members, outcome_members, row_data};

use crate::cell::Cell;
use crate::outcome::Outcome;
use crate::row::Row;
use pylock_core::{FaultCode, fault_word};
use pylock_json::{Json, List, Object};
use std::alloc::{AllocError, Global};

/// The document of a matrix, with an object for each row. It takes memory for those.
pub fn matrix_document(alloc: Global, rows: &[Row]) -> Result<Object, AllocError>
    ensures { IfOk result (λ object. members_view object ≡ members_of (matrix_members rows.now)) }
{
    let rows = rows_list(alloc, rows)?;
    let mut object = Object::new(alloc);
    object.put(alloc, "matrix", rows.into_json())?;
    Ok(object)
}

fn rows_list(alloc: Global, rows: &[Row]) -> Result<List, AllocError>
    ensures { IfOk result (λ list. map data_of list ≡ map row_data rows.now) }
{
    let mut list = List::new(alloc);
    for row in rows {
        list.push(row_json(alloc, row)?)?;
    }
    Ok(list)
}

fn row_json(alloc: Global, row: &Row) -> Result<Json, AllocError>
    ensures { IfOk result (λ json. data_of json ≡ row_data row.now) }
{
    let mut object = Object::new(alloc);
    put_cell(alloc, &mut object, &row.cell)?;
    put_outcome(alloc, &mut object, &row.outcome)?;
    Ok(object.into_json())
}

/// Puts the words of a target: `python` and `platform`. It takes memory for them.
pub fn put_cell(alloc: Global, object: &mut Object, cell: &Cell) -> Result<(), AllocError>
    ensures { OnOk result (members_view object.new
        ≡ with_rows (cell_members cell.now) (members_view object.old)) }
{
    object.put_text(alloc, "python", cell.python())?;
    object.put_text(alloc, "platform", cell.platform())
}

/// Puts the members of an outcome.
fn put_outcome(alloc: Global, object: &mut Object, outcome: &Outcome) -> Result<(), AllocError>
    ensures { OnOk result (members_view object.new
        ≡ with_rows (outcome_members outcome.now) (members_view object.old)) }
{
    match outcome {
        Outcome::Plan { count, built } => {
            let numbers = numbers_list(alloc, built.numbers())?;
            object.put_number(alloc, "plan", *count as u64)?;
            object.put(alloc, "built", numbers.into_json())
        }
        Outcome::Fault { id, code } => put_fault(alloc, object, *id, *code),
    }
}

/// Puts a fault: `fault`, an object of the number of the entry, `id`, 0 for the head, and why,
/// `code`. It takes memory for that object.
pub fn put_fault(
    alloc: Global,
    object: &mut Object,
    id: u32,
    code: FaultCode,
) -> Result<(), AllocError>
    ensures { OnOk result (members_view object.new
        ≡ with_rows (fault_members id code) (members_view object.old)) }
{
    let fault = fault_json(alloc, id, code)?;
    object.put(alloc, "fault", fault)
}

fn numbers_list(alloc: Global, numbers: &[u32]) -> Result<List, AllocError>
    ensures { IfOk result (λ list. map data_of list
        ≡ map (λ n. number (unsigned n)) numbers.now) }
{
    let mut list = List::new(alloc);
    for number in numbers {
        list.push(Json::number(u64::from(*number)))?;
    }
    Ok(list)
}

fn fault_json(alloc: Global, id: u32, code: FaultCode) -> Result<Json, AllocError>
    ensures { IfOk result (λ json. data_of json ≡ fault_data id code) }
{
    let mut object = Object::new(alloc);
    object.put_number(alloc, "id", u64::from(id))?;
    object.put_text(alloc, "code", fault_word(code))?;
    Ok(object.into_json())
}
