//! The line of a row.

ghost use Rattle.std.specs.Prelude.{◌≡◌, ◌++◌, ◌∷◌, OnOk, decimal};
ghost use Rattle.std.specs.List.{flat_map};
ghost use Rattle.pylock_run.specs.Text.Field.{fields_text};
ghost use Rattle.pylock_matrix.specs.Text.{cell_text, fault_fields, numbers_text, outcome_fields};
ghost use Rattle.pylock_matrix.specs.Text.{row_text, rows_text};

use crate::cell::Cell;
use crate::outcome::Outcome;
use crate::row::Row;
use pylock_core::{FaultCode, fault_word};
use pylock_run::{push_decimal, push_word};
use std::alloc::AllocError;

/// Pushes the line of each row.
pub fn push_rows(out: &mut Vec<u8>, rows: &[Row]) -> Result<(), AllocError>
    ensures { OnOk result (out.new.items ≡ out.old.items ++ rows_text rows.now) }
{
    for row in rows {
        push_row(out, row)?;
    }
    Ok(())
}

/// Pushes the line of a row: its Python and its platform, and then `plan`, how many entries are in
/// the plan, and the numbers of those that are built, or `fault`, the number of the entry, and why.
pub fn push_row(out: &mut Vec<u8>, row: &Row) -> Result<(), AllocError>
    ensures { OnOk result (out.new.items ≡ out.old.items ++ row_text row.now) }
{
    push_cell(out, &row.cell)?;
    push_outcome(out, &row.outcome)?;
    out.push(b'\n')?;
    Ok(())
}

/// Pushes the words of a target: its Python, a TAB and its platform.
pub fn push_cell(out: &mut Vec<u8>, cell: &Cell) -> Result<(), AllocError>
    ensures { OnOk result (out.new.items ≡ out.old.items ++ cell_text cell.now) }
{
    out.extend_from_slice(cell.python().as_bytes())?;
    push_word(out, cell.platform().as_bytes())
}

/// Pushes the fields of an outcome, each behind a TAB.
fn push_outcome(out: &mut Vec<u8>, outcome: &Outcome) -> Result<(), AllocError>
    ensures { OnOk result (out.new.items
        ≡ out.old.items ++ fields_text (outcome_fields outcome.now)) }
{
    match outcome {
        Outcome::Plan { count, built } => {
            push_word(out, b"plan")?;
            push_number(out, *count as u64)?;
            push_numbers(out, built.numbers())
        }
        Outcome::Fault { id, code } => push_fault(out, *id, *code),
    }
}

/// Pushes the fields of a fault, each behind a TAB: `fault`, the number of the entry, 0 for the
/// head, and why.
pub fn push_fault(out: &mut Vec<u8>, id: u32, code: FaultCode) -> Result<(), AllocError>
    ensures { OnOk result (out.new.items
        ≡ out.old.items ++ fields_text (fault_fields id code)) }
{
    push_word(out, b"fault")?;
    push_number(out, u64::from(id))?;
    push_word(out, fault_word(code).as_bytes())
}

/// Pushes a TAB and a number.
fn push_number(out: &mut Vec<u8>, number: u64) -> Result<(), AllocError>
    ensures { OnOk result (out.new.items ≡ out.old.items ++ 9 ∷ decimal number) }
{
    out.push(b'\t')?;
    push_decimal(out, number)
}

/// Pushes a TAB and numbers.
fn push_numbers(out: &mut Vec<u8>, numbers: &[u32]) -> Result<(), AllocError>
    ensures { OnOk result (out.new.items ≡ out.old.items ++ 9 ∷ numbers_text numbers.now) }
{
    let Some((first, rest)) = numbers.split_first() else {
        return push_word(out, b"-");
    };
    push_number(out, u64::from(*first))?;
    push_more_numbers(out, rest)
}

/// Pushes each number behind a `,`.
fn push_more_numbers(out: &mut Vec<u8>, numbers: &[u32]) -> Result<(), AllocError>
    ensures { OnOk result (out.new.items
        ≡ out.old.items ++ flat_map (λ number. 44 ∷ decimal number) numbers.now) }
{
    for number in numbers {
        out.push(b',')?;
        push_decimal(out, u64::from(*number))?;
    }
    Ok(())
}
