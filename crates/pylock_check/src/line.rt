//! Differences as lines.

ghost use Rattle.std.specs.Prelude.{◌≡◌, ◌+◌, ◌++◌, IfOk, OnOk, codes, decimal, length, map};
ghost use Rattle.std.specs.List.{concat, flat_map};
ghost use Rattle.pylock_check.specs.Targets.{check_lines, fault_line, head_line, line_on};
ghost use Rattle.pylock_check.specs.Targets.{target_checks_text, target_lines};
ghost use Rattle.pylock_check.specs.Written.{difference_line, differences_text};

use crate::difference::{Difference, lent};
use crate::targets::{TargetCheck, TargetOutcome, line_count};
use pylock_core::FaultCode;
use pylock_matrix::{Cell, push_cell, push_fault};
use pylock_run::{push_decimal, push_next_field};
use std::alloc::AllocError;

/// Pushes `differences`, a space and how many there are, and a line for each: its word, its place,
/// its name and its detail, with a TAB between two of them. A field that is absent is `-`; TAB, LF,
/// CR and the backslash have a backslash in it.
pub fn push_differences(out: &mut Vec<u8>, differences: &[Difference]) -> Result<(), AllocError>
    ensures { OnOk result (out.new.items ≡ out.old.items ++ differences_text differences.now) }
{
    push_count(out, differences.len())?;
    push_lines(out, differences)
}

/// Pushes the line that tells how many lines come.
fn push_count(out: &mut Vec<u8>, count: usize) -> Result<(), AllocError>
    ensures { OnOk result (out.new.items
        ≡ out.old.items ++ codes "differences " ++ decimal count ++ codes "\n") }
{
    out.extend_from_slice(b"differences ")?;
    push_decimal(out, count as u64)?;
    out.push(b'\n')?;
    Ok(())
}

fn push_lines(out: &mut Vec<u8>, differences: &[Difference]) -> Result<(), AllocError>
    ensures { OnOk result (out.new.items ≡ out.old.items
        ++ flat_map difference_line differences.now) }
{
    for difference in differences {
        push_line(out, difference)?;
    }
    Ok(())
}

fn push_line(out: &mut Vec<u8>, difference: &Difference) -> Result<(), AllocError>
    ensures { OnOk result (out.new.items ≡ out.old.items ++ difference_line difference.now) }
{
    out.extend_from_slice(difference.kind.word().as_bytes())?;
    push_next_field(out, Some(difference.place.as_str()))?;
    push_next_field(out, lent(&difference.name))?;
    push_next_field(out, lent(&difference.detail))?;
    out.push(b'\n')?;
    Ok(())
}

/// Pushes `differences`, a space and how many lines come; the line of each difference of the head,
/// behind `-`, TAB, `-` and TAB; and of each target in turn that of each of its differences, behind
/// its Python, TAB, its platform and TAB, or of its fault, as `pylock_matrix` pushes it in a row.
pub fn push_target_checks(
    out: &mut Vec<u8>,
    of_head: &[Difference],
    checks: &[TargetCheck],
) -> Result<(), AllocError>
    ensures { OnOk result (out.new.items
        ≡ out.old.items ++ target_checks_text of_head.now checks.now) }
{
    push_count(out, count_lines(of_head, checks)?)?;
    push_head_lines(out, of_head)?;
    push_lines_of_targets(out, checks)
}

/// How many lines there are. No memory holds so many that a number doesn't.
#[tactic(auto, using(crate::proofs::TargetLemmas::counting))]
fn count_lines(of_head: &[Difference], checks: &[TargetCheck]) -> Result<usize, AllocError>
    ensures { IfOk result (λ count. count ≡ length (target_lines of_head.now checks.now)) }
{
    let mut count = of_head.len();
    for check in checks {
        count = sum(count, line_count(check))?;
    }
    Ok(count)
}

fn sum(one: usize, other: usize) -> Result<usize, AllocError>
    ensures { IfOk result (λ sum. sum ≡ one + other) }
{
    match one.checked_add(other) {
        Some(sum) => Ok(sum),
        None => Err(AllocError),
    }
}

fn push_head_lines(out: &mut Vec<u8>, of_head: &[Difference]) -> Result<(), AllocError>
    ensures { OnOk result (out.new.items ≡ out.old.items ++ flat_map head_line of_head.now) }
{
    for difference in of_head {
        out.extend_from_slice(b"-\t-\t")?;
        push_line(out, difference)?;
    }
    Ok(())
}

fn push_lines_of_targets(out: &mut Vec<u8>, checks: &[TargetCheck]) -> Result<(), AllocError>
    ensures { OnOk result (out.new.items
        ≡ out.old.items ++ flat_map (λ check. concat (check_lines check)) checks.now) }
{
    for check in checks {
        push_lines_of(out, check)?;
    }
    Ok(())
}

/// Pushes the lines of a target.
#[tactic(auto, using(crate::proofs::TargetLemmas::concat_map))]
fn push_lines_of(out: &mut Vec<u8>, check: &TargetCheck) -> Result<(), AllocError>
    ensures { OnOk result (out.new.items ≡ out.old.items ++ concat (check_lines check.now)) }
{
    match &check.outcome {
        TargetOutcome::Differences(found) => push_lines_on(out, &check.cell, found.as_slice()),
        TargetOutcome::Fault { id, code } => push_fault_line(out, &check.cell, *id, *code),
    }
}

fn push_lines_on(out: &mut Vec<u8>, cell: &Cell, found: &[Difference]) -> Result<(), AllocError>
    ensures { OnOk result (out.new.items
        ≡ out.old.items ++ flat_map (line_on cell.now) found.now) }
{
    for difference in found {
        push_line_on(out, cell, difference)?;
    }
    Ok(())
}

/// Pushes the line of a difference on a target.
fn push_line_on(out: &mut Vec<u8>, cell: &Cell, difference: &Difference) -> Result<(), AllocError>
    ensures { OnOk result (out.new.items ≡ out.old.items ++ line_on cell.now difference.now) }
{
    push_cell(out, cell)?;
    out.push(b'\t')?;
    push_line(out, difference)
}

/// Pushes the line of a fault on a target.
fn push_fault_line(
    out: &mut Vec<u8>,
    cell: &Cell,
    id: u32,
    code: FaultCode,
) -> Result<(), AllocError>
    ensures { OnOk result (out.new.items ≡ out.old.items ++ fault_line cell.now id code) }
{
    push_cell(out, cell)?;
    push_fault(out, id, code)?;
    out.push(b'\n')?;
    Ok(())
}
