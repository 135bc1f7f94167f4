//! The rows of a matrix: what becomes of a lock on each target.

ghost use Rattle.std.specs.Prelude.{◌≡◌, IfOk, OnOk, map};
ghost use Rattle.pylock_core.specs.Session.Steps.{answer};
ghost use Rattle.pylock_matrix.specs.Moving.{HasVariables, placed, unmoved};
ghost use Rattle.pylock_matrix.specs.Outcome.{outcome_of as outcome_in};
ghost use Rattle.pylock_matrix.specs.Row.{row_of};

use crate::cell::Cell;
use crate::moving::move_to;
use crate::outcome::{Outcome, outcome_of};
use crate::setting::Setting;
use pylock_core::Session;
use pywheel_core::Target;
use std::alloc::{AllocError, Global};

/// What becomes of a lock on a target.
#[derive(Drop)]
pub struct Row {
    /// The target.
    pub cell: Cell,
    /// The plan in short, or the fault.
    pub outcome: Outcome,
}

/// The row of each target, for a session that is moved to one after another.
///
/// It takes the memory of [`move_to`], of [`Session::answer`] and of each row. Where there is none,
/// the session may be on any of the targets.
#[tactic(auto, using(crate::proofs::MovingLemmas::placed_same))]
pub fn rows(
    alloc: Global,
    session: &mut Session,
    cells: Vec<Cell>,
    settings: &[Setting],
) -> Result<Vec<Row>, AllocError>
    ensures rows { HasVariables session.old.state → IfOk result (λ rows. rows.items
        ≡ map (row_of settings.now session.old.state) cells.items) }
    ensures stays { unmoved session.new.state ≡ unmoved session.old.state }
{
    let mut rows = Vec::with_capacity(alloc, cells.len())?;
    for cell in cells {
        let outcome = outcome_on(alloc, session, cell.target(), settings)?;
        rows.push(Row { cell, outcome })?;
    }
    Ok(rows)
}

/// What becomes of the lock of a session that is moved to a target.
fn outcome_on(
    alloc: Global,
    session: &mut Session,
    target: &Target,
    settings: &[Setting],
) -> Result<Outcome, AllocError>
    ensures found { HasVariables session.old.state → IfOk result (λ found. found
        ≡ outcome_in (answer (placed target.now settings.now session.old.state))) }
    ensures moved { HasVariables session.old.state → OnOk result (HasVariables session.new.state) }
    ensures stays { unmoved session.new.state ≡ unmoved session.old.state }
{
    move_to(alloc, session, target, settings)?;
    let answer = session.answer()?;
    outcome_of(alloc, &answer)
}
