//! What differs between a project and what a lock plans on each of many targets.

ghost use Rattle.std.specs.Prelude.{◌≡◌, ◌==◌, IfOk, OnOk, length, map};
ghost use Rattle.std.specs.List.{list_all};
ghost use Rattle.pylock_matrix.specs.Moving.{HasVariables, placed, unmoved};
ghost use Rattle.pylock_check.specs.Targets.{check_lines, check_on, outcome_in, target_lines};

use crate::difference::Difference;
use crate::judging::differences;
use crate::project::Project;
use pylock_core::{Answer, FaultCode, Session};
use pylock_matrix::{Cell, Setting, move_to};
use pywheel_core::Target;
use std::alloc::{AllocError, Global};
use std::marker::Model;

/// Differences between a project and a lock, in their order.
pub struct DifferenceList {
    differences: Vec<Difference>,
}

impl Model for DifferenceList {
    ghost use Rattle.std.specs.Prelude.{List};
    ghost use Rattle.pylock_check.specs.declared.difference.Difference.{Difference};

    ghost Value = { List Difference };

    ghost view = { λ l. l.differences.items };
}

impl Drop for DifferenceList {
    fn drop(self) {
        let DifferenceList { differences: _ } = self;
    }
}

impl DifferenceList {
    /// The differences. It takes no memory.
    pub fn as_slice(&self) -> &[Difference]
        ensures { result.now ≡ self.now }
    {
        self.differences.as_slice()
    }
}

/// What is told of a target.
#[derive(Drop)]
pub enum TargetOutcome {
    /// What differs from its plan.
    Differences(DifferenceList),
    /// It has no plan (PEP 751, "Installation").
    Fault {
        /// The number of the entry that has the fault, 0 for the head.
        id: u32,
        /// Why it stops the installation.
        code: FaultCode,
    },
}

/// What differs between a project and what a lock plans on a target.
#[derive(Drop)]
pub struct TargetCheck {
    /// The target.
    pub cell: Cell,
    /// The differences from its plan, or the fault.
    pub outcome: TargetOutcome,
}

/// What differs on each target, for a session that is moved to one after another as
/// [`rows`](pylock_matrix::rows) moves it: the differences between the project and the plan there,
/// as [`differences`] gives them, or the fault.
///
/// It takes the memory of [`move_to`], of [`Session::answer`] and of [`differences`] of each
/// target. Where there is none, the session may be on any of the targets.
#[tactic(auto, using(pylock_matrix::proofs::MovingLemmas::placed_same))]
pub fn target_checks(
    alloc: Global,
    project: &Project,
    session: &mut Session,
    cells: Vec<Cell>,
    settings: &[Setting],
) -> Result<Vec<TargetCheck>, AllocError>
    ensures checks { HasVariables session.old.state → IfOk result (λ checks. checks.items
        ≡ map (check_on settings.now session.old.state project.now) cells.items) }
    ensures stays { unmoved session.new.state ≡ unmoved session.old.state }
{
    let mut checks = Vec::with_capacity(alloc, cells.len())?;
    for cell in cells {
        let outcome = outcome_on(alloc, project, session, cell.target(), settings)?;
        checks.push(TargetCheck { cell, outcome })?;
    }
    Ok(checks)
}

/// What is told of a target, to which the session is moved.
fn outcome_on(
    alloc: Global,
    project: &Project,
    session: &mut Session,
    target: &Target,
    settings: &[Setting],
) -> Result<TargetOutcome, AllocError>
    ensures found { HasVariables session.old.state → IfOk result (λ found. found
        ≡ outcome_in (placed target.now settings.now session.old.state) project.now) }
    ensures moved { HasVariables session.old.state → OnOk result (HasVariables session.new.state) }
    ensures stays { unmoved session.new.state ≡ unmoved session.old.state }
{
    move_to(alloc, session, target, settings)?;
    outcome_in(alloc, project, session)
}

/// What is told of the target that a session is on.
fn outcome_in(
    alloc: Global,
    project: &Project,
    session: &Session,
) -> Result<TargetOutcome, AllocError>
    ensures { IfOk result (λ found. found ≡ outcome_in session.now.state project.now) }
{
    match session.answer()? {
        Answer::Plan(plan) => {
            let differences = differences(alloc, project, session, &plan)?;
            Ok(TargetOutcome::Differences(DifferenceList { differences }))
        }
        Answer::Fault { id, code } => Ok(TargetOutcome::Fault { id, code }),
    }
}

/// Whether nothing differs: neither for the head nor on any target, each of which has a plan. It
/// takes no memory.
pub fn is_clean(of_head: &[Difference], checks: &[TargetCheck]) -> bool
    ensures { result ≡ (length (target_lines of_head.now checks.now) == 0) }
{
    of_head.is_empty() && are_clean(checks)
}

fn are_clean(checks: &[TargetCheck]) -> bool
    ensures { result ≡ list_all (λ check. length (check_lines check) == 0) checks.now }
{
    checks.iter().all(|check| line_count(check) == 0)
}

/// How many lines a target has.
pub(crate) fn line_count(check: &TargetCheck) -> usize
    ensures { result ≡ length (check_lines check.now) }
{
    match &check.outcome {
        TargetOutcome::Differences(found) => found.as_slice().len(),
        TargetOutcome::Fault { id: _, code: _ } => 1,
    }
}
