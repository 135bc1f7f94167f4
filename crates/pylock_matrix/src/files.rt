//! The files that the targets of a matrix take, each once.

ghost use Rattle.std.specs.Prelude.{◌≡◌, ◌++◌, ◌||◌, IfOk, OnOk, filter, map};
ghost use Rattle.std.specs.List.{flat_map, list_any};
ghost use Rattle.pylock_core.specs.Session.Picks.{lent_named};
ghost use Rattle.pylock_core.specs.Session.Steps.{answer};
ghost use Rattle.pylock_core.specs.declared.answer.Pick.{Pick as AnyPick};
ghost use Rattle.pylock_matrix.specs.Files.{all_picks, answers_on, files_on, picks_of, takes};
ghost use Rattle.pylock_matrix.specs.Inner.Taken.{is_taken};
ghost use Rattle.pylock_matrix.specs.Moving.{HasVariables, placed, unmoved};
ghost use Rattle.pylock_matrix.specs.Outcome.{outcome_of as outcome_in};
ghost use Rattle.pylock_matrix.specs.Row.{row_of};

use crate::cell::Cell;
use crate::moving::move_to;
use crate::outcome::{Outcome, outcome_of};
use crate::row::Row;
use crate::setting::Setting;
use crate::taken::Taken;
use pylock_core::{Fate, NamedSource, Pick, Session, sources};
use pywheel_core::Target;
use std::alloc::{AllocError, Global};

/// The row of each target, for a session that is moved to one after another, and the files that
/// the targets take, each once: the entries in order, of an entry `vcs`, `directory`, `archive`,
/// the wheels in order and `sdist`. A target that has a fault takes none.
///
/// It takes the memory of [`rows`](crate::rows), and for each file. Where there is none, the
/// session may be on any of the targets.
#[tactic(auto, using(crate::proofs::FilesLemmas::files_by))]
pub fn rows_and_files(
    alloc: Global,
    session: &mut Session,
    cells: Vec<Cell>,
    settings: &[Setting],
) -> Result<(Vec<Row>, Vec<Pick>), AllocError>
    ensures rows { HasVariables session.old.state → IfOk result (λ found. found.0.items
        ≡ map (row_of settings.now session.old.state) cells.items) }
    ensures files { HasVariables session.old.state → IfOk result (λ found. found.1.items
        ≡ files_on settings.now session.old.state cells.items) }
    ensures stays { unmoved session.new.state ≡ unmoved session.old.state }
{
    let (rows, taken) = rows_and_taken(alloc, session, cells, settings)?;
    let files = taken_sources(alloc, session, &taken)?;
    Ok((rows, files))
}

/// The row of each target, and what the targets take.
#[tactic(auto, using(crate::proofs::MovingLemmas::placed_same))]
fn rows_and_taken(
    alloc: Global,
    session: &mut Session,
    cells: Vec<Cell>,
    settings: &[Setting],
) -> Result<(Vec<Row>, Taken), AllocError>
    ensures rows { HasVariables session.old.state → IfOk result (λ found. found.0.items
        ≡ map (row_of settings.now session.old.state) cells.items) }
    ensures taken { HasVariables session.old.state → IfOk result (λ found. (pick : AnyPick)
        → is_taken found.1 pick ≡ list_any (λ answer. takes answer pick)
        (answers_on settings.now session.old.state cells.items)) }
    ensures stays { unmoved session.new.state ≡ unmoved session.old.state }
{
    let mut taken = Taken::none(alloc);
    let mut rows = Vec::with_capacity(alloc, cells.len())?;
    for cell in cells {
        let outcome = take_on(alloc, session, cell.target(), settings, &mut taken)?;
        rows.push(Row { cell, outcome })?;
    }
    Ok((rows, taken))
}

/// What becomes of the lock of a session that is moved to a target, and what the target takes.
fn take_on(
    alloc: Global,
    session: &mut Session,
    target: &Target,
    settings: &[Setting],
    taken: &mut Taken,
) -> Result<Outcome, AllocError>
    ensures found { HasVariables session.old.state → IfOk result (λ found. found
        ≡ outcome_in (answer (placed target.now settings.now session.old.state))) }
    ensures taken { HasVariables session.old.state → OnOk result ((pick : AnyPick)
        → is_taken taken.new pick ≡ (takes (answer (placed target.now settings.now
        session.old.state)) pick || is_taken taken.old pick)) }
    ensures moved { HasVariables session.old.state → OnOk result (HasVariables session.new.state) }
    ensures stays { unmoved session.new.state ≡ unmoved session.old.state }
{
    move_to(alloc, session, target, settings)?;
    let answer = session.answer()?;
    taken.add(&answer)?;
    outcome_of(alloc, &answer)
}

/// What is taken of all files of a session.
fn taken_sources(alloc: Global, session: &Session, taken: &Taken) -> Result<Vec<Pick>, AllocError>
    ensures { IfOk result (λ picks. picks.items
        ≡ filter (is_taken taken.now) (all_picks session.now.state)) }
{
    let fates = session.fates()?;
    taken_among(alloc, session, taken, fates.as_slice())
}

/// What is taken of the files of these entries, each of which is there with its number.
fn taken_among(
    alloc: Global,
    session: &Session,
    taken: &Taken,
    fates: &[(u32, Fate)],
) -> Result<Vec<Pick>, AllocError>
    ensures { IfOk result (λ picks. picks.items ≡ flat_map
        (λ f. filter (is_taken taken.now) (picks_of session.now.state f.0)) fates.now) }
{
    let mut picks = Vec::new(alloc);
    for (number, _) in fates {
        push_taken(alloc, &mut picks, session, taken, *number)?;
    }
    Ok(picks)
}

/// Pushes what is taken of the files of an entry.
fn push_taken(
    alloc: Global,
    picks: &mut Vec<Pick>,
    session: &Session,
    taken: &Taken,
    number: u32,
) -> Result<(), AllocError>
    ensures { OnOk result (picks.new.items ≡ picks.old.items
        ++ filter (is_taken taken.now) (picks_of session.now.state number)) }
{
    let Some(entry) = session.entry(number) else {
        return Ok(());
    };
    let named = sources(alloc, entry)?;
    push_named(picks, taken, number, named.as_slice())
}

fn push_named(
    picks: &mut Vec<Pick>,
    taken: &Taken,
    number: u32,
    named: &[NamedSource<'_>],
) -> Result<(), AllocError>
    ensures { OnOk result (picks.new.items ≡ picks.old.items
        ++ filter (is_taken taken.now)
        (map (λ s. record { id = number; source = s.0 }) (map lent_named named.now))) }
{
    for one in named {
        let pick = Pick {
            id: number,
            source: one.name,
        };
        if taken.has(pick) {
            picks.push(pick)?;
        }
    }
    Ok(())
}
