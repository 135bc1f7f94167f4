//! The sources that picks name, a line for each.

ghost use Rattle.std.specs.Prelude.{◌≡◌, ◌++◌, OnOk};
ghost use Rattle.std.specs.List.{flat_map};
ghost use Rattle.pylock_run.specs.Text.Plan.{pick_text};
ghost use Rattle.pylock_program.specs.Text.Files.{picked_text};

use crate::lines::push_count;
use pylock_core::{Pick, Session};
use pylock_run::push_source_line;
use std::alloc::AllocError;

/// Pushes `files K` and a line for each source that picks name.
pub(crate) fn push_picked(
    out: &mut Vec<u8>,
    session: &Session,
    picks: &[Pick],
) -> Result<(), AllocError>
    ensures { OnOk result (out.new.items
        ≡ out.old.items ++ picked_text session.now.state picks.now) }
{
    push_count(out, "files", picks.len())?;
    push_picks(out, session, picks)
}

fn push_picks(out: &mut Vec<u8>, session: &Session, picks: &[Pick]) -> Result<(), AllocError>
    ensures { OnOk result (out.new.items
        ≡ out.old.items ++ flat_map (pick_text session.now.state) picks.now) }
{
    for pick in picks {
        push_pick(out, session, pick)?;
    }
    Ok(())
}

/// Pushes the line of the source that a pick names.
fn push_pick(out: &mut Vec<u8>, session: &Session, pick: &Pick) -> Result<(), AllocError>
    ensures { OnOk result (out.new.items ≡ out.old.items ++ pick_text session.now.state pick.now) }
{
    match session.entry(pick.id) {
        Some(entry) => push_source_line(out, u64::from(pick.id), entry, pick.source.of(entry)),
        None => Ok(()),
    }
}
