//! The sources that some target takes.

ghost use Rattle.std.specs.Prelude.{◌≡◌, ◌||◌, OnOk, false};
ghost use Rattle.std.specs.List.{list_any};
ghost use Rattle.pylock_core.specs.declared.answer.Pick.{Pick as AnyPick};
ghost use Rattle.pylock_matrix.specs.Files.{is_same_pick, takes};
ghost use Rattle.pylock_matrix.specs.Inner.Taken.{is_taken, mark_of as mark};

use pylock_core::{Answer, Pick, PickSource};
use std::alloc::{AllocError, Global};
use std::collections::BTreeSet;

/// A source among those of its entry.
#[derive(Clone, Copy, PartialEq, Eq, PartialOrd, Ord)]
enum Slot {
    Vcs,
    Directory,
    Archive,
    Wheel(usize),
    Sdist,
}

/// A source of the entry of a number.
#[derive(Clone, Copy, PartialEq, Eq, PartialOrd, Ord)]
struct Mark {
    entry: u32,
    slot: Slot,
}

/// The sources that some target takes, each once, in an ordered set, so that no number of targets
/// makes it slow.
#[derive(Drop)]
pub(crate) struct Taken {
    marks: BTreeSet<Mark>,
}

impl Taken {
    /// None yet. It takes no memory.
    pub(crate) fn none(alloc: Global) -> Taken
        ensures { (pick : AnyPick) → is_taken result pick ≡ false }
    {
        Taken {
            marks: BTreeSet::new(alloc),
        }
    }

    /// Adds those that an answer takes. It takes memory for a mark of each that is new.
    pub(crate) fn add(&mut self, answer: &Answer) -> Result<(), AllocError>
        ensures { OnOk result ((pick : AnyPick) → is_taken self.new pick
            ≡ (takes answer.now pick || is_taken self.old pick)) }
    {
        match answer {
            Answer::Plan(plan) => self.add_picks(plan.picks()),
            Answer::Fault { id: _, code: _ } => Ok(()),
        }
    }

    fn add_picks(&mut self, picks: &[Pick]) -> Result<(), AllocError>
        ensures { OnOk result ((pick : AnyPick) → is_taken self.new pick
            ≡ (list_any (λ one. is_same_pick one pick) picks.now || is_taken self.old pick)) }
    {
        for pick in picks {
            self.add_one(*pick)?;
        }
        Ok(())
    }

    fn add_one(&mut self, pick: Pick) -> Result<(), AllocError>
        ensures { OnOk result ((other : AnyPick) → is_taken self.new other
            ≡ (is_same_pick pick other || is_taken self.old other)) }
    {
        self.marks.insert(mark_of(pick))?;
        Ok(())
    }

    /// Whether what a pick names is among them. It takes no memory.
    pub(crate) fn has(&self, pick: Pick) -> bool
        ensures { result ≡ is_taken self.now pick }
    {
        self.marks.contains(&mark_of(pick))
    }
}

/// The mark of what a pick names.
fn mark_of(pick: Pick) -> Mark
    ensures { result ≡ mark pick }
{
    Mark {
        entry: pick.id,
        slot: match pick.source {
            PickSource::Vcs => Slot::Vcs,
            PickSource::Directory => Slot::Directory,
            PickSource::Archive => Slot::Archive,
            PickSource::Wheel(place) => Slot::Wheel(place),
            PickSource::Sdist => Slot::Sdist,
        },
    }
}
