//! What an answer looks at: one small flat row for each entry. Rows stand at their numbers, which
//! are never used again: an edit finds its row by index, and taking an entry out moves no row and
//! takes no memory. An answer touches no text of an entry until it prints.

ghost use Rattle.std.specs.Prelude.{◌≡◌, ◌<◌, ◌≤◌, IfOk, None, length, slice_index_or, slice_set};
ghost use Rattle.pylock_core.specs.Inner.Tables.Rows.{AllWithin, is_marked, passes, row_source};
ghost use Rattle.pylock_core.specs.Inner.Tables.Rows.{row_stood, with_rows, with_standings};
ghost use Rattle.pylock_core.specs.Session.Judgement.{numbers_where};
ghost use Rattle.pylock_core.specs.Session.State.{in_rows};

use crate::answer::PickSource;
use crate::edit::Policy;
use crate::session::judging::verdict::{StandingAnew, Verdict};
use crate::session::tables::capacity::put_at;
use std::alloc::{AllocError, Global};

/// Which sources an entry has, its wheels apart, and whether all of them are of more than one kind.
#[derive(Clone, Copy)]
pub(crate) struct SourceKinds {
    pub(crate) vcs: bool,
    pub(crate) directory: bool,
    pub(crate) archive: bool,
    pub(crate) sdist: bool,
    pub(crate) conflict: bool,
}

/// The row of an entry: its verdict, the number of its name, that of its condition, if it has one,
/// and which sources it has.
#[derive(Drop)]
pub(crate) struct Row {
    pub(crate) verdict: Verdict,
    pub(crate) name: usize,
    pub(crate) condition: Option<u32>,
    pub(crate) sources: SourceKinds,
}

impl Row {
    /// The source that the entry is installed from under this policy of its name.
    pub(crate) fn source(&self, policy: Policy) -> Option<PickSource>
        ensures { result ≡ row_source self.now policy }
    {
        if self.sources.vcs {
            return Some(PickSource::Vcs);
        }
        if self.sources.directory {
            return Some(PickSource::Directory);
        }
        if self.sources.archive {
            return Some(PickSource::Archive);
        }
        if let Some(place) = self.verdict.best() {
            return Some(PickSource::Wheel(place));
        }
        if self.sources.sdist && policy != Policy::Wheel {
            return Some(PickSource::Sdist);
        }
        None
    }
}

/// Whether there is a row, and its name is marked.
fn is_marked(row: &Option<Row>, marks: &[bool]) -> bool
    ensures { result ≡ passes (is_marked marks.now) row.now }
{
    match row {
        Some(row) => marks.get(row.name).copied().unwrap_or(false),
        None => false,
    }
}

/// The numbers of the entries whose names are marked, in increasing order.
pub(crate) fn marked_entries(
    alloc: Global,
    rows: &[Option<Row>],
    marks: &[bool],
) -> Result<Vec<u32>, AllocError>
    requires { length rows.now ≤ 100000 }
    ensures { IfOk result (λ numbers. numbers.items
        ≡ numbers_where (is_marked marks.now) (in_rows 1 rows.now)) }
{
    let mut numbers = Vec::new(alloc);
    for (place, row) in rows.iter().enumerate() {
        if is_marked(row, marks) {
            numbers.push(place as u32 + 1)?;
        }
    }
    Ok(numbers)
}

/// A row that was judged again, with its place.
pub(crate) type FreshRow = (usize, Option<Row>);

/// How an entry stands that was judged again, with its place.
pub(crate) type FreshStanding = (usize, StandingAnew);

/// Puts each of the rows at its place. Takes no memory.
pub(crate) fn put_rows(rows: &mut Vec<Option<Row>>, fresh: Vec<FreshRow>)
    requires { AllWithin (length rows.old.items) fresh.items }
    ensures { rows.new.items ≡ with_rows fresh.items rows.old.items }
{
    for (place, row) in fresh {
        put_at(rows, place, row);
    }
}

/// Has the entry at each of the places stand so. Takes no memory.
pub(crate) fn put_standings(rows: &mut Vec<Option<Row>>, fresh: Vec<FreshStanding>)
    requires { AllWithin (length rows.old.items) fresh.items }
    ensures { rows.new.items ≡ with_standings fresh.items rows.old.items }
{
    for (place, anew) in fresh {
        stand_at(rows, place, anew);
    }
}

/// Has the entry at this place stand so.
fn stand_at(rows: &mut Vec<Option<Row>>, place: usize, anew: StandingAnew)
    requires { place < length rows.old.items }
    ensures { rows.new.items ≡ slice_set rows.old.items place
        (row_stood anew (slice_index_or rows.old.items place None)) }
{
    if let Some(row) = &mut rows[place] {
        row.verdict.stand(anew);
    }
}
