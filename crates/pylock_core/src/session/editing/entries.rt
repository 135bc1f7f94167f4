//! The entries of a session: one is added, put in place of another, or taken out.

ghost use Rattle.std.specs.Prelude.{◌≡◌, ◌⊎◌, ℕ, ◌+◌, ◌<◌, ◌++◌, ◌∷◌, List, [], None, IfOk, IfErr};
ghost use Rattle.std.specs.Prelude.{IfSome, IsSome, OnErr, OnOk, length, map, option_map};
ghost use Rattle.std.specs.Prelude.{slice_index_or, slice_set, vec_capacity, vec_len};
ghost use Rattle.std.specs.Option.{option_copied};
ghost use Rattle.pylock_readers.specs.Entry.{wheel_names};
ghost use Rattle.pylock_core.specs.Inner.Editing.{Leaves, Made};
ghost use Rattle.pylock_core.specs.Inner.Tables.Index.{HaveCapacity};
ghost use Rattle.pylock_core.specs.Inner.Tables.Names.{HasCapacity};
ghost use Rattle.pylock_core.specs.Inner.Parts.{IsJudged, IsNamed, IsSession, OfBoth, RowFits};
ghost use Rattle.pylock_core.specs.Inner.Parts.{shown, sources_of, state_of};
ghost use Rattle.pylock_core.specs.Session.State.{in_rows, entry_at};
ghost use Rattle.pylock_core.specs.Inner.Tables.Rows.{passes};
ghost use Rattle.pylock_core.specs.Inner.Tables.TagSets.{AreNumbers, names_in, set_number};
ghost use Rattle.pylock_core.specs.Session.Judgement.{entry_reads, keys};
ghost use Rattle.pylock_core.specs.declared.edit.Edit.TheVariants as edit;
ghost use Rattle.pylock_core.specs.declared.edit.EditError.TheVariants.{NoEntry};

use crate::edit::EditError;
use crate::session::judging::verdict::Verdict;
use crate::session::parts::Parts;
use crate::session::start_and_edit::Judged;
use crate::session::tables::capacity::{push_within, put_at};
use crate::session::tables::conditions::number_of_condition;
use crate::session::tables::index::{
    entry_keys, keys_at, move_in_list, move_in_lists, reserve_in_lists,
};
use crate::session::tables::names::{move_member, number_of, reserve_member};
use crate::session::tables::rows::{Row, SourceKinds};
use crate::session::tables::tag_sets::{numbers_of, sets_of};
use pylock_readers::Entry;
use std::alloc::AllocError;

/// How many numbers a session gives out.
const MOST_NUMBERS: usize = 100_000;

/// The entry of the number, among the entries of which the first has the number 1.
#[tactic(auto, using(crate::proofs::Lemmas::Editing::Entries::row_numbers))]
pub(crate) fn entry_in(entries: &[Option<Entry>], number: u32) -> Option<&Entry>
    ensures { option_copied result ≡ entry_at number (in_rows 1 entries.now) }
{
    let place = (number as usize).checked_sub(1)?;
    entries.get(place)?.as_ref()
}

/// The place of the entry of the number.
fn place_of(parts: &Parts, number: u32) -> Result<usize, EditError>
    ensures place { IfOk result (λ place. number ≡ place + 1) }
    ensures there { IfOk result (λ place.
        IsSome (slice_index_or parts.now.entries.items place None)) }
    ensures known { OnOk result (IsSome (entry_at number (in_rows 1 parts.now.entries.items))) }
    ensures absent { IfErr result (λ error. (error ≡ NoEntry)
        × (entry_at number (in_rows 1 parts.now.entries.items) ≡ None)) }
{
    match entry_in(parts.entries.as_slice(), number) {
        Some(_) => Ok(number as usize - 1),
        None => Err(EditError::NoEntry),
    }
}

/// Which sources the entry has.
fn sources_of(entry: &Entry) -> SourceKinds
    ensures { result ≡ sources_of entry.now }
{
    SourceKinds {
        vcs: entry.vcs().is_some(),
        directory: entry.directory().is_some(),
        archive: entry.archive().is_some(),
        sdist: entry.sdist().is_some(),
        conflict: entry.has_conflict(),
    }
}

/// The row of an entry that is to have this number. Its name and its condition get numbers where
/// they have none, and there is capacity now under the keys that it reads and under its name.
fn prepare_row(
    parts: &mut Parts,
    number: u32,
    entry: &Entry,
    judged: &mut Judged,
) -> Result<Row, AllocError>
    requires { IsSession parts.old }
    ensures named { IfOk result (λ row. IsNamed parts.new.names entry.now row) }
    ensures fits { IfOk result (λ row. RowFits parts.new.conditions.count
        parts.new.entries.items parts.new.rows.items (Some entry.now) (Some row)) }
    ensures judged { IfOk result (λ row. IsJudged
        parts.new.environment parts.new.tags parts.new.names.policies.items entry.now row) }
    ensures index { OnOk result
        (HaveCapacity parts.new.index (map (λ key. entry_reads key entry.now) keys) 0) }
    ensures name { IfOk result (λ row. HasCapacity parts.new.names row.name) }
    ensures count { OnOk result (judged.new ≡ judged.old ++ number ∷ []) }
    ensures session { IsSession parts.new }
    ensures shown { shown parts.new ≡ shown parts.old }
    ensures entries { parts.new.entries.items ≡ parts.old.entries.items }
    ensures sets { parts.new.sets ≡ parts.old.sets }
{
    let condition = number_of_condition(
        &mut parts.conditions,
        parts.entries.as_slice(),
        parts.rows.as_slice(),
        number,
        entry,
    );
    let name = number_of(parts.alloc, &mut parts.names, entry.name())?;
    let verdict = Verdict::new(parts, number, entry, parts.names.policies[name], judged)?;
    reserve_in_lists(&mut parts.index, &entry_keys(entry))?;
    reserve_member(&mut parts.names, name)?;
    Ok(Row {
        verdict,
        name,
        condition,
        sources: sources_of(entry),
    })
}

/// The number of the name of a row, where there is one.
fn name_of(row: &Option<Row>) -> Option<usize>
    ensures { result ≡ option_map (λ row. row.name) row.now }
{
    Some(row.as_ref()?.name)
}

/// Gives the tag sets numbers anew where most of them have no wheel any more. Where there is no
/// memory for that, all stays.
fn renumber_sets(parts: &mut Parts) -> Result<(), AllocError>
    requires { IsSession parts.old }
    ensures session { IsSession parts.new }
    ensures shown { shown parts.new ≡ shown parts.old }
    ensures entries { parts.new.entries.items ≡ parts.old.entries.items }
{
    if !parts.sets.is_full() {
        return Ok(());
    }
    let sets = sets_of(parts.alloc, parts.entries.as_slice())?;
    parts.sets = sets;
    Ok(())
}

/// The numbers of the tag sets of the wheels of an entry that comes in.
fn sets_for(parts: &mut Parts, entry: &Entry) -> Result<Vec<usize>, AllocError>
    requires { IsSession parts.old }
    ensures numbers { IfOk result (λ numbers.
        AreNumbers (set_number parts.new.sets) (wheel_names entry.now) numbers.items) }
    ensures session { IsSession parts.new }
    ensures shown { shown parts.new ≡ shown parts.old }
    ensures entries { parts.new.entries.items ≡ parts.old.entries.items }
{
    renumber_sets(parts)?;
    numbers_of(parts.alloc, &mut parts.sets, entry.wheel_names())
}

/// Writes an entry, its row and the numbers of its wheels' tag sets, or none, at a place that is
/// there. The lists of its keys and of its name have room.
fn write_entry(
    parts: &mut Parts,
    place: usize,
    row: Option<Row>,
    sets: Vec<usize>,
    entry: Option<Entry>,
)
    requires session { IsSession parts.old }
    requires within { place < length parts.old.entries.items }
    requires named { OfBoth (IsNamed parts.old.names) entry row }
    requires fits { RowFits parts.old.conditions.count parts.old.entries.items
        parts.old.rows.items entry row }
    requires judged { OfBoth
        (IsJudged parts.old.environment parts.old.tags parts.old.names.policies.items) entry row }
    requires sets { AreNumbers (set_number parts.old.sets) (names_in entry) sets.items }
    requires index { HaveCapacity parts.old.index
        (map (λ key. passes (entry_reads key) entry) keys) 0 }
    requires name { IfSome row (λ row. HasCapacity parts.old.names row.name) }
    requires living { IsSome entry → IsSome (slice_index_or parts.old.entries.items place None)
        ⊎ (vec_len parts.old.living < vec_capacity parts.old.living) }
    ensures session { IsSession parts.new }
    ensures state { state_of parts.new ≡ record (state_of parts.old) {
      entries = in_rows 1 (slice_set parts.old.entries.items place entry);
    } }
{
    let number = place as u32 + 1;
    let was = keys_at(&parts.entries[place]);
    let is = keys_at(&entry);
    move_in_lists(&mut parts.index, number, &was, &is);
    let was = name_of(&parts.rows[place]);
    move_member(&mut parts.names, number, was, name_of(&row));
    let stood = parts.entries[place].is_some();
    move_in_list(&mut parts.living, number, stood, entry.is_some());
    put_at(&mut parts.rows, place, row);
    put_at(&mut parts.entries, place, entry);
    parts.sets.put(place, sets);
}

/// Adds the entry after all others, with the next number. Where there is no memory for it, all that
/// is shown stays.
pub(crate) fn append_entry(
    parts: &mut Parts,
    entry: Entry,
    judged: &mut Judged,
) -> Result<(), AllocError>
    requires session { IsSession parts.old }
    requires capacity { length parts.old.entries.items < 100000 }
    ensures session { IsSession parts.new }
    ensures made { OnOk result (Made (edit.Add entry) parts.old parts.new judged.old judged.new) }
    ensures kept { OnErr result (shown parts.new ≡ shown parts.old) }
{
    let place = parts.entries.len();
    let sets = sets_for(parts, &entry)?;
    let row = prepare_row(parts, place as u32 + 1, &entry, judged)?;
    parts.entries.reserve(1)?;
    parts.rows.reserve(1)?;
    parts.living.reserve(1)?;
    parts.sets.of_entries.reserve(1)?;
    push_within(&mut parts.rows, None);
    push_within(&mut parts.entries, None);
    push_within(&mut parts.sets.of_entries, Vec::new(parts.alloc));
    write_entry(parts, place, Some(row), sets, Some(entry));
    Ok(())
}

/// Adds the entry, while there are numbers.
pub(crate) fn add_entry(
    parts: &mut Parts,
    entry: Entry,
    judged: &mut Judged,
) -> Result<(), EditError>
    requires { IsSession parts.old }
    ensures session { IsSession parts.new }
    ensures left { Leaves (edit.Add entry) parts.old parts.new judged.old judged.new result }
{
    if parts.entries.len() >= MOST_NUMBERS {
        return Err(EditError::TooMany);
    }
    append_entry(parts, entry, judged)?;
    Ok(())
}

/// Puts the entry in place of that of the number.
pub(crate) fn put_entry(
    parts: &mut Parts,
    number: u32,
    entry: Entry,
    judged: &mut Judged,
) -> Result<(), EditError>
    requires { IsSession parts.old }
    ensures session { IsSession parts.new }
    ensures left { Leaves (edit.Put number entry) parts.old parts.new judged.old judged.new result }
{
    let place = place_of(parts, number)?;
    let sets = sets_for(parts, &entry)?;
    let row = prepare_row(parts, number, &entry, judged)?;
    write_entry(parts, place, Some(row), sets, Some(entry));
    Ok(())
}

/// Takes out the entry of the number. It takes no memory and judges nothing.
pub(crate) fn delete_entry(parts: &mut Parts, number: u32) -> Result<(), EditError>
    requires { IsSession parts.old }
    ensures session { IsSession parts.new }
    ensures left { (judged : List ℕ)
        → Leaves (edit.Del number) parts.old parts.new judged judged result }
{
    let place = place_of(parts, number)?;
    write_entry(parts, place, None, Vec::new(parts.alloc), None);
    Ok(())
}
