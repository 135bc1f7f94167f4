//! Judgements made again, of what reads a thing that changes and of nothing else.

ghost use Rattle.std.specs.Prelude.{◌≡◌, ℕ, ◌<◌, ◌-◌, ◌++◌, ◌∷◌, [], Some, None, IfOk, IsSome};
ghost use Rattle.std.specs.Prelude.{OnOk, length, map, slice_index_or, if◌then◌else◌};
ghost use Rattle.pylock_core.specs.Inner.Judging.Judgement.{AllStand, after_head, fresh_row};
ghost use Rattle.pylock_core.specs.Inner.Judging.Judgement.{has_head, fresh_standing, row_anew};
ghost use Rattle.pylock_core.specs.Inner.Judging.Judgement.{rows_anew, standings_anew};
ghost use Rattle.pylock_core.specs.Inner.Tables.Index.{list_at};
ghost use Rattle.pylock_core.specs.Inner.Tables.Names.{policy_at};
ghost use Rattle.pylock_core.specs.Inner.Parts.{IsJudged, IsSession, OfBoth, state_of};
ghost use Rattle.pylock_core.specs.Inner.Judging.Ranks.{AreRanks};
ghost use Rattle.pylock_core.specs.Session.Judgement.{Marked, OfTags, entry_reads, head_reads};
ghost use Rattle.pylock_core.specs.Session.Judgement.{readers};
ghost use Rattle.pylock_core.specs.Session.Steps.{head_fault};

use crate::edit::Policy;
use crate::session::judging::ranks::Ranks;
use crate::session::judging::standings::no_standings;
use crate::session::judging::verdict::{HeadVerdict, StandingAnew};
use crate::session::parts::Parts;
use crate::session::start_and_edit::Judged;
use crate::session::tables::index::TAGS;
use crate::session::tables::rows::{FreshRow, FreshStanding, Row};
use pylock_readers::Entry;
use pymark_core::{Environment, Key};
use pywheel_core::TagList;
use std::alloc::AllocError;

/// The row of the entry of this number, judged again under this policy.
fn row_under_policy(
    parts: &Parts,
    policy: Policy,
    number: u32,
    entry: &Option<Entry>,
    row: &Option<Row>,
    judged: &mut Judged,
) -> Result<Option<Row>, AllocError>
    requires entry { IsSome entry.now }
    requires judged { OfBoth (IsJudged parts.now.environment parts.now.tags
        parts.now.names.policies.items) entry.now row.now }
    ensures row { IfOk result (λ new. new ≡ row_anew parts.now.environment
        parts.now.tags (λ name. policy) entry.now row.now) }
    ensures judged { OnOk result (judged.new ≡ judged.old ++ number ∷ []) }
{
    match (entry, row) {
        (Some(entry), Some(row)) => Ok(Some(Row {
            verdict: row
                .verdict
                .wheel_anew(number, entry, &parts.tags, policy, judged)?,
            name: row.name,
            condition: row.condition,
            sources: row.sources,
        })),
        _ => Ok(None),
    }
}

/// The rows of the entries of these numbers, judged again under this policy.
pub(crate) fn rows_under_policy(
    parts: &Parts,
    policy: Policy,
    numbers: &[u32],
    judged: &mut Judged,
) -> Result<Vec<FreshRow>, AllocError>
    requires session { IsSession parts.now }
    requires stand { AllStand parts.now.entries.items numbers.now }
    ensures fresh { IfOk result (λ fresh. fresh.items
        ≡ map (fresh_row parts.now.environment parts.now.tags (λ name. policy)
        parts.now.entries.items parts.now.rows.items) numbers.now) }
    ensures judged { OnOk result (judged.new ≡ judged.old ++ numbers.now) }
{
    let mut fresh = Vec::with_capacity(parts.alloc, numbers.len())?;
    judged.reserve(numbers.len())?;
    for number in numbers {
        let place = *number as usize - 1;
        let row = row_under_policy(
            parts,
            policy,
            *number,
            &parts.entries[place],
            &parts.rows[place],
            judged,
        )?;
        fresh.push((place, row))?;
    }
    Ok(fresh)
}

/// How the entries of these numbers stand in the environment.
fn standings(
    parts: &Parts,
    environment: &Environment,
    numbers: &[u32],
    judged: &mut Judged,
) -> Result<Vec<FreshStanding>, AllocError>
    requires session { IsSession parts.now }
    requires stand { AllStand parts.now.entries.items numbers.now }
    ensures fresh { IfOk result (λ fresh. fresh.items
        ≡ map (fresh_standing environment.now parts.now.entries.items) numbers.now) }
    ensures judged { OnOk result (judged.new ≡ judged.old ++ numbers.now) }
{
    let mut fresh = Vec::with_capacity(parts.alloc, numbers.len())?;
    judged.reserve(numbers.len())?;
    let mut found = no_standings(parts.alloc, numbers.len())?;
    for number in numbers {
        let standing = StandingAnew::new(parts, environment, *number, &mut found, judged)?;
        fresh.push((*number as usize - 1, standing))?;
    }
    Ok(fresh)
}

/// Whether the number of the head stands before these.
fn has_head(numbers: &[u32]) -> bool
    ensures { result ≡ has_head numbers.now }
{
    matches!(numbers, [0, ..])
}

/// The numbers without that of the head, which stands before them or not.
fn after_head(numbers: &[u32]) -> &[u32]
    ensures { result.now ≡ after_head numbers.now }
{
    match numbers.split_first() {
        Some((number, rest)) if *number == 0 => rest,
        _ => numbers,
    }
}

/// The verdict on the head, judged again if it reads what changes.
fn judge_head(
    parts: &Parts,
    environment: &Environment,
    reads: bool,
    judged: &mut Judged,
) -> Result<Option<HeadVerdict>, AllocError>
    ensures verdict { IfOk result (λ verdict. verdict
        ≡ (if reads then Some (head_fault parts.now.head environment.now) else None)) }
    ensures judged { OnOk result (judged.new
        ≡ judged.old ++ (if reads then 0 ∷ [] else [])) }
{
    if reads {
        return Ok(Some(HeadVerdict::new(parts.alloc, &parts.head, environment, judged)?));
    }
    Ok(None)
}

/// Judges again what reads the key, in this environment. Entries keep their best wheels.
pub(crate) fn judge_key(
    parts: &Parts,
    environment: &Environment,
    key: Key,
    judged: &mut Judged,
) -> Result<(Option<HeadVerdict>, Vec<FreshStanding>), AllocError>
    requires { IsSession parts.now }
    ensures head { IfOk result (λ fresh. fresh.0
        ≡ (if head_reads (Marked key) parts.now.head
        then Some (head_fault parts.now.head environment.now) else None)) }
    ensures standings { IfOk result (λ fresh. fresh.1.items
        ≡ standings_anew parts.now (entry_reads (Marked key)) environment.now) }
    ensures judged { OnOk result (judged.new
        ≡ judged.old ++ readers (Marked key) (state_of parts.now)) }
{
    let numbers = parts.index[key.number()].as_slice();
    let verdict = judge_head(parts, environment, has_head(numbers), judged)?;
    let fresh = standings(parts, environment, after_head(numbers), judged)?;
    Ok((verdict, fresh))
}

/// The row of the entry of this number, judged again by these tags, with its place.
fn row_by_tags(
    parts: &Parts,
    tags: &TagList,
    number: u32,
    ranks: &mut Ranks,
    judged: &mut Judged,
) -> Result<FreshRow, AllocError>
    requires session { IsSession parts.now }
    requires above { 0 < number }
    requires stands { IsSome (slice_index_or parts.now.entries.items (number - 1) None) }
    requires ranks { AreRanks parts.now.sets tags.now ranks.old }
    ensures fresh { IfOk result (λ fresh. fresh
        ≡ fresh_row parts.now.environment tags.now (policy_at parts.now.names.policies.items)
        parts.now.entries.items parts.now.rows.items number) }
    ensures judged { OnOk result (judged.new ≡ judged.old ++ number ∷ []) }
    ensures ranks { AreRanks parts.now.sets tags.now ranks.new }
{
    let place = number as usize - 1;
    let Some(row) = &parts.rows[place] else {
        return Ok((place, None));
    };
    let policy = parts.names.policies[row.name];
    let row = Row {
        verdict: row
            .verdict
            .wheel_ranked(parts, number, tags, policy, ranks, judged)?,
        name: row.name,
        condition: row.condition,
        sources: row.sources,
    };
    Ok((place, Some(row)))
}

/// The rows of the entries of these numbers, judged again by these tags.
fn rows_by_tags(
    parts: &Parts,
    tags: &TagList,
    numbers: &[u32],
    ranks: &mut Ranks,
    judged: &mut Judged,
) -> Result<Vec<FreshRow>, AllocError>
    requires session { IsSession parts.now }
    requires stand { AllStand parts.now.entries.items numbers.now }
    requires ranks { AreRanks parts.now.sets tags.now ranks.old }
    ensures fresh { IfOk result (λ fresh. fresh.items
        ≡ map (fresh_row parts.now.environment tags.now (policy_at parts.now.names.policies.items)
        parts.now.entries.items parts.now.rows.items) numbers.now) }
    ensures judged { OnOk result (judged.new ≡ judged.old ++ numbers.now) }
{
    let mut fresh = Vec::with_capacity(parts.alloc, numbers.len())?;
    judged.reserve(numbers.len())?;
    for number in numbers {
        let row = row_by_tags(parts, tags, *number, ranks, judged)?;
        fresh.push(row)?;
    }
    Ok(fresh)
}

/// Judges again the entries that have wheels, by these tags. Each tag set of their wheels is ranked
/// once. It takes the memory of a rank for each tag set, of the rows and of the list.
pub(crate) fn judge_tags(
    parts: &Parts,
    tags: &TagList,
    judged: &mut Judged,
) -> Result<Vec<FreshRow>, AllocError>
    requires { IsSession parts.now }
    ensures rows { IfOk result (λ fresh. fresh.items ≡ rows_anew parts.now (entry_reads OfTags)
        parts.now.environment tags.now (policy_at parts.now.names.policies.items)) }
    ensures judged { OnOk result (judged.new
        ≡ judged.old ++ readers OfTags (state_of parts.now)) }
{
    let mut ranks = Ranks::none(parts.alloc, parts.sets.len())?;
    rows_by_tags(
        parts,
        tags,
        parts.index[TAGS].as_slice(),
        &mut ranks,
        judged,
    )
}

/// Judges again the entries of the name of this number, under this policy.
pub(crate) fn judge_name(
    parts: &Parts,
    number: usize,
    policy: Policy,
    judged: &mut Judged,
) -> Result<Vec<FreshRow>, AllocError>
    requires session { IsSession parts.now }
    requires within { number < length parts.now.names.policies.items }
    requires stand { AllStand parts.now.entries.items
        (list_at parts.now.names.members.items number) }
    ensures rows { IfOk result (λ fresh. fresh.items
        ≡ map (fresh_row parts.now.environment parts.now.tags (λ name. policy)
        parts.now.entries.items parts.now.rows.items)
        (list_at parts.now.names.members.items number)) }
    ensures judged { OnOk result (judged.new
        ≡ judged.old ++ list_at parts.now.names.members.items number) }
{
    let members = parts.names.members[number].as_slice();
    rows_under_policy(parts, policy, members, judged)
}
