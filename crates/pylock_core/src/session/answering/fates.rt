//! What becomes of each entry, over the rows of a session. An entry is ambiguous just where the
//! first active entry of its name is another one, so no list of the names before it is carried
//! along.

ghost use Rattle.std.specs.Prelude.{◌≡◌, ◌<◌, ◌∷◌, [], ℕ, None, IfOk, length, slice_index_or};
ghost use Rattle.pylock_core.specs.Inner.Answering.Fates.{first_active_row, row_fate, row_fates};
ghost use Rattle.pytext.specs.Options.{either};
ghost use Rattle.pylock_core.specs.Inner.Tables.Names.{policy_at};
ghost use Rattle.pylock_core.specs.Inner.Answering.Steps.{NamesBelow, numbered};
ghost use Rattle.pylock_core.specs.Inner.Tables.Rows.{row_source};
ghost use Rattle.pylock_core.specs.Inner.Parts.{IsSession, state_of};
ghost use Rattle.pylock_core.specs.Session.Fates.{active_fate, fate_at, fates, own_fate};

use crate::answer::Standing;
use crate::edit::Policy;
use crate::fate::Fate;
use crate::session::answering::steps::{is_active, row_in};
use crate::session::parts::Parts;
use crate::session::tables::rows::Row;
use std::alloc::{AllocError, Global};

/// What becomes of each entry, with its number.
pub(crate) fn fates(parts: &Parts) -> Result<Vec<(u32, Fate)>, AllocError>
    requires { IsSession parts.now }
    ensures { IfOk result (λ found. found.items ≡ fates (state_of parts.now)) }
{
    fates_of(
        parts.alloc,
        parts.living.as_slice(),
        parts.rows.as_slice(),
        parts.names.policies.as_slice(),
    )
}

/// What becomes of the entry of the number. It goes over the entries that stand, and takes no
/// memory.
pub(crate) fn fate_at(parts: &Parts, number: u32) -> Option<Fate>
    requires { IsSession parts.now }
    ensures { result ≡ fate_at number (state_of parts.now) }
{
    let rows = parts.rows.as_slice();
    let Some(row) = row_in(rows, number) else {
        return None;
    };
    let first = first_active_of(parts.living.as_slice(), rows, row.name);
    Some(fate(number, row, first, parts.names.policies[row.name]))
}

/// The number of the first of these entries that has the name and is to be installed by its own.
fn first_active_of(numbers: &[u32], rows: &[Option<Row>], name: usize) -> Option<u32>
    ensures { result ≡ first_active_row (numbered rows.now numbers.now) name }
{
    for number in numbers {
        let Some(row) = row_in(rows, *number) else {
            continue;
        };
        if row.name == name && is_active(row) {
            return Some(*number);
        }
    }
    None
}

/// What becomes of the entries of these numbers. The policies are those of the names, by their
/// numbers. Takes memory for what it answers, and for a number for each name.
fn fates_of(
    alloc: Global,
    numbers: &[u32],
    rows: &[Option<Row>],
    policies: &[Policy],
) -> Result<Vec<(u32, Fate)>, AllocError>
    requires { NamesBelow (length policies.now) rows.now }
    ensures { IfOk result (λ fates. fates.items
        ≡ row_fates (numbered rows.now numbers.now) policies.now) }
{
    let firsts = first_active(alloc, numbers, rows, policies.len())?;
    let mut fates = Vec::with_capacity(alloc, numbers.len())?;
    for number in numbers {
        let Some(row) = row_in(rows, *number) else {
            continue;
        };
        let fate = fate_of(*number, row, firsts.as_slice(), policies);
        fates.push((*number, fate))?;
    }
    Ok(fates)
}

/// What becomes of an entry. By their numbers, names have policies, and the first entry that is to
/// be installed by its own.
fn fate_of(number: u32, row: &Row, firsts: &[Option<u32>], policies: &[Policy]) -> Fate
    requires first { row.now.name < length firsts.now }
    requires policy { row.now.name < length policies.now }
    ensures { result ≡ row_fate (policy_at policies.now row.now.name)
        (slice_index_or firsts.now row.now.name None) (number, row.now) }
{
    fate(number, row, firsts[row.name], policies[row.name])
}

/// For each of so many names the number of the first entry that has it and is to be installed by
/// its own.
fn first_active(
    alloc: Global,
    numbers: &[u32],
    rows: &[Option<Row>],
    names: usize,
) -> Result<Vec<Option<u32>>, AllocError>
    requires { NamesBelow names rows.now }
    ensures length { IfOk result (λ firsts. length firsts.items ≡ names) }
    ensures first { IfOk result (λ firsts. (name : ℕ) → name < names
        → slice_index_or firsts.items name None
        ≡ first_active_row (numbered rows.now numbers.now) name) }
{
    let mut firsts = vec![in alloc; None; names]?;
    for number in numbers {
        let Some(row) = row_in(rows, *number) else {
            continue;
        };
        note_active_row(&mut firsts, *number, row);
    }
    Ok(firsts)
}

/// Notes an entry that is to be installed by its own, where it is the first of its name.
fn note_active_row(firsts: &mut [Option<u32>], number: u32, row: &Row)
    requires { row.now.name < length firsts.old }
    ensures length { length firsts.new ≡ length firsts.old }
    ensures first { (name : ℕ) → slice_index_or firsts.new name None
        ≡ either (slice_index_or firsts.old name None)
        (first_active_row ((number, row.now) ∷ []) name) }
{
    if is_active(row) && firsts[row.name].is_none() {
        firsts[row.name] = Some(number);
    }
}

/// What becomes of an entry, where this is the first of its name that is to be installed by its
/// own.
fn fate(number: u32, row: &Row, first: Option<u32>, policy: Policy) -> Fate
    ensures { result ≡ row_fate policy first (number, row.now) }
{
    match row.verdict.standing() {
        Standing::Skipped => Fate::Skipped,
        Standing::Faulty(code) => Fate::Faulty(code),
        Standing::Active => active_fate(number, row, first, policy),
    }
}

fn active_fate(number: u32, row: &Row, first: Option<u32>, policy: Policy) -> Fate
    ensures { result ≡ active_fate number first
        (own_fate row.now.sources.conflict policy (row_source row.now policy)) }
{
    match first {
        Some(first) if first != number => Fate::Ambiguous(first),
        _ => own_fate(row, policy),
    }
}

/// What becomes of an active entry that shares its name with no earlier one.
fn own_fate(row: &Row, policy: Policy) -> Fate
    ensures { result ≡ own_fate row.now.sources.conflict policy
        (row_source row.now policy) }
{
    if row.sources.conflict {
        return Fate::Sources;
    }
    match row.source(policy) {
        Some(source) => Fate::Picked(source),
        None => Fate::NoFile(policy),
    }
}
