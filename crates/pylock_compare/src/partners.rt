//! Partners: keys that are alike in two lists, one to one.

ghost use Rattle.std.specs.Prelude.{◌≡◌, ◌-◌, IfOk, OnOk, nat_lt, if◌then◌else◌};
ghost use Rattle.pylock_compare.specs.Counts.{Counts, count_in};
ghost use Rattle.pylock_compare.specs.Partners.{are_alone};
ghost use Rattle.pylock_compare.specs.Texts.{Texts, are_alike};

use crate::key::Key;
use std::alloc::{AllocError, Global};
use std::collections::BTreeMap;

/// Of each key whether it has no partner among the others: one that is like it, and the partner of
/// no key before it.
///
/// It takes memory for a table of the others. The work is that of so many look-ups in it, each of
/// which reads no more of a key than its own length.
pub fn are_alone<'x>(
    alloc: Global,
    keys: Vec<Key<'x>>,
    others: Vec<Key<'x>>,
) -> Result<Vec<bool>, AllocError>
    ensures { IfOk result (λ alone. alone.items ≡ are_alone keys.entry.items others.entry.items) }
{
    let mut left = counts(alloc, others)?;
    let mut alone = Vec::with_capacity(alloc, keys.len())?;
    for key in keys {
        let taken = take_one(&mut left, key)?;
        alone.push(!taken)?;
    }
    Ok(alone)
}

/// How often each key stands.
fn counts<'x>(alloc: Global, keys: Vec<Key<'x>>) -> Result<BTreeMap<Key<'x>, usize>, AllocError>
    ensures { IfOk result (λ table. Counts table keys.entry.items) }
{
    let mut table: BTreeMap<Key<'x>, usize> = BTreeMap::new(alloc);
    for key in keys {
        let count = table.get(&key).copied().unwrap_or(0);
        table.insert(key, count + 1)?;
    }
    Ok(table)
}

/// Takes one key of the table, where one is left.
fn take_one<'x>(left: &mut BTreeMap<Key<'x>, usize>, key: Key<'x>) -> Result<bool, AllocError>
    ensures taken { IfOk result (λ taken. taken ≡ nat_lt 0 (count_in left.old key.entry)) }
    ensures left { OnOk result ((k : Texts) → count_in left.new k
        ≡ count_in left.old k - (if are_alike key.entry k then 1 else 0)) }
{
    let count = left.get(&key).copied().unwrap_or(0);
    if count == 0 {
        return Ok(false);
    }
    left.insert(key, count - 1)?;
    Ok(true)
}
