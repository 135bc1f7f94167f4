//! Partners: entries of a name that are alike in both locks in all keys drop out first.

ghost use Rattle.std.specs.Prelude.{◌≡◌, IfOk, IsTrue, map};
ghost use Rattle.pylock_compare.specs.Partners.{where_true};
ghost use Rattle.pylock_diff.specs.Codes.{code_row};
ghost use Rattle.pylock_diff.specs.Inner.Lent.{lent_items};
ghost use Rattle.pylock_diff.specs.Partners.{item_key, row_texts, without_partners};

use crate::codes::Codes;
use crate::item::Item;
use pylock_compare::{Key, are_alone};
use std::alloc::{AllocError, Global};

/// Whether the items have the same keys, one by one, as nearly each has of two locks that follow
/// one another: then each has a partner. It takes no memory.
pub(crate) fn have_same_keys(olds: &[Item<'_>], news: &[Item<'_>]) -> bool
    ensures { IsTrue result
        → map item_key (lent_items olds.now) ≡ map item_key (lent_items news.now) }
{
    if olds.len() != news.len() {
        return false;
    }
    for (place, old) in olds.iter().enumerate() {
        let Some(new) = news.get(place) else {
            return false;
        };
        if !are_same_codes(&old.codes.keys, &new.codes.keys) {
            return false;
        }
    }
    true
}

#[tactic(auto, using(crate::proofs::TextLemmas::same_codes))]
fn are_same_codes(old: &Codes, new: &Codes) -> bool
    ensures { IsTrue result → old.now ≡ new.now }
{
    old.rows() == new.rows()
}

/// The items that have no partner among the others.
pub(crate) fn without_partners<'a>(
    alloc: Global,
    items: &[Item<'a>],
    others: &[Item<'a>],
) -> Result<Vec<Item<'a>>, AllocError>
    ensures { IfOk result (λ list. lent_items list.items
        ≡ without_partners (lent_items items.now) (lent_items others.now)) }
{
    let alone = are_alone(alloc, keys_of(alloc, items)?, keys_of(alloc, others)?)?;
    where_true(alloc, alone.as_slice(), items)
}

/// The items at whose places it is true.
fn where_true<'a>(
    alloc: Global,
    flags: &[bool],
    items: &[Item<'a>],
) -> Result<Vec<Item<'a>>, AllocError>
    ensures { IfOk result (λ list. list.items ≡ where_true flags.now items.now) }
{
    let mut list = Vec::new(alloc);
    let mut left = items;
    for flag in flags {
        let [item, rest @ ..] = left else {
            return Ok(list);
        };
        if *flag {
            list.push(*item)?;
        }
        left = rest;
    }
    Ok(list)
}

/// The keys of each item with their codes.
fn keys_of<'a>(alloc: Global, items: &[Item<'a>]) -> Result<Vec<Key<'a>>, AllocError>
    ensures { IfOk result (λ keys. keys.items ≡ map item_key (lent_items items.now)) }
{
    let mut keys = Vec::with_capacity(alloc, items.len())?;
    for item in items {
        keys.push(key_of(alloc, item.codes.keys.rows())?)?;
    }
    Ok(keys)
}

fn key_of<'a>(alloc: Global, rows: &'a [(String, Vec<u8>)]) -> Result<Key<'a>, AllocError>
    ensures { IfOk result (λ key. key ≡ row_texts (map code_row rows.now)) }
{
    let mut key = Key::new(alloc);
    for (name, code) in rows {
        key.push(Some(name.as_bytes()))?;
        key.push(Some(code.as_slice()))?;
    }
    Ok(key)
}
