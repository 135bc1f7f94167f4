//! What is told of each name.

ghost use Rattle.std.specs.Prelude.{◌≡◌, ◌++◌, ◌⊎◌, [], OnOk, map};
ghost use Rattle.pylock_compare.specs.Lent.{told_under};
ghost use Rattle.pylock_diff.specs.Changes.{item_changes, name_changes, row_changes};
ghost use Rattle.pylock_diff.specs.Changes.{shared_changes};
ghost use Rattle.pylock_diff.specs.Inner.Lent.{item_row, lent_item, lent_items};

use crate::change::{Change, ChangeKind, push_change};
use crate::conditions::push_condition_change;
use crate::files::push_file_changes;
use crate::item::{Item, Keyed, with_keys};
use crate::keys::push_keys;
use crate::partners::{have_same_keys, without_partners};
use crate::versions::{push_version_change, versions_text};
use pylock_compare::Sides;
use pylock_shared::SharedText;
use pylock_shown::hidden;
use std::alloc::{AllocError, Global};

/// Adds what changed of items, each under its name.
pub(crate) fn push_items<'a>(
    alloc: Global,
    changes: &mut Vec<Change>,
    olds: &[(&'a str, Item<'a>)],
    news: &[(&'a str, Item<'a>)],
) -> Result<(), AllocError>
    ensures { OnOk result (changes.new.items ≡ changes.old.items
        ++ item_changes (map item_row olds.now) (map item_row news.now)) }
{
    let sides = Sides::new(alloc, olds, news)?;
    push_names(alloc, changes, &sides)?;
    Ok(())
}

fn push_names<'a>(
    alloc: Global,
    changes: &mut Vec<Change>,
    sides: &Sides<'a, Item<'a>>,
) -> Result<(), AllocError>
    ensures { OnOk result (changes.new.items
        ≡ changes.old.items ++ told_under lent_item name_changes sides.now) }
{
    for name in &sides.names {
        push_name(
            alloc,
            changes,
            name,
            sides.old(name),
            sides.new_values(name),
        )?;
    }
    Ok(())
}

/// Adds what changed of a name.
fn push_name<'a>(
    alloc: Global,
    changes: &mut Vec<Change>,
    name: &str,
    olds: &[Item<'a>],
    news: &[Item<'a>],
) -> Result<(), AllocError>
    ensures { OnOk result (changes.new.items ≡ changes.old.items
        ++ name_changes name.now (lent_items olds.now) (lent_items news.now)) }
{
    if olds.is_empty() || news.is_empty() {
        return push_lone(alloc, changes, name, olds, news);
    }
    if have_same_keys(olds, news) {
        return Ok(());
    }
    let name = SharedText::new(alloc, hidden(alloc, name)?)?;
    push_shared(alloc, changes, &name, olds, news)
}

/// Adds that a name came or went, where one has no item of it.
fn push_lone<'a>(
    alloc: Global,
    changes: &mut Vec<Change>,
    name: &str,
    olds: &[Item<'a>],
    news: &[Item<'a>],
) -> Result<(), AllocError>
    ensures { OnOk result ((lent_items olds.now ≡ []) ⊎ (lent_items news.now ≡ [])
        → changes.new.items ≡ changes.old.items
        ++ name_changes name.now (lent_items olds.now) (lent_items news.now)) }
{
    let from = versions_text(alloc, with_keys(alloc, olds)?.as_slice())?;
    let to = versions_text(alloc, with_keys(alloc, news)?.as_slice())?;
    if olds.is_empty() && news.is_empty() {
        return Ok(());
    }
    let name = SharedText::new(alloc, hidden(alloc, name)?)?;
    if olds.is_empty() {
        push_change(changes, ChangeKind::Added, &name, from, to)
    } else {
        push_change(changes, ChangeKind::Removed, &name, from, to)
    }
}

/// Adds what changed of a name that both have, of the items that have no partner: what the rows
/// tell of them, and then the keys of which they don't.
fn push_shared<'a>(
    alloc: Global,
    changes: &mut Vec<Change>,
    name: &SharedText,
    olds: &[Item<'a>],
    news: &[Item<'a>],
) -> Result<(), AllocError>
    ensures { OnOk result (changes.new.items ≡ changes.old.items
        ++ shared_changes name.now (lent_items olds.now) (lent_items news.now)) }
{
    let old_rest = without_partners(alloc, olds, news)?;
    let new_rest = without_partners(alloc, news, olds)?;
    let olds = with_keys(alloc, old_rest.as_slice())?;
    let news = with_keys(alloc, new_rest.as_slice())?;
    let items = (olds.as_slice(), news.as_slice());
    let mut told = Vec::new(alloc);
    push_rows(alloc, &mut told, name, items.0, items.1)?;
    let mut keys = Vec::new(alloc);
    push_keys(alloc, &mut keys, name, told.as_slice(), items, false)?;
    changes.append(&mut told)?;
    changes.append(&mut keys)
}

/// Adds what the rows tell.
fn push_rows<'a>(
    alloc: Global,
    changes: &mut Vec<Change>,
    name: &SharedText,
    olds: &[Keyed<'a>],
    news: &[Keyed<'a>],
) -> Result<(), AllocError>
    ensures { OnOk result (changes.new.items
        ≡ changes.old.items ++ row_changes name.now olds.now news.now) }
{
    push_version_change(alloc, changes, name, olds, news)?;
    push_file_changes(alloc, changes, name, olds, news)?;
    push_condition_change(alloc, changes, name, olds, news)?;
    push_keys(alloc, changes, name, &[], (olds, news), true)
}
