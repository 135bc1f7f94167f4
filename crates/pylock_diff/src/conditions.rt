//! On which machines the entries of a name are installed.

ghost use Rattle.std.specs.Prelude.{◌≡◌, ◌++◌, IfOk, OnOk, map};
ghost use Rattle.std.specs.Option.{option_copied};
ghost use Rattle.pylock_diff.specs.Conditions.{are_same, condition_changes, conditions};

use crate::change::{Change, ChangeKind, push_change};
use crate::item::Keyed;
use crate::texts::shown_texts;
use pylock_shared::SharedText;
use std::alloc::{AllocError, Global};

/// The markers, and then the sets of Pythons.
fn conditions<'a>(alloc: Global, items: &[Keyed<'a>]) -> Result<Vec<Option<&'a str>>, AllocError>
    ensures { IfOk result (λ list. map option_copied list.items ≡ conditions items.now) }
{
    let mut list = Vec::with_capacity(alloc, items.len())?;
    for item in items {
        list.push(item.item().marker())?;
    }
    for item in items {
        list.push(item.item().pythons())?;
    }
    Ok(list)
}

fn are_same<'x>(olds: &[Option<&'x str>], news: &[Option<&'x str>]) -> bool
    ensures { result ≡ are_same (map option_copied olds.now) (map option_copied news.now) }
{
    olds == news
}

/// Adds that the markers or the sets of Pythons differ, where they do.
pub(crate) fn push_condition_change(
    alloc: Global,
    changes: &mut Vec<Change>,
    name: &SharedText,
    olds: &[Keyed<'_>],
    news: &[Keyed<'_>],
) -> Result<(), AllocError>
    ensures { OnOk result (changes.new.items
        ≡ changes.old.items ++ condition_changes name.now olds.now news.now) }
{
    let old = conditions(alloc, olds)?;
    let new = conditions(alloc, news)?;
    if are_same(old.as_slice(), new.as_slice()) {
        return Ok(());
    }
    let from = shown_texts(alloc, " | ", old.as_slice())?;
    let to = shown_texts(alloc, " | ", new.as_slice())?;
    push_change(changes, ChangeKind::Condition, name, from, to)
}
