//! The changes of two locks, of two plans, and of two answers.

ghost use Rattle.std.specs.Prelude.{◌≡◌, ◌∷◌, [], IfOk, option_map, string_bytes};
ghost use Rattle.pylock_core.specs.Session.Steps.{answer};
ghost use Rattle.pylock_diff.specs.Changes.{answer_changes, fault_change, fault_text, item_changes};
ghost use Rattle.pylock_diff.specs.Changes.{lock_changes};
ghost use Rattle.pylock_diff.specs.Item.{pick_items};

use crate::change::{Change, ChangeKind};
use crate::compared::Compared;
use crate::head::push_head;
use crate::item::{entries_picked, entry_items, pick_items};
use crate::names::push_items;
use pylock_core::{Answer, Pick, Session, fault_word};
use pylock_shared::plain_text;
use std::alloc::{AllocError, Global};

/// What changed from one lock to another: first keys of the head, then of each name, in order of
/// code point, what changed of its entries.
pub fn lock_changes(
    alloc: Global,
    old: &Compared,
    new: &Compared,
) -> Result<Vec<Change>, AllocError>
    ensures { IfOk result (λ changes. changes.items ≡ lock_changes old.now new.now) }
{
    let mut changes = Vec::new(alloc);
    push_head(alloc, &mut changes, old.head(), new.head())?;
    let olds = entry_items(alloc, old.lock().entries(), old.entries())?;
    let news = entry_items(alloc, new.lock().entries(), new.entries())?;
    push_items(alloc, &mut changes, olds.as_slice(), news.as_slice())?;
    Ok(changes)
}

/// What changed from the answer of one session to that of another: of the picks of their plans, or
/// where one of them has a fault that alone. Changes neither.
pub fn plan_changes(alloc: Global, old: &Session, new: &Session) -> Result<Vec<Change>, AllocError>
    ensures { IfOk result (λ changes. changes.items
        ≡ answer_changes old.now.state new.now.state (answer old.now.state)
        (answer new.now.state)) }
{
    match (old.answer()?, new.answer()?) {
        (Answer::Plan(olds), Answer::Plan(news)) => {
            picks_changes(alloc, (old, olds.picks()), (new, news.picks()))
        }
        (before, after) => fault_changes(alloc, &before, &after),
    }
}

/// What changed of the picks of two plans.
fn picks_changes(
    alloc: Global,
    old: (&Session, &[Pick]),
    new: (&Session, &[Pick]),
) -> Result<Vec<Change>, AllocError>
    ensures { IfOk result (λ changes. changes.items
        ≡ item_changes (pick_items old.entry.0.now.state old.entry.1.now)
        (pick_items new.entry.0.now.state new.entry.1.now)) }
{
    let mut changes = Vec::new(alloc);
    let before = entries_picked(alloc, old.0, old.1)?;
    let after = entries_picked(alloc, new.0, new.1)?;
    let olds = pick_items(alloc, before.as_slice())?;
    let news = pick_items(alloc, after.as_slice())?;
    push_items(alloc, &mut changes, olds.as_slice(), news.as_slice())?;
    Ok(changes)
}

/// That one of the answers has a fault.
fn fault_changes(alloc: Global, old: &Answer, new: &Answer) -> Result<Vec<Change>, AllocError>
    ensures { IfOk result (λ changes. changes.items ≡ fault_change old.now new.now ∷ []) }
{
    let from = plain_text(fault_text(alloc, old)?);
    let to = plain_text(fault_text(alloc, new)?);
    let mut changes = Vec::new(alloc);
    changes.push(Change {
        kind: ChangeKind::Fault,
        name: None,
        from,
        to,
    })?;
    Ok(changes)
}

/// The number of the entry that has a fault, and the fault.
fn fault_text(alloc: Global, answer: &Answer) -> Result<Option<String>, AllocError>
    ensures { IfOk result (λ text. option_map string_bytes text ≡ fault_text answer.now) }
{
    match answer {
        Answer::Plan(_) => Ok(None),
        Answer::Fault { id, code } => {
            let mut text = format!(in alloc; "{id} ")?;
            text.push_str(fault_word(*code))?;
            Ok(Some(text))
        }
    }
}
