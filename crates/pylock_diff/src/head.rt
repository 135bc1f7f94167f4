//! The head of a lock, key by key.

ghost use Rattle.std.specs.Prelude.{◌≡◌, ◌++◌, IfOk, OnOk, filter, map, not};
ghost use Rattle.std.specs.Prelude.{option_map, string_bytes};
ghost use Rattle.std.specs.Option.{option_copied};
ghost use Rattle.toml.specs.Data.{array};
ghost use Rattle.toml.specs.View.{items_view, table_view, view};
ghost use Rattle.pylock_compare.specs.Lent.{each_told, lent_texts};
ghost use Rattle.pylock_diff.specs.Compared.{head_of, is_head_key};
ghost use Rattle.pylock_diff.specs.Head.{head_changes, head_key, head_rows, head_told};
ghost use Rattle.pylock_diff.specs.Head.{have_same_value, is_list_key, item_text, key_change};
ghost use Rattle.pylock_diff.specs.Head.{list_text};
ghost use Rattle.pylock_diff.specs.Inner.Kept.{HasProperHead};
ghost use Rattle.pylock_diff.specs.Inner.Lent.{key_row};
ghost use Rattle.pytoml_code.specs.Proper.{IsProper};

use crate::change::{Change, ChangeKind, push_change};
use pylock_compare::Sides;
use pylock_shared::SharedText;
use pylock_shown::{hidden, push_hidden};
use pytoml_code::{push_code, shown_code};
use std::alloc::{AllocError, Global};
use std::marker::Model;
use toml::{Table, Value};

/// A key of the head: the code of its value, and how it is shown. Contracts see the three.
pub(crate) struct HeadKey {
    key: String,
    code: Vec<u8>,
    text: String,
}

impl Model for HeadKey {
    ghost use Rattle.std.specs.Prelude.{string_bytes};
    ghost use Rattle.pylock_diff.specs.Head.{HeadKey as HeadKeyValue};

    ghost Value = { HeadKeyValue };

    ghost view = { λ h. record {
      key = string_bytes h.key;
      code = h.code.items;
      text = string_bytes h.text;
    } };
}

impl Drop for HeadKey {
    fn drop(self) {
        let HeadKey {
            key: _,
            code: _,
            text: _,
        } = self;
    }
}

/// The keys of the head of a document, but `packages`, in order.
pub(crate) fn head_keys(alloc: Global, document: &Table) -> Result<Vec<HeadKey>, AllocError>
    ensures keys { IfOk result (λ keys. keys.items ≡ head_of (table_view document.now)) }
    ensures proper { OnOk result (HasProperHead (table_view document.now)) }
{
    let mut keys = Vec::new(alloc);
    for (key, value) in document.iter() {
        if is_compared(key.as_str()) {
            keys.push(head_key(alloc, key.as_str(), value)?)?;
        }
    }
    Ok(keys)
}

/// Whether a key of the document is compared as one of the head.
fn is_compared(key: &str) -> bool
    ensures { result ≡ is_head_key key.now }
{
    !matches!(key, "packages" | "created-by")
}

fn head_key(alloc: Global, key: &str, value: &Value) -> Result<HeadKey, AllocError>
    ensures key { IfOk result (λ one. one ≡ head_key key.now (view value.now)) }
    ensures proper { OnOk result (IsProper (view value.now)) }
{
    let mut code = Vec::new(alloc);
    push_code(&mut code, value)?;
    let text = if is_list_key(key) {
        list_text(alloc, value)?
    } else {
        shown_code(alloc, code.as_slice())?
    };
    let key = String::from_str(alloc, key)?;
    Ok(HeadKey { key, code, text })
}

/// The keys of which the texts are shown, in the order in which they are told.
const LISTS: [&str; 5] = [
    "requires-python",
    "environments",
    "extras",
    "dependency-groups",
    "default-groups",
];

fn is_list_key(key: &str) -> bool
    ensures { result ≡ is_list_key key.now }
{
    matches!(
        key,
        "requires-python" | "environments" | "extras" | "dependency-groups" | "default-groups"
    )
}

/// A text as it is shown, a list of texts joined by `,`, and `[]` where it is empty.
fn list_text(alloc: Global, value: &Value) -> Result<String, AllocError>
    ensures { IfOk result (λ text. string_bytes text ≡ list_text (view value.now)) }
{
    let mut text = String::new(alloc);
    match value {
        Value::Array(items) => push_items(&mut text, items.as_slice())?,
        _ => push_item(&mut text, value)?,
    }
    Ok(text)
}

fn push_items(text: &mut String, items: &[Value]) -> Result<(), AllocError>
    ensures { OnOk result (string_bytes text.new
        ≡ string_bytes text.old ++ list_text (array (items_view items.now))) }
{
    let [first, others @ ..] = items else {
        return text.push_str("[]");
    };
    push_item(text, first)?;
    for item in others {
        text.push_str(",")?;
        push_item(text, item)?;
    }
    Ok(())
}

/// Adds a text as it is shown, and nothing of another value.
fn push_item(text: &mut String, item: &Value) -> Result<(), AllocError>
    ensures { OnOk result (string_bytes text.new
        ≡ string_bytes text.old ++ item_text (view item.now)) }
{
    match item {
        Value::String(one) => push_hidden(text, one.as_str()),
        _ => Ok(()),
    }
}

/// Adds a line for each key of the head that isn't alike: first those of which lists are shown.
pub(crate) fn push_head(
    alloc: Global,
    changes: &mut Vec<Change>,
    old: &[HeadKey],
    new: &[HeadKey],
) -> Result<(), AllocError>
    ensures { OnOk result (changes.new.items
        ≡ changes.old.items ++ head_changes old.now new.now) }
{
    let olds = head_rows(alloc, old)?;
    let news = head_rows(alloc, new)?;
    let sides = Sides::new(alloc, olds.as_slice(), news.as_slice())?;
    push_keys(alloc, changes, &sides, LISTS.as_slice())?;
    let others = other_keys(alloc, sides.names.as_slice())?;
    push_keys(alloc, changes, &sides, others.as_slice())?;
    Ok(())
}

/// The keys under their names.
fn head_rows<'a>(
    alloc: Global,
    keys: &'a [HeadKey],
) -> Result<Vec<(&'a str, &'a HeadKey)>, AllocError>
    ensures { IfOk result (λ rows. map key_row rows.items ≡ head_rows keys.now) }
{
    let mut rows = Vec::with_capacity(alloc, keys.len())?;
    for key in keys {
        rows.push((key.key.as_str(), key))?;
    }
    Ok(rows)
}

/// Those of which no list is shown.
fn other_keys<'a>(alloc: Global, keys: &[&'a str]) -> Result<Vec<&'a str>, AllocError>
    ensures { IfOk result (λ others. lent_texts others.items
        ≡ filter (λ key. not (is_list_key key)) (lent_texts keys.now)) }
{
    let mut others = Vec::new(alloc);
    for key in keys {
        if !is_list_key(key) {
            others.push(*key)?;
        }
    }
    Ok(others)
}

fn push_keys(
    alloc: Global,
    changes: &mut Vec<Change>,
    sides: &Sides<'_, &HeadKey>,
    keys: &[&str],
) -> Result<(), AllocError>
    ensures { OnOk result (changes.new.items
        ≡ changes.old.items ++ each_told (λ key. key.now) head_told sides.now keys.now) }
{
    for key in keys {
        let old = sides.old(key).first();
        let new = sides.new_values(key).first();
        push_key(alloc, changes, key, old.copied(), new.copied())?;
    }
    Ok(())
}

/// Adds that a key differs, where it does.
fn push_key(
    alloc: Global,
    changes: &mut Vec<Change>,
    key: &str,
    old: Option<&HeadKey>,
    new: Option<&HeadKey>,
) -> Result<(), AllocError>
    ensures { OnOk result (changes.new.items ≡ changes.old.items
        ++ key_change key.now (option_copied old.entry) (option_copied new.entry)) }
{
    if are_same(old, new) {
        return Ok(());
    }
    let from = text_of(alloc, old)?;
    let to = text_of(alloc, new)?;
    let key = SharedText::new(alloc, hidden(alloc, key)?)?;
    push_change(changes, ChangeKind::Head, &key, from, to)
}

fn are_same(old: Option<&HeadKey>, new: Option<&HeadKey>) -> bool
    ensures { result ≡ have_same_value (option_copied old.entry) (option_copied new.entry) }
{
    match (old, new) {
        (Some(old), Some(new)) => old.code.as_slice() == new.code.as_slice(),
        (None, None) => true,
        (Some(_), None) | (None, Some(_)) => false,
    }
}

fn text_of(alloc: Global, key: Option<&HeadKey>) -> Result<Option<String>, AllocError>
    ensures { IfOk result (λ text. option_map string_bytes text
        ≡ option_map (λ one. one.text) (option_copied key.entry)) }
{
    match key {
        Some(key) => Ok(Some(key.text.clone()?)),
        None => Ok(None),
    }
}
