//! Members of JSON objects. One that is `null` is as one that isn't there.
ghost use Rattle.std.specs.Prelude.{◌≡◌, map, option_copied, option_map};
ghost use Rattle.serde_json.specs.View.{items_view, view};
ghost use Rattle.pytext.specs.Agreement.{Gives};
ghost use Rattle.pylock_advisories.specs.declared.error.AdvisoryError.TheVariants as error;
ghost use Rattle.pylock_advisories.specs.Members.{are_objects, if_list, if_text, items_in};
ghost use Rattle.pylock_advisories.specs.Members.{member_in, objects_in, read_each, text_in};
ghost use Rattle.pylock_advisories.specs.Members.{text_of, texts_in};

use crate::error::{AdvisoryError, Member};
use serde_json::Value;
use std::alloc::Global;

/// The member of this name, where it's there.
pub(super) fn member<'a>(value: &'a Value, name: &str) -> Option<&'a Value>
    ensures { option_map (λ value. view value.now) result ≡ member_in name.now (view value.now) }
{
    match value.get(name) {
        Some(value) if !value.is_null() => Some(value),
        _ => None,
    }
}

/// The text of a member, which is a text where it's there.
pub(super) fn text(value: &Value, name: Member) -> Result<Option<&str>, AdvisoryError>
    ensures { Gives error.Memory option_copied result (text_in name (view value.now)) }
{
    match member(value, name.as_str()) {
        None => Ok(None),
        Some(value) => match value.as_str() {
            Some(text) => Ok(Some(text)),
            None => Err(AdvisoryError::Member(name)),
        },
    }
}

/// The items of a member, which is a list where it's there.
fn items(value: &Value, name: Member) -> Result<&[Value], AdvisoryError>
    ensures { Gives error.Memory (λ items. items_view items.now) result
        (items_in name (view value.now)) }
{
    match member(value, name.as_str()) {
        None => Ok(&[]),
        Some(value) => match value.as_array() {
            Some(items) => Ok(items.as_slice()),
            None => Err(AdvisoryError::Member(name)),
        },
    }
}

/// The items of a member, which is a list of objects where it's there.
pub(super) fn objects(value: &Value, name: Member) -> Result<&[Value], AdvisoryError>
    ensures { Gives error.Memory (λ items. items_view items.now) result
        (objects_in name (view value.now)) }
{
    let items = items(value, name)?;
    if are_objects(items) {
        Ok(items)
    } else {
        Err(AdvisoryError::Member(name))
    }
}

fn are_objects(items: &[Value]) -> bool
    ensures { result ≡ are_objects (items_view items.now) }
{
    for item in items {
        if !item.is_object() {
            return false;
        }
    }
    true
}

/// The texts of a member, which is a list of texts where it's there.
pub(super) fn texts(alloc: Global, value: &Value, name: Member) -> Result<Vec<&str>, AdvisoryError>
    ensures { Gives error.Memory (λ v. map (λ text. text.now) v.items) result
        (texts_in name (view value.now)) }
{
    let items = items(value, name)?;
    texts_of(alloc, items, name)
}

#[tactic(auto, using(crate::proofs::PrefixLemmas::prefixes))]
fn texts_of(alloc: Global, items: &[Value], name: Member) -> Result<Vec<&str>, AdvisoryError>
    ensures { Gives error.Memory (λ v. map (λ text. text.now) v.items) result
        (read_each (text_of name) (items_view items.now)) }
{
    let mut texts = Vec::with_capacity(alloc, items.len())?;
    for item in items {
        match item.as_str() {
            Some(text) => texts.push(text)?,
            None => return Err(AdvisoryError::Member(name)),
        }
    }
    Ok(texts)
}

/// The texts of the members of this name, which are texts where they're there.
#[tactic(auto, using(crate::proofs::PrefixLemmas::prefixes))]
pub(super) fn member_texts(
    alloc: Global,
    items: &[Value],
    name: Member,
) -> Result<Vec<&str>, AdvisoryError>
    ensures { Gives error.Memory (λ v. map (λ text. text.now) v.items) result
        (read_each (text_in name) (items_view items.now)) }
{
    let mut texts = Vec::new(alloc);
    for item in items {
        if let Some(text) = text(item, name)? {
            texts.push(text)?;
        }
    }
    Ok(texts)
}
