//! The document of what a lock says of itself.

ghost use Rattle.std.specs.Prelude.{◌≡◌, IfOk, OnOk, map};
ghost use Rattle.serde_json.specs.Data.{string};
ghost use Rattle.serde_json.specs.View.{members_view, view as data_of};
ghost use Rattle.pylock_json.specs.Json.{members_of, with_row};
ghost use Rattle.pylock_summary.specs.Document.{fact_row, summary_rows};

use crate::fact::{Fact, Told};
use pylock_json::{List, Object};
use pytext::Text;
use std::alloc::{AllocError, Global};

/// The document of facts: a member for each, under its key. A text that is absent is left out. It
/// takes memory for the object.
pub fn summary_document(alloc: Global, facts: &[Fact]) -> Result<Object, AllocError>
    ensures { IfOk result (λ object. members_view object ≡ members_of (summary_rows facts.now)) }
{
    let mut object = Object::new(alloc);
    for fact in facts {
        put_fact(alloc, &mut object, fact)?;
    }
    Ok(object)
}

/// Puts the member of a fact.
fn put_fact(alloc: Global, object: &mut Object, fact: &Fact) -> Result<(), AllocError>
    ensures { OnOk result (members_view object.new
        ≡ with_row (fact_row fact.now) (members_view object.old)) }
{
    match fact.told() {
        Told::Text(text) => {
            object.put_maybe(alloc, fact.key(), text.as_ref().map(|text| text.as_str()))
        }
        Told::Texts(texts) => {
            let list = texts_list(alloc, texts)?;
            object.put(alloc, fact.key(), list.into_json())
        }
        Told::Number(number) => object.put_number(alloc, fact.key(), *number as u64),
    }
}

fn texts_list(alloc: Global, texts: &[Text]) -> Result<List, AllocError>
    ensures { IfOk result (λ list. map data_of list ≡ map string texts.now) }
{
    let mut list = List::new(alloc);
    for text in texts {
        list.push_text(alloc, text.as_str())?;
    }
    Ok(list)
}
