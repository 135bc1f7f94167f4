//! Advisories from JSON.
ghost use Rattle.std.specs.Prelude.{◌≡◌, IfOk, map};
ghost use Rattle.serde_json.specs.View.{view};
ghost use Rattle.pytext.specs.Agreement.{Gives};
ghost use Rattle.pylock_advisories.specs.declared.error.AdvisoryError.TheVariants as error;
ghost use Rattle.pylock_advisories.specs.Reading.{advisory_in, id_in, members_of};

use super::affected::read_elements;
use super::member::{member, objects, text, texts};
use crate::advisory::Advisory;
use crate::error::{AdvisoryError, Member};
use pytext::Text;
use serde_json::Value;
use std::alloc::{AllocError, Global};

/// The advisory that the value is.
pub(super) fn read_advisory(alloc: Global, value: &Value) -> Result<Advisory, AdvisoryError>
    ensures { Gives error.Memory (λ advisory. advisory) result (advisory_in (view value.now)) }
{
    if !value.is_object() {
        return Err(AdvisoryError::Object);
    }
    read_members(alloc, value)
}

#[tactic(auto, unfolding(crate::specs::Reading::members_of))]
fn read_members(alloc: Global, value: &Value) -> Result<Advisory, AdvisoryError>
    ensures { Gives error.Memory (λ advisory. advisory) result (members_of (view value.now)) }
{
    let id = id(value)?;
    let aliases = texts(alloc, value, Member::Aliases)?;
    let values = objects(value, Member::Affected)?;
    let affected = read_elements(alloc, values)?;
    let is_withdrawn = member(value, "withdrawn").is_some();
    let id = Text::copy_of(alloc, id)?;
    let aliases = copies(alloc, &aliases)?;
    Ok(Advisory::new(id, aliases, is_withdrawn, affected))
}

/// The id, which has to be there.
fn id(value: &Value) -> Result<&str, AdvisoryError>
    ensures { Gives error.Memory (λ id. id.now) result (id_in (view value.now)) }
{
    match text(value, Member::Id)? {
        Some(id) => Ok(id),
        None => Err(AdvisoryError::Member(Member::Id)),
    }
}

fn copies(alloc: Global, texts: &[&str]) -> Result<Vec<Text>, AllocError>
    ensures { IfOk result (λ copies. copies.items ≡ map (λ text. text.now) texts.now) }
{
    let mut copies = Vec::with_capacity(alloc, texts.len())?;
    for text in texts {
        copies.push(Text::copy_of(alloc, text)?)?;
    }
    Ok(copies)
}
