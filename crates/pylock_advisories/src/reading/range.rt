//! Ranges from JSON.
ghost use Rattle.std.specs.Prelude.{◌≡◌, option_copied};
ghost use Rattle.serde_json.specs.View.{items_view, view};
ghost use Rattle.pytext.specs.Agreement.{Gives};
ghost use Rattle.pylock_advisories.specs.declared.error.AdvisoryError.TheVariants as error;
ghost use Rattle.pylock_advisories.specs.Members.{read_each};
ghost use Rattle.pylock_advisories.specs.Reading.{has_versions, range_in};

use super::member::{member_texts, objects, text};
use crate::error::{AdvisoryError, Member};
use crate::range::Range;
use serde_json::Value;
use std::alloc::Global;

/// The ranges among these values whose events are versions.
#[tactic(auto, using(crate::proofs::PrefixLemmas::prefixes))]
pub(super) fn read_ranges(alloc: Global, values: &[Value]) -> Result<Vec<Range>, AdvisoryError>
    ensures { Gives error.Memory (λ ranges. ranges.items) result
        (read_each range_in (items_view values.now)) }
{
    let mut ranges = Vec::new(alloc);
    for value in values {
        if let Some(range) = read_range(alloc, value)? {
            ranges.push(range)?;
        }
    }
    Ok(ranges)
}

/// The range, if its events are versions.
#[tactic(auto, unfolding(crate::specs::Reading::range_in))]
fn read_range(alloc: Global, value: &Value) -> Result<Option<Range>, AdvisoryError>
    ensures { Gives error.Memory (λ range. range) result (range_in (view value.now)) }
{
    let kind = text(value, Member::Type)?;
    let events = objects(value, Member::Events)?;
    let introduced = member_texts(alloc, events, Member::Introduced)?;
    let fixed = member_texts(alloc, events, Member::Fixed)?;
    let last_affected = member_texts(alloc, events, Member::LastAffected)?;
    let limits = member_texts(alloc, events, Member::Limit)?;
    if !has_versions(kind) {
        return Ok(None);
    }
    let range = Range::new(alloc, &introduced, &fixed, &last_affected, &limits)?;
    Ok(Some(range))
}

/// Whether a range of this type has versions as its events.
fn has_versions(kind: Option<&str>) -> bool
    ensures { result ≡ has_versions (option_copied kind.entry) }
{
    match kind {
        Some(kind) => kind == "ECOSYSTEM" || kind == "SEMVER",
        None => false,
    }
}
