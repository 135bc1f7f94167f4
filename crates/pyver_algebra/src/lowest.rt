//! The lowest cut that every version lies past which keeps some limits.

ghost use Rattle.std.specs.Prelude.{◌≡◌, IsTrue, option_copied};
ghost use Rattle.std.specs.List.{list_any};
ghost use Rattle.pyver_core.specs.Version.Parts.{Parts};
ghost use Rattle.pyver_algebra.specs.Limits.{Keeps, ends_before, is_past, is_past_lowest};
ghost use Rattle.pyver_algebra.specs.Limits.{lies_within};

use crate::limit::{Cut, Limit};

/// The most passes over the limits, so that many limits take time in proportion to their number.
const MOST_PASSES: usize = 64;

/// The lowest cut: each pass over the limits raises it, and there are as many passes as limits, up
/// to the most.
pub(crate) fn lowest_cut(limits: &[Limit]) -> Option<&Cut>
    ensures { (v : Parts) → Keeps limits.now v → IsTrue (is_past_lowest (option_copied result) v) }
{
    let mut lowest = None;
    for _ in 0..limits.len().min(MOST_PASSES) {
        lowest = raised(limits, lowest);
    }
    lowest
}

/// The cut after one pass over the limits.
fn raised<'a>(limits: &'a [Limit], known: Option<&'a Cut>) -> Option<&'a Cut>
    ensures { (v : Parts) → Keeps limits.now v
        → IsTrue (is_past_lowest (option_copied known.entry) v)
        → IsTrue (is_past_lowest (option_copied result) v) }
{
    let mut lowest = known;
    for limit in limits {
        lowest = raised_by(limit, lowest);
    }
    lowest
}

/// The cut after one limit.
fn raised_by<'a>(limit: &'a Limit, lowest: Option<&'a Cut>) -> Option<&'a Cut>
    ensures { (v : Parts) → IsTrue (lies_within limit.now v)
        → IsTrue (is_past_lowest (option_copied lowest.entry) v)
        → IsTrue (is_past_lowest (option_copied result) v) }
{
    match limit {
        Limit::From(cut) => Some(later(cut, lowest)),
        Limit::Until(_) => lowest,
        Limit::Outside(begin, end) => {
            if begins_before(begin, lowest) {
                Some(later(end, lowest))
            } else {
                lowest
            }
        }
    }
}

/// Whether the cut comes no later than the lowest.
fn begins_before(begin: &Cut, lowest: Option<&Cut>) -> bool
    ensures { IsTrue result → (v : Parts)
        → IsTrue (is_past_lowest (option_copied lowest.entry) v) → IsTrue (is_past begin.now v) }
{
    match lowest {
        Some(known) => begin.is_at_or_before(known),
        None => false,
    }
}

/// The later of two cuts.
fn later<'a>(cut: &'a Cut, lowest: Option<&'a Cut>) -> &'a Cut
    ensures { (v : Parts) → IsTrue (is_past cut.now v)
        → IsTrue (is_past_lowest (option_copied lowest.entry) v) → IsTrue (is_past result.now v) }
{
    match lowest {
        Some(known) if cut.is_at_or_before(known) => known,
        _ => cut,
    }
}

/// Whether one of the limits ends where the lowest cut is, or before.
pub(crate) fn any_ends_before(lowest: Option<&Cut>, limits: &[Limit]) -> bool
    ensures { result
        ≡ list_any (λ limit. ends_before (option_copied lowest.entry) limit) limits.now }
{
    limits.iter().any(|limit| ends_before(lowest, limit))
}

fn ends_before(lowest: Option<&Cut>, limit: &Limit) -> bool
    ensures { result ≡ ends_before (option_copied lowest.entry) limit.now }
{
    match (lowest, limit) {
        (Some(lowest), Limit::Until(cut)) => cut.is_at_or_before(lowest),
        _ => false,
    }
}
