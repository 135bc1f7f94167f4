//! Markers that have no value in a lock, since `extra` has no text there.

ghost use Rattle.std.specs.Prelude.{◌≡◌, IfOk, IsTrue};
ghost use Rattle.std.specs.List.{list_any};
ghost use Rattle.pymark_core.specs.Environment.{EnvironmentValue};
ghost use Rattle.pymark_core.specs.Marker.Asked.{comparison_reads_extra};
ghost use Rattle.pymark_algebra.specs.Questions.{AllHave, IsValueless};

use crate::answer::Condition;
use pymark_core::{Comparison, Marker};
use std::alloc::{AllocError, Global};

/// Whether one of the markers has no value.
pub(crate) fn is_one_valueless(
    alloc: Global,
    conditions: &[Condition<'_>],
) -> Result<bool, AllocError>
    ensures { IfOk result (λ is. IsTrue is
        → (environment : EnvironmentValue) → AllHave environment conditions.now → ⊥) }
{
    for condition in conditions {
        if is_valueless(alloc, condition.marker)? {
            return Ok(true);
        }
    }
    Ok(false)
}

/// Whether the marker has no value.
fn is_valueless(alloc: Global, marker: &Marker) -> Result<bool, AllocError>
    ensures { IfOk result (λ is. IsTrue is → IsValueless marker.now.tree) }
{
    let comparisons = marker.comparisons(alloc)?;
    Ok(have_extra(&comparisons))
}

fn have_extra(comparisons: &[&Comparison]) -> bool
    ensures { result ≡ list_any (λ c. comparison_reads_extra c.now) comparisons.now }
{
    comparisons.iter().any(|comparison| comparison.has_extra())
}
