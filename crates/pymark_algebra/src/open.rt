//! The clauses of markers, and which of them stay open.

ghost use Rattle.std.specs.Prelude.{◌≡◌, ◌<◌, None, IfOk, IfSome, IsTrue, length};
ghost use Rattle.pymark_core.specs.Environment.{EnvironmentValue};
ghost use Rattle.pymark_clauses.specs.Clauses.{SomeHolds};
ghost use Rattle.pymark_algebra.specs.Questions.{AllHave};
ghost use Rattle.pymark_algebra.specs.Refuted.{AreRefutedUnder, IsRefutedUnder};

use crate::answer::{Condition, PythonCondition};
use crate::{names, opposites, platforms, python, texts};
use pymark_clauses::{Clause, Literal, both, clauses_of};
use std::alloc::{AllocError, Global};

/// The most clauses. Markers with more are not decided.
const MOST_CLAUSES: usize = 4096;

/// The most literals of all clauses together, which bounds the clauses of markers that have more
/// than 32 comparisons.
const MOST_LITERALS: usize = 131_072;

/// The clauses of which one holds wherever each marker has the value that is wanted of it; none
/// where there would be too many.
pub(crate) fn all_clauses<'a>(
    alloc: Global,
    conditions: &[Condition<'a>],
) -> Result<Option<Vec<Clause<'a>>>, AllocError>
    ensures { IfOk result (λ found. IfSome found (λ clauses. (environment : EnvironmentValue)
        → AllHave environment conditions.now → SomeHolds environment clauses.items)) }
{
    let most = most_clauses(alloc, conditions)?;
    let mut clauses = Vec::new(alloc);
    clauses.push(Vec::new(alloc))?;
    for condition in conditions {
        let Some(more) = clauses_of(alloc, condition.marker, condition.wanted, most)? else {
            return Ok(None);
        };
        let Some(joined) = both(alloc, &clauses, &more, most)? else {
            return Ok(None);
        };
        clauses = joined;
    }
    Ok(Some(clauses))
}

/// The most clauses of markers with so many comparisons, none of which is twice in a clause.
fn most_clauses(alloc: Global, conditions: &[Condition<'_>]) -> Result<usize, AllocError> {
    let mut comparisons = 0usize;
    for condition in conditions {
        comparisons = comparisons.saturating_add(condition.marker.comparisons(alloc)?.len());
    }
    Ok(
        MOST_LITERALS
            .checked_div(comparisons)
            .unwrap_or(MOST_CLAUSES)
            .min(MOST_CLAUSES),
    )
}

/// The index of the first clause that isn't refuted.
pub(crate) fn first_open(
    alloc: Global,
    pythons: &[PythonCondition<'_>],
    clauses: &[Clause<'_>],
) -> Result<Option<usize>, AllocError>
    ensures none { IfOk result (λ first. first ≡ None → AreRefutedUnder pythons.now clauses.now) }
    ensures within { IfOk result (λ first. IfSome first (λ index. index < length clauses.now)) }
{
    for (index, clause) in clauses.iter().enumerate() {
        if !is_refuted(alloc, pythons, clause)? {
            return Ok(Some(index));
        }
    }
    Ok(None)
}

/// Whether in no coherent environment in which the specifiers say what is wanted of them all
/// literals hold.
pub(crate) fn is_refuted(
    alloc: Global,
    pythons: &[PythonCondition<'_>],
    clause: &[Literal<'_>],
) -> Result<bool, AllocError>
    ensures { IfOk result (λ is. IsTrue is → IsRefutedUnder pythons.now clause.now) }
{
    if names::is_refuted(clause) {
        return Ok(true);
    }
    if opposites::is_refuted(clause) {
        return Ok(true);
    }
    if python::is_refuted(alloc, pythons, clause)? {
        return Ok(true);
    }
    if platforms::is_refuted(alloc, clause)? {
        return Ok(true);
    }
    texts::is_refuted(alloc, clause)
}
