//! Questions about specifier sets, asked of every version.

ghost use Rattle.std.specs.Prelude.{IfOk, IsTrue};
ghost use Rattle.pyver_core.specs.Set.Admission.{admits, admits_all};
ghost use Rattle.pyver_core.specs.Version.Parts.{Parts};
ghost use Rattle.pyver_algebra.specs.Sets.{HaveNothingInCommon, IsEmpty, LiesIn, Says};

use crate::alike::is_among;
use crate::bounds::Bounds;
use crate::witness::Quest;
use pyver_core::{Specifier, SpecifierSet, Version};
use std::alloc::{AllocError, Global};

/// The most specifiers of a set that is to lie in another one, and of that one.
const MOST_COMPARED: usize = 64;

/// The answer to a question about every version.
#[derive(Drop)]
pub enum Answer {
    /// It is so of every version.
    Yes,
    /// It isn't so, as this version shows.
    No(Version),
    /// It was not decided.
    Undecided,
}

/// Whether the set admits no version. `No` has a version that it admits.
///
/// It takes memory for limits and for versions that are tried.
pub fn is_unsatisfiable(alloc: Global, set: &SpecifierSet) -> Result<Answer, AllocError>
    ensures { IfOk result (λ answer. Says answer (IsEmpty set.now)
        (λ v. IsTrue (admits_all set.now v))) }
{
    let mut bounds = Bounds::new(alloc);
    bounds.add_all(alloc, set.items())?;
    if bounds.are_empty() {
        return Ok(Answer::Yes);
    }
    let quest = Quest {
        first: set,
        second: set,
        wanted: true,
    };
    match quest.version(alloc)? {
        Some(version) => Ok(Answer::No(version)),
        None => Ok(Answer::Undecided),
    }
}

/// Whether no version is admitted by both sets. `No` has a version that both admit.
///
/// It takes memory for limits and for versions that are tried.
pub fn is_disjoint(alloc: Global, a: &SpecifierSet, b: &SpecifierSet) -> Result<Answer, AllocError>
    ensures { IfOk result (λ answer. Says answer (HaveNothingInCommon a.now b.now)
        (λ v. IsTrue (admits_all a.now v) × IsTrue (admits_all b.now v))) }
{
    let mut bounds = Bounds::new(alloc);
    bounds.add_all(alloc, a.items())?;
    bounds.add_all(alloc, b.items())?;
    if bounds.are_empty() {
        return Ok(Answer::Yes);
    }
    let quest = Quest {
        first: a,
        second: b,
        wanted: true,
    };
    match quest.version(alloc)? {
        Some(version) => Ok(Answer::No(version)),
        None => Ok(Answer::Undecided),
    }
}

/// Whether the second set admits each version that the first one does. `No` has a version that the
/// first one alone admits. Where one of the sets has more than 64 specifiers, it isn't `Yes`.
///
/// It takes memory for limits and for versions that are tried.
pub fn is_subset(alloc: Global, a: &SpecifierSet, b: &SpecifierSet) -> Result<Answer, AllocError>
    ensures { IfOk result (λ answer. Says answer (LiesIn a.now b.now)
        (λ v. IsTrue (admits_all a.now v) × (IsTrue (admits_all b.now v) → ⊥))) }
{
    if a.items().len() <= MOST_COMPARED
        && b.items().len() <= MOST_COMPARED
        && are_implied(alloc, a.items(), b.items())?
    {
        return Ok(Answer::Yes);
    }
    let quest = Quest {
        first: a,
        second: b,
        wanted: false,
    };
    match quest.version(alloc)? {
        Some(version) => Ok(Answer::No(version)),
        None => Ok(Answer::Undecided),
    }
}

/// Whether each of the specifiers is seen to admit what all the known ones admit.
fn are_implied(
    alloc: Global,
    known: &[Specifier],
    specifiers: &[Specifier],
) -> Result<bool, AllocError>
    ensures { IfOk result (λ yes. IsTrue yes → (v : Parts) → IsTrue (admits_all known.now v)
        → IsTrue (admits_all specifiers.now v)) }
{
    for specifier in specifiers {
        if !is_among(specifier, known) && !is_implied(alloc, known, specifier)? {
            return Ok(false);
        }
    }
    Ok(true)
}

/// Whether the specifier is seen to admit what all the known ones admit.
fn is_implied(alloc: Global, known: &[Specifier], specifier: &Specifier) -> Result<bool, AllocError>
    ensures { IfOk result (λ yes. IsTrue yes → (v : Parts) → IsTrue (admits_all known.now v)
        → IsTrue (admits specifier.now v)) }
{
    let mut bounds = Bounds::new(alloc);
    bounds.add_all(alloc, known)?;
    bounds.add(alloc, specifier, false)?;
    Ok(bounds.are_empty())
}
