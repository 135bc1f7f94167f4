//! The first version of a release, and releases that come next.

ghost use Rattle.std.specs.Prelude.{◌≡◌, ◌==◌, ◌++◌, ◌∷◌, [], IfOk, IfSome, false, length};
ghost use Rattle.pyver_algebra.specs.Firsts.{first_of, with_last_raised};

use pyver_core::{PartsError, Version, VersionParts};
use std::alloc::{AllocError, Global};

/// The first version of a release; none where it has no number.
pub(crate) fn first_of(
    alloc: Global,
    epoch: u128,
    release: Vec<u128>,
) -> Result<Option<Version>, AllocError>
    ensures { IfOk result (λ first. IfSome first (λ v. v ≡ first_of epoch release.items)) }
{
    let parts = VersionParts {
        epoch,
        release,
        pre: None,
        post: None,
        dev: Some(0),
        local: Vec::new(alloc),
    };
    match Version::from_parts(alloc, parts) {
        Ok(version) => Ok(Some(version)),
        Err(PartsError::Memory) => Err(AllocError),
        Err(PartsError::EmptyRelease | PartsError::LocalSegment) => Ok(None),
    }
}

/// The numbers of a release with one more at the last; none where there is no number, or where the
/// last is the largest one.
#[tactic(auto, using(crate::proofs::FirstLemmas::raised_behind))]
pub(crate) fn with_last_raised(
    alloc: Global,
    release: &[u128],
) -> Result<Option<Vec<u128>>, AllocError>
    ensures some { IfOk result (λ raised. IfSome raised
        (λ _. (length release.now == 0) ≡ false)) }
    ensures value { IfOk result (λ raised. IfSome raised
        (λ r. r.items ≡ with_last_raised release.now)) }
{
    let Some((last, front)) = release.split_last() else {
        return Ok(None);
    };
    let Some(more) = last.checked_add(1) else {
        return Ok(None);
    };
    let mut raised = Vec::from_slice(alloc, front)?;
    raised.push(more)?;
    Ok(Some(raised))
}

/// The numbers of a release, and a 1 behind them.
pub(crate) fn with_one(alloc: Global, release: &[u128]) -> Result<Vec<u128>, AllocError>
    ensures { IfOk result (λ longer. longer.items ≡ release.now ++ 1 ∷ []) }
{
    let mut longer = Vec::from_slice(alloc, release)?;
    longer.push(1)?;
    Ok(longer)
}
