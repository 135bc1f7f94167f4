//! All that is found in a lock.

ghost use Rattle.std.specs.Prelude.{◌≡◌, IfOk};
ghost use Rattle.pylock_findings.specs.All.{AreAll, AreOthers, lines_of_advisories, lines_of_hosts};
ghost use Rattle.pylock_findings.specs.Inner.{AreWithOthers};
ghost use Rattle.pylock_findings.specs.Merging.{merged};
ghost use Rattle.pylock_findings.specs.Texts.{lent_texts};

use crate::environments::environment_lines;
use crate::host::host_lines;
use crate::merging::merged;
use crate::vulnerable::vulnerable_lines;
use pylock_advisories::AdvisoryIndex;
use pylock_audit::LockFinding;
use pylock_core::Lock;
use std::alloc::{AllocError, Global};

/// What is found in a lock, and in one list with it what is found besides: in every environment
/// that the lock is for, if that is asked; by these advisories; and of hosts other than these,
/// unless there are none. Of one entry what was found first comes first, and then each in this
/// order.
///
/// It takes the memory of [`environment_lines`], [`vulnerable_lines`] and [`host_lines`], where
/// each is asked, and of a list of all.
#[tactic(auto, using(crate::proofs::AllLemmas::alls))]
pub fn all_found(
    alloc: Global,
    lock: &Lock,
    found: Vec<LockFinding>,
    environments: bool,
    index: &AdvisoryIndex<'_>,
    hosts: &[&str],
) -> Result<Vec<LockFinding>, AllocError>
    ensures { IfOk result (λ all. AreAll environments index.now (lent_texts hosts.now) lock.now
        found.items all.items) }
{
    let found = with_environments(alloc, lock, found, environments)?;
    let found = with_advisories(alloc, lock, found, index)?;
    with_hosts(alloc, lock, found, hosts)
}

/// What is found, with what is found in every environment, if that is asked.
#[tactic(auto, using(crate::proofs::AllLemmas::others))]
fn with_environments(
    alloc: Global,
    lock: &Lock,
    found: Vec<LockFinding>,
    environments: bool,
) -> Result<Vec<LockFinding>, AllocError>
    ensures { IfOk result (λ all. AreWithOthers environments lock.now found.items all.items) }
{
    if environments {
        let others = environment_lines(alloc, lock)?;
        merged(alloc, found, others)
    } else {
        Ok(found)
    }
}

/// What is found, with what is found by advisories.
#[tactic(auto, using(crate::proofs::AllLemmas::merged_none))]
fn with_advisories(
    alloc: Global,
    lock: &Lock,
    found: Vec<LockFinding>,
    index: &AdvisoryIndex<'_>,
) -> Result<Vec<LockFinding>, AllocError>
    ensures { IfOk result (λ all. all.items
        ≡ merged found.items (lines_of_advisories index.now lock.now.entries)) }
{
    match index.advisories() {
        [] => Ok(found),
        _ => merged(alloc, found, vulnerable_lines(alloc, lock, index)?),
    }
}

/// What is found, with what is found by hosts.
fn with_hosts(
    alloc: Global,
    lock: &Lock,
    found: Vec<LockFinding>,
    hosts: &[&str],
) -> Result<Vec<LockFinding>, AllocError>
    ensures { IfOk result (λ all. all.items
        ≡ merged found.items (lines_of_hosts (lent_texts hosts.now) lock.now.entries)) }
{
    match hosts {
        [] => Ok(found),
        _ => merged(alloc, found, host_lines(alloc, lock, hosts)?),
    }
}
