//! What is looked for in the environments of a lock.

ghost use Rattle.std.specs.Prelude.{◌≡◌, IfOk, IsTrue, None};
ghost use Rattle.pylock_core.specs.Session.Steps.{head_fault};
ghost use Rattle.pylock_environments.specs.Environments.{IsNarrower, Stands};
ghost use Rattle.pylock_environments.specs.Inner.{IsShownBy};

use crate::lock::WeighedEntry;
use crate::standing::{head_fault, standing};
use pylock_core::{Entry, FaultCode, Head, Standing};
use pymark_core::Environment;
use pyver_core::Specifier;
use std::alloc::{AllocError, Global};

/// What is looked for in an environment.
#[derive(Clone, Copy)]
pub(crate) enum Sought<'s, 'a> {
    /// The entry stands.
    Standing(&'s WeighedEntry<'a>),
    /// Both entries stand.
    Together(&'s WeighedEntry<'a>, &'s WeighedEntry<'a>),
    /// The entry's marker is absent or true, and this specifier of its `requires-python` doesn't
    /// admit the Python.
    Refused(&'s WeighedEntry<'a>, &'s Specifier),
}

/// Whether the head admits the environment, and it shows what is sought.
pub(crate) fn is_shown(
    alloc: Global,
    head: &Head,
    sought: &Sought<'_, '_>,
    environment: &Environment,
) -> Result<bool, AllocError>
    ensures { IfOk result (λ is. IsTrue is → (head_fault head.now environment.now ≡ None)
        × IsShownBy environment.now sought.now) }
{
    if head_fault(alloc, head, environment)?.is_some() {
        return Ok(false);
    }
    is_shown_by(alloc, sought, environment)
}

/// Whether the environment shows what is sought.
fn is_shown_by(
    alloc: Global,
    sought: &Sought<'_, '_>,
    environment: &Environment,
) -> Result<bool, AllocError>
    ensures { IfOk result (λ is. IsTrue is → IsShownBy environment.now sought.now) }
{
    match sought {
        Sought::Standing(weighed) => stands(alloc, weighed.entry, environment),
        Sought::Together(first, second) => {
            if !stands(alloc, first.entry, environment)? {
                return Ok(false);
            }
            stands(alloc, second.entry, environment)
        }
        Sought::Refused(weighed, _) => is_narrower(alloc, weighed.entry, environment),
    }
}

fn stands(alloc: Global, entry: &Entry, environment: &Environment) -> Result<bool, AllocError>
    ensures { IfOk result (λ is. IsTrue is → Stands entry.now environment.now) }
{
    match standing(alloc, entry, environment)? {
        Standing::Active => Ok(true),
        Standing::Skipped | Standing::Faulty(_) => Ok(false),
    }
}

#[tactic(auto, using(crate::proofs::StandingLemmas::is_narrower))]
fn is_narrower(alloc: Global, entry: &Entry, environment: &Environment) -> Result<bool, AllocError>
    ensures { IfOk result (λ is. IsTrue is → IsNarrower entry.now environment.now) }
{
    match standing(alloc, entry, environment)? {
        Standing::Faulty(FaultCode::PythonNotMet) => Ok(true),
        _ => Ok(false),
    }
}
