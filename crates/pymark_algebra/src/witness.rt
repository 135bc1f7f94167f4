//! An environment in which conditions hold, looked for where one is likely and believed because
//! it was asked.

ghost use Rattle.std.specs.Prelude.{IfOk, IfSome, IsTrue};
ghost use Rattle.pymark_algebra.specs.Coherent.{IsCoherent};
ghost use Rattle.pymark_algebra.specs.Questions.{AllHave, AllSay, Has, PythonSays};

mod releases;
mod texts;

use crate::answer::{Condition, PythonCondition};
use crate::coherent::is_coherent;
use crate::names::{NameSet, asked_name};
use crate::open::is_refuted;
use crate::platform::Platform;
use crate::platforms::is_refuted_on;
use pymark_clauses::{Clause, Literal};
use pymark_core::{Environment, EvalFault, Var};
use releases::{releases, set_python};
use std::alloc::{AllocError, Global};
use texts::{is_compared, set_texts};

/// The most clauses for which an environment is looked for.
const MOST_TRIED: usize = 16;

const PLATFORMS: [Platform; 4] = [
    Platform::Linux,
    Platform::MacOs,
    Platform::Windows,
    Platform::Other,
];

/// The first environment found in which all conditions hold, by clauses that aren't refuted, of
/// which one holds there.
pub(crate) fn find_environment(
    alloc: Global,
    pythons: &[PythonCondition<'_>],
    conditions: &[Condition<'_>],
    clauses: &[Clause<'_>],
) -> Result<Option<Environment>, AllocError>
    ensures { IfOk result (λ found. IfSome found (λ environment.
        IsCoherent environment × AllSay environment pythons.now
        × AllHave environment conditions.now)) }
{
    let mut tried = 0;
    for clause in clauses {
        if tried >= MOST_TRIED {
            return Ok(None);
        }
        if !is_refuted(alloc, pythons, clause)? {
            tried += 1;
            if let Some(environment) = find_for_clause(alloc, pythons, conditions, clause)? {
                return Ok(Some(environment));
            }
        }
    }
    Ok(None)
}

/// The same by one clause.
fn find_for_clause(
    alloc: Global,
    pythons: &[PythonCondition<'_>],
    conditions: &[Condition<'_>],
    clause: &[Literal<'_>],
) -> Result<Option<Environment>, AllocError>
    ensures { IfOk result (λ found. IfSome found (λ environment.
        IsCoherent environment × AllSay environment pythons.now
        × AllHave environment conditions.now)) }
{
    for platform in PLATFORMS {
        if let Some(environment) = find_on(alloc, pythons, conditions, clause, platform)? {
            return Ok(Some(environment));
        }
    }
    Ok(None)
}

/// The same on one platform, unless the clause is refuted there.
fn find_on(
    alloc: Global,
    pythons: &[PythonCondition<'_>],
    conditions: &[Condition<'_>],
    clause: &[Literal<'_>],
    platform: Platform,
) -> Result<Option<Environment>, AllocError>
    ensures { IfOk result (λ found. IfSome found (λ environment.
        IsCoherent environment × AllSay environment pythons.now
        × AllHave environment conditions.now)) }
{
    if is_refuted_on(alloc, platform, clause)? {
        return Ok(None);
    }
    let mut environment = Environment::new(alloc);
    set_texts(alloc, &mut environment, clause, platform)?;
    ask_names(&mut environment, clause)?;
    let is_cpython = !is_compared(clause, Var::ImplementationVersion);
    for release in releases(alloc, pythons, clause)? {
        set_python(alloc, &mut environment, release, is_cpython)?;
        if shows(alloc, &environment, pythons, conditions)? {
            return Ok(Some(environment));
        }
    }
    Ok(None)
}

/// Asks for the names that the literals want.
fn ask_names(environment: &mut Environment, clause: &[Literal<'_>]) -> Result<(), AllocError> {
    for literal in clause {
        if let Some(asked) = asked_name(literal) {
            if asked.is_in {
                ask_name(environment, asked.set, asked.name)?;
            }
        }
    }
    Ok(())
}

fn ask_name(environment: &mut Environment, set: NameSet, name: &str) -> Result<(), AllocError> {
    let _added = match set {
        NameSet::Extras => environment.add_extra(name)?,
        NameSet::Groups => environment.add_group(name)?,
    };
    Ok(())
}

/// Whether the environment is coherent and all conditions hold in it.
fn shows(
    alloc: Global,
    environment: &Environment,
    pythons: &[PythonCondition<'_>],
    conditions: &[Condition<'_>],
) -> Result<bool, AllocError>
    ensures { IfOk result (λ is. IsTrue is → IsCoherent environment.now
        × AllSay environment.now pythons.now × AllHave environment.now conditions.now) }
{
    if !is_coherent(environment) {
        return Ok(false);
    }
    if !say(environment, pythons) {
        return Ok(false);
    }
    have(alloc, environment, conditions)
}

/// Whether each specifier says what is wanted of it.
fn say(environment: &Environment, pythons: &[PythonCondition<'_>]) -> bool
    ensures { IsTrue result → AllSay environment.now pythons.now }
{
    for python in pythons {
        if !says(environment, python) {
            return false;
        }
    }
    true
}

/// Whether the specifier does.
fn says(environment: &Environment, python: &PythonCondition<'_>) -> bool
    ensures { IsTrue result
        → PythonSays environment.now python.now.specifier.now python.now.wanted }
{
    let Some(Ok(version)) = environment.version(Var::PythonFullVersion) else {
        return false;
    };
    python.specifier.admits(version) == python.wanted
}

/// Whether all conditions hold.
fn have(
    alloc: Global,
    environment: &Environment,
    conditions: &[Condition<'_>],
) -> Result<bool, AllocError>
    ensures { IfOk result (λ is. IsTrue is → AllHave environment.now conditions.now) }
{
    for condition in conditions {
        if !has(alloc, environment, condition)? {
            return Ok(false);
        }
    }
    Ok(true)
}

/// Whether the marker has the value.
fn has(
    alloc: Global,
    environment: &Environment,
    condition: &Condition<'_>,
) -> Result<bool, AllocError>
    ensures { IfOk result (λ is. IsTrue is
        → Has environment.now condition.now.marker.now.tree condition.now.wanted) }
{
    match condition.marker.evaluate(alloc, environment) {
        Ok(value) => Ok(value == condition.wanted),
        Err(EvalFault::Memory) => Err(AllocError),
        Err(_) => Ok(false),
    }
}
