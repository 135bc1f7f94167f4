//! The head and an entry, judged in one environment (PEP 751, "Installation").

ghost use Rattle.std.specs.Prelude.{◌≡◌, IfOk};
ghost use Rattle.std.specs.Option.{option_copied};
ghost use Rattle.pymark_core.specs.Marker.Value.{marker_value};
ghost use Rattle.pylock_core.specs.Session.Steps.{by_check, by_marker, by_standing};
ghost use Rattle.pylock_core.specs.Session.Steps.{environments_check, head_fault, python_check};
ghost use Rattle.pylock_core.specs.Session.Steps.{standing};
ghost use Rattle.pylock_core.specs.declared.answer.Standing.TheVariants.{Skipped, Faulty, Active};

use pylock_core::{Entry, FaultCode, Head, Standing};
use pymark_core::{Environment, EvalFault, Marker, Var};
use pyver_core::SpecifierSet;
use std::alloc::{AllocError, Global};

/// The fault of the head.
pub(crate) fn head_fault(
    alloc: Global,
    head: &Head,
    environment: &Environment,
) -> Result<Option<FaultCode>, AllocError>
    ensures { IfOk result (λ fault. fault ≡ head_fault head.now environment.now) }
{
    let check = python_check(head.requires_python(), environment);
    if check.is_some() {
        return Ok(check);
    }
    environments_check(alloc, head.environments(), environment)
}

/// How the entry stands.
pub(crate) fn standing(
    alloc: Global,
    entry: &Entry,
    environment: &Environment,
) -> Result<Standing, AllocError>
    ensures { IfOk result (λ found. found ≡ standing entry.now environment.now) }
{
    let marked = match entry.marker() {
        Some(marker) => marker_standing(alloc, marker, environment)?,
        None => Standing::Active,
    };
    Ok(after_marker(marked, entry.requires_python(), environment))
}

/// How an entry stands that stands so by its marker, and has this set to check or none.
fn after_marker(marked: Standing, set: Option<&SpecifierSet>, environment: &Environment) -> Standing
    ensures { result ≡ by_standing marked Skipped Faulty
        (by_check (python_check (option_copied set.entry) environment.now)) }
{
    match marked {
        Standing::Active => by_check(python_check(set, environment)),
        _ => marked,
    }
}

/// How an entry stands by the fault or none of its Python check.
fn by_check(fault: Option<FaultCode>) -> Standing
    ensures { result ≡ by_check fault }
{
    match fault {
        Some(code) => Standing::Faulty(code),
        None => Standing::Active,
    }
}

/// How an entry stands by its marker.
fn marker_standing(
    alloc: Global,
    marker: &Marker,
    environment: &Environment,
) -> Result<Standing, AllocError>
    ensures { IfOk result (λ found. found
        ≡ by_marker (marker_value environment.now marker.now.tree) Active) }
{
    match marker.evaluate(alloc, environment) {
        Ok(true) => Ok(Standing::Active),
        Ok(false) => Ok(Standing::Skipped),
        Err(EvalFault::Memory) => Err(AllocError),
        Err(fault) => Ok(Standing::Faulty(FaultCode::from(fault))),
    }
}

/// The fault of the Python check of a set, if the set stands.
fn python_check(set: Option<&SpecifierSet>, environment: &Environment) -> Option<FaultCode>
    ensures { result ≡ python_check (option_copied set.entry) environment.now }
{
    let set = set?;
    match environment.version(Var::PythonFullVersion) {
        Some(Ok(version)) if set.admits(version) => None,
        Some(Ok(_)) => Some(FaultCode::PythonNotMet),
        _ => Some(FaultCode::PythonUnknown),
    }
}

/// The fault of the key `environments`: the first marker that is true or faulty decides.
fn environments_check(
    alloc: Global,
    markers: &[Marker],
    environment: &Environment,
) -> Result<Option<FaultCode>, AllocError>
    ensures { IfOk result (λ fault. fault ≡ environments_check markers.now environment.now) }
{
    if markers.is_empty() {
        return Ok(None);
    }
    for marker in markers {
        match marker_standing(alloc, marker, environment)? {
            Standing::Active => return Ok(None),
            Standing::Faulty(code) => return Ok(Some(code)),
            Standing::Skipped => {}
        }
    }
    Ok(Some(FaultCode::NoEnvironment))
}
