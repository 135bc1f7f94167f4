//! The texts of the variables that have no version of the Python.

use crate::platform::Platform;
use crate::text::{stands_in, value_of_texts};
use pymark_clauses::Literal;
use pymark_core::{Comparator, Environment, Var};
use pyver_core::{Operator, Specifier, SpecifierError, Version, VersionError};
use std::alloc::{AllocError, Global};

const VARIABLES: [Var; 9] = [
    Var::OsName,
    Var::SysPlatform,
    Var::PlatformSystem,
    Var::PlatformMachine,
    Var::PlatformPythonImplementation,
    Var::PlatformRelease,
    Var::PlatformVersion,
    Var::ImplementationName,
    Var::ImplementationVersion,
];

/// The most texts of a clause that are tried for a variable.
const MOST_TEXTS: usize = 32;

/// Gives each variable a text that a CPython has on the platform, or, where a literal can't hold
/// at that, one of the clause's.
pub(super) fn set_texts(
    alloc: Global,
    environment: &mut Environment,
    clause: &[Literal<'_>],
    platform: Platform,
) -> Result<(), AllocError> {
    for variable in VARIABLES {
        let text = chosen_text(alloc, clause, platform, variable)?;
        environment.set(variable, text)?;
    }
    Ok(())
}

fn chosen_text<'a>(
    alloc: Global,
    clause: &[Literal<'a>],
    platform: Platform,
    variable: Var,
) -> Result<&'a str, AllocError> {
    let usual = usual_text(platform, variable);
    if suits(alloc, clause, platform, variable, usual)? {
        return Ok(usual);
    }
    for literal in clause.iter().take(MOST_TEXTS) {
        if let Some(text) = quoted_text(literal, variable) {
            if suits(alloc, clause, platform, variable, text)? {
                return Ok(text);
            }
        }
    }
    let other = other_text(variable);
    Ok(if suits(alloc, clause, platform, variable, other)? {
        other
    } else {
        "0"
    })
}

/// The text that a CPython has for the variable on the platform.
fn usual_text(platform: Platform, variable: Var) -> &'static str {
    if let Some(text) = platform.known_text(variable) {
        return text;
    }
    match variable {
        Var::OsName => "posix",
        Var::SysPlatform => "freebsd14",
        Var::PlatformSystem => "FreeBSD",
        Var::PlatformMachine => usual_machine(platform),
        Var::PlatformPythonImplementation => "CPython",
        Var::ImplementationName => "cpython",
        Var::PlatformRelease => usual_release(platform),
        Var::PlatformVersion => usual_build(platform),
        Var::PythonVersion | Var::PythonFullVersion | Var::ImplementationVersion => "3.12.9",
    }
}

/// Another text that some interpreter has for the variable.
fn other_text(variable: Var) -> &'static str {
    match variable {
        Var::PlatformMachine => "riscv64",
        Var::PlatformPythonImplementation => "PyPy",
        Var::ImplementationName => "pypy",
        _ => "other",
    }
}

fn usual_machine(platform: Platform) -> &'static str {
    match platform {
        Platform::Linux | Platform::Other => "x86_64",
        Platform::MacOs => "arm64",
        Platform::Windows => "AMD64",
    }
}

fn usual_release(platform: Platform) -> &'static str {
    match platform {
        Platform::Linux => "6.8.0",
        Platform::MacOs => "24.1.0",
        Platform::Windows => "11",
        Platform::Other => "14.1-RELEASE",
    }
}

fn usual_build(platform: Platform) -> &'static str {
    match platform {
        Platform::Linux => "#1 SMP",
        Platform::MacOs => "Darwin Kernel Version 24.1.0",
        Platform::Windows => "10.0.26100",
        Platform::Other => "FreeBSD 14.1-RELEASE",
    }
}

/// Whether a literal compares the variable with a text.
pub(super) fn is_compared(clause: &[Literal<'_>], variable: Var) -> bool {
    for literal in clause {
        if quoted_text(literal, variable).is_some() {
            return true;
        }
    }
    false
}

/// The text that the literal compares the variable with.
fn quoted_text<'a>(literal: &Literal<'a>, variable: Var) -> Option<&'a str> {
    let comparison = literal.comparison;
    if comparison.left_variable() == Some(variable) {
        comparison.right_text()
    } else if comparison.right_variable() == Some(variable) {
        comparison.left_text()
    } else {
        None
    }
}

/// Whether the platform may have the text, and each literal can hold at it.
fn suits(
    alloc: Global,
    clause: &[Literal<'_>],
    platform: Platform,
    variable: Var,
    text: &str,
) -> Result<bool, AllocError> {
    if !platform.may_have(variable, text) {
        return Ok(false);
    }
    for literal in clause {
        if !is_suited(alloc, literal, variable, text)? {
            return Ok(false);
        }
    }
    Ok(true)
}

fn is_suited(
    alloc: Global,
    literal: &Literal<'_>,
    variable: Var,
    text: &str,
) -> Result<bool, AllocError> {
    let Some(quoted) = quoted_text(literal, variable) else {
        return Ok(true);
    };
    let is_left = literal.comparison.left_variable() == Some(variable);
    let (left, right) = if is_left {
        (text, quoted)
    } else {
        (quoted, text)
    };
    let value = match literal.comparison.comparator() {
        Comparator::By(operator) => value_by(alloc, operator, left, right)?,
        Comparator::In => Some(stands_in(left, right)),
        Comparator::NotIn => Some(!stands_in(left, right)),
    };
    Ok(value == Some(literal.wanted))
}

/// The value by an operator, as versions where both read so.
fn value_by(
    alloc: Global,
    operator: Operator,
    left: &str,
    right: &str,
) -> Result<Option<bool>, AllocError> {
    let specifier = match Specifier::new(alloc, operator, right) {
        Ok(specifier) => specifier,
        Err(SpecifierError::Memory) => return Err(AllocError),
        Err(_) => return Ok(value_of_texts(operator, left, right)),
    };
    match Version::parse(alloc, left) {
        Ok(version) => Ok(Some(specifier.admits(&version))),
        Err(VersionError::Memory) => Err(AllocError),
        Err(_) => Ok(value_of_texts(operator, left, right)),
    }
}
