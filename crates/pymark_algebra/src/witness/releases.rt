//! The releases of Python that are tried.

use crate::answer::PythonCondition;
use pymark_clauses::Literal;
use pymark_core::{Environment, Var};
use pyver_core::{PreKind, Specifier, Version, VersionError};
use std::alloc::{AllocError, Global};

/// The most literals of a clause near whose operands releases are tried.
const MOST_NEAR: usize = 8;

/// The most specifiers near whose operands releases are tried.
const MOST_SPECIFIERS: usize = 16;

/// A release of Python.
#[derive(Clone, Copy)]
pub(super) struct Release {
    major: u128,
    minor: u128,
    micro: u128,
    pre: Option<(PreKind, u128)>,
}

/// The three numbers of releases of CPython, those in use first.
const RELEASED: [(u128, u128, u128); 20] = [
    (3, 12, 9),
    (3, 11, 11),
    (3, 10, 16),
    (3, 13, 2),
    (3, 14, 0),
    (3, 9, 21),
    (3, 8, 20),
    (3, 7, 17),
    (3, 6, 15),
    (2, 7, 18),
    (3, 12, 0),
    (3, 11, 0),
    (3, 10, 0),
    (3, 13, 0),
    (3, 9, 0),
    (3, 8, 0),
    (3, 7, 0),
    (3, 6, 0),
    (3, 5, 10),
    (3, 4, 10),
];

/// The releases that are tried for a clause: those of CPython first, and then those near the
/// operands of the specifiers and of the clause.
pub(super) fn releases(
    alloc: Global,
    pythons: &[PythonCondition<'_>],
    clause: &[Literal<'_>],
) -> Result<Vec<Release>, AllocError> {
    let mut list = cpython_releases(alloc)?;
    push_near_specifiers(alloc, &mut list, pythons)?;
    push_near_literals(alloc, &mut list, clause)?;
    Ok(list)
}

fn cpython_releases(alloc: Global) -> Result<Vec<Release>, AllocError> {
    let mut list = Vec::new(alloc);
    for (major, minor, micro) in RELEASED {
        list.push(Release {
            major,
            minor,
            micro,
            pre: None,
        })?;
    }
    Ok(list)
}

fn push_near_specifiers(
    alloc: Global,
    list: &mut Vec<Release>,
    pythons: &[PythonCondition<'_>],
) -> Result<(), AllocError> {
    for python in pythons.iter().take(MOST_SPECIFIERS) {
        if let Some(release) = named_release(alloc, python.specifier)? {
            push_near(list, release)?;
        }
    }
    Ok(())
}

/// The release that the specifier names; none where it names none.
fn named_release(alloc: Global, specifier: &Specifier) -> Result<Option<Release>, AllocError> {
    match specifier {
        Specifier::Equal(version)
        | Specifier::NotEqual(version)
        | Specifier::AtMost(version)
        | Specifier::AtLeast(version)
        | Specifier::Before(version)
        | Specifier::After(version)
        | Specifier::Compatible(version) => Ok(Some(release_of(version))),
        Specifier::EqualPrefix(prefix) | Specifier::NotEqualPrefix(prefix) => {
            Ok(Some(final_release(prefix.release())))
        }
        Specifier::Arbitrary(text) => spelled_release(alloc, text.as_str()),
    }
}

fn push_near_literals(
    alloc: Global,
    list: &mut Vec<Release>,
    clause: &[Literal<'_>],
) -> Result<(), AllocError> {
    for literal in clause.iter().take(MOST_NEAR) {
        if let Some(release) = operand(alloc, literal)? {
            push_near(list, release)?;
        }
    }
    Ok(())
}

/// The release of the version that the literal compares Python's with.
fn operand(alloc: Global, literal: &Literal<'_>) -> Result<Option<Release>, AllocError> {
    let comparison = literal.comparison;
    let Some(Var::PythonFullVersion | Var::PythonVersion) = comparison.left_variable() else {
        return Ok(None);
    };
    let Some(text) = comparison.right_text() else {
        return Ok(None);
    };
    spelled_release(alloc, text.strip_suffix(".*").unwrap_or(text))
}

/// The release of the version that the text spells.
fn spelled_release(alloc: Global, text: &str) -> Result<Option<Release>, AllocError> {
    match Version::parse(alloc, text) {
        Ok(version) => Ok(Some(release_of(&version))),
        Err(VersionError::Memory) => Err(AllocError),
        Err(_) => Ok(None),
    }
}

/// The first three numbers of the version's release, with what makes it a pre-release.
fn release_of(version: &Version) -> Release {
    Release {
        pre: version.pre(),
        ..final_release(version.release())
    }
}

/// The first three numbers of a release.
fn final_release(release: &[u128]) -> Release {
    Release {
        major: number_at(release, 0),
        minor: number_at(release, 1),
        micro: number_at(release, 2),
        pre: None,
    }
}

fn number_at(release: &[u128], index: usize) -> u128 {
    release.get(index).copied().unwrap_or(0)
}

/// Adds the release, others with its numbers, and final releases beside it.
fn push_near(list: &mut Vec<Release>, release: Release) -> Result<(), AllocError> {
    push_phases(list, release)?;
    let last = Release {
        pre: None,
        ..release
    };
    let minor = Release { micro: 0, ..last };
    let major = Release { minor: 0, ..minor };
    list.push(Release {
        micro: release.micro.saturating_add(1),
        ..last
    })?;
    list.push(Release {
        micro: release.micro.saturating_sub(1),
        ..last
    })?;
    list.push(Release {
        minor: release.minor.saturating_add(1),
        ..minor
    })?;
    list.push(Release {
        minor: release.minor.saturating_sub(1),
        ..minor
    })?;
    list.push(Release {
        major: release.major.saturating_add(1),
        ..major
    })?;
    Ok(list.push(Release {
        major: release.major.saturating_sub(1),
        ..major
    })?)
}

/// Adds the release and the first alpha with its numbers, and where it is a pre-release the next
/// one and the final release.
fn push_phases(list: &mut Vec<Release>, release: Release) -> Result<(), AllocError> {
    list.push(release)?;
    list.push(Release {
        pre: Some((PreKind::A, 1)),
        ..release
    })?;
    if let Some((kind, number)) = release.pre {
        list.push(Release {
            pre: Some((kind, number.saturating_add(1))),
            ..release
        })?;
        list.push(Release {
            pre: None,
            ..release
        })?;
    }
    Ok(())
}

/// Gives the environment this Python, and its version to the implementation where a CPython is
/// wanted.
pub(super) fn set_python(
    alloc: Global,
    environment: &mut Environment,
    release: Release,
    is_cpython: bool,
) -> Result<(), AllocError> {
    let major = release.major;
    let minor = release.minor;
    let micro = release.micro;
    let first = format!(in alloc; "{major}.{minor}")?;
    let mut whole = format!(in alloc; "{major}.{minor}.{micro}")?;
    if let Some((kind, number)) = release.pre {
        let letter = letter_of(kind);
        write!(whole, "{letter}{number}")?;
    }
    environment.set(Var::PythonVersion, first.as_str())?;
    if is_cpython {
        environment.set(Var::ImplementationVersion, whole.as_str())?;
    }
    environment.set(Var::PythonFullVersion, whole.as_str())
}

/// The letter of a pre-release (PEP 440, "Pre-releases").
fn letter_of(kind: PreKind) -> &'static str {
    match kind {
        PreKind::A => "a",
        PreKind::B => "b",
        PreKind::Rc => "rc",
    }
}
