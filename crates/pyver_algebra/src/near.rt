//! Versions that stand near the operand of a specifier.

use crate::first::{with_last_raised, with_one};
use pyver_core::{LocalPart, PartsError, PreKind, Specifier, Version, VersionError, VersionParts};
use std::alloc::{AllocError, Global};

/// How a version is made of another one.
#[derive(Clone, Copy)]
pub(crate) enum Near {
    /// The version itself.
    Itself,
    /// Without its local part.
    Public,
    /// The release alone.
    Base,
    /// The release alone with one more at the last number.
    Raised,
    /// The release alone with one less at the last number that isn't 0.
    Lowered,
    /// The release alone with a 1 behind it.
    Longer,
    /// The first developmental release of the release.
    First,
    /// The first alpha release of the release.
    Alpha,
    /// The first post-release of the release.
    Post,
    /// The next post-release of the version.
    NextPost,
    /// The version with a local part.
    Local,
    /// The first number of the release alone with one more.
    Major,
    /// The release alone with a 0 and a 1 behind it.
    Between,
}

/// All ways.
pub(crate) const WAYS: [Near; 13] = [
    Near::Itself,
    Near::Public,
    Near::Base,
    Near::Raised,
    Near::Lowered,
    Near::Longer,
    Near::First,
    Near::Alpha,
    Near::Post,
    Near::NextPost,
    Near::Local,
    Near::Major,
    Near::Between,
];

impl Near {
    /// The version that is made in this way; none where there is none.
    pub(crate) fn make(
        self,
        alloc: Global,
        version: &Version,
    ) -> Result<Option<Version>, AllocError> {
        match self {
            Near::Itself => Ok(Some(version.clone()?)),
            Near::Public => Ok(Some(version.public_part(alloc)?)),
            Near::Base => Ok(Some(version.base_release(alloc)?)),
            Near::Raised => with_release(
                alloc,
                version,
                with_last_raised(alloc, version.release())?,
            ),
            Near::Lowered => with_release(alloc, version, lowered(alloc, version.release())?),
            Near::Longer => with_release(alloc, version, Some(with_one(alloc, version.release())?)),
            Near::First => {
                let parts = base_parts(alloc, version)?;
                made(
                    alloc,
                    VersionParts {
                        dev: Some(0),
                        ..parts
                    },
                )
            }
            Near::Alpha => {
                let parts = base_parts(alloc, version)?;
                made(
                    alloc,
                    VersionParts {
                        pre: Some((PreKind::A, 0)),
                        ..parts
                    },
                )
            }
            Near::Post => {
                let parts = base_parts(alloc, version)?;
                made(
                    alloc,
                    VersionParts {
                        post: Some(0),
                        ..parts
                    },
                )
            }
            Near::NextPost => next_post(alloc, version),
            Near::Local => with_local(alloc, version),
            Near::Major => with_release(alloc, version, next_major(alloc, version.release())?),
            Near::Between => with_release(alloc, version, Some(between(alloc, version.release())?)),
        }
    }
}

/// The version with these parts; none where there is none.
fn made(alloc: Global, parts: VersionParts) -> Result<Option<Version>, AllocError> {
    match Version::from_parts(alloc, parts) {
        Ok(version) => Ok(Some(version)),
        Err(PartsError::Memory) => Err(AllocError),
        Err(PartsError::EmptyRelease | PartsError::LocalSegment) => Ok(None),
    }
}

/// The parts of a release alone.
fn release_parts(alloc: Global, epoch: u128, release: Vec<u128>) -> VersionParts {
    VersionParts {
        epoch,
        release,
        pre: None,
        post: None,
        dev: None,
        local: Vec::new(alloc),
    }
}

fn base_parts(alloc: Global, version: &Version) -> Result<VersionParts, AllocError> {
    let release = Vec::from_slice(alloc, version.release())?;
    Ok(release_parts(alloc, version.epoch(), release))
}

fn with_release(
    alloc: Global,
    version: &Version,
    release: Option<Vec<u128>>,
) -> Result<Option<Version>, AllocError> {
    match release {
        Some(release) => made(alloc, release_parts(alloc, version.epoch(), release)),
        None => Ok(None),
    }
}

/// The numbers up to the last that isn't 0, with one less there; none where all are 0.
fn lowered(alloc: Global, release: &[u128]) -> Result<Option<Vec<u128>>, AllocError> {
    let mut front = release;
    while let Some((last, rest)) = front.split_last() {
        if let Some(less) = last.checked_sub(1) {
            let mut numbers = Vec::from_slice(alloc, rest)?;
            numbers.push(less)?;
            return Ok(Some(numbers));
        }
        front = rest;
    }
    Ok(None)
}

/// The first number with one more; none where it is the largest one.
fn next_major(alloc: Global, release: &[u128]) -> Result<Option<Vec<u128>>, AllocError> {
    match release {
        [first, ..] => with_last_raised(alloc, &[*first]),
        _ => Ok(None),
    }
}

fn between(alloc: Global, release: &[u128]) -> Result<Vec<u128>, AllocError> {
    let mut numbers = Vec::from_slice(alloc, release)?;
    numbers.push(0)?;
    numbers.push(1)?;
    Ok(numbers)
}

/// The version 0, which most sets admit that begin nowhere.
pub(crate) fn zero(alloc: Global) -> Result<Option<Version>, AllocError> {
    let mut release = Vec::new(alloc);
    release.push(0)?;
    made(alloc, release_parts(alloc, 0, release))
}

fn next_post(alloc: Global, version: &Version) -> Result<Option<Version>, AllocError> {
    let parts = base_parts(alloc, version)?;
    made(
        alloc,
        VersionParts {
            pre: version.pre(),
            post: Some(version.post().map_or(0, |number| number.saturating_add(1))),
            ..parts
        },
    )
}

fn with_local(alloc: Global, version: &Version) -> Result<Option<Version>, AllocError> {
    let mut local = Vec::new(alloc);
    local.push(LocalPart::Number(0))?;
    let parts = base_parts(alloc, version)?;
    made(
        alloc,
        VersionParts {
            pre: version.pre(),
            post: version.post(),
            dev: version.dev(),
            local,
            ..parts
        },
    )
}

/// The version that the specifier names; none where it names none.
pub(crate) fn operand_of(
    alloc: Global,
    specifier: &Specifier,
) -> Result<Option<Version>, AllocError> {
    match specifier {
        Specifier::Equal(version)
        | Specifier::NotEqual(version)
        | Specifier::AtMost(version)
        | Specifier::AtLeast(version)
        | Specifier::Before(version)
        | Specifier::After(version)
        | Specifier::Compatible(version) => Ok(Some(version.clone()?)),
        Specifier::EqualPrefix(prefix) | Specifier::NotEqualPrefix(prefix) => {
            let release = Vec::from_slice(alloc, prefix.release())?;
            made(alloc, release_parts(alloc, prefix.epoch(), release))
        }
        Specifier::Arbitrary(text) => match Version::parse(alloc, text.as_str()) {
            Ok(version) => Ok(Some(version)),
            Err(VersionError::Memory) => Err(AllocError),
            Err(VersionError::Syntax | VersionError::NumberTooLarge) => Ok(None),
        },
    }
}
