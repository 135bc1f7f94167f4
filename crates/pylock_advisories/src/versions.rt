//! Versions among texts (PEP 440).
ghost use Rattle.std.specs.Prelude.{◌≡◌, IfOk, map, not};
ghost use Rattle.std.specs.List.{list_any};
ghost use Rattle.std.specs.Str.{bytes_eq};
ghost use Rattle.std.specs.Prelude.{filter};
ghost use Rattle.pyver_core.specs.Version.Order.{is_before};
ghost use Rattle.pylock_advisories.specs.Evaluation.{version_in};
ghost use Rattle.pylock_advisories.specs.Reading.{others_in, versions_in};

use pytext::Text;
use pyver_core::{Version, VersionError};
use std::alloc::{AllocError, Global};

/// The version that the text spells, if it spells one.
pub(crate) fn version_in(alloc: Global, text: &str) -> Result<Option<Version>, AllocError>
    ensures { IfOk result (λ version. version ≡ version_in text.now) }
{
    match Version::parse(alloc, text) {
        Ok(version) => Ok(Some(version)),
        Err(VersionError::Memory) => Err(AllocError),
        Err(_) => Ok(None),
    }
}

/// Whether the version stands before the other.
pub(crate) fn is_before(version: &Version, other: &Version) -> bool
    ensures { result ≡ is_before version.now other.now }
{
    version.cmp(other).is_lt()
}

/// Those of the texts that are versions.
pub(crate) fn versions_in(alloc: Global, texts: &[&str]) -> Result<Vec<Version>, AllocError>
    ensures { IfOk result (λ versions. versions.items
        ≡ versions_in (map (λ text. text.now) texts.now)) }
{
    let mut versions = Vec::new(alloc);
    for text in texts {
        if let Some(version) = version_in(alloc, text)? {
            versions.push(version)?;
        }
    }
    Ok(versions)
}

/// Those of the texts that are versions, and those that are none.
pub(crate) fn sorted_out(
    alloc: Global,
    texts: &[&str],
) -> Result<(Vec<Version>, Vec<Text>), AllocError>
    ensures { IfOk result (λ sorted.
        (sorted.0.items ≡ versions_in (map (λ text. text.now) texts.now))
        × (sorted.1.items ≡ others_in (map (λ text. text.now) texts.now))) }
{
    let mut versions = Vec::new(alloc);
    let mut others = Vec::new(alloc);
    for text in texts {
        match version_in(alloc, text)? {
            Some(version) => versions.push(version)?,
            None => others.push(Text::copy_of(alloc, text)?)?,
        }
    }
    Ok((versions, others))
}

/// Whether one of the texts is this one.
pub(crate) fn has_text(texts: &[&str], text: &str) -> bool
    ensures { result ≡ list_any (λ other. bytes_eq other text.now)
        (map (λ other. other.now) texts.now) }
{
    for other in texts {
        if *other == text {
            return true;
        }
    }
    false
}

/// The texts that are not this one.
pub(crate) fn without_text<'a>(
    alloc: Global,
    texts: &[&'a str],
    text: &str,
) -> Result<Vec<&'a str>, AllocError>
    ensures { IfOk result (λ others. map (λ other. other.now) others.items
        ≡ filter (λ other. not (bytes_eq other text.now)) (map (λ other. other.now) texts.now)) }
{
    let mut others = Vec::new(alloc);
    for other in texts {
        if *other != text {
            others.push(*other)?;
        }
    }
    Ok(others)
}
