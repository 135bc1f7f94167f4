//! The version that `===` admits.

ghost use Rattle.std.specs.Prelude.{◌≡◌, IfOk, IfSome, IsTrue};
ghost use Rattle.std.specs.List.{list_all};
ghost use Rattle.pyver_core.specs.Set.Admission.{is_spelled};
ghost use Rattle.pyver_core.specs.Version.Parts.{Parts};
ghost use Rattle.pyver_algebra.specs.Limits.{is_at};
ghost use Rattle.pyver_algebra.specs.Plain.{is_plain, is_plain_byte};

use pyver_core::{Version, VersionError};
use std::alloc::{AllocError, Global};

/// The one version that may have this text as its normal form, letter case ignored; none where the
/// text has an epoch or a local part, or is no version.
pub(crate) fn spelled_version(alloc: Global, text: &str) -> Result<Option<Version>, AllocError>
    ensures { IfOk result (λ found. IfSome found (λ v. (c : Parts)
        → IsTrue (is_spelled text.now c) → IsTrue (is_at v c))) }
{
    let mut lower = String::from_str(alloc, text)?;
    lower.make_ascii_lowercase();
    if !is_plain(lower.as_bytes()) {
        return Ok(None);
    }
    match Version::parse(alloc, lower.as_str()) {
        Ok(version) => Ok(Some(version)),
        Err(VersionError::Memory) => Err(AllocError),
        Err(VersionError::Syntax | VersionError::NumberTooLarge) => Ok(None),
    }
}

fn is_plain(text: &[u8]) -> bool
    ensures { result ≡ is_plain text.now }
{
    match text {
        [first, ..] => first.is_ascii_digit() && are_plain(text),
        _ => false,
    }
}

fn are_plain(text: &[u8]) -> bool
    ensures { result ≡ list_all is_plain_byte text.now }
{
    text.iter().all(|byte| *byte != b'!' && *byte != b'+')
}
