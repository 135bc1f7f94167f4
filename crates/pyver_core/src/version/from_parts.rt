//! Versions from their parts.

ghost use Rattle.std.specs.Prelude.{◌≡◌, IfErr, IfOk, List, ℕ};
ghost use Rattle.std.specs.Char.{is_ascii_digit};
ghost use Rattle.std.specs.List.{list_all};
ghost use Rattle.pytext.specs.Agreement.{Gives};
ghost use Rattle.pyver_core.specs.Version.FromParts.{is_segment, is_segment_byte};
ghost use Rattle.pyver_core.specs.Version.FromParts.{version_from_parts};
ghost use Rattle.pyver_core.specs.Version.Grammar.{Spells};
ghost use Rattle.pyver_core.specs.Version.Normal.{normal_text};
ghost use Rattle.pyver_core.specs.declared.version.from_parts.PartsError.TheVariants as parts;

use crate::version::{LocalPart, PreKind, Version};
use pytext::are_digits;
use std::alloc::{AllocError, Global};
use std::marker::Model;
use thiserror::Error;

/// Why no version has the parts.
#[derive(Debug, Drop, Error)]
pub enum PartsError {
    /// The release has no number.
    #[error("release")]
    EmptyRelease,
    /// A text of the local part isn't made of ASCII digits and letters in lower case, or has no
    /// letter.
    #[error("local")]
    LocalSegment,
    /// There was no memory for the normal form.
    #[error("memory")]
    Memory,
}

impl<E: Into<AllocError> + Drop> From<E> for PartsError {
    ghost from_gives = { λ _ e. e ≡ parts.Memory };

    fn from(_refused: E) -> PartsError {
        PartsError::Memory
    }
}

/// The parts of a version (PEP 440, "Version scheme"), of which a version is made. A copy takes
/// memory for the release and the local part.
#[derive(Clone, Debug, Drop)]
pub struct VersionParts {
    /// The epoch.
    pub epoch: u128,
    /// The numbers of the release.
    pub release: Vec<u128>,
    /// The letter and the number of a pre-release.
    pub pre: Option<(PreKind, u128)>,
    /// The number of a post-release.
    pub post: Option<u128>,
    /// The number of a developmental release.
    pub dev: Option<u128>,
    /// The segments of the local part, none where there is no local part.
    pub local: Vec<LocalPart>,
}

impl Model for VersionParts {
    ghost use Rattle.pyver_core.specs.Version.Parts.{Parts};

    ghost Value = { Parts };

    ghost view = { λ p. record {
      epoch = p.epoch;
      release = p.release.items;
      pre = p.pre;
      post = p.post;
      dev = p.dev;
      local = p.local.items;
    } };
}

impl Version {
    /// The version with these parts, which its normal form spells. They are refused where no text
    /// spells them: the release needs a number, and each text of the local part is made of ASCII
    /// digits and letters in lower case, at least one of them a letter. It takes memory for the
    /// normal form.
    pub fn from_parts(alloc: Global, parts: VersionParts) -> Result<Version, PartsError>
        ensures ok { IfOk result (λ v. (v ≡ parts) × Spells (normal_text v) v) }
        ensures refused { IfErr result (λ e. (e ≡ PartsError.Memory → ⊥)
            → (text : List ℕ) → Spells text parts → ⊥) }

        // The same, with the reason of each refusal.
        ensures exact { Gives PartsError.Memory (λ v. v) result (version_from_parts parts) }
    {
        version_from_parts(alloc, parts)
    }
}

fn version_from_parts(alloc: Global, parts: VersionParts) -> Result<Version, PartsError>
    ensures { Gives PartsError.Memory (λ v. v) result (version_from_parts parts) }
{
    if parts.release.is_empty() {
        return Err(PartsError::EmptyRelease);
    }
    if !are_segments(&parts.local) {
        return Err(PartsError::LocalSegment);
    }
    Ok(Version::with_parts(alloc, parts)?)
}

fn are_segments(local: &[LocalPart]) -> bool
    ensures { result ≡ list_all is_segment local.now }
{
    local.iter().all(|part| is_segment(part))
}

fn is_segment(part: &LocalPart) -> bool
    ensures { result ≡ is_segment part.now }
{
    match part {
        LocalPart::Number(_) => true,
        LocalPart::Text(label) => {
            let bytes = label.as_str().as_bytes();
            has_segment_bytes(bytes) && !are_digits(bytes)
        }
    }
}

fn has_segment_bytes(bytes: &[u8]) -> bool
    ensures { result ≡ list_all is_segment_byte bytes.now }
{
    bytes
        .iter()
        .all(|byte| byte.is_ascii_digit() || byte.is_ascii_lowercase())
}
