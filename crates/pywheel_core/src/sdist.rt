//! The names of source distributions (PEP 625; "Source distribution format", "Source distribution
//! file name").

ghost use Rattle.std.specs.Prelude.{◌≡◌, ◌≢◌, ℕ, List, option_map, IfErr, IfOk};
ghost use Rattle.pytext.specs.Agreement.{Gives};
ghost use Rattle.pyver_core.specs.Name.{normal_name};
ghost use Rattle.pyver_core.specs.Version.Parts.{Parts};
ghost use Rattle.pywheel_core.specs.Sdist.Grammar.{Sdist};
ghost use Rattle.pywheel_core.specs.Sdist.Reading.{sdist_name_in, sdist_of, sdist_stem};
ghost use Rattle.pywheel_core.specs.Sdist.Reading.{sdist_version_in};

use crate::cut::{before_ending, last_cut};
use crate::error::SdistError;
use pyver_core::{NormalName, Version, VersionError, is_name};
use std::alloc::Global;
use std::marker::Model;

/// The name of a source distribution: what its file name says.
pub struct SdistName {
    name: NormalName,
    version: Version,
}

impl Model for SdistName {
    ghost use Rattle.pywheel_core.specs.Sdist.Value.{SdistValue};

    ghost Value = { SdistValue };

    ghost view = { λ s. record { name = s.name; version = s.version } };
}

impl Drop for SdistName {
    fn drop(self) {
        let SdistName {
            name: _,
            version: _,
        } = self;
    }
}

impl SdistName {
    /// What the text says as the name of a source distribution: a name and a version with `-`
    /// between them, and `.tar.gz` (PEP 625), or `.zip` as indexes still have it. It is cut at the
    /// last `-`, so `foo-1.0-1.tar.gz` is version `1` of `foo-1-0`. The refusals are judged in the
    /// order of [`SdistError`]. It takes the memory of the name and of the version.
    pub fn parse(alloc: Global, text: &str) -> Result<SdistName, SdistError>
        ensures ok { IfOk result (λ s. Sdist text.now s.name s.version) }
        ensures refused { IfErr result (λ e. e ≢ SdistError.Memory
            → (name : List ℕ) (version : Parts) → Sdist text.now name version → ⊥) }

        // The same, over the one answer of the grammar, and which refusal it is.
        ensures exact { Gives SdistError.Memory (λ s. s) result (sdist_of text.now) }
    {
        read_sdist(alloc, text)
    }

    /// The name in its normal form (PEP 503, "Normalized Names"). It takes no memory.
    pub fn name(&self) -> &str
        ensures text { result.now ≡ self.now.name }
        ensures normal { normal_name self.now.name ≡ self.now.name }
    {
        self.name.as_str()
    }

    /// The version. It takes no memory.
    pub fn version(&self) -> &Version
        ensures { result.now ≡ self.now.version }
    {
        &self.version
    }
}

#[tactic(auto, unfolding(crate::specs::Sdist::Reading::sdist_of))]
fn read_sdist(alloc: Global, text: &str) -> Result<SdistName, SdistError>
    ensures { Gives SdistError.Memory (λ s. s) result (sdist_of text.now) }
{
    let stem = sdist_stem(text).ok_or(SdistError::Extension)?;
    let (name, version) = last_cut(stem).ok_or(SdistError::Parts)?;
    let name = read_name(alloc, name)?;
    let version = read_version(alloc, version)?;
    Ok(SdistName { name, version })
}

/// What stands before the extension.
fn sdist_stem(text: &str) -> Option<&str>
    ensures { option_map (λ x. x.now) result ≡ sdist_stem text.now }
{
    match before_ending(text, ".tar.gz") {
        Some(stem) => Some(stem),
        None => before_ending(text, ".zip"),
    }
}

/// The normal form of the name, where it is one.
#[tactic(auto, unfolding(crate::specs::Sdist::Reading::sdist_name_in))]
fn read_name(alloc: Global, name: &str) -> Result<NormalName, SdistError>
    ensures { Gives SdistError.Memory (λ n. n) result (sdist_name_in name.now) }
{
    if !is_name(name) {
        return Err(SdistError::Name);
    }
    Ok(NormalName::new(alloc, name)?)
}

/// The version, where the text is one.
#[tactic(auto, unfolding(crate::specs::Sdist::Reading::sdist_version_in))]
fn read_version(alloc: Global, text: &str) -> Result<Version, SdistError>
    ensures { Gives SdistError.Memory (λ v. v) result (sdist_version_in text.now) }
{
    match Version::parse(alloc, text) {
        Ok(version) => Ok(version),
        Err(VersionError::Memory) => Err(SdistError::Memory),
        Err(_) => Err(SdistError::Version),
    }
}
