//! The names of wheels (PEP 427, "File name convention").

ghost use Rattle.std.specs.Prelude.{◌≡◌, ◌≢◌, ℕ, List, Option, option_map, IfErr, IfOk};
ghost use Rattle.std.specs.Prelude.{◌&&◌, not, string_bytes};
ghost use Rattle.std.specs.List.{list_all};
ghost use Rattle.pytext.specs.Agreement.{Gives};
ghost use Rattle.pyver_core.specs.Version.Parts.{Parts};
ghost use Rattle.pywheel_core.specs.Inner.Lent.{IsCut, wheel_parts};
ghost use Rattle.pywheel_core.specs.Tag.{TagValue};
ghost use Rattle.pywheel_core.specs.Texts.{has_pair};
ghost use Rattle.pywheel_core.specs.Wheel.Build.{build_number, build_rest, builds_cmp};
ghost use Rattle.pywheel_core.specs.Wheel.Grammar.{Wheel};
ghost use Rattle.pywheel_core.specs.Wheel.Name.{is_wheel_name, is_wheel_name_byte};
ghost use Rattle.pywheel_core.specs.Wheel.Reading.{build_in, name_in, version_in, wheel_in};
ghost use Rattle.pywheel_core.specs.Wheel.Reading.{wheel_of};

use crate::build::BuildTag;
use crate::cut::{StemParts, stem, stem_parts};
use crate::error::WheelError;
use crate::halves::{NameEnd, NameHead};
use crate::tag::Tag;
use crate::tag_set::read_tag_set;
use pyver_core::{Version, VersionError};
use std::alloc::{AllocError, Global};
use std::cmp::Ordering;
use std::marker::Model;
use std::rc::Rc;

/// The name of a wheel: what its file name says.
///
/// Its two halves are shared: with its copies, and with other names that one
/// [`WheelReader`](crate::WheelReader) read and that have the same text there.
pub struct WheelName {
    pub(crate) head: Rc<NameHead>,
    pub(crate) end: Rc<NameEnd>,
}

impl Model for WheelName {
    ghost use Rattle.pywheel_core.specs.Wheel.Halves.{wheel_with};
    ghost use Rattle.pywheel_core.specs.Wheel.Value.{WheelValue};

    ghost Value = { WheelValue };

    ghost view = { λ w. wheel_with w.head.value w.end.value };
}

impl Drop for WheelName {
    fn drop(self) {
        let WheelName { head: _, end: _ } = self;
    }
}

impl WheelName {
    /// What the text says as the name of a wheel: a name, a version, a build tag or none, and a
    /// compressed tag set, joined by `-`, and `.whl` (PEP 427, "File name convention"). The
    /// refusals are judged in the order of [`WheelError`]. It takes the memory of the name, the
    /// version, the build tag and the tags, which share one text.
    pub fn parse(alloc: Global, text: &str) -> Result<WheelName, WheelError>
        ensures ok { IfOk result (λ w. Wheel text.now w.name w.version w.build w.tags) }
        ensures refused { IfErr result (λ e. e ≢ WheelError.Memory
            → (name : List ℕ) (version : Parts) (build : Option (List ℕ)) (tags : List TagValue)
            → Wheel text.now name version build tags → ⊥) }

        // The same, over the one answer of the grammar, and which refusal it is.
        ensures exact { Gives WheelError.Memory (λ w. w) result (wheel_of text.now) }
    {
        read_wheel(alloc, text)
    }

    /// What the parts say.
    #[tactic(auto, unfolding(crate::specs::Wheel::Reading::wheel_in))]
    fn read(alloc: Global, parts: &StemParts<'_>) -> Result<WheelName, WheelError>
        requires { IsCut parts.now }
        ensures { Gives WheelError.Memory (λ w. w) result (wheel_in (wheel_parts parts.now)) }
    {
        let name = read_name(alloc, parts.name)?;
        let version = read_version(alloc, parts.version)?;
        let build = read_build(alloc, parts.build)?;
        let (tag_set, tags) = read_tag_set(alloc, parts.tag_set, &parts.set)?;
        let head = Rc::new(alloc, NameHead { name, version })?;
        let end = NameEnd {
            build,
            tag_set,
            tags,
        };
        let end = Rc::new(alloc, end)?;
        Ok(WheelName { head, end })
    }

    /// The name as written. It takes no memory.
    pub fn name(&self) -> &str
        ensures { result.now ≡ self.now.name }
    {
        self.head.name.as_str()
    }

    /// The version. It takes no memory.
    pub fn version(&self) -> &Version
        ensures { result.now ≡ self.now.version }
    {
        &self.head.version
    }

    /// The build tag, where there is one: the number of the leading digits, and what stands after
    /// them (PEP 427, "File name convention"). It takes no memory.
    pub fn build(&self) -> Option<(u128, &str)>
        ensures number { option_map (λ b. b.0) result ≡ option_map build_number self.now.build }
        ensures rest { option_map (λ b. b.1.now) result ≡ option_map build_rest self.now.build }
    {
        let build = self.end.build.as_ref()?;
        Some((build.number(), build.rest()))
    }

    /// The build tag as written, where there is one. It takes no memory.
    pub fn build_text(&self) -> Option<&str>
        ensures { option_map (λ b. b.now) result ≡ self.now.build }
    {
        Some(self.end.build.as_ref()?.as_str())
    }

    /// The tags: all combinations of the three parts' pieces (PEP 425, "Compressed Tag Sets"). The
    /// platform runs fastest, then the ABI. It takes no memory.
    pub fn tags(&self) -> &[Tag]
        ensures { result.now ≡ self.now.tags }
    {
        &self.end.tags
    }

    /// The compressed tag set that stands for the tags, in lower case (PEP 425, "Compressed Tag
    /// Sets"). It takes no memory.
    pub fn tag_set(&self) -> &str
        ensures { result.now ≡ self.now.tag_set }
    {
        self.end.tag_set.as_str()
    }

    /// The order of the build tags, in which none is least (PEP 427, "File name convention"). It
    /// takes no memory.
    pub fn compare_builds(&self, other: &WheelName) -> Ordering
        ensures { result ≡ builds_cmp self.now.build other.now.build }
    {
        match (&self.end.build, &other.end.build) {
            (None, None) => Ordering::Equal,
            (None, Some(_)) => Ordering::Less,
            (Some(_), None) => Ordering::Greater,
            (Some(build), Some(other)) => build.compare(other),
        }
    }
}

/// A copy shares both halves. It takes no memory but for the counts of those that share.
impl Clone for WheelName {
    ghost is_clone = { λ wheel copy. copy ≡ wheel };

    fn clone(&self) -> Result<WheelName, AllocError> {
        Ok(WheelName {
            head: self.head.clone()?,
            end: self.end.clone()?,
        })
    }
}

#[tactic(auto, unfolding(crate::specs::Wheel::Reading::wheel_of))]
fn read_wheel(alloc: Global, text: &str) -> Result<WheelName, WheelError>
    ensures { Gives WheelError.Memory (λ w. w) result (wheel_of text.now) }
{
    let stem = stem(text).ok_or(WheelError::Extension)?;
    let parts = stem_parts(stem).ok_or(WheelError::Parts)?;
    WheelName::read(alloc, &parts)
}

/// The name, where it is one.
#[tactic(auto, unfolding(crate::specs::Wheel::Reading::name_in))]
fn read_name(alloc: Global, name: &str) -> Result<String, WheelError>
    ensures { Gives WheelError.Memory (λ n. string_bytes n) result (name_in name.now) }
{
    if !is_wheel_name(name) {
        return Err(WheelError::Name);
    }
    Ok(String::from_str(alloc, name)?)
}

#[tactic(auto, using(crate::proofs::Lemmas::Wheel::Name::name_is))]
pub(crate) fn is_wheel_name(name: &str) -> bool
    ensures { result ≡ is_wheel_name name.now }
{
    !name.is_empty() && are_name_bytes(name.as_bytes())
}

/// Whether a name may have these bytes, among which no two `_` stand in a row.
#[tactic(auto, using(crate::proofs::Lemmas::Wheel::Name::name_goes_on_all))]
fn are_name_bytes(bytes: &[u8]) -> bool
    ensures { result ≡ (list_all is_wheel_name_byte bytes.now && not (has_pair 95 bytes.now)) }
{
    let mut after_underscore = false;
    for byte in bytes {
        let is_underscore = *byte == b'_';
        if after_underscore && is_underscore || !is_wheel_name_byte(*byte) {
            return false;
        }
        after_underscore = is_underscore;
    }
    true
}

fn is_wheel_name_byte(byte: u8) -> bool
    ensures { result ≡ is_wheel_name_byte byte }
{
    byte.is_ascii_alphanumeric() || matches!(byte, b'_' | b'.')
}

/// The version, where the text is one.
#[tactic(auto, unfolding(crate::specs::Wheel::Reading::version_in))]
pub(crate) fn read_version(alloc: Global, text: &str) -> Result<Version, WheelError>
    ensures { Gives WheelError.Memory (λ v. v) result (version_in text.now) }
{
    match Version::parse(alloc, text) {
        Ok(version) => Ok(version),
        Err(VersionError::Memory) => Err(WheelError::Memory),
        Err(_) => Err(WheelError::Version),
    }
}

/// The build tag, where there is one.
pub(crate) fn read_build(alloc: Global, build: Option<&str>) -> Result<Option<BuildTag>, WheelError>
    ensures { Gives WheelError.Memory (λ b. b) result
        (build_in (option_map (λ b. b.now) build.entry)) }
{
    match build {
        Some(build) => Ok(Some(BuildTag::parse(alloc, build)?)),
        None => Ok(None),
    }
}
