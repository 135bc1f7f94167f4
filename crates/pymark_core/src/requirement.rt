//! Requirements (PEP 508).

mod error;
mod parts;
mod text;

ghost use Rattle.std.specs.Prelude.{◌≡◌, ◌≢◌, IfErr, IfOk, map, option_map, string_bytes};
ghost use Rattle.pytext.specs.Agreement.{Gives};
ghost use Rattle.pymark_core.specs.Requirement.Grammar.{RequirementText};
ghost use Rattle.pymark_core.specs.Requirement.Reading.{marker_in, requirement_of};
ghost use Rattle.pymark_core.specs.Requirement.Reading.{written_set_of};
ghost use Rattle.pymark_core.specs.Requirement.Value.{RequirementValue};

use crate::marker::{Marker, MarkerError};
pub use error::RequirementError;
use parts::{read_extras, read_name, read_source, written_set};
use pytext::after_white;
use pyver_core::SpecifierSet;
use std::alloc::{AllocError, Global};
use std::marker::Model;

/// A requirement: a name, extras, and a specifier set or a URL, with a marker where it has one.
///
/// Contracts see these parts.
pub struct Requirement {
    name: String,
    extras: Vec<String>,
    set: SpecifierSet,
    url: Option<String>,
    marker: Option<Marker>,
}

impl Model for Requirement {
    ghost use Rattle.std.specs.Coded.{codes};
    ghost use Rattle.std.specs.Prelude.{map, option_map, string_bytes};
    ghost use Rattle.pymark_core.specs.Marker.Coding.{marker_code};
    ghost use Rattle.pymark_core.specs.Requirement.Value.{RequirementValue};

    ghost Value = { RequirementValue };

    ghost coded = { Prim.hlevel (codes, marker_code) };

    ghost view = { λ r. record {
      name = string_bytes r.name;
      extras = map string_bytes r.extras.items;
      set = r.set;
      url = option_map string_bytes r.url;
      marker = r.marker;
    } };
}

impl Drop for Requirement {
    fn drop(self) {
        let Requirement {
            name: _,
            extras: _,
            set: _,
            url: _,
            marker: _,
        } = self;
    }
}

impl Requirement {
    /// The requirement that the text is (PEP 508, "Grammar"), or the first fault from the left.
    ///
    /// White space (TAB, LF, VT, FF, CR, space) may stand before, between and after the parts. It
    /// takes memory for each part, and for the marker as [`Marker::parse`] does.
    #[tactic(auto, using(crate::proofs::given_requirement, crate::proofs::given_no_requirement))]
    pub fn parse(alloc: Global, text: &str) -> Result<Requirement, RequirementError>
        ensures ok { IfOk result (λ r. RequirementText text.now r) }
        ensures refused { IfErr result (λ e. e ≢ RequirementError.Memory
            → (parts : RequirementValue) → RequirementText text.now parts → ⊥) }

        // The same, over the one answer of the grammar, and which refusal it is.
        ensures exact { Gives RequirementError.Memory (λ r. r) result (requirement_of text.now) }
    {
        read_requirement(alloc, text)
    }

    /// The specifiers of the requirement that the text is, as they are written, without the
    /// parentheses round them (PEP 508, "Grammar"); `None` where it has a URL.
    ///
    /// Of a text that is no requirement it answers a refusal or any piece of it. It takes memory
    /// for the extras, and gives it back.
    #[tactic(auto, unfolding(crate::specs::Requirement::Reading::written_set_of))]
    pub fn written_set(alloc: Global, text: &str) -> Result<Option<&str>, RequirementError>
        ensures { Gives RequirementError.Memory (λ set. option_map (λ t. t.now) set) result
            (written_set_of text.now) }
    {
        let (_name, rest) = read_name(after_white(text))?;
        let (_extras, rest) = read_extras(alloc, after_white(rest))?;
        written_set(after_white(rest))
    }

    /// The name as it is written. It takes no memory.
    pub fn name(&self) -> &str
        ensures { result.now ≡ self.now.name }
    {
        self.name.as_str()
    }

    /// The extras as they are written, in order, repeats too. It takes no memory.
    pub fn extras(&self) -> &[String]
        ensures { map string_bytes result.now ≡ self.now.extras }
    {
        &self.extras
    }

    /// The specifiers, none where the requirement has a URL. It takes no memory.
    pub fn set(&self) -> &SpecifierSet
        ensures { result.now ≡ self.now.set }
    {
        &self.set
    }

    /// The URL. It takes no memory.
    pub fn url(&self) -> Option<&str>
        ensures { option_map (λ url. url.now) result ≡ self.now.url }
    {
        Some(self.url.as_ref()?.as_str())
    }

    /// The marker. It takes no memory.
    pub fn marker(&self) -> Option<&Marker>
        ensures { option_map (λ marker. marker.now) result ≡ self.now.marker }
    {
        self.marker.as_ref()
    }
}

/// A copy takes memory as the requirement did. Nothing is read again.
impl Clone for Requirement {
    ghost is_clone = { λ requirement copy. copy ≡ requirement };

    fn clone(&self) -> Result<Requirement, AllocError> {
        Ok(Requirement {
            name: self.name.clone()?,
            extras: self.extras.clone()?,
            set: self.set.clone()?,
            url: self.url.clone()?,
            marker: copy_marker(&self.marker)?,
        })
    }
}

#[tactic(auto, unfolding(crate::specs::Requirement::Reading::requirement_of))]
fn read_requirement(alloc: Global, text: &str) -> Result<Requirement, RequirementError>
    ensures { Gives RequirementError.Memory (λ r. r) result (requirement_of text.now) }
{
    let (name, rest) = read_name(after_white(text))?;
    let (extras, rest) = read_extras(alloc, after_white(rest))?;
    let source = read_source(alloc, after_white(rest))?;
    let marker = read_marker_part(alloc, source.marker)?;
    Ok(Requirement {
        name: String::from_str(alloc, name)?,
        extras,
        set: source.set,
        url: own_text(alloc, source.url)?,
        marker,
    })
}

/// The text in memory of its own, if there is one.
fn own_text(alloc: Global, text: Option<&str>) -> Result<Option<String>, AllocError>
    ensures { IfOk result
        (λ own. option_map string_bytes own ≡ option_map (λ t. t.now) text.entry) }
{
    let Some(text) = text else { return Ok(None) };
    Ok(Some(String::from_str(alloc, text)?))
}

/// The same marker in memory of its own, if there is one.
fn copy_marker(marker: &Option<Marker>) -> Result<Option<Marker>, AllocError>
    ensures { IfOk result (λ copy. copy ≡ marker.now) }
{
    match marker {
        Some(marker) => Ok(Some(marker.clone()?)),
        None => Ok(None),
    }
}

/// The marker of the text, if there is one; no text of its is refused but as `Marker`.
fn read_marker_part(alloc: Global, text: Option<&str>) -> Result<Option<Marker>, RequirementError>
    ensures { Gives RequirementError.Memory (λ marker. marker) result
        (marker_in (option_map (λ t. t.now) text.entry)) }
{
    let Some(text) = text else { return Ok(None) };
    match Marker::parse(alloc, text) {
        Ok(marker) => Ok(Some(marker)),
        Err(MarkerError::Memory) => Err(RequirementError::Memory),
        Err(MarkerError::TooDeep | MarkerError::Syntax | MarkerError::SetMisuse) => {
            Err(RequirementError::Marker)
        }
    }
}
