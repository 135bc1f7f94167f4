//! The fault of a text that is no requirement (PEP 508, "Grammar").

ghost use Rattle.std.specs.Prelude.{◌≡◌, Err, IfOk, IfSome, MatchOption, Ok, true};
ghost use Rattle.pymark_core.specs.Requirement.Reading.{requirement_of, url_len};
ghost use Rattle.pymark_core.specs.Requirement.Value.{RequirementValue};
ghost use Rattle.pymark_core.specs.declared.requirement.error.RequirementError.{RequirementError};
ghost use Rattle.pymark_expected.specs.Kinds.{belongs, is_of_declared, is_of_marker};
ghost use Rattle.pymark_expected.specs.Kinds.{is_of_grammar, is_of_marker_part, is_of_name};
ghost use Rattle.pymark_expected.specs.Requirement.{EndsAt, IsPlaceOf, IsStopWithin, behind_name};
ghost use Rattle.pymark_expected.specs.Requirement.{behind_url, marker, of_requirement, source};
ghost use Rattle.pymark_expected.specs.Requirement.{url};
ghost use Rattle.pymark_expected.specs.Stretch.{EndsWith, IsStretch};

use crate::cut::{after_byte, after_first, after_name, begins_name};
use crate::expected::Expected;
use crate::extras::extras_fault;
use crate::fault::{Fault, fault_at, fault_between, fault_within};
use crate::marker::first_fault;
use crate::set::declared_fault;
use pymark_core::{Requirement, RequirementError};
use pytext::{after_white, is_white};
use std::alloc::{AllocError, Global};

/// What was expected of a text that is no requirement, and where; nothing for a requirement.
///
/// It takes memory as [`Requirement::parse`] does.
#[tactic(auto, using(crate::proofs::KindLemmas::no_memory))]
pub fn requirement_fault(alloc: Global, text: &str) -> Result<Option<Fault>, AllocError>
    ensures verdict { IfOk result (λ fault. MatchOption fault
        ((parts : RequirementValue) × (requirement_of text.now ≡ Ok parts))
        (λ f. (error : RequirementError) × (requirement_of text.now ≡ Err error)
        × (belongs error f.expected ≡ true) × IsPlaceOf error text.now f)) }
    ensures stretch { IfOk result (λ fault. IfSome fault (λ f. IsStretch text.now f)) }
{
    match Requirement::parse(alloc, text) {
        Ok(_) => Ok(None),
        Err(error) => Ok(Some(refused(alloc, text, error)?)),
    }
}

/// The fault of a text that is refused like this.
fn refused(alloc: Global, text: &str, error: RequirementError) -> Result<Fault, AllocError>
    ensures kind { IfOk result (λ fault. belongs error fault.expected ≡ true) }
    ensures stretch { IfOk result (λ fault. IsStretch text.now fault) }
    ensures place { IfOk result (λ fault. IsPlaceOf error text.now fault) }
{
    let source = source(text);
    match error {
        RequirementError::Name => Ok(name_fault(text)),
        RequirementError::Extras => Ok(extras_fault(text, behind_name(text))),
        RequirementError::Specifier => declared_fault(alloc, text, source),
        RequirementError::Url => Ok(fault_at(text, url(source), Expected::Url)),
        RequirementError::Trailing => {
            let url = url(source);
            Ok(fault_between(text, url, behind_url(url), Expected::UrlEnd))
        }
        RequirementError::Marker => marker_part_fault(text, marker(source)),
        RequirementError::Memory => Err(AllocError),
    }
}

/// The text behind the name and white space.
fn behind_name(text: &str) -> &str
    ensures { result.now ≡ behind_name text.now }
{
    after_white(after_name(after_white(text)))
}

/// The text behind the extras and white space: the URL with its `@`, or the specifiers.
fn source(text: &str) -> &str
    ensures { result.now ≡ source text.now }
{
    let rest = behind_name(text);
    match after_byte(b'[', rest) {
        Some(extras) => after_white(after_first(']', extras)),
        None => rest,
    }
}

/// The text behind `@` and white space.
fn url(source: &str) -> &str
    ensures { result.now ≡ url source.now }
{
    after_white(after_byte(b'@', source).unwrap_or(source))
}

/// The text behind the URL and white space.
#[tactic(auto, using(pymark_core::proofs::BoundaryLemmas::boundary_after_url))]
fn behind_url(url: &str) -> &str
    ensures { result.now ≡ behind_url url.now }
{
    after_white(url.split_at(url_len(url)).1)
}

fn url_len(text: &str) -> usize
    ensures { result ≡ url_len text.now }
{
    text.as_bytes()
        .iter()
        .take_while(|b| !is_white(**b))
        .count()
}

/// The text behind the `;` in front of the marker.
fn marker(source: &str) -> &str
    ensures { result.now ≡ marker source.now }
{
    match after_byte(b'@', source) {
        Some(rest) => after_first(';', behind_url(after_white(rest))),
        None => after_first(';', source),
    }
}

/// The fault of a text that doesn't begin with a name.
#[tactic(auto, using(crate::proofs::CutLemmas::behind_name_ends))]
fn name_fault(text: &str) -> Fault
    ensures kind { is_of_name result.expected ≡ true }
    ensures stretch { IsStretch text.now result }
    ensures place { EndsAt text.now (behind_name text.now) result }
{
    let expected = if begins_name(after_white(text)) {
        Expected::NameEnd
    } else {
        Expected::Name
    };
    fault_at(text, behind_name(text), expected)
}

/// The fault of a text that ends with this marker.
fn marker_part_fault(text: &str, marker: &str) -> Result<Fault, AllocError>
    ensures kind { IfOk result (λ f. is_of_marker_part f.expected ≡ true) }
    ensures stretch { IfOk result (λ f. IsStretch text.now f) }
    ensures place { IfOk result (λ f. is_of_grammar f.expected ≡ true
        → EndsWith text.now marker.now → IsStopWithin text.now marker.now f) }
{
    let fault = fault_within(text, marker, first_fault(marker)?);
    Ok(of_requirement(fault))
}

/// The fault of a marker as that of a requirement, which ends with it.
fn of_requirement(fault: Fault) -> Fault
    ensures kind { is_of_marker fault.expected ≡ true
        → is_of_marker_part result.expected ≡ true }
    ensures expected { result.expected ≡ of_requirement fault.expected }
    ensures begin { result.begin ≡ fault.begin }
    ensures end { result.end ≡ fault.end }
{
    match fault.expected {
        Expected::MarkerEnd => Fault {
            begin: fault.begin,
            end: fault.end,
            expected: Expected::RequirementEnd,
        },
        _ => fault,
    }
}
