//! Elements of `affected` from JSON.
ghost use Rattle.std.specs.Prelude.{◌≡◌, option_copied};
ghost use Rattle.serde_json.specs.View.{items_view, view};
ghost use Rattle.pytext.specs.Agreement.{Gives};
ghost use Rattle.pylock_advisories.specs.declared.error.AdvisoryError.TheVariants as error;
ghost use Rattle.pylock_advisories.specs.Members.{member_in, member_name, read_each};
ghost use Rattle.pylock_advisories.specs.Reading.{affected_in, if_package, is_pypi, name_in};
ghost use Rattle.pylock_advisories.specs.declared.error.Member.TheVariants as member;

use super::member::{member, objects, text, texts};
use super::range::read_ranges;
use crate::error::{AdvisoryError, Member};
use crate::package::AffectedPackage;
use pyver_core::NormalName;
use serde_json::Value;
use std::alloc::Global;

/// The elements among these values that are of packages of PyPI.
#[tactic(auto, using(crate::proofs::PrefixLemmas::prefixes))]
pub(super) fn read_elements(
    alloc: Global,
    values: &[Value],
) -> Result<Vec<AffectedPackage>, AdvisoryError>
    ensures { Gives error.Memory (λ elements. elements.items) result
        (read_each affected_in (items_view values.now)) }
{
    let mut elements = Vec::new(alloc);
    for value in values {
        if let Some(element) = read_element(alloc, value)? {
            elements.push(element)?;
        }
    }
    Ok(elements)
}

/// The element, if it is of a package of PyPI.
#[tactic(auto, unfolding(crate::specs::Reading::affected_in))]
fn read_element(alloc: Global, value: &Value) -> Result<Option<AffectedPackage>, AdvisoryError>
    ensures { Gives error.Memory (λ element. element) result (affected_in (view value.now)) }
{
    let name = read_package(alloc, value)?;
    let texts = texts(alloc, value, Member::Versions)?;
    let values = objects(value, Member::Ranges)?;
    let ranges = read_ranges(alloc, values)?;
    match name {
        Some(name) => Ok(Some(AffectedPackage::new(alloc, name, &texts, ranges)?)),
        None => Ok(None),
    }
}

/// The name of the element's package, if that is of PyPI.
fn read_package(alloc: Global, value: &Value) -> Result<Option<NormalName>, AdvisoryError>
    ensures { Gives error.Memory (λ name. name) result
        (if_package (member_in (member_name member.Package) (view value.now))) }
{
    match member(value, Member::Package.as_str()) {
        None => Ok(None),
        Some(package) if package.is_object() => read_name(alloc, package),
        Some(_) => Err(AdvisoryError::Member(Member::Package)),
    }
}

#[tactic(auto, unfolding(crate::specs::Reading::name_in))]
fn read_name(alloc: Global, value: &Value) -> Result<Option<NormalName>, AdvisoryError>
    ensures { Gives error.Memory (λ name. name) result (name_in (view value.now)) }
{
    let ecosystem = text(value, Member::Ecosystem)?;
    let name = text(value, Member::Name)?;
    match (ecosystem, name) {
        (Some(ecosystem), Some(name)) if is_pypi(ecosystem) => {
            Ok(Some(NormalName::new(alloc, name)?))
        }
        _ => Ok(None),
    }
}

/// Whether an ecosystem is PyPI, which a `:` and more may follow.
fn is_pypi(ecosystem: &str) -> bool
    ensures { result ≡ is_pypi ecosystem.now }
{
    ecosystem == "PyPI" || ecosystem.as_bytes().starts_with(b"PyPI:")
}
