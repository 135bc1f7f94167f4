//! The parts of texts that are read by themselves.

ghost use Rattle.std.specs.Prelude.{◌≡◌, IfOk, OnOk, codes, map, string_bytes};
ghost use Rattle.std.specs.Option.{option_copied};
ghost use Rattle.serde_json.specs.Data.{string};
ghost use Rattle.serde_json.specs.View.{members_view, view as data_of};
ghost use Rattle.pylock_json.specs.Json.{members_of, object_of, with_row};
ghost use Rattle.pyver_core.specs.Name.{normal_name};
ghost use Rattle.pywheel_core.specs.Tag.{tag_text};
ghost use Rattle.pylock_documents.specs.Texts.{names_data, requirement_parts, requirement_rows};
ghost use Rattle.pylock_documents.specs.Texts.{sdist_parts, sdist_rows, specifiers_text};
ghost use Rattle.pylock_documents.specs.Texts.{wheel_parts, wheel_rows};

use pylock_json::{Json, List, Object};
use pymark_core::Requirement;
use pyver_core::{SpecifierSet, normal_name};
use pywheel_core::{SdistName, Tag, WheelName};
use std::alloc::{AllocError, Global};

/// The document of a requirement (PEP 508): its name and its extras in normal form, the normal text
/// of its specifier set, its URL and its marker. It takes memory for the object.
pub fn requirement_document(alloc: Global, requirement: &Requirement) -> Result<Object, AllocError>
    ensures { IfOk result (λ object. members_view object
        ≡ members_of (requirement_rows requirement.now)) }
{
    let parts = requirement_object(alloc, requirement)?;
    let mut object = Object::new(alloc);
    object.put(alloc, "requirement", parts)?;
    Ok(object)
}

fn requirement_object(alloc: Global, requirement: &Requirement) -> Result<Json, AllocError>
    ensures { IfOk result (λ json. data_of json
        ≡ object_of (requirement_parts requirement.now)) }
{
    let name = normal_name(alloc, requirement.name())?;
    let marker = requirement.marker().map(|marker| marker.text());
    let mut object = Object::new(alloc);
    object.put_text(alloc, "name", name.as_str())?;
    put_extras(alloc, &mut object, requirement.extras())?;
    object.put_maybe(alloc, "specifier", specifiers_text(requirement.set()))?;
    object.put_maybe(alloc, "url", requirement.url())?;
    object.put_maybe(alloc, "marker", marker)?;
    Ok(object.into_json())
}

/// Puts the normal forms of the extras, where there are any.
fn put_extras(alloc: Global, object: &mut Object, extras: &[String]) -> Result<(), AllocError>
    ensures { OnOk result (members_view object.new
        ≡ with_row (codes "extras", names_data (map string_bytes extras.now))
        (members_view object.old)) }
{
    if extras.is_empty() {
        return Ok(());
    }
    let names = normal_names(alloc, extras)?;
    object.put(alloc, "extras", names.into_json())
}

fn normal_names(alloc: Global, names: &[String]) -> Result<List, AllocError>
    ensures { IfOk result (λ list. map data_of list
        ≡ map string (map normal_name (map string_bytes names.now))) }
{
    let mut list = List::new(alloc);
    for name in names {
        let normal = normal_name(alloc, name.as_str())?;
        list.push_text(alloc, normal.as_str())?;
    }
    Ok(list)
}

/// The normal text of a specifier set, where it isn't empty. It takes no memory.
pub fn specifiers_text(set: &SpecifierSet) -> Option<&str>
    ensures { option_copied result ≡ specifiers_text set.now }
{
    if set.items().is_empty() {
        return None;
    }
    Some(set.text())
}

/// The document of the file name of a wheel (PEP 427): its name in normal form, the normal form of
/// its version, its build tag as written, and its tags. It takes memory for the object.
pub fn wheel_document(alloc: Global, wheel: &WheelName) -> Result<Object, AllocError>
    ensures { IfOk result (λ object. members_view object ≡ members_of (wheel_rows wheel.now)) }
{
    let parts = wheel_object(alloc, wheel)?;
    let mut object = Object::new(alloc);
    object.put(alloc, "wheel", parts)?;
    Ok(object)
}

fn wheel_object(alloc: Global, wheel: &WheelName) -> Result<Json, AllocError>
    ensures { IfOk result (λ json. data_of json ≡ object_of (wheel_parts wheel.now)) }
{
    let name = normal_name(alloc, wheel.name())?;
    let tags = tags_list(alloc, wheel.tags())?;
    let mut object = Object::new(alloc);
    object.put_text(alloc, "name", name.as_str())?;
    object.put_text(alloc, "version", wheel.version().text())?;
    object.put_maybe(alloc, "build", wheel.build_text())?;
    object.put(alloc, "tags", tags.into_json())?;
    Ok(object.into_json())
}

/// The texts of the tags.
pub(crate) fn tags_list(alloc: Global, tags: &[Tag]) -> Result<List, AllocError>
    ensures { IfOk result (λ list. map data_of list ≡ map string (map tag_text tags.now)) }
{
    let mut list = List::new(alloc);
    for tag in tags {
        let text = format!(in alloc; "{tag}")?;
        list.push_text(alloc, text.as_str())?;
    }
    Ok(list)
}

/// The document of the file name of an sdist (PEP 625): its name and its version in normal form. It
/// takes memory for the object.
pub fn sdist_document(alloc: Global, sdist: &SdistName) -> Result<Object, AllocError>
    ensures { IfOk result (λ object. members_view object ≡ members_of (sdist_rows sdist.now)) }
{
    let parts = sdist_object(alloc, sdist)?;
    let mut object = Object::new(alloc);
    object.put(alloc, "sdist", parts)?;
    Ok(object)
}

fn sdist_object(alloc: Global, sdist: &SdistName) -> Result<Json, AllocError>
    ensures { IfOk result (λ json. data_of json ≡ object_of (sdist_parts sdist.now)) }
{
    let mut object = Object::new(alloc);
    object.put_text(alloc, "name", sdist.name())?;
    object.put_text(alloc, "version", sdist.version().text())?;
    Ok(object.into_json())
}
