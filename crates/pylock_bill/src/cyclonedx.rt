//! The bill of materials as CycloneDX 1.6 has it.

ghost use Rattle.std.specs.Prelude.{◌≡◌, ◌++◌, IfOk, OnOk, codes, map, string_bytes};
ghost use Rattle.std.specs.List.{flat_map};
ghost use Rattle.serde_json.specs.Data.{string};
ghost use Rattle.serde_json.specs.View.{members_view, view as data_of};
ghost use Rattle.pylock_json.specs.Json.{members_of, object_of, with_row};
ghost use Rattle.pylock_readers.specs.Text.{text_pair, text_pairs};
ghost use Rattle.pylock_core.specs.Session.Picks.{lent_source};
ghost use Rattle.pylock_metadata.specs.View.{dependent_view, dependents_view};
ghost use Rattle.pylock_bill.specs.CycloneDx.{component_data, component_reference};
ghost use Rattle.pylock_bill.specs.CycloneDx.{cyclonedx_rows, dependencies_data, dependency_data};
ghost use Rattle.pylock_bill.specs.CycloneDx.{hash_data, hash_rows};
ghost use Rattle.pylock_bill.specs.CycloneDx.{metadata_rows, reference_rows, reference_word};
ghost use Rattle.pylock_bill.specs.CycloneDx.{references, tool_rows, tools_rows};
ghost use Rattle.pylock_bill.specs.Source.{of_pick};

use crate::hash::{Algorithm, Hash, hash_algorithm};
use crate::purl::{normal_version_of, purl_of};
use crate::source::source_url;
use pylock_core::{Entry, Pick, PickedSource, Plan, Session};
use pylock_json::{Json, List, Object};
use pylock_metadata::Dependent;
use std::alloc::{AllocError, Global};

/// The bill of materials of a plan as CycloneDX 1.6 has it: a component of each pick, in order, and
/// what these of them depend on, which [`dependencies`](pylock_metadata::dependencies) makes. It
/// has neither a serial number nor a time, so the same plan gives the same document. A URL in which
/// something may be a secret is left out, and so is a hash whose algorithm CycloneDX or SPDX has no
/// name for. It takes memory for the object.
pub fn cyclonedx_document(
    alloc: Global,
    session: &Session,
    plan: &Plan,
    dependencies: &[Dependent],
) -> Result<Object, AllocError>
    ensures { IfOk result (λ object. members_view object ≡ members_of
        (cyclonedx_rows session.now.state plan.now (dependents_view dependencies.now))) }
{
    let metadata = metadata_object(alloc)?;
    let components = components_list(alloc, session, plan.picks())?;
    let mut object = Object::new(alloc);
    object.put_text(alloc, "bomFormat", "CycloneDX")?;
    object.put_text(alloc, "specVersion", "1.6")?;
    object.put_number(alloc, "version", 1)?;
    object.put(alloc, "metadata", metadata)?;
    object.put(alloc, "components", components.into_json())?;
    put_dependencies(alloc, &mut object, dependencies)?;
    Ok(object)
}

// ---- metadata

fn metadata_object(alloc: Global) -> Result<Json, AllocError>
    ensures { IfOk result (λ json. data_of json ≡ object_of metadata_rows) }
{
    let mut object = Object::new(alloc);
    object.put(alloc, "tools", tools_object(alloc)?)?;
    Ok(object.into_json())
}

fn tools_object(alloc: Global) -> Result<Json, AllocError>
    ensures { IfOk result (λ json. data_of json ≡ object_of tools_rows) }
{
    let mut list = List::new(alloc);
    list.push(tool_object(alloc)?)?;
    let mut object = Object::new(alloc);
    object.put(alloc, "components", list.into_json())?;
    Ok(object.into_json())
}

fn tool_object(alloc: Global) -> Result<Json, AllocError>
    ensures { IfOk result (λ json. data_of json ≡ object_of tool_rows) }
{
    let mut object = Object::new(alloc);
    object.put_text(alloc, "type", "application")?;
    object.put_text(alloc, "name", "pylock")?;
    Ok(object.into_json())
}

// ---- components

fn components_list(alloc: Global, session: &Session, picks: &[Pick]) -> Result<List, AllocError>
    ensures { IfOk result (λ list. map data_of list
        ≡ flat_map (of_pick component_data session.now.state) picks.now) }
{
    let mut list = List::new(alloc);
    for pick in picks {
        push_component(alloc, &mut list, session, pick)?;
    }
    Ok(list)
}

/// Adds the component of a pick.
fn push_component(
    alloc: Global,
    list: &mut List,
    session: &Session,
    pick: &Pick,
) -> Result<(), AllocError>
    ensures { OnOk result (map data_of list.new
        ≡ map data_of list.old ++ of_pick component_data session.now.state pick.now) }
{
    let Some(entry) = session.entry(pick.id) else {
        return Ok(());
    };
    let Some(source) = pick.source.of(entry) else {
        return Ok(());
    };
    list.push(component_object(alloc, pick.id, entry, source)?)
}

#[tactic(auto, unfolding(crate::specs::CycloneDx::component_rows))]
fn component_object(
    alloc: Global,
    number: u32,
    entry: &Entry,
    source: PickedSource<'_>,
) -> Result<Json, AllocError>
    ensures { IfOk result (λ json. data_of json
        ≡ component_data number entry.now (lent_source source.entry)) }
{
    let reference = component_reference(alloc, number)?;
    let version = normal_version_of(alloc, entry.version())?;
    let purl = purl_of(alloc, entry.name(), entry.version())?;
    let hashes = hashes_list(alloc, source.hashes())?;
    let references = references_list(alloc, source)?;
    let mut object = Object::new(alloc);
    object.put_text(alloc, "type", "library")?;
    object.put_text(alloc, "bom-ref", reference.as_str())?;
    object.put_text(alloc, "name", entry.name())?;
    object.put_maybe(alloc, "version", version.as_deref())?;
    object.put_text(alloc, "purl", purl.as_str())?;
    object.put(alloc, "hashes", hashes.into_json())?;
    object.put(alloc, "externalReferences", references.into_json())?;
    Ok(object.into_json())
}

/// The name of the component of this number within the document.
fn component_reference(alloc: Global, number: u32) -> Result<String, AllocError>
    ensures { IfOk result (λ text. string_bytes text ≡ component_reference number) }
{
    let text = format!(in alloc; "pylock-{number}")?;
    Ok(text)
}

// ---- dependencies

/// Puts the list of what components depend on, where it isn't empty.
fn put_dependencies(
    alloc: Global,
    object: &mut Object,
    dependencies: &[Dependent],
) -> Result<(), AllocError>
    ensures { OnOk result (members_view object.new ≡ with_row
        (codes "dependencies", dependencies_data (dependents_view dependencies.now))
        (members_view object.old)) }
{
    if dependencies.is_empty() {
        return Ok(());
    }
    let list = dependencies_list(alloc, dependencies)?;
    object.put(alloc, "dependencies", list.into_json())
}

fn dependencies_list(alloc: Global, dependencies: &[Dependent]) -> Result<List, AllocError>
    ensures { IfOk result (λ list. map data_of list
        ≡ map dependency_data (dependents_view dependencies.now)) }
{
    let mut list = List::new(alloc);
    for dependent in dependencies {
        list.push(dependency_object(alloc, dependent)?)?;
    }
    Ok(list)
}

fn dependency_object(alloc: Global, dependent: &Dependent) -> Result<Json, AllocError>
    ensures { IfOk result (λ json. data_of json
        ≡ dependency_data (dependent_view dependent.now)) }
{
    let reference = component_reference(alloc, dependent.number)?;
    let others = component_references(alloc, &dependent.depends_on)?;
    let mut object = Object::new(alloc);
    object.put_text(alloc, "ref", reference.as_str())?;
    object.put(alloc, "dependsOn", others.into_json())?;
    Ok(object.into_json())
}

fn component_references(alloc: Global, numbers: &[u32]) -> Result<List, AllocError>
    ensures { IfOk result (λ list. map data_of list
        ≡ map string (map component_reference numbers.now)) }
{
    let mut list = List::new(alloc);
    for number in numbers {
        let reference = component_reference(alloc, *number)?;
        list.push_text(alloc, reference.as_str())?;
    }
    Ok(list)
}

// ---- hashes

fn hashes_list(alloc: Global, hashes: &[Hash]) -> Result<List, AllocError>
    ensures { IfOk result (λ list. map data_of list
        ≡ flat_map hash_data (text_pairs hashes.now)) }
{
    let mut list = List::new(alloc);
    for hash in hashes {
        push_hash(alloc, &mut list, hash)?;
    }
    Ok(list)
}

/// Adds a hash, where both standards have its algorithm and the value is one of it.
fn push_hash(alloc: Global, list: &mut List, hash: &Hash) -> Result<(), AllocError>
    ensures { OnOk result (map data_of list.new
        ≡ map data_of list.old ++ hash_data (text_pair hash.now)) }
{
    match hash_algorithm(hash) {
        Some(algorithm) => list.push(hash_object(alloc, algorithm, hash.1.as_str())?),
        None => Ok(()),
    }
}

fn hash_object(alloc: Global, algorithm: Algorithm, value: &str) -> Result<Json, AllocError>
    ensures { IfOk result (λ json. data_of json ≡ object_of (hash_rows value.now algorithm)) }
{
    let lower = value.to_ascii_lowercase(alloc)?;
    let mut object = Object::new(alloc);
    object.put_text(alloc, "alg", algorithm.cyclonedx_word())?;
    object.put_text(alloc, "content", lower.as_str())?;
    Ok(object.into_json())
}

// ---- external references

fn references_list(alloc: Global, source: PickedSource<'_>) -> Result<List, AllocError>
    ensures { IfOk result (λ list. map data_of list ≡ references (lent_source source.entry)) }
{
    let mut list = List::new(alloc);
    if let Some(url) = source_url(alloc, source)? {
        list.push(reference_object(alloc, source, url)?)?;
    }
    Ok(list)
}

fn reference_object(alloc: Global, source: PickedSource<'_>, url: &str) -> Result<Json, AllocError>
    ensures { IfOk result (λ json. data_of json
        ≡ object_of (reference_rows (lent_source source.entry) url.now)) }
{
    let mut object = Object::new(alloc);
    object.put_text(alloc, "type", reference_word(source))?;
    object.put_text(alloc, "url", url)?;
    Ok(object.into_json())
}

fn reference_word(source: PickedSource<'_>) -> &'static str
    ensures { result.now ≡ reference_word (lent_source source.entry) }
{
    if source.vcs().is_some() {
        "vcs"
    } else {
        "distribution"
    }
}
