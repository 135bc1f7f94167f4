//! The bill of materials as SPDX 2.3 has it.

ghost use Rattle.std.specs.Prelude.{◌≡◌, ◌++◌, ◌∷◌, [], IfOk, OnOk, map, string_bytes};
ghost use Rattle.std.specs.List.{flat_map};
ghost use Rattle.std.specs.Option.{option_copied};
ghost use Rattle.serde_json.specs.View.{members_view, view as data_of};
ghost use Rattle.pylock_json.specs.Json.{members_of, object_of};
ghost use Rattle.pylock_readers.specs.Text.{text_pair, text_pairs};
ghost use Rattle.pylock_core.specs.Session.Picks.{lent_source};
ghost use Rattle.pylock_metadata.specs.View.{dependent_view, dependents_view};
ghost use Rattle.pylock_bill.specs.Spdx.{checksum_data, checksum_rows, creation_rows};
ghost use Rattle.pylock_bill.specs.Spdx.{asserted, depends_data, depends_rows, location_text};
ghost use Rattle.pylock_bill.specs.Spdx.{package_data, package_id, purl_rows, relationship_data};
ghost use Rattle.pylock_bill.specs.Spdx.{relationship_rows, relationships_data, spdx_rows};
ghost use Rattle.pylock_bill.specs.Spdx.{url_location};
ghost use Rattle.pylock_bill.specs.Purl.{purl};
ghost use Rattle.pylock_bill.specs.Source.{of_pick};

use crate::hash::{Algorithm, Hash, hash_algorithm};
use crate::purl::{normal_version_of, purl_of};
use crate::source::{has_uri_characters, source_url};
use pylock_core::{Entry, Pick, PickedSource, Plan, Session};
use pylock_json::{Json, List, Object};
use pylock_metadata::Dependent;
use std::alloc::{AllocError, Global};

/// The bill of materials of a plan as SPDX 2.3 has it, made at this time and with this namespace: a
/// package of each pick, in order, and what these of them depend on, which
/// [`dependencies`](pylock_metadata::dependencies) makes. Both texts are taken as they are;
/// [`namespace_of`](crate::namespace_of) makes the second. A URL in which something may be a secret
/// is left out, and so is a hash whose algorithm CycloneDX or SPDX has no name for. It takes memory
/// for the object.
pub fn spdx_document(
    alloc: Global,
    session: &Session,
    plan: &Plan,
    dependencies: &[Dependent],
    created: &str,
    namespace: &str,
) -> Result<Object, AllocError>
    ensures { IfOk result (λ object. members_view object ≡ members_of
        (spdx_rows session.now.state plan.now (dependents_view dependencies.now) created.now
        namespace.now)) }
{
    let creation = creation_object(alloc, created)?;
    let packages = packages_list(alloc, session, plan.picks())?;
    let relationships = relationships_list(alloc, session, plan.picks(), dependencies)?;
    let mut object = Object::new(alloc);
    object.put_text(alloc, "spdxVersion", "SPDX-2.3")?;
    object.put_text(alloc, "dataLicense", "CC0-1.0")?;
    object.put_text(alloc, "SPDXID", "SPDXRef-DOCUMENT")?;
    object.put_text(alloc, "name", "pylock")?;
    object.put_text(alloc, "documentNamespace", namespace)?;
    object.put(alloc, "creationInfo", creation)?;
    object.put(alloc, "packages", packages.into_json())?;
    object.put(alloc, "relationships", relationships.into_json())?;
    Ok(object)
}

fn creation_object(alloc: Global, created: &str) -> Result<Json, AllocError>
    ensures { IfOk result (λ json. data_of json ≡ object_of (creation_rows created.now)) }
{
    let mut creators = List::new(alloc);
    creators.push_text(alloc, "Tool: pylock")?;
    let mut object = Object::new(alloc);
    object.put_text(alloc, "created", created)?;
    object.put(alloc, "creators", creators.into_json())?;
    Ok(object.into_json())
}

// ---- packages

fn packages_list(alloc: Global, session: &Session, picks: &[Pick]) -> Result<List, AllocError>
    ensures { IfOk result (λ list. map data_of list
        ≡ flat_map (of_pick package_data session.now.state) picks.now) }
{
    let mut list = List::new(alloc);
    for pick in picks {
        push_package(alloc, &mut list, session, pick)?;
    }
    Ok(list)
}

/// Adds the package of a pick.
fn push_package(
    alloc: Global,
    list: &mut List,
    session: &Session,
    pick: &Pick,
) -> Result<(), AllocError>
    ensures { OnOk result (map data_of list.new
        ≡ map data_of list.old ++ of_pick package_data session.now.state pick.now) }
{
    let Some(entry) = session.entry(pick.id) else {
        return Ok(());
    };
    let Some(source) = pick.source.of(entry) else {
        return Ok(());
    };
    list.push(package_object(alloc, pick.id, entry, source)?)
}

#[tactic(auto, unfolding(crate::specs::Spdx::package_rows))]
fn package_object(
    alloc: Global,
    number: u32,
    entry: &Entry,
    source: PickedSource<'_>,
) -> Result<Json, AllocError>
    ensures { IfOk result (λ json. data_of json
        ≡ package_data number entry.now (lent_source source.entry)) }
{
    let id = package_id(alloc, number)?;
    let version = normal_version_of(alloc, entry.version())?;
    let location = location_text(alloc, source)?;
    let checksums = checksums_list(alloc, source.hashes())?;
    let references = references_list(alloc, entry.name(), entry.version())?;
    let mut object = Object::new(alloc);
    object.put_text(alloc, "SPDXID", id.as_str())?;
    object.put_text(alloc, "name", entry.name())?;
    object.put_maybe(alloc, "versionInfo", version.as_deref())?;
    object.put_text(alloc, "downloadLocation", location.as_str())?;
    object.put_boolean(alloc, "filesAnalyzed", false)?;
    object.put(alloc, "checksums", checksums.into_json())?;
    object.put(alloc, "externalRefs", references.into_json())?;
    Ok(object.into_json())
}

/// The name of the package of this number within the document.
fn package_id(alloc: Global, number: u32) -> Result<String, AllocError>
    ensures { IfOk result (λ id. string_bytes id ≡ package_id number) }
{
    let id = format!(in alloc; "SPDXRef-{number}")?;
    Ok(id)
}

// ---- where a package lies

fn location_text(alloc: Global, source: PickedSource<'_>) -> Result<String, AllocError>
    ensures { IfOk result (λ text. string_bytes text
        ≡ location_text (lent_source source.entry)) }
{
    match source_url(alloc, source)? {
        Some(url) => {
            let location = url_location(alloc, source, url)?;
            asserted(alloc, location)
        }
        None => String::from_str(alloc, "NOASSERTION"),
    }
}

/// The location, if each of its characters is one that a URI may have.
fn asserted(alloc: Global, location: String) -> Result<String, AllocError>
    ensures { IfOk result (λ text. string_bytes text ≡ asserted (string_bytes location)) }
{
    if has_uri_characters(&location) {
        Ok(location)
    } else {
        String::from_str(alloc, "NOASSERTION")
    }
}

/// The URL, and of a checkout the system and the commit with it.
fn url_location(alloc: Global, source: PickedSource<'_>, url: &str) -> Result<String, AllocError>
    ensures { IfOk result (λ text. string_bytes text
        ≡ url_location (lent_source source.entry) url.now) }
{
    let Some(vcs) = source.vcs() else {
        return String::from_str(alloc, url);
    };
    let mut text = String::from_str(alloc, vcs.kind())?;
    text.push_str("+")?;
    text.push_str(url)?;
    text.push_str("@")?;
    text.push_str(vcs.commit_id())?;
    Ok(text)
}

// ---- checksums

fn checksums_list(alloc: Global, hashes: &[Hash]) -> Result<List, AllocError>
    ensures { IfOk result (λ list. map data_of list
        ≡ flat_map checksum_data (text_pairs hashes.now)) }
{
    let mut list = List::new(alloc);
    for hash in hashes {
        push_checksum(alloc, &mut list, hash)?;
    }
    Ok(list)
}

/// Adds a hash, where both standards have its algorithm and the value is one of it.
fn push_checksum(alloc: Global, list: &mut List, hash: &Hash) -> Result<(), AllocError>
    ensures { OnOk result (map data_of list.new
        ≡ map data_of list.old ++ checksum_data (text_pair hash.now)) }
{
    match hash_algorithm(hash) {
        Some(algorithm) => list.push(checksum_object(alloc, algorithm, hash.1.as_str())?),
        None => Ok(()),
    }
}

fn checksum_object(alloc: Global, algorithm: Algorithm, value: &str) -> Result<Json, AllocError>
    ensures { IfOk result (λ json. data_of json ≡ object_of (checksum_rows value.now algorithm)) }
{
    let lower = value.to_ascii_lowercase(alloc)?;
    let mut object = Object::new(alloc);
    object.put_text(alloc, "algorithm", algorithm.spdx_word())?;
    object.put_text(alloc, "checksumValue", lower.as_str())?;
    Ok(object.into_json())
}

// ---- external references

/// The package URL, as the one reference.
fn references_list(alloc: Global, name: &str, version: Option<&str>) -> Result<List, AllocError>
    ensures { IfOk result (λ list. map data_of list
        ≡ object_of (purl_rows (purl name.now (option_copied version.entry))) ∷ []) }
{
    let purl = purl_of(alloc, name, version)?;
    let mut object = Object::new(alloc);
    object.put_text(alloc, "referenceCategory", "PACKAGE-MANAGER")?;
    object.put_text(alloc, "referenceType", "purl")?;
    object.put_text(alloc, "referenceLocator", purl.as_str())?;
    let mut list = List::new(alloc);
    list.push(object.into_json())?;
    Ok(list)
}

// ---- relationships

fn relationships_list(
    alloc: Global,
    session: &Session,
    picks: &[Pick],
    dependencies: &[Dependent],
) -> Result<List, AllocError>
    ensures { IfOk result (λ list. map data_of list ≡ relationships_data session.now.state
        picks.now (dependents_view dependencies.now)) }
{
    let mut list = described_list(alloc, session, picks)?;
    push_dependencies(alloc, &mut list, dependencies)?;
    Ok(list)
}

/// The document describes the package of each pick.
fn described_list(alloc: Global, session: &Session, picks: &[Pick]) -> Result<List, AllocError>
    ensures { IfOk result (λ list. map data_of list
        ≡ flat_map (of_pick relationship_data session.now.state) picks.now) }
{
    let mut list = List::new(alloc);
    for pick in picks {
        push_relationship(alloc, &mut list, session, pick)?;
    }
    Ok(list)
}

/// Adds that the document describes the package of a pick.
fn push_relationship(
    alloc: Global,
    list: &mut List,
    session: &Session,
    pick: &Pick,
) -> Result<(), AllocError>
    ensures { OnOk result (map data_of list.new
        ≡ map data_of list.old ++ of_pick relationship_data session.now.state pick.now) }
{
    let Some(entry) = session.entry(pick.id) else {
        return Ok(());
    };
    if pick.source.of(entry).is_none() {
        return Ok(());
    }
    list.push(relationship_object(alloc, pick.id)?)
}

fn relationship_object(alloc: Global, number: u32) -> Result<Json, AllocError>
    ensures { IfOk result (λ json. data_of json ≡ object_of (relationship_rows number)) }
{
    let id = package_id(alloc, number)?;
    let mut object = Object::new(alloc);
    object.put_text(alloc, "spdxElementId", "SPDXRef-DOCUMENT")?;
    object.put_text(alloc, "relationshipType", "DESCRIBES")?;
    object.put_text(alloc, "relatedSpdxElement", id.as_str())?;
    Ok(object.into_json())
}

/// Adds what packages depend on.
fn push_dependencies(
    alloc: Global,
    list: &mut List,
    dependencies: &[Dependent],
) -> Result<(), AllocError>
    ensures { OnOk result (map data_of list.new ≡ map data_of list.old
        ++ flat_map depends_data (dependents_view dependencies.now)) }
{
    for dependent in dependencies {
        push_dependent(alloc, list, dependent)?;
    }
    Ok(())
}

/// Adds the packages that one depends on.
fn push_dependent(alloc: Global, list: &mut List, dependent: &Dependent) -> Result<(), AllocError>
    ensures { OnOk result (map data_of list.new ≡ map data_of list.old
        ++ depends_data (dependent_view dependent.now)) }
{
    for other in &dependent.depends_on {
        list.push(depends_object(alloc, dependent.number, *other)?)?;
    }
    Ok(())
}

fn depends_object(alloc: Global, number: u32, other: u32) -> Result<Json, AllocError>
    ensures { IfOk result (λ json. data_of json ≡ object_of (depends_rows number other)) }
{
    let id = package_id(alloc, number)?;
    let other = package_id(alloc, other)?;
    let mut object = Object::new(alloc);
    object.put_text(alloc, "spdxElementId", id.as_str())?;
    object.put_text(alloc, "relationshipType", "DEPENDS_ON")?;
    object.put_text(alloc, "relatedSpdxElement", other.as_str())?;
    Ok(object.into_json())
}
