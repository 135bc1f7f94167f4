//! Whether an installed project is what a pick of the plan says.

ghost use Rattle.std.specs.Prelude.{◌≡◌, IfOk, codes};
ghost use Rattle.std.specs.Option.{option_copied};
ghost use Rattle.std.specs.Result.{result_ok};
ghost use Rattle.pyver_core.specs.Parsed.{parsed_version};
ghost use Rattle.pylock_readers.specs.Text.{text_pairs};
ghost use Rattle.pylock_core.specs.Session.Picks.{lent_source};
ghost use Rattle.pylock_installed.specs.Picked.{directory_kind, has_version, hash_by, is_at};
ghost use Rattle.pylock_installed.specs.Picked.{is_file, is_from, is_picked, is_same_version};
ghost use Rattle.pylock_installed.specs.Picked.{may_equal};

use crate::origin::Origin;
use crate::project::Project;
use pylock_core::{Entry, PickSource, PickedSource};
use pytext::Text;
use pyver_core::{Version, VersionError};
use std::alloc::{AllocError, Global};

/// Whether the project, which has the entry's name, is what is picked of the entry. It takes memory
/// for two versions.
pub(crate) fn is_picked(
    alloc: Global,
    entry: &Entry,
    picked: PickSource,
    project: &Project,
) -> Result<bool, AllocError>
    ensures { IfOk result (λ is. is ≡ is_picked entry.now picked project.now) }
{
    if !has_version(alloc, entry.version(), project.version())? {
        return Ok(false);
    }
    match picked.of(entry) {
        Some(source) => Ok(is_from(source, project.origin())),
        None => Ok(false),
    }
}

/// Whether the version is the one that is wanted, if one is.
fn has_version(alloc: Global, wanted: Option<&str>, version: &str) -> Result<bool, AllocError>
    ensures { IfOk result (λ has. has ≡ has_version (option_copied wanted.entry) version.now) }
{
    match wanted {
        Some(wanted) => is_same_version(alloc, wanted, version),
        None => Ok(true),
    }
}

/// Whether the texts are the same version (PEP 440).
#[tactic(auto, unfolding(crate::specs::Picked::is_same_version))]
fn is_same_version(alloc: Global, text: &str, other: &str) -> Result<bool, AllocError>
    ensures { IfOk result (λ same. same ≡ is_same_version text.now other.now) }
{
    let version = version_of(alloc, text)?;
    let other_version = version_of(alloc, other)?;
    match (version, other_version) {
        (Some(version), Some(other)) => Ok(version == other),
        _ => Ok(text == other),
    }
}

/// The version that the text is, if it is one.
fn version_of(alloc: Global, text: &str) -> Result<Option<Version>, AllocError>
    ensures { IfOk result (λ version. version ≡ result_ok (parsed_version text.now)) }
{
    match Version::parse(alloc, text) {
        Ok(version) => Ok(Some(version)),
        Err(VersionError::Memory) => Err(AllocError),
        Err(_) => Ok(None),
    }
}

/// Whether a project from there may be of the source.
#[tactic(auto, unfolding(crate::specs::Picked::is_from))]
fn is_from(source: PickedSource<'_>, origin: &Origin) -> bool
    ensures { result ≡ is_from (lent_source source.entry) origin.now }
{
    match origin {
        Origin::Untold => true,
        Origin::Index => is_file(source),
        Origin::Checkout { commit_id } => is_at(source, commit_id.as_str()),
        Origin::Directory { editable } => source.word() == directory_kind(*editable),
        Origin::File { sha256 } => is_file(source) && may_have(source.hashes(), sha256),
    }
}

/// Whether the source is a wheel, an sdist or an archive.
fn is_file(source: PickedSource<'_>) -> bool
    ensures { result ≡ is_file (lent_source source.entry) }
{
    !source.is_unhashed()
}

/// Whether the source is a checkout of the commit.
fn is_at(source: PickedSource<'_>, commit_id: &str) -> bool
    ensures { result ≡ is_at (lent_source source.entry) commit_id.now }
{
    match source.commit_id() {
        Some(picked) => commit_id == picked,
        None => false,
    }
}

/// The kind of a directory, by whether it is installed in place.
fn directory_kind(editable: bool) -> &'static str
    ensures { result.now ≡ directory_kind editable }
{
    if editable { "editable" } else { "directory" }
}

/// Whether a file with these hashes may have the hash of SHA-256: not where it has another.
fn may_have(hashes: &[(String, String)], sha256: &Option<Text>) -> bool
    ensures { result ≡ may_equal sha256.now (hash_by (codes "sha256") (text_pairs hashes.now)) }
{
    match (sha256, hash_by("sha256", hashes)) {
        (Some(sha256), Some(hash)) => sha256.as_str() == hash,
        _ => true,
    }
}

/// The value of the algorithm.
fn hash_by<'a>(algorithm: &str, hashes: &'a [(String, String)]) -> Option<&'a str>
    ensures { option_copied result ≡ hash_by algorithm.now (text_pairs hashes.now) }
{
    for (name, value) in hashes {
        if algorithm == name.as_str() {
            return Some(value.as_str());
        }
    }
    None
}
