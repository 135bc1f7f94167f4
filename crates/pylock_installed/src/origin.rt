//! Where a project was installed from (PEP 610, "Recording the Direct URL Origin of installed
//! distributions").

ghost use Rattle.std.specs.Prelude.{◌≡◌, IfOk, option_map};
ghost use Rattle.std.specs.Option.{option_copied};
ghost use Rattle.serde_json.specs.View.{view as data_of};
ghost use Rattle.pylock_installed.specs.Element.{checkout_in, direct_origin, directory_in, file_in};
ghost use Rattle.pylock_installed.specs.Element.{is_editable, origin_of, sha256_in, text_at};

use pytext::Text;
use serde_json::Value;
use std::alloc::{AllocError, Global};

/// Where a project was installed from.
#[derive(Debug, Drop)]
pub enum Origin {
    /// The list doesn't tell it of any project.
    Untold,
    /// An index: the project has no direct URL.
    Index,
    /// A checkout of a version control system.
    Checkout {
        /// The hash of its commit.
        commit_id: Text,
    },
    /// A directory.
    Directory {
        /// Whether it is installed in place.
        editable: bool,
    },
    /// A file: a wheel, an sdist or another archive.
    File {
        /// Its hash of SHA-256, where it is told.
        sha256: Option<Text>,
    },
}

/// The member of the key, where it is a text.
pub(crate) fn text_at<'a>(value: &'a Value, key: &str) -> Option<&'a str>
    ensures { option_copied result ≡ text_at key.now (data_of value.now) }
{
    value.get(key)?.as_str()
}

/// The origin that a direct URL says, if there is one. It takes memory for what it keeps.
pub(crate) fn origin_of(alloc: Global, url: Option<&Value>) -> Result<Option<Origin>, AllocError>
    ensures { IfOk result (λ origin. origin
        ≡ origin_of (option_map (λ url. data_of url.now) url.entry)) }
{
    match url {
        Some(url) => direct_origin(alloc, url),
        None => Ok(Some(Origin::Index)),
    }
}

#[tactic(auto, unfolding(crate::specs::Element::direct_origin))]
fn direct_origin(alloc: Global, url: &Value) -> Result<Option<Origin>, AllocError>
    ensures { IfOk result (λ origin. origin ≡ direct_origin (data_of url.now)) }
{
    if let Some(checkout) = checkout_in(alloc, url)? {
        return Ok(Some(checkout));
    }
    if let Some(directory) = directory_in(url) {
        return Ok(Some(directory));
    }
    file_in(alloc, url)
}

fn checkout_in(alloc: Global, url: &Value) -> Result<Option<Origin>, AllocError>
    ensures { IfOk result (λ origin. origin ≡ checkout_in (data_of url.now)) }
{
    let Some(info) = url.get("vcs_info") else {
        return Ok(None);
    };
    let Some(commit_id) = text_at(info, "commit_id") else {
        return Ok(None);
    };
    Ok(Some(Origin::Checkout {
        commit_id: Text::copy_of(alloc, commit_id)?,
    }))
}

fn directory_in(url: &Value) -> Option<Origin>
    ensures { result ≡ directory_in (data_of url.now) }
{
    let info = url.get("dir_info")?;
    Some(Origin::Directory {
        editable: is_editable(info),
    })
}

fn is_editable(info: &Value) -> bool
    ensures { result ≡ is_editable (data_of info.now) }
{
    match info.get("editable") {
        Some(value) => value.as_bool().unwrap_or(false),
        None => false,
    }
}

fn file_in(alloc: Global, url: &Value) -> Result<Option<Origin>, AllocError>
    ensures { IfOk result (λ origin. origin ≡ file_in (data_of url.now)) }
{
    let Some(info) = url.get("archive_info") else {
        return Ok(None);
    };
    Ok(Some(Origin::File {
        sha256: copy_of(alloc, sha256_in(info))?,
    }))
}

fn sha256_in(info: &Value) -> Option<&str>
    ensures { option_copied result ≡ sha256_in (data_of info.now) }
{
    text_at(info.get("hashes")?, "sha256")
}

/// A copy of a text, where there is one.
fn copy_of(alloc: Global, text: Option<&str>) -> Result<Option<Text>, AllocError>
    ensures { IfOk result (λ copy. copy ≡ option_copied text.entry) }
{
    match text {
        Some(text) => Ok(Some(Text::copy_of(alloc, text)?)),
        None => Ok(None),
    }
}
