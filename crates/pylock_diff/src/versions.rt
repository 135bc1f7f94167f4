//! The versions of a name (PEP 440).

ghost use Rattle.std.specs.Prelude.{◌≡◌, ◌++◌, ◌∷◌, IfOk, OnOk, option_map, string_bytes};
ghost use Rattle.pylock_diff.specs.Versions.{text_key, version_changes, version_keys};
ghost use Rattle.pylock_diff.specs.Versions.{versions_text};

use crate::change::{Change, ChangeKind, push_change};
use crate::item::Keyed;
use crate::texts::shown_texts;
use pylock_compare::Key;
use pylock_shared::SharedText;
use pyver_core::{Version, VersionError};
use std::alloc::{AllocError, Global};

/// By what a version is compared: where the text is one, by its order key, else by the text.
#[tactic(auto, unfolding(crate::specs::Versions::text_key))]
pub(crate) fn text_key(alloc: Global, text: &str) -> Result<Vec<u8>, AllocError>
    ensures { IfOk result (λ key. key.items ≡ text_key text.now) }
{
    match Version::parse(alloc, text) {
        Ok(version) => marked(alloc, 1, version.order_key(alloc)?.as_slice()),
        Err(VersionError::Memory) => Err(AllocError),
        Err(_) => marked(alloc, 0, text.as_bytes()),
    }
}

/// The bytes behind a mark.
fn marked(alloc: Global, mark: u8, bytes: &[u8]) -> Result<Vec<u8>, AllocError>
    ensures { IfOk result (λ key. key.items ≡ mark ∷ bytes.now) }
{
    let mut key = Vec::new(alloc);
    key.push(mark)?;
    key.extend_from_slice(bytes)?;
    Ok(key)
}

/// The versions as they are shown, joined by `,`, where there is an item.
pub(crate) fn versions_text(
    alloc: Global,
    items: &[Keyed<'_>],
) -> Result<Option<String>, AllocError>
    ensures { IfOk result (λ text. option_map string_bytes text
        ≡ versions_text items.now) }
{
    let mut versions = Vec::with_capacity(alloc, items.len())?;
    for item in items {
        versions.push(item.item().version())?;
    }
    shown_texts(alloc, ",", versions.as_slice())
}

/// By what the versions are compared.
fn version_keys<'a>(alloc: Global, items: &'a [Keyed<'_>]) -> Result<Key<'a>, AllocError>
    ensures { IfOk result (λ key. key ≡ version_keys items.now) }
{
    let mut key = Key::new(alloc);
    for item in items {
        key.push(item.key())?;
    }
    Ok(key)
}

/// Adds that the lists of versions differ, where they do.
pub(crate) fn push_version_change(
    alloc: Global,
    changes: &mut Vec<Change>,
    name: &SharedText,
    olds: &[Keyed<'_>],
    news: &[Keyed<'_>],
) -> Result<(), AllocError>
    ensures { OnOk result (changes.new.items
        ≡ changes.old.items ++ version_changes name.now olds.now news.now) }
{
    if version_keys(alloc, olds)? == version_keys(alloc, news)? {
        return Ok(());
    }
    let from = versions_text(alloc, olds)?;
    let to = versions_text(alloc, news)?;
    push_change(changes, ChangeKind::Version, name, from, to)
}
