//! The texts of a source that have a control character.

ghost use Rattle.std.specs.Prelude.{◌≡◌, ◌++◌, IfOk, IsTrue, OnOk, false, map, string_bytes};
ghost use Rattle.std.specs.Option.{option_copied};
ghost use Rattle.pylock_readers.specs.Text.{text_pair, text_pairs};
ghost use Rattle.pylock_core.specs.Session.Picks.{lent_source};
ghost use Rattle.pylock_audit.specs.Source.{controlled, controlled_hash, controlled_hashes};
ghost use Rattle.pylock_audit.specs.Source.{controlled_texts, hash_shown, hash_text, name_key};
ghost use Rattle.pylock_shown.specs.Visible.{has_control};

use crate::finding::push_plain;
use crate::hash::Hash;
use crate::keys::source_key_path;
use pylock_core::{PickSource, PickedSource};
use pylock_shared::LabelledText;
use pylock_shown::{has_control, hidden, is_printable};
use std::alloc::{AllocError, Global};

/// Adds a text of a key as it is shown, with the path of the key, where it has a control character.
fn push_text(
    alloc: Global,
    list: &mut Vec<LabelledText>,
    name: PickSource,
    key: &str,
    text: Option<&str>,
) -> Result<(), AllocError>
    ensures { OnOk result (list.new.items ≡ list.old.items
        ++ controlled name key.now (option_copied text.entry)) }
{
    match text {
        Some(text) if has_control(text) => {
            let path = source_key_path(alloc, name, key)?;
            let text = hidden(alloc, text)?;
            push_plain(list, format!(in alloc; "{path} {text}")?)
        }
        _ => Ok(()),
    }
}

fn push_hashes(
    alloc: Global,
    list: &mut Vec<LabelledText>,
    name: PickSource,
    hashes: &[Hash],
) -> Result<(), AllocError>
    ensures { OnOk result (list.new.items ≡ list.old.items
        ++ controlled_hashes name (text_pairs hashes.now)) }
{
    for hash in hashes {
        push_hash(alloc, list, name, hash)?;
    }
    Ok(())
}

/// Adds a hash as it is shown, where it has a control character. Of nearly each it is seen at once
/// that it has none.
fn push_hash(
    alloc: Global,
    list: &mut Vec<LabelledText>,
    name: PickSource,
    hash: &Hash,
) -> Result<(), AllocError>
    ensures { OnOk result (list.new.items ≡ list.old.items
        ++ controlled_hash name (text_pair hash.now)) }
{
    if !is_printable_hash(hash) && has_control_in_hash(alloc, hash)? {
        let path = source_key_path(alloc, name, "hashes")?;
        let text = hash_shown(alloc, hash)?;
        push_plain(list, format!(in alloc; "{path} {text}")?)?;
    }
    Ok(())
}

fn is_printable_hash(hash: &Hash) -> bool
    ensures { IsTrue result → has_control (hash_text (text_pair hash.now)) ≡ false }
{
    is_printable(hash.0.as_bytes()) && is_printable(hash.1.as_bytes())
}

fn has_control_in_hash(alloc: Global, hash: &Hash) -> Result<bool, AllocError>
    ensures { IfOk result (λ has. has ≡ has_control (hash_text (text_pair hash.now))) }
{
    let text = hash_text(alloc, hash.0.as_str(), hash.1.as_str())?;
    Ok(has_control(text.as_str()))
}

/// A hash in one text: `ALGORITHM=VALUE`.
fn hash_text(alloc: Global, algorithm: &str, value: &str) -> Result<String, AllocError>
    ensures { IfOk result (λ text. string_bytes text ≡ hash_text (algorithm.now, value.now)) }
{
    let text = format!(in alloc; "{algorithm}={value}")?;
    Ok(text)
}

/// A hash as it is shown.
fn hash_shown(alloc: Global, hash: &Hash) -> Result<String, AllocError>
    ensures { IfOk result (λ text. string_bytes text ≡ hash_shown (text_pair hash.now)) }
{
    let algorithm = hidden(alloc, hash.0.as_str())?;
    let value = hidden(alloc, hash.1.as_str())?;
    let text = hash_text(alloc, algorithm.as_str(), value.as_str())?;
    hidden(alloc, text.as_str())
}

/// The key `name` of a wheel or an sdist.
fn name_key(source: PickedSource<'_>) -> Option<&str>
    ensures { option_copied result ≡ name_key (lent_source source.entry) }
{
    source.file()?.name()
}

/// Adds the texts of a source that have a control character, each with the path of its key.
pub(crate) fn push_controlled(
    alloc: Global,
    list: &mut Vec<LabelledText>,
    name: PickSource,
    source: PickedSource<'_>,
) -> Result<(), AllocError>
    ensures { OnOk result (list.new.items
        ≡ list.old.items ++ controlled_texts name (lent_source source.entry)) }
{
    push_text(alloc, list, name, "type", source.vcs_kind())?;
    push_text(alloc, list, name, "commit-id", source.commit_id())?;
    push_text(alloc, list, name, "name", name_key(source))?;
    push_text(alloc, list, name, "url", source.url())?;
    push_text(alloc, list, name, "path", source.path())?;
    push_hashes(alloc, list, name, source.hashes())?;
    push_text(alloc, list, name, "subdirectory", source.subdirectory())
}
