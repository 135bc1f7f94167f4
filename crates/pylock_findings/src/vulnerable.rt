//! The advisories that affect the entries of a lock.

ghost use Rattle.std.specs.Prelude.{◌≡◌, ◌++◌, IfOk, OnOk, codes, is_ok, map, string_bytes};
ghost use Rattle.std.specs.List.{flat_map};
ghost use Rattle.std.specs.Option.{option_copied};
ghost use Rattle.pyver_core.specs.Parsed.{parsed_version};
ghost use Rattle.pylock_advisories.specs.Lent.{told_as};
ghost use Rattle.pylock_shown.specs.Hidden.{hidden};
ghost use Rattle.pylock_findings.specs.Vulnerable.{advisory_text, advisory_texts, aliases_text};
ghost use Rattle.pylock_findings.specs.Vulnerable.{fix_text, readable_version, vulnerable_lines};

use crate::lines::push_lines;
use pylock_advisories::{AdvisoryIndex, Affecting};
use pylock_audit::{FindingKind, LockFinding};
use pylock_core::{Entry, Lock};
use pylock_shared::LabelledText;
use pylock_shown::{hidden, push_hidden};
use pytext::Text;
use pyver_core::{Version, VersionError};
use std::alloc::{AllocError, Global};

/// A line for each advisory that affects an entry, in the order of the entries: its id, the ids of
/// the same elsewhere, and the version to go to, each as it is shown (the OSV schema,
/// "Evaluation"). An entry without a version, or with a text that is none, has no line.
///
/// It takes the time of [`AdvisoryIndex::affecting`] for each entry, and memory for the lines.
pub fn vulnerable_lines(
    alloc: Global,
    lock: &Lock,
    index: &AdvisoryIndex<'_>,
) -> Result<Vec<LockFinding>, AllocError>
    ensures { IfOk result (λ found. found.items
        ≡ vulnerable_lines index.now lock.now.entries) }
{
    let mut found = Vec::new(alloc);
    for (place, entry) in lock.entries().iter().enumerate() {
        let texts = advisory_texts(alloc, index, entry)?;
        let kind = FindingKind::Vulnerable;
        push_lines(alloc, &mut found, place + 1, entry.name(), kind, texts)?;
    }
    Ok(found)
}

/// What is told of the advisories that affect the entry.
fn advisory_texts(
    alloc: Global,
    index: &AdvisoryIndex<'_>,
    entry: &Entry,
) -> Result<Vec<LabelledText>, AllocError>
    ensures { IfOk result (λ texts. texts.items ≡ advisory_texts index.now entry.now) }
{
    match readable_version(alloc, entry)? {
        Some(version) => {
            let affecting = index.affecting(alloc, entry.name(), version)?;
            texts_of(alloc, &affecting)
        }
        None => Ok(Vec::new(alloc)),
    }
}

/// The version of the entry, where it is there and is one.
fn readable_version(alloc: Global, entry: &Entry) -> Result<Option<&str>, AllocError>
    ensures { IfOk result (λ version. option_copied version ≡ readable_version entry.now) }
{
    let Some(version) = entry.version() else {
        return Ok(None);
    };
    if is_version(alloc, version)? {
        Ok(Some(version))
    } else {
        Ok(None)
    }
}

fn is_version(alloc: Global, text: &str) -> Result<bool, AllocError>
    ensures { IfOk result (λ is. is ≡ is_ok (parsed_version text.now)) }
{
    match Version::parse(alloc, text) {
        Ok(_) => Ok(true),
        Err(VersionError::Memory) => Err(AllocError),
        Err(_) => Ok(false),
    }
}

/// What is told of these advisories.
fn texts_of(alloc: Global, affecting: &[Affecting<'_>]) -> Result<Vec<LabelledText>, AllocError>
    ensures { IfOk result (λ texts. texts.items
        ≡ map advisory_text (map told_as affecting.now)) }
{
    let mut texts = Vec::with_capacity(alloc, affecting.len())?;
    for told in affecting {
        texts.push(LabelledText::plain(advisory_text(alloc, told)?))?;
    }
    Ok(texts)
}

fn advisory_text(alloc: Global, told: &Affecting<'_>) -> Result<String, AllocError>
    ensures { IfOk result (λ text. string_bytes text ≡ advisory_text (told_as told.now)) }
{
    let mut text = hidden(alloc, told.advisory.id())?;
    push_aliases(&mut text, told.advisory.aliases())?;
    push_fix(&mut text, told.fixed)?;
    Ok(text)
}

/// Adds the ids of the same in other databases.
fn push_aliases(text: &mut String, aliases: &[Text]) -> Result<(), AllocError>
    ensures { OnOk result (string_bytes text.new
        ≡ string_bytes text.old ++ aliases_text aliases.now) }
{
    let Some((first, rest)) = aliases.split_first() else {
        return Ok(());
    };
    text.push_str(" ")?;
    push_hidden(text, first.as_str())?;
    push_more_aliases(text, rest)
}

fn push_more_aliases(text: &mut String, aliases: &[Text]) -> Result<(), AllocError>
    ensures { OnOk result (string_bytes text.new ≡ string_bytes text.old
        ++ flat_map (λ alias. codes "," ++ hidden alias) aliases.now) }
{
    for alias in aliases {
        text.push_str(",")?;
        push_hidden(text, alias.as_str())?;
    }
    Ok(())
}

/// Adds the version to go to.
fn push_fix(text: &mut String, fixed: Option<&Version>) -> Result<(), AllocError>
    ensures { OnOk result (string_bytes text.new
        ≡ string_bytes text.old ++ fix_text (option_copied fixed.entry)) }
{
    match fixed {
        Some(version) => {
            text.push_str(" fixed ")?;
            text.push_str(version.text())
        }
        None => text.push_str(" no fix"),
    }
}
