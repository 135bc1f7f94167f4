//! The facts of a lock.

ghost use Rattle.std.specs.Prelude.{◌≡◌, ◌++◌, ◌∷◌, [], IfOk, OnOk, map, option_map, string_bytes};
ghost use Rattle.std.specs.Option.{option_copied};
ghost use Rattle.pyver_core.specs.Set.Normal.{set_text};
ghost use Rattle.pylock_summary.specs.Fact.{text_fact, texts_fact};
ghost use Rattle.pylock_summary.specs.Summary.{aim_facts, choice_facts, count_of, facts_of};
ghost use Rattle.pylock_summary.specs.Summary.{head_facts, kind_facts};

use crate::fact::Fact;
use crate::kind::SourceKind;
use pylock_core::{Entry, Lock};
use pymark_core::Marker;
use std::alloc::{AllocError, Global};

/// The facts of a lock that `creator` made, in order.
pub(crate) fn facts_of(
    alloc: Global,
    creator: Option<&str>,
    lock: &Lock,
) -> Result<Vec<Fact>, AllocError>
    ensures { IfOk result (λ facts. facts.items ≡ facts_of (option_copied creator.entry) lock.now) }
{
    let entries = lock.entries();
    let mut facts = Vec::new(alloc);
    push_head(alloc, &mut facts, creator, lock)?;
    facts.push(Fact::of_number("packages", entries.len()))?;
    push_kind(&mut facts, SourceKind::Wheel, entries)?;
    push_kind(&mut facts, SourceKind::Sdist, entries)?;
    push_kind(&mut facts, SourceKind::Archive, entries)?;
    push_kind(&mut facts, SourceKind::Vcs, entries)?;
    push_kind(&mut facts, SourceKind::Directory, entries)?;
    push_kind(&mut facts, SourceKind::Editable, entries)?;
    Ok(facts)
}

/// Adds the facts of the head.
fn push_head(
    alloc: Global,
    facts: &mut Vec<Fact>,
    creator: Option<&str>,
    lock: &Lock,
) -> Result<(), AllocError>
    ensures { OnOk result (facts.new.items
        ≡ facts.old.items ++ head_facts (option_copied creator.entry) lock.now.head) }
{
    push_aim(alloc, facts, creator, lock)?;
    push_choices(alloc, facts, lock)?;
    Ok(())
}

/// Adds what made the lock, and what it is for.
fn push_aim(
    alloc: Global,
    facts: &mut Vec<Fact>,
    creator: Option<&str>,
    lock: &Lock,
) -> Result<(), AllocError>
    ensures { OnOk result (facts.new.items
        ≡ facts.old.items ++ aim_facts (option_copied creator.entry) lock.now.head) }
{
    push_text(alloc, facts, "created-by", creator)?;
    push_text(alloc, facts, "requires-python", requires_python(lock))?;
    push_markers(alloc, facts, "environments", lock.environments())?;
    Ok(())
}

/// Adds what may be chosen in the lock.
fn push_choices(alloc: Global, facts: &mut Vec<Fact>, lock: &Lock) -> Result<(), AllocError>
    ensures { OnOk result (facts.new.items
        ≡ facts.old.items ++ choice_facts lock.now.head) }
{
    push_names(alloc, facts, "extras", lock.extras())?;
    push_names(alloc, facts, "dependency-groups", lock.groups())?;
    push_names(alloc, facts, "default-groups", lock.default_groups())?;
    Ok(())
}

/// The text of the set of Pythons that the lock is for.
fn requires_python(lock: &Lock) -> Option<&str>
    ensures { option_copied result ≡ option_map set_text lock.now.head.requires_python }
{
    Some(lock.requires_python()?.text())
}

/// Adds a text under the key, which may be absent.
fn push_text(
    alloc: Global,
    facts: &mut Vec<Fact>,
    key: &'static str,
    text: Option<&str>,
) -> Result<(), AllocError>
    ensures { OnOk result (facts.new.items
        ≡ facts.old.items ++ text_fact key.now (option_copied text.entry) ∷ []) }
{
    facts.push(Fact::of_text(alloc, key, text)?)?;
    Ok(())
}

/// Adds the texts of markers under the key.
fn push_markers(
    alloc: Global,
    facts: &mut Vec<Fact>,
    key: &'static str,
    markers: &[Marker],
) -> Result<(), AllocError>
    ensures { OnOk result (facts.new.items ≡ facts.old.items
        ++ texts_fact key.now (map (λ marker. marker.text) markers.now) ∷ []) }
{
    let list = marker_texts(alloc, markers)?;
    facts.push(Fact::of_texts(alloc, key, &list)?)?;
    Ok(())
}

/// Adds names under the key.
fn push_names(
    alloc: Global,
    facts: &mut Vec<Fact>,
    key: &'static str,
    names: &[String],
) -> Result<(), AllocError>
    ensures { OnOk result (facts.new.items
        ≡ facts.old.items ++ texts_fact key.now (map string_bytes names.now) ∷ []) }
{
    let list = texts(alloc, names)?;
    facts.push(Fact::of_texts(alloc, key, &list)?)?;
    Ok(())
}

/// The texts of markers, as they are written.
fn marker_texts<'a>(alloc: Global, markers: &'a [Marker]) -> Result<Vec<&'a str>, AllocError>
    ensures { IfOk result (λ list. map (λ text. text.now) list.items
        ≡ map (λ marker. marker.text) markers.now) }
{
    let mut list = Vec::with_capacity(alloc, markers.len())?;
    for marker in markers {
        list.push(marker.text())?;
    }
    Ok(list)
}

fn texts<'a>(alloc: Global, texts: &'a [String]) -> Result<Vec<&'a str>, AllocError>
    ensures { IfOk result (λ list. map (λ text. text.now) list.items
        ≡ map string_bytes texts.now) }
{
    let mut list = Vec::with_capacity(alloc, texts.len())?;
    for text in texts {
        list.push(text.as_str())?;
    }
    Ok(list)
}

/// Adds how many entries have a source of the kind.
fn push_kind(facts: &mut Vec<Fact>, kind: SourceKind, entries: &[Entry]) -> Result<(), AllocError>
    ensures { OnOk result (facts.new.items
        ≡ facts.old.items ++ kind_facts kind entries.now) }
{
    facts.push(Fact::of_number(kind.word(), count_of(kind, entries)))?;
    Ok(())
}

/// How many entries have a source of the kind.
fn count_of(kind: SourceKind, entries: &[Entry]) -> usize
    ensures { result ≡ count_of kind entries.now }
{
    let mut count = 0;
    for entry in entries {
        if kind.is_of(entry) {
            count += 1;
        }
    }
    count
}
