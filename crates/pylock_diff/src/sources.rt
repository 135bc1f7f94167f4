//! The sources of a name that one lock alone has.

ghost use Rattle.std.specs.Prelude.{◌≡◌, ◌++◌, ◌||◌, [], IfOk, List, OnOk, filter};
ghost use Rattle.std.specs.Prelude.{if◌then◌else◌, is_some, map, not};
ghost use Rattle.std.specs.BTreeMap.{get};
ghost use Rattle.std.specs.BTreeSet.{contains};
ghost use Rattle.std.specs.List.{flat_map, list_any};
ghost use Rattle.std.specs.Option.{option_copied};
ghost use Rattle.pylock_core.specs.Session.Picks.{lent_source};
ghost use Rattle.pylock_diff.specs.Inner.Others.{AreOthers, HasKeys, HasSources, has_at, holds_at};
ghost use Rattle.pylock_diff.specs.Inner.Others.{key_by};
ghost use Rattle.pylock_diff.specs.Item.{ItemValue};
ghost use Rattle.pylock_diff.specs.Sources.{condition_key, file_change, file_changes};
ghost use Rattle.pylock_diff.specs.Sources.{has_counterpart, identity, lone_in, lone_sources};
ghost use Rattle.pylock_compare.specs.Texts.{Texts, are_alike, texts_cmp};

use crate::change::{Change, ChangeKind, push_change};
use crate::item::Keyed;
use pylock_compare::Key;
use pylock_core::PickedSource;
use pylock_places::source_text;
use pylock_shared::SharedText;
use std::alloc::{AllocError, Global};
use std::collections::{BTreeMap, BTreeSet};

/// A text where it is there, as bytes.
fn bytes_of(text: Option<&str>) -> Option<&[u8]>
    ensures { option_copied result ≡ option_copied text.entry }
{
    Some(text?.as_bytes())
}

// ---- by what they are compared

/// By what an entry's sources are compared besides themselves: its version, marker and set of
/// Pythons.
fn condition_key<'x>(alloc: Global, item: &'x Keyed<'x>) -> Result<Key<'x>, AllocError>
    ensures { IfOk result (λ key. key ≡ condition_key item.now) }
{
    let mut key = Key::new(alloc);
    key.push(item.key())?;
    key.push(bytes_of(item.item().marker()))?;
    key.push(bytes_of(item.item().pythons()))?;
    Ok(key)
}

/// What a source is.
fn identity<'x>(alloc: Global, source: PickedSource<'x>) -> Result<Key<'x>, AllocError>
    ensures { IfOk result (λ key. key ≡ identity (lent_source source.entry)) }
{
    let mut key = Key::new(alloc);
    push_identity(&mut key, source)?;
    Ok(key)
}

/// The version of an entry; with sources, what they are too.
fn whole_key<'x>(
    alloc: Global,
    item: &'x Keyed<'x>,
    with_sources: bool,
) -> Result<Key<'x>, AllocError>
    ensures { IfOk result (λ key. key ≡ key_by with_sources item.now) }
{
    let mut key = Key::new(alloc);
    key.push(item.key())?;
    if with_sources {
        push_identities(&mut key, item.sources())?;
    }
    Ok(key)
}

fn push_identities<'x>(key: &mut Key<'x>, sources: &[PickedSource<'x>]) -> Result<(), AllocError>
    ensures { OnOk result (key.new ≡ key.old ++ flat_map identity (map lent_source sources.now)) }
{
    for source in sources {
        push_identity(key, *source)?;
    }
    Ok(())
}

/// Adds what a source is: kind, file name or place, the type and the commit of a revision,
/// subdirectory.
#[tactic(auto, unfolding(crate::specs::Sources::identity))]
fn push_identity<'x>(key: &mut Key<'x>, source: PickedSource<'x>) -> Result<(), AllocError>
    ensures { OnOk result (key.new ≡ key.old ++ identity (lent_source source.entry)) }
{
    let called = source.file_name().unwrap_or(source.place());
    key.push(Some(source.word().as_bytes()))?;
    key.push(Some(called.as_bytes()))?;
    key.push(bytes_of(source.vcs_kind()))?;
    key.push(bytes_of(source.commit_id()))?;
    key.push(bytes_of(source.subdirectory()))
}

// ---- what the other lock has

/// The versions of the items; with sources, each with what they are.
fn keys_of<'x>(
    alloc: Global,
    items: &'x [Keyed<'x>],
    with_sources: bool,
) -> Result<BTreeSet<Key<'x>>, AllocError>
    ensures { IfOk result (λ set. HasKeys (key_by with_sources) set items.now) }
{
    let mut set: BTreeSet<Key<'x>> = BTreeSet::new(alloc);
    for item in items {
        set.insert(whole_key(alloc, item, with_sources)?)?;
    }
    Ok(set)
}

/// What the sources of the items are, by version, marker and set of Pythons.
fn sources_of<'x>(
    alloc: Global,
    items: &'x [Keyed<'x>],
) -> Result<BTreeMap<Key<'x>, BTreeSet<Key<'x>>>, AllocError>
    ensures { IfOk result (λ table. HasSources table items.now) }
{
    let mut table: BTreeMap<Key<'x>, BTreeSet<Key<'x>>> = BTreeMap::new(alloc);
    for item in items {
        put_item(alloc, &mut table, item)?;
    }
    Ok(table)
}

/// Puts in what the sources of an item are.
fn put_item<'x>(
    alloc: Global,
    table: &mut BTreeMap<Key<'x>, BTreeSet<Key<'x>>>,
    item: &'x Keyed<'x>,
) -> Result<(), AllocError>
    ensures conditions { OnOk result ((condition : Texts)
        → is_some (get texts_cmp table.new condition)
        ≡ (is_some (get texts_cmp table.old condition)
        || are_alike condition (condition_key item.now))) }
    ensures sources { OnOk result ((condition key : Texts) → holds_at table.new condition key
        ≡ (holds_at table.old condition key || has_at item.now condition key)) }
{
    let set = table.entry(condition_key(alloc, item)?)?.or_default();
    put_sources(alloc, set, item.sources())?;
    Ok(())
}

/// Puts in what these sources are.
fn put_sources<'x>(
    alloc: Global,
    set: &mut BTreeSet<Key<'x>>,
    sources: &[PickedSource<'x>],
) -> Result<(), AllocError>
    ensures { OnOk result ((key : Texts) → contains texts_cmp set.new key
        ≡ (contains texts_cmp set.old key
        || list_any (λ source. are_alike key (identity source)) (map lent_source sources.now))) }
{
    for source in sources {
        set.insert(identity(alloc, *source)?)?;
    }
    Ok(())
}

// ---- those that it hasn't

/// What the other lock has of a name.
struct Others<'x> {
    versions: BTreeSet<Key<'x>>,
    wholes: BTreeSet<Key<'x>>,
    sources: BTreeMap<Key<'x>, BTreeSet<Key<'x>>>,
}

impl<'x> Drop for Others<'x> {
    fn drop(self) {
        let Others {
            versions: _,
            wholes: _,
            sources: _,
        } = self;
    }
}

/// The sources of the items that the others haven't, of versions that they have.
fn lone_sources<'x>(
    alloc: Global,
    items: &'x [Keyed<'x>],
    others: &'x [Keyed<'x>],
) -> Result<Vec<PickedSource<'x>>, AllocError>
    ensures { IfOk result (λ list. map lent_source list.items
        ≡ lone_sources items.now others.now) }
{
    let mut list = Vec::new(alloc);
    let others = Others {
        versions: keys_of(alloc, others, false)?,
        wholes: keys_of(alloc, others, true)?,
        sources: sources_of(alloc, others)?,
    };
    for item in items {
        push_lone_of(alloc, &mut list, &others, item)?;
    }
    Ok(list)
}

/// Adds those of an item.
fn push_lone_of<'x>(
    alloc: Global,
    list: &mut Vec<PickedSource<'x>>,
    others: &Others<'x>,
    item: &'x Keyed<'x>,
) -> Result<(), AllocError>
    ensures { OnOk result ((known : List ItemValue) → AreOthers others.now known
        → map lent_source list.new.items
        ≡ map lent_source list.old.items ++ lone_in known item.now) }
{
    if !others.versions.contains(&whole_key(alloc, item, false)?) {
        return Ok(());
    }
    let key = condition_key(alloc, item)?;
    match others.sources.get(&key) {
        Some(set) => push_lone(alloc, list, set, item.sources()),
        None => push_unless_moved(alloc, list, others, item),
    }
}

/// Adds those of an item of whose version, marker and set of Pythons the others have none, unless
/// one of them has the same sources.
fn push_unless_moved<'x>(
    alloc: Global,
    list: &mut Vec<PickedSource<'x>>,
    others: &Others<'x>,
    item: &'x Keyed<'x>,
) -> Result<(), AllocError>
    ensures { OnOk result ((known : List ItemValue) → AreOthers others.now known
        → map lent_source list.new.items ≡ map lent_source list.old.items
        ++ (if has_counterpart known item.now then [] else item.now.sources)) }
{
    if others.wholes.contains(&whole_key(alloc, item, true)?) {
        return Ok(());
    }
    list.extend_from_slice(item.sources())
}

/// Adds those of these sources that aren't in the set.
fn push_lone<'x>(
    alloc: Global,
    list: &mut Vec<PickedSource<'x>>,
    set: &BTreeSet<Key<'x>>,
    sources: &[PickedSource<'x>],
) -> Result<(), AllocError>
    ensures { OnOk result (map lent_source list.new.items ≡ map lent_source list.old.items
        ++ filter (λ source. not (contains texts_cmp set.now (identity source)))
        (map lent_source sources.now)) }
{
    for source in sources {
        if !set.contains(&identity(alloc, *source)?) {
            list.push(*source)?;
        }
    }
    Ok(())
}

// ---- how they are told

/// Adds a line for each source that OLD alone has, and then for each that NEW alone has.
pub(crate) fn push_lone_sources(
    alloc: Global,
    changes: &mut Vec<Change>,
    name: &SharedText,
    olds: &[Keyed<'_>],
    news: &[Keyed<'_>],
) -> Result<(), AllocError>
    ensures { OnOk result (changes.new.items
        ≡ changes.old.items ++ file_changes name.now olds.now news.now) }
{
    let gone = lone_sources(alloc, olds, news)?;
    push_files(alloc, changes, name, gone.as_slice(), true)?;
    let come = lone_sources(alloc, news, olds)?;
    push_files(alloc, changes, name, come.as_slice(), false)?;
    Ok(())
}

/// Adds a line for each of these sources, which are gone, or have come.
fn push_files(
    alloc: Global,
    changes: &mut Vec<Change>,
    name: &SharedText,
    sources: &[PickedSource<'_>],
    gone: bool,
) -> Result<(), AllocError>
    ensures { OnOk result (changes.new.items ≡ changes.old.items
        ++ map (file_change name.now gone) (map lent_source sources.now)) }
{
    for source in sources {
        let text = Some(source_text(alloc, *source)?);
        if gone {
            push_change(changes, ChangeKind::File, name, text, None)?;
        } else {
            push_change(changes, ChangeKind::File, name, None, text)?;
        }
    }
    Ok(())
}
