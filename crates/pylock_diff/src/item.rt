//! What is compared: the entries of a lock, or the picks of a plan.

ghost use Rattle.std.specs.Prelude.{◌≡◌, ◌++◌, IfOk, OnOk, map, option_map};
ghost use Rattle.std.specs.Option.{option_copied};
ghost use Rattle.pylock_core.specs.Session.Picks.{lent_named, lent_source};
ghost use Rattle.pylock_diff.specs.Inner.Lent.{item_row, lent_item, lent_pick};
ghost use Rattle.pylock_diff.specs.Item.{entry_items, pick_items, picked_entry, picked_row};
ghost use Rattle.pylock_diff.specs.Versions.{text_key, version_key};

use crate::compared::EntryCodes;
use crate::picks::pick_codes;
use crate::versions::text_key;
use pylock_core::{Entry, NamedSource, Pick, PickedSource, Session, sources};
use std::alloc::{AllocError, Global};
use std::marker::Model;

/// An entry, or a pick of it: then its source counts alone. Beside it the codes of all its keys.
#[derive(Clone, Copy)]
pub(crate) struct Item<'a> {
    package: &'a Entry,
    picked: Option<PickedSource<'a>>,
    pub(crate) codes: &'a EntryCodes,
}

impl<'a> Item<'a> {
    /// The version, as written.
    pub(crate) fn version(&self) -> Option<&'a str>
        ensures { option_copied result ≡ (lent_item self.now).version }
    {
        self.package.version()
    }

    /// The marker, without white space round it.
    pub(crate) fn marker(&self) -> Option<&'a str>
        ensures { option_copied result ≡ (lent_item self.now).marker }
    {
        match self.picked {
            Some(_) => None,
            None => Some(self.package.marker()?.text()),
        }
    }

    /// The normal text of the set of Pythons.
    pub(crate) fn pythons(&self) -> Option<&'a str>
        ensures { option_copied result ≡ (lent_item self.now).pythons }
    {
        match self.picked {
            Some(_) => None,
            None => Some(self.package.requires_python()?.text()),
        }
    }

    /// Its sources, in their order.
    fn sources(&self, alloc: Global) -> Result<Vec<PickedSource<'a>>, AllocError>
        ensures { IfOk result (λ list. map lent_source list.items ≡ (lent_item self.now).sources) }
    {
        let mut list = Vec::new(alloc);
        match self.picked {
            Some(source) => list.push(source)?,
            None => push_each(&mut list, sources(alloc, self.package)?.as_slice())?,
        }
        Ok(list)
    }
}

/// Adds each source.
fn push_each<'a>(
    list: &mut Vec<PickedSource<'a>>,
    named: &[NamedSource<'a>],
) -> Result<(), AllocError>
    ensures { OnOk result (map lent_source list.new.items
        ≡ map lent_source list.old.items ++ map (λ s. s.1) (map lent_named named.now)) }
{
    for one in named {
        list.push(one.source)?;
    }
    Ok(())
}

/// The entries of a lock, each under its name and with its codes.
pub(crate) fn entry_items<'a>(
    alloc: Global,
    entries: &'a [Entry],
    codes: &'a [EntryCodes],
) -> Result<Vec<(&'a str, Item<'a>)>, AllocError>
    ensures { IfOk result (λ rows. map item_row rows.items ≡ entry_items entries.now codes.now) }
{
    let mut rows = Vec::with_capacity(alloc, entries.len())?;
    let mut left = codes;
    for package in entries {
        let [codes, rest @ ..] = left else {
            return Ok(rows);
        };
        let picked = None;
        rows.push((
            package.name(),
            Item {
                package,
                picked,
                codes,
            },
        ))?;
        left = rest;
    }
    Ok(rows)
}

/// A pick with its entry, its source, and its fields as codes.
pub(crate) struct Picked<'a> {
    package: &'a Entry,
    source: PickedSource<'a>,
    codes: EntryCodes,
}

impl<'a> Drop for Picked<'a> {
    fn drop(self) {
        let Picked {
            package: _,
            source: _,
            codes: _,
        } = self;
    }
}

/// The picks of a plan, in its order.
pub(crate) fn entries_picked<'a>(
    alloc: Global,
    session: &'a Session,
    picks: &[Pick],
) -> Result<Vec<Picked<'a>>, AllocError>
    ensures { IfOk result (λ list. map lent_pick list.items
        ≡ pick_items session.now.state picks.now) }
{
    let mut list = Vec::with_capacity(alloc, picks.len())?;
    for pick in picks {
        push_picked(alloc, &mut list, session, pick)?;
    }
    Ok(list)
}

/// Adds a pick, whose entry has its source.
fn push_picked<'a>(
    alloc: Global,
    list: &mut Vec<Picked<'a>>,
    session: &'a Session,
    pick: &Pick,
) -> Result<(), AllocError>
    ensures { OnOk result (map lent_pick list.new.items ≡ map lent_pick list.old.items
        ++ map picked_row (picked_entry session.now.state pick.now)) }
{
    let Some(package) = session.entry(pick.id) else {
        return Ok(());
    };
    let Some(source) = pick.source.of(package) else {
        return Ok(());
    };
    let codes = pick_codes(alloc, package, source)?;
    list.push(Picked {
        package,
        source,
        codes,
    })?;
    Ok(())
}

/// The picks of a plan, each under the name of its entry.
pub(crate) fn pick_items<'a>(
    alloc: Global,
    picks: &'a [Picked<'a>],
) -> Result<Vec<(&'a str, Item<'a>)>, AllocError>
    ensures { IfOk result (λ rows. map item_row rows.items ≡ map lent_pick picks.now) }
{
    let mut rows = Vec::with_capacity(alloc, picks.len())?;
    for pick in picks {
        rows.push((
            pick.package.name(),
            Item {
                package: pick.package,
                picked: Some(pick.source),
                codes: &pick.codes,
            },
        ))?;
    }
    Ok(rows)
}

/// An item with what it is compared by, made once.
///
/// Contracts see the item.
pub(crate) struct Keyed<'a> {
    item: Item<'a>,
    key: Option<Vec<u8>>,
    sources: Vec<PickedSource<'a>>,
}

impl<'a> Model for Keyed<'a> {
    ghost use Rattle.std.specs.Prelude.{◌≡◌, map, option_map};
    ghost use Rattle.pylock_core.specs.Session.Picks.{lent_source};
    ghost use Rattle.pylock_diff.specs.Inner.Lent.{lent_item};
    ghost use Rattle.pylock_diff.specs.Item.{ItemValue};
    ghost use Rattle.pylock_diff.specs.Versions.{version_key};

    ghost Value = { ItemValue };

    ghost view = { λ k. lent_item k.item };

    ghost invariant = { λ k. (option_map (λ key. key.items) k.key ≡ version_key (lent_item k.item))
        × (map lent_source k.sources.items ≡ (lent_item k.item).sources) };
}

impl<'a> Drop for Keyed<'a> {
    fn drop(self) {
        let Keyed {
            item: _,
            key: _,
            sources: _,
        } = self;
    }
}

impl<'a> Keyed<'a> {
    /// The item with what it is compared by.
    fn new(alloc: Global, item: &Item<'a>) -> Result<Keyed<'a>, AllocError>
        ensures { IfOk result (λ keyed. keyed ≡ lent_item item.now) }
    {
        let key = match item.version() {
            Some(version) => Some(text_key(alloc, version)?),
            None => None,
        };
        let sources = item.sources(alloc)?;
        Ok(Keyed {
            item: *item,
            key,
            sources,
        })
    }

    /// The item.
    pub(crate) fn item(&self) -> &Item<'a>
        ensures { lent_item result.now ≡ self.now }
    {
        &self.item
    }

    /// By what its version is compared.
    pub(crate) fn key(&self) -> Option<&[u8]>
        ensures { option_copied result ≡ version_key self.now }
    {
        self.key.as_deref()
    }

    /// Its sources, in their order.
    pub(crate) fn sources(&self) -> &[PickedSource<'a>]
        ensures { map lent_source result.now ≡ self.now.sources }
    {
        self.sources.as_slice()
    }
}

/// The items with what they are compared by.
pub(crate) fn with_keys<'a>(alloc: Global, items: &[Item<'a>]) -> Result<Vec<Keyed<'a>>, AllocError>
    ensures { IfOk result (λ list. list.items ≡ map lent_item items.now) }
{
    let mut list = Vec::with_capacity(alloc, items.len())?;
    for item in items {
        list.push(Keyed::new(alloc, item)?)?;
    }
    Ok(list)
}
