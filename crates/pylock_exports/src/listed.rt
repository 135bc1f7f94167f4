//! What is exported: the sources of a plan, or all that a lock names, lent by their entries.

ghost use Rattle.std.specs.Prelude.{◌≡◌, ◌++◌, ◌∷◌, [], IfOk, OnOk, map, option_map, string_bytes};
ghost use Rattle.std.specs.Option.{option_copied};
ghost use Rattle.pylock_core.specs.Session.Picks.{lent_named, sources};
ghost use Rattle.pylock_exports.specs.Inner.{all_lent, written};
ghost use Rattle.pylock_exports.specs.Given.{given_source, given_sources};
ghost use Rattle.pylock_exports.specs.Listed.{file_name_of_source, last_of, listed, path_alone};
ghost use Rattle.pylock_exports.specs.Listed.{path_of, picked_source, plan_sources, sources_from};
ghost use Rattle.pylock_exports.specs.Listed.{url_of};

use crate::file_names::last_part;
use crate::source::Source;
use pylock_core::{Entry, NamedSource, Pick, PickedSource, Session, sources};
use std::alloc::{AllocError, Global};

/// A source that is to be exported, and the number that a refusal names it by.
#[derive(Clone, Copy)]
pub struct GivenSource<'a> {
    /// The number: mostly that of the entry in its lock.
    pub number: u64,
    /// The entry.
    pub entry: &'a Entry,
    /// The source, lent by the entry.
    pub source: PickedSource<'a>,
}

/// A source of an entry, with the entry's number.
#[derive(Clone, Copy)]
pub(crate) struct Listed<'a> {
    pub(crate) number: u64,
    pub(crate) entry: &'a Entry,
    pub(crate) source: Source<'a>,
}

/// The sources of a plan on a session, in the plan's order.
pub(crate) fn plan_sources<'a>(
    alloc: Global,
    session: &'a Session,
    picks: &[Pick],
) -> Result<Vec<Listed<'a>>, AllocError>
    ensures { IfOk result (λ list. all_lent list.items
        ≡ plan_sources session.now.state picks.now) }
{
    let mut list = Vec::with_capacity(alloc, picks.len())?;
    for pick in picks {
        push_pick(&mut list, session, pick)?;
    }
    Ok(list)
}

fn push_pick<'a>(
    list: &mut Vec<Listed<'a>>,
    session: &'a Session,
    pick: &Pick,
) -> Result<(), AllocError>
    ensures { OnOk result (all_lent list.new.items
        ≡ all_lent list.old.items ++ picked_source session.now.state pick.now) }
{
    let Some(entry) = session.entry(pick.id) else {
        return Ok(());
    };
    let Some(source) = pick.source.of(entry) else {
        return Ok(());
    };
    list.push(Listed {
        number: u64::from(pick.id),
        entry,
        source: Source::own(source),
    })?;
    Ok(())
}

/// Every source of the entries, which have the numbers 1, 2, .. in their order.
pub(crate) fn entry_sources<'a>(
    alloc: Global,
    entries: &'a [Entry],
) -> Result<Vec<Listed<'a>>, AllocError>
    ensures { IfOk result (λ list. all_lent list.items ≡ sources_from 1 entries.now) }
{
    let mut list = Vec::new(alloc);
    for (place, entry) in entries.iter().enumerate() {
        push_sources(alloc, &mut list, place as u64 + 1, entry)?;
    }
    Ok(list)
}

/// Adds each source of an entry, which has this number.
fn push_sources<'a>(
    alloc: Global,
    list: &mut Vec<Listed<'a>>,
    number: u64,
    entry: &'a Entry,
) -> Result<(), AllocError>
    ensures { OnOk result (all_lent list.new.items ≡ all_lent list.old.items
        ++ map (λ s. listed number entry.now s.1) (sources entry.now)) }
{
    let named = sources(alloc, entry)?;
    push_named(list, number, entry, named.as_slice())
}

fn push_named<'a>(
    list: &mut Vec<Listed<'a>>,
    number: u64,
    entry: &'a Entry,
    named: &[NamedSource<'a>],
) -> Result<(), AllocError>
    ensures { OnOk result (all_lent list.new.items ≡ all_lent list.old.items
        ++ map (λ s. listed number entry.now s.1) (map lent_named named.now)) }
{
    for name in named {
        list.push(Listed {
            number,
            entry,
            source: Source::own(name.source),
        })?;
    }
    Ok(())
}

/// The sources that are given, in their order.
pub(crate) fn given_sources<'a>(
    alloc: Global,
    given: &[GivenSource<'a>],
) -> Result<Vec<Listed<'a>>, AllocError>
    ensures { IfOk result (λ list. all_lent list.items ≡ given_sources given.now) }
{
    let mut list = Vec::with_capacity(alloc, given.len())?;
    for source in given {
        push_given(&mut list, source)?;
    }
    Ok(list)
}

fn push_given<'a>(list: &mut Vec<Listed<'a>>, given: &GivenSource<'a>) -> Result<(), AllocError>
    ensures { OnOk result (all_lent list.new.items
        ≡ all_lent list.old.items ++ given_source given.now ∷ []) }
{
    list.push(Listed {
        number: given.number,
        entry: given.entry,
        source: Source::own(given.source),
    })?;
    Ok(())
}

/// Where a file is fetched from.
pub(crate) fn url_of(source: Source<'_>) -> Option<&str>
    ensures { option_copied result ≡ url_of (written source.entry) }
{
    if source.is_unhashed() {
        None
    } else {
        source.url()
    }
}

fn path_of(source: Source<'_>) -> Option<&str>
    ensures { option_copied result ≡ path_of (written source.entry) }
{
    if source.is_unhashed() {
        None
    } else {
        source.path()
    }
}

/// The path of a file that has no URL.
pub(crate) fn path_alone(source: Source<'_>) -> Option<&str>
    ensures { option_copied result ≡ path_alone (written source.entry) }
{
    match url_of(source) {
        Some(_) => None,
        None => path_of(source),
    }
}

/// What the URL of a file ends in, else its path.
pub(crate) fn last_of(alloc: Global, source: Source<'_>) -> Result<Option<String>, AllocError>
    ensures { IfOk result (λ last. option_map string_bytes last
        ≡ last_of (written source.entry)) }
{
    last_part(alloc, url_of(source), path_of(source))
}

/// The file name of a source. That of an archive is what its URL ends in, else its path.
pub(crate) fn file_name_of(alloc: Global, source: Source<'_>) -> Result<Option<String>, AllocError>
    ensures { IfOk result (λ name. option_map string_bytes name
        ≡ file_name_of_source (written source.entry)) }
{
    if source.is_file() {
        source.file_name(alloc)
    } else {
        last_of(alloc, source)
    }
}

/// A copy of a text that may be there.
pub(crate) fn owned(alloc: Global, text: Option<&str>) -> Result<Option<String>, AllocError>
    ensures { IfOk result (λ copy. option_map string_bytes copy ≡ option_copied text.entry) }
{
    match text {
        Some(text) => Ok(Some(String::from_str(alloc, text)?)),
        None => Ok(None),
    }
}
