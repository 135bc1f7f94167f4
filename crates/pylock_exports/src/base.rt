//! Another base for URLs of files.

ghost use Rattle.std.specs.Prelude.{◌≡◌, IfOk, Some, map, option_map, string_bytes};
ghost use Rattle.std.specs.Option.{option_copied};
ghost use Rattle.pylock_exports.specs.Base.{elsewhere, first_url, is_elsewhere, moved, moved_url};
ghost use Rattle.pylock_exports.specs.Base.{rest_of};
ghost use Rattle.pylock_exports.specs.Inner.{all_lent, lent, lent_moved, written};

use crate::left::is_left_out;
use crate::listed::{Listed, owned, url_of};
use crate::parts::behind;
use crate::source::Source;
use pylock_command::{Base, PlanFormat};
use std::alloc::{AllocError, Global};

/// A source with its URL on a base, where it begins as the base says.
pub(crate) struct Moved<'a> {
    listed: Listed<'a>,
    url: Option<String>,
}

impl Drop for Moved<'_> {
    fn drop(self) {
        let Moved { listed: _, url: _ } = self;
    }
}

/// What stands behind the base in the URL of a file.
fn rest_of<'a>(base: Base<'_>, source: Source<'a>) -> Option<&'a str>
    ensures { option_copied result ≡ rest_of base.entry (written source.entry) }
{
    behind(base.from, url_of(source)?)
}

/// The URL of a file on the base, where it begins so.
fn moved_url(
    alloc: Global,
    base: Base<'_>,
    source: Source<'_>,
) -> Result<Option<String>, AllocError>
    ensures { IfOk result (λ url. option_map string_bytes url
        ≡ moved_url base.entry (written source.entry)) }
{
    let Some(rest) = rest_of(base, source) else {
        return Ok(None);
    };
    let mut url = String::from_str(alloc, base.to)?;
    url.push_str(rest)?;
    Ok(Some(url))
}

/// The sources with their URLs on the base.
pub(crate) fn moved_sources<'a>(
    alloc: Global,
    base: Base<'_>,
    list: &[Listed<'a>],
) -> Result<Vec<Moved<'a>>, AllocError>
    ensures { IfOk result (λ sources. map lent_moved sources.items
        ≡ map (moved base.entry) (all_lent list.now)) }
{
    let mut sources = Vec::with_capacity(alloc, list.len())?;
    for listed in list {
        let url = moved_url(alloc, base, listed.source)?;
        sources.push(Moved {
            listed: *listed,
            url,
        })?;
    }
    Ok(sources)
}

/// The same as a form takes them.
pub(crate) fn under_urls<'a>(
    alloc: Global,
    sources: &'a [Moved<'a>],
) -> Result<Vec<Listed<'a>>, AllocError>
    ensures { IfOk result (λ list. all_lent list.items ≡ map lent_moved sources.now) }
{
    let mut list = Vec::with_capacity(alloc, sources.len())?;
    for source in sources {
        list.push(under_url(source))?;
    }
    Ok(list)
}

/// A source under its URL on the base.
#[tactic(auto, using(crate::proofs::SourceLemmas::under_twice))]
fn under_url<'a>(moved: &'a Moved<'a>) -> Listed<'a>
    ensures { lent result ≡ lent_moved moved.now }
{
    let source = moved.listed.source;
    let url = match &moved.url {
        Some(url) => Some(url.as_str()),
        None => source.moved,
    };
    Listed {
        number: moved.listed.number,
        entry: moved.listed.entry,
        source: Source {
            picked: source.picked,
            moved: url,
        },
    }
}

/// Whether the form has a source whose URL doesn't begin as the base says.
fn is_elsewhere(
    alloc: Global,
    form: PlanFormat,
    base: Base<'_>,
    source: Source<'_>,
) -> Result<bool, AllocError>
    ensures { IfOk result (λ is. is ≡ is_elsewhere form base.entry (written source.entry)) }
{
    if is_left_out(alloc, form, source)? {
        return Ok(false);
    }
    Ok(url_of(source).is_some() && rest_of(base, source).is_none())
}

/// Those sources, in order.
pub(crate) fn elsewhere<'a>(
    alloc: Global,
    form: PlanFormat,
    base: Base<'_>,
    list: &[Listed<'a>],
) -> Result<Vec<Listed<'a>>, AllocError>
    ensures { IfOk result (λ found. all_lent found.items
        ≡ elsewhere form (Some base.entry) (all_lent list.now)) }
{
    let mut found = Vec::new(alloc);
    for listed in list {
        if is_elsewhere(alloc, form, base, listed.source)? {
            found.push(*listed)?;
        }
    }
    Ok(found)
}

/// The URL of the first source.
pub(crate) fn first_url(alloc: Global, list: &[Listed<'_>]) -> Result<Option<String>, AllocError>
    ensures { IfOk result (λ url. option_map string_bytes url ≡ first_url (all_lent list.now)) }
{
    match list {
        [first, ..] => owned(alloc, url_of(first.source)),
        [] => Ok(None),
    }
}
