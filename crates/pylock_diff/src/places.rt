//! Where the files of a name lie.

ghost use Rattle.std.specs.Prelude.{◌≡◌, ◌++◌, IfOk, OnOk, map, string_bytes};
ghost use Rattle.std.specs.List.{flat_map};
ghost use Rattle.std.specs.Option.{option_copied};
ghost use Rattle.pylock_core.specs.Session.Picks.{lent_source, source_location};
ghost use Rattle.pylock_compare.specs.Lent.{lent_texts, told_under};
ghost use Rattle.pylock_compare.specs.Rows.{in_order};
ghost use Rattle.pylock_diff.specs.Files.{part_of, parts_of, places_text, places_told};
ghost use Rattle.pylock_diff.specs.Files.{shown_places};
ghost use Rattle.pylock_diff.specs.Hashes.{are_same_sets};
ghost use Rattle.pylock_diff.specs.Inner.Lent.{lent_sources};

use crate::change::{Change, ChangeKind, push_change};
use crate::texts::are_same_texts;
use pylock_compare::{Sides, in_order};
use pylock_core::PickedSource;
use pylock_places::shown_place;
use pylock_shared::SharedText;
use std::alloc::{AllocError, Global};

/// Adds that files of one name lie elsewhere, for each name.
pub(crate) fn push_places<'a>(
    alloc: Global,
    changes: &mut Vec<Change>,
    name: &SharedText,
    files: &Sides<'a, PickedSource<'a>>,
) -> Result<(), AllocError>
    ensures { OnOk result (changes.new.items ≡ changes.old.items
        ++ told_under lent_source (λ file. places_told name.now) files.now) }
{
    for file in &files.names {
        push_place(
            alloc,
            changes,
            name,
            files.old(file),
            files.new_values(file),
        )?;
    }
    Ok(())
}

/// The same of one name, where both locks have files of it.
fn push_place(
    alloc: Global,
    changes: &mut Vec<Change>,
    name: &SharedText,
    olds: &[PickedSource<'_>],
    news: &[PickedSource<'_>],
) -> Result<(), AllocError>
    ensures { OnOk result (changes.new.items ≡ changes.old.items
        ++ places_told name.now (lent_sources olds.now) (lent_sources news.now)) }
{
    if olds.is_empty() || news.is_empty() {
        return Ok(());
    }
    let same_urls = have_same_parts(alloc, olds, news, true)?;
    let same_paths = have_same_parts(alloc, olds, news, false)?;
    if same_urls && same_paths {
        return Ok(());
    }
    let from = places_text(alloc, olds)?;
    let to = places_text(alloc, news)?;
    push_change(changes, ChangeKind::Place, name, Some(from), Some(to))
}

/// Whether they have the same URLs, or the same paths.
fn have_same_parts<'x>(
    alloc: Global,
    olds: &[PickedSource<'x>],
    news: &[PickedSource<'x>],
    urls: bool,
) -> Result<bool, AllocError>
    ensures { IfOk result (λ same. same ≡ are_same_sets
        (parts_of urls (lent_sources olds.now)) (parts_of urls (lent_sources news.now))) }
{
    let olds = parts_of(alloc, olds, urls)?;
    let news = parts_of(alloc, news, urls)?;
    Ok(are_same_texts(olds.as_slice(), news.as_slice()))
}

/// The URLs of the files, or their paths, in order.
fn parts_of<'a>(
    alloc: Global,
    files: &[PickedSource<'a>],
    urls: bool,
) -> Result<Vec<&'a str>, AllocError>
    ensures { IfOk result (λ list. lent_texts list.items
        ≡ in_order (parts_of urls (lent_sources files.now))) }
{
    let mut list = Vec::new(alloc);
    for file in files {
        if let Some(part) = part_of(*file, urls) {
            list.push(part)?;
        }
    }
    in_order(alloc, list.as_slice())
}

fn part_of<'a>(file: PickedSource<'a>, urls: bool) -> Option<&'a str>
    ensures { option_copied result ≡ part_of urls (lent_source file.entry) }
{
    if urls { file.url() } else { file.path() }
}

/// The places of files of one name, each once.
#[tactic(auto, using(pylock_readers::proofs::Joined::joined_texts))]
fn places_text(alloc: Global, files: &[PickedSource<'_>]) -> Result<String, AllocError>
    ensures { IfOk result (λ text. string_bytes text ≡ places_text (lent_sources files.now)) }
{
    let places = places(alloc, files)?;
    let texts = lent(alloc, places.as_slice())?;
    in_order(alloc, texts.as_slice())?.join(alloc, ",")
}

fn places(alloc: Global, files: &[PickedSource<'_>]) -> Result<Vec<String>, AllocError>
    ensures { IfOk result (λ list. map string_bytes list.items
        ≡ flat_map (λ file. shown_places (source_location file)) (lent_sources files.now)) }
{
    let mut list = Vec::with_capacity(alloc, files.len())?;
    for file in files {
        push_shown(alloc, &mut list, file.path(), file.url())?;
    }
    Ok(list)
}

/// Adds the path and the URL, where they are there.
fn push_shown(
    alloc: Global,
    list: &mut Vec<String>,
    path: Option<&str>,
    url: Option<&str>,
) -> Result<(), AllocError>
    ensures { OnOk result (map string_bytes list.new.items ≡ map string_bytes list.old.items
        ++ shown_places (record {
          url = option_copied url.entry;
          path = option_copied path.entry;
        })) }
{
    if path.is_some() {
        list.push(shown_place(alloc, path, None)?)?;
    }
    if url.is_some() {
        list.push(shown_place(alloc, None, url)?)?;
    }
    Ok(())
}

fn lent<'a>(alloc: Global, texts: &'a [String]) -> Result<Vec<&'a str>, AllocError>
    ensures { IfOk result (λ list. lent_texts list.items ≡ map string_bytes texts.now) }
{
    let mut list = Vec::with_capacity(alloc, texts.len())?;
    for text in texts {
        list.push(text.as_str())?;
    }
    Ok(list)
}
