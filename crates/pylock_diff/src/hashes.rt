//! Hashes under one name.

ghost use Rattle.std.specs.Prelude.{◌≡◌, ◌++◌, IfOk, OnOk, map, string_bytes};
ghost use Rattle.std.specs.List.{flat_map};
ghost use Rattle.pylock_compare.specs.Lent.{lent_texts, told_under};
ghost use Rattle.pylock_compare.specs.Rows.{under_each};
ghost use Rattle.pylock_core.specs.Session.Picks.{lent_source, source_hashes};
ghost use Rattle.pylock_diff.specs.Hashes.{hash_text, hash_values, hashes_told, label_of};
ghost use Rattle.pylock_diff.specs.Hashes.{value_changes};
ghost use Rattle.pylock_diff.specs.Inner.Lent.{hash_row, lent_sources};
ghost use Rattle.pylock_readers.specs.Text.{text_pairs};

use crate::change::{Change, ChangeKind, push_labelled};
use crate::texts::are_same_texts;
use pylock_compare::{Sides, in_order};
use pylock_core::PickedSource;
use pylock_places::source_label;
use pylock_shared::{LabelledText, SharedText};
use pylock_shown::push_hidden;
use std::alloc::{AllocError, Global};

/// Adds what changed of the hashes of what stands under each name.
pub(crate) fn push_hashes<'a>(
    alloc: Global,
    changes: &mut Vec<Change>,
    name: &SharedText,
    files: &Sides<'a, PickedSource<'a>>,
) -> Result<(), AllocError>
    ensures { OnOk result (changes.new.items ≡ changes.old.items
        ++ told_under lent_source (λ file. hashes_told name.now) files.now) }
{
    for file in &files.names {
        push_told(
            alloc,
            changes,
            name,
            files.old(file),
            files.new_values(file),
        )?;
    }
    Ok(())
}

/// The same of files of one name, or of archives of one place; there may be none.
fn push_told(
    alloc: Global,
    changes: &mut Vec<Change>,
    name: &SharedText,
    olds: &[PickedSource<'_>],
    news: &[PickedSource<'_>],
) -> Result<(), AllocError>
    ensures { OnOk result (changes.new.items ≡ changes.old.items
        ++ hashes_told name.now (lent_sources olds.now) (lent_sources news.now)) }
{
    if olds.is_empty() || news.is_empty() {
        return Ok(());
    }
    push_both(alloc, changes, name, olds, news)
}

/// The same of what stands in both.
fn push_both(
    alloc: Global,
    changes: &mut Vec<Change>,
    name: &SharedText,
    olds: &[PickedSource<'_>],
    news: &[PickedSource<'_>],
) -> Result<(), AllocError>
    ensures { OnOk result (changes.new.items ≡ changes.old.items ++ under_each
        (value_changes name.now (label_of (lent_sources olds.now))
        (label_of (lent_sources news.now)))
        (flat_map source_hashes (lent_sources olds.now))
        (flat_map source_hashes (lent_sources news.now))) }
{
    let from = SharedText::new(alloc, label_of(alloc, olds)?)?;
    let to = SharedText::new(alloc, label_of(alloc, news)?)?;
    let olds = hashes_of(alloc, olds)?;
    let news = hashes_of(alloc, news)?;
    push_each(
        alloc,
        changes,
        name,
        (&from, &to),
        olds.as_slice(),
        news.as_slice(),
    )
}

/// How they are shown, which the changes share: as the first of them.
fn label_of(alloc: Global, sources: &[PickedSource<'_>]) -> Result<String, AllocError>
    ensures { IfOk result (λ text. string_bytes text ≡ label_of (lent_sources sources.now)) }
{
    match sources {
        [source, ..] => source_label(alloc, *source),
        [] => Ok(String::new(alloc)),
    }
}

/// The pairs of algorithm and value.
fn hashes_of<'a>(
    alloc: Global,
    sources: &[PickedSource<'a>],
) -> Result<Vec<(&'a str, &'a str)>, AllocError>
    ensures { IfOk result (λ rows. map hash_row rows.items
        ≡ flat_map source_hashes (lent_sources sources.now)) }
{
    let mut rows = Vec::new(alloc);
    for source in sources {
        push_pairs(&mut rows, source.hashes())?;
    }
    Ok(rows)
}

fn push_pairs<'a>(
    rows: &mut Vec<(&'a str, &'a str)>,
    pairs: &'a [(String, String)],
) -> Result<(), AllocError>
    ensures { OnOk result (map hash_row rows.new.items
        ≡ map hash_row rows.old.items ++ text_pairs pairs.now) }
{
    for (algorithm, value) in pairs {
        rows.push((algorithm.as_str(), value.as_str()))?;
    }
    Ok(())
}

/// Adds a line for each algorithm that isn't alike.
fn push_each<'a>(
    alloc: Global,
    changes: &mut Vec<Change>,
    name: &SharedText,
    labels: (&SharedText, &SharedText),
    olds: &[(&'a str, &'a str)],
    news: &[(&'a str, &'a str)],
) -> Result<(), AllocError>
    ensures { OnOk result (changes.new.items ≡ changes.old.items
        ++ under_each (value_changes name.now labels.entry.0.now labels.entry.1.now)
        (map hash_row olds.now) (map hash_row news.now)) }
{
    let sides = Sides::new(alloc, olds, news)?;
    push_algorithms(alloc, changes, name, labels, &sides)?;
    Ok(())
}

fn push_algorithms<'a>(
    alloc: Global,
    changes: &mut Vec<Change>,
    name: &SharedText,
    labels: (&SharedText, &SharedText),
    sides: &Sides<'a, &'a str>,
) -> Result<(), AllocError>
    ensures { OnOk result (changes.new.items ≡ changes.old.items
        ++ told_under (λ text. text.now)
        (value_changes name.now labels.entry.0.now labels.entry.1.now) sides.now) }
{
    for algorithm in &sides.names {
        let values = (sides.old(algorithm), sides.new_values(algorithm));
        push_values(alloc, changes, name, labels, algorithm, values)?;
    }
    Ok(())
}

/// Adds that the values of an algorithm differ, where they do.
fn push_values(
    alloc: Global,
    changes: &mut Vec<Change>,
    name: &SharedText,
    labels: (&SharedText, &SharedText),
    algorithm: &str,
    values: (&[&str], &[&str]),
) -> Result<(), AllocError>
    ensures { OnOk result (changes.new.items ≡ changes.old.items
        ++ value_changes name.now labels.entry.0.now labels.entry.1.now algorithm.now
        (lent_texts values.entry.0.now) (lent_texts values.entry.1.now)) }
{
    let olds = in_order(alloc, values.0)?;
    let news = in_order(alloc, values.1)?;
    if are_same_texts(olds.as_slice(), news.as_slice()) {
        return Ok(());
    }
    let from = hash_text(alloc, labels.0, algorithm, olds.as_slice())?;
    let to = hash_text(alloc, labels.1, algorithm, news.as_slice())?;
    push_labelled(changes, ChangeKind::Hash, name, Some(from), Some(to))
}

/// Label, algorithm and values, each as it is shown.
fn hash_text(
    alloc: Global,
    label: &SharedText,
    algorithm: &str,
    values: &[&str],
) -> Result<LabelledText, AllocError>
    ensures { IfOk result (λ text. text
        ≡ hash_text label.now algorithm.now (lent_texts values.now)) }
{
    let mut rest = String::from_str(alloc, " ")?;
    push_hidden(&mut rest, algorithm)?;
    rest.push_str(" ")?;
    push_shown(&mut rest, values)?;
    LabelledText::new(label, rest)
}

/// Adds the values as they are shown, joined by `,`, or `-`.
fn push_shown(text: &mut String, values: &[&str]) -> Result<(), AllocError>
    ensures { OnOk result (string_bytes text.new
        ≡ string_bytes text.old ++ hash_values (lent_texts values.now)) }
{
    let [first, others @ ..] = values else {
        return text.push_str("-");
    };
    push_hidden(text, first)?;
    for other in others {
        text.push_str(",")?;
        push_hidden(text, other)?;
    }
    Ok(())
}
