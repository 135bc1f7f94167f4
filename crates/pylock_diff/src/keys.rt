//! Keys of entries: those of which no other line tells.

ghost use Rattle.std.specs.Prelude.{◌≡◌, ◌++◌, IfOk, OnOk, map, string_bytes};
ghost use Rattle.pylock_compare.specs.Lent.{told_under};
ghost use Rattle.pylock_diff.specs.Codes.{code_row};
ghost use Rattle.pylock_diff.specs.Inner.Lent.{lent_place, lent_places, place_row};
ghost use Rattle.pylock_diff.specs.Keys.{are_same_values, changes_by, is_source_key, is_told};
ghost use Rattle.pylock_diff.specs.Keys.{key_changes, key_text, placed_at, placed_rows, rows_of};
ghost use Rattle.pylock_diff.specs.Keys.{tells_of, values_text};

use crate::change::{Change, ChangeKind, push_change};
use crate::codes::Codes;
use crate::item::Keyed;
use pylock_compare::Sides;
use pylock_shared::SharedText;
use pylock_shown::hidden;
use pytoml_code::shown_code;
use std::alloc::{AllocError, Global};

/// A code, and the place of its entry among those of a name.
type Placed<'a> = (usize, &'a [u8]);

/// Adds a line for each key of the entries that differs, entry by entry, unless one of these
/// changes tells of it; or for each key of their sources of which no row tells.
pub(crate) fn push_keys(
    alloc: Global,
    changes: &mut Vec<Change>,
    name: &SharedText,
    told: &[Change],
    items: (&[Keyed<'_>], &[Keyed<'_>]),
    of_sources: bool,
) -> Result<(), AllocError>
    ensures { OnOk result (changes.new.items ≡ changes.old.items
        ++ changes_by of_sources name.now told.now items.entry.0.now items.entry.1.now) }
{
    let olds = placed_rows(alloc, items.0, of_sources)?;
    let news = placed_rows(alloc, items.1, of_sources)?;
    let sides = Sides::new(alloc, olds.as_slice(), news.as_slice())?;
    push_each(alloc, changes, name, told, &sides)?;
    Ok(())
}

/// The codes of the entries, each under its key.
fn placed_rows<'a>(
    alloc: Global,
    items: &[Keyed<'a>],
    of_sources: bool,
) -> Result<Vec<(&'a str, Placed<'a>)>, AllocError>
    ensures { IfOk result (λ rows. map place_row rows.items
        ≡ placed_rows of_sources 0 items.now) }
{
    let mut rows = Vec::new(alloc);
    for (place, item) in items.iter().enumerate() {
        push_rows(&mut rows, place, codes_of(item, of_sources).rows())?;
    }
    Ok(rows)
}

fn codes_of<'a>(item: &Keyed<'a>, of_sources: bool) -> &'a Codes
    ensures { result.now ≡ rows_of of_sources item.now }
{
    let codes = item.item().codes;
    if of_sources {
        &codes.inner
    } else {
        &codes.keys
    }
}

fn push_rows<'a>(
    rows: &mut Vec<(&'a str, Placed<'a>)>,
    place: usize,
    codes: &'a [(String, Vec<u8>)],
) -> Result<(), AllocError>
    ensures { OnOk result (map place_row rows.new.items
        ≡ map place_row rows.old.items ++ placed_at place (map code_row codes.now)) }
{
    for (key, code) in codes {
        rows.push((key.as_str(), (place, code.as_slice())))?;
    }
    Ok(())
}

fn push_each<'a>(
    alloc: Global,
    changes: &mut Vec<Change>,
    name: &SharedText,
    told: &[Change],
    sides: &Sides<'a, Placed<'a>>,
) -> Result<(), AllocError>
    ensures { OnOk result (changes.new.items ≡ changes.old.items
        ++ told_under lent_place (key_changes name.now told.now) sides.now) }
{
    for key in &sides.names {
        let values = (sides.old(key), sides.new_values(key));
        push_key(alloc, changes, (name, told), key, values)?;
    }
    Ok(())
}

/// Adds that a key differs, where it does and none of these changes of the name tells of it.
fn push_key<'x>(
    alloc: Global,
    changes: &mut Vec<Change>,
    named: (&SharedText, &[Change]),
    key: &str,
    values: (&[Placed<'x>], &[Placed<'x>]),
) -> Result<(), AllocError>
    ensures { OnOk result (changes.new.items ≡ changes.old.items
        ++ key_changes named.entry.0.now named.entry.1.now key.now
        (lent_places values.entry.0.now) (lent_places values.entry.1.now)) }
{
    let (name, told) = named;
    let (olds, news) = values;
    if is_told(told, key) || are_same(olds, news) {
        return Ok(());
    }
    let from = key_text(alloc, key, olds)?;
    let to = key_text(alloc, key, news)?;
    push_change(changes, ChangeKind::Key, name, Some(from), Some(to))
}

fn are_same<'x>(olds: &[Placed<'x>], news: &[Placed<'x>]) -> bool
    ensures { result ≡ are_same_values (lent_places olds.now) (lent_places news.now) }
{
    olds == news
}

/// The key and its values joined by ` | `, or `-`, each as it is shown.
fn key_text(alloc: Global, key: &str, values: &[Placed<'_>]) -> Result<String, AllocError>
    ensures { IfOk result (λ text. string_bytes text ≡ key_text key.now (lent_places values.now)) }
{
    let mut text = hidden(alloc, key)?;
    text.push_str(" ")?;
    text.push_str(values_text(alloc, values)?.as_str())?;
    Ok(text)
}

fn values_text(alloc: Global, values: &[Placed<'_>]) -> Result<String, AllocError>
    ensures { IfOk result (λ text. string_bytes text ≡ values_text (lent_places values.now)) }
{
    let [first, others @ ..] = values else {
        return String::from_str(alloc, "-");
    };
    let mut text = shown_code(alloc, first.1)?;
    for other in others {
        text.push_str(" | ")?;
        text.push_str(shown_code(alloc, other.1)?.as_str())?;
    }
    Ok(text)
}

// ---- which key which change tells of

fn is_told(told: &[Change], key: &str) -> bool
    ensures { result ≡ is_told told.now key.now }
{
    told.iter().any(|change| tells_of(change.kind(), key))
}

/// Whether a change of this kind tells of a key of entries.
fn tells_of(kind: ChangeKind, key: &str) -> bool
    ensures { result ≡ tells_of kind key.now }
{
    match kind {
        ChangeKind::Version => key == "version" || is_source_key(key),
        ChangeKind::Hash | ChangeKind::File | ChangeKind::Place | ChangeKind::Key => {
            is_source_key(key)
        }
        ChangeKind::Condition => matches!(key, "marker" | "requires-python"),
        ChangeKind::Head | ChangeKind::Added | ChangeKind::Removed | ChangeKind::Fault => false,
    }
}

fn is_source_key(key: &str) -> bool
    ensures { result ≡ is_source_key key.now }
{
    matches!(
        key,
        "vcs" | "directory" | "archive" | "sdist" | "wheels" | "wheel" | "editable"
    )
}
