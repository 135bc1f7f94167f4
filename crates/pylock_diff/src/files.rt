//! The files of a name: what changed of them.

ghost use Rattle.std.specs.Prelude.{◌≡◌, ◌++◌, List, ℕ, IfOk, OnOk, map};
ghost use Rattle.std.specs.List.{flat_map};
ghost use Rattle.std.specs.Option.{option_copied};
ghost use Rattle.pylock_core.specs.Session.Picks.{SourceValue, lent_source};
ghost use Rattle.pylock_compare.specs.Lent.{told_under};
ghost use Rattle.pylock_compare.specs.Rows.{under_each};
ghost use Rattle.pylock_diff.specs.Change.{ChangeValue};
ghost use Rattle.pylock_diff.specs.Files.{file_in, files_of, hash_changes, name_by, place_changes};
ghost use Rattle.pylock_diff.specs.Inner.Lent.{file_row};
ghost use Rattle.pylock_diff.specs.Sources.{file_changes};

use crate::change::Change;
use crate::hashes::push_hashes;
use crate::item::Keyed;
use crate::places::push_places;
use crate::sources::push_lone_sources;
use pylock_compare::Sides;
use pylock_core::PickedSource;
use pylock_shared::SharedText;
use std::alloc::{AllocError, Global};

/// Adds what changed of the hashes of files, by file name, and of archives, by place; then the
/// sources that one lock alone has, and the files that lie elsewhere.
pub(crate) fn push_file_changes<'a>(
    alloc: Global,
    changes: &mut Vec<Change>,
    name: &SharedText,
    olds: &[Keyed<'a>],
    news: &[Keyed<'a>],
) -> Result<(), AllocError>
    ensures { OnOk result (changes.new.items ≡ changes.old.items
        ++ hash_changes name.now olds.now news.now ++ file_changes name.now olds.now news.now
        ++ place_changes name.now olds.now news.now) }
{
    let files = sides_of(alloc, olds, news, false)?;
    push_hashes(alloc, changes, name, &files)?;
    let archives = sides_of(alloc, olds, news, true)?;
    push_hashes(alloc, changes, name, &archives)?;
    push_lone_sources(alloc, changes, name, olds, news)?;
    push_places(alloc, changes, name, &files)?;
    Ok(())
}

/// The wheels and sdists of both, by file name; or the archives, by place.
fn sides_of<'a>(
    alloc: Global,
    olds: &[Keyed<'a>],
    news: &[Keyed<'a>],
    archives: bool,
) -> Result<Sides<'a, PickedSource<'a>>, AllocError>
    ensures { IfOk result (λ sides.
        (told : List ℕ → List SourceValue → List SourceValue → List ChangeValue)
        → told_under lent_source told sides
        ≡ under_each told (files_of archives olds.now) (files_of archives news.now)) }
{
    let olds = files_of(alloc, olds, archives)?;
    let news = files_of(alloc, news, archives)?;
    let sides = Sides::new(alloc, olds.as_slice(), news.as_slice())?;
    Ok(sides)
}

fn files_of<'a>(
    alloc: Global,
    items: &[Keyed<'a>],
    archives: bool,
) -> Result<Vec<(&'a str, PickedSource<'a>)>, AllocError>
    ensures { IfOk result (λ rows. map file_row rows.items ≡ files_of archives items.now) }
{
    let mut rows = Vec::new(alloc);
    for item in items {
        push_files(&mut rows, item.sources(), archives)?;
    }
    Ok(rows)
}

fn push_files<'a>(
    rows: &mut Vec<(&'a str, PickedSource<'a>)>,
    sources: &[PickedSource<'a>],
    archives: bool,
) -> Result<(), AllocError>
    ensures { OnOk result (map file_row rows.new.items ≡ map file_row rows.old.items
        ++ flat_map (file_in archives) (map lent_source sources.now)) }
{
    for source in sources {
        if let Some(name) = name_by(*source, archives) {
            rows.push((name, *source))?;
        }
    }
    Ok(())
}

/// The file name of a wheel or an sdist; or the place of an archive.
fn name_by<'a>(source: PickedSource<'a>, archives: bool) -> Option<&'a str>
    ensures { option_copied result ≡ name_by archives (lent_source source.entry) }
{
    if !archives {
        return source.file_name();
    }
    match source {
        PickedSource::Archive(archive) => Some(archive.place()),
        _ => None,
    }
}
