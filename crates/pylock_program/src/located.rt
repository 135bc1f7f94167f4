//! Findings at their places in the text of a lock.

ghost use Rattle.std.specs.Prelude.{◌≡◌, IfOk, IfSome};
ghost use Rattle.std.specs.Option.{option_copied};
ghost use Rattle.toml.specs.Parse.{skip_bom};
ghost use Rattle.pylock_program.specs.Inner.Located.{IsKnownIn};
ghost use Rattle.pylock_program.specs.Located.{AreLocated, IsPlaceIn};

use pylock_audit::{FindingKind, LockFinding};
use pylock_shared::whole_text;
use pylock_spans::{Place, Places, steps_of};
use std::alloc::{AllocError, Global};
use std::str;

/// How many keys of one entry, or of the head, are sought at most. A search goes through the text
/// of the entry, or through the whole text.
const MOST_SEARCHES: usize = 8;

/// Where a text begins.
const FIRST: Place = Place { line: 1, column: 1 };

/// A finding, and its place, if the text has any.
#[derive(Drop)]
pub(crate) struct Located<'a> {
    pub(crate) finding: &'a LockFinding,
    pub(crate) place: Option<Place>,
}

/// The findings in the lock of these bytes, in order, each at its place: that of the key that it is
/// about, or else of its entry, or else of the text. It takes memory for the places of the entries.
pub(crate) fn with_places<'a>(
    alloc: Global,
    bytes: &[u8],
    found: &'a [LockFinding],
) -> Result<Vec<Located<'a>>, AllocError>
    ensures { IfOk result (λ located. AreLocated bytes.now found.now located.items) }
{
    let read = read_places(alloc, bytes, found)?;
    let places = read.as_ref();
    let mut located = Vec::with_capacity(alloc, found.len())?;
    let mut number = 0;
    let mut searches: usize = 0;
    for one in found {
        if one.number() != number {
            number = one.number();
            searches = 0;
        }
        let place = place_of(alloc, places, one, searches < MOST_SEARCHES)?;
        searches = searches.saturating_add(1);
        located.push(Located {
            finding: one,
            place,
        })?;
    }
    Ok(located)
}

/// The places of a lock that was read; none where the bytes are no text, or where nothing is found,
/// so that a lock without findings isn't read again.
fn read_places<'a>(
    alloc: Global,
    bytes: &'a [u8],
    found: &[LockFinding],
) -> Result<Option<Places<'a>>, AllocError>
    ensures { IfOk result (λ read. IfSome read (λ places.
        places.text ≡ skip_bom bytes.now)) }
{
    if found.is_empty() {
        return Ok(None);
    }
    match str::from_utf8(bytes) {
        Ok(text) => Ok(Some(Places::of_toml(alloc, text)?)),
        Err(_) => Ok(None),
    }
}

/// The place of a finding. The key that it is about is sought only where that is asked for.
fn place_of(
    alloc: Global,
    places: Option<&Places<'_>>,
    one: &LockFinding,
    seeks: bool,
) -> Result<Option<Place>, AllocError>
    ensures { IfOk result (IsKnownIn (option_copied places.entry)) }
{
    match places {
        Some(places) => Ok(Some(place_in(alloc, places, one, seeks)?)),
        None => Ok(None),
    }
}

/// The place of the key, or else of the entry, or else of the text.
fn place_in(
    alloc: Global,
    places: &Places<'_>,
    one: &LockFinding,
    seeks: bool,
) -> Result<Place, AllocError>
    ensures { IfOk result (IsPlaceIn places.now.text) }
{
    let key = if seeks {
        key_place(alloc, places, one)?
    } else {
        None
    };
    match key {
        Some(place) => Ok(place),
        None => Ok(entry_place(places, one.number())),
    }
}

/// The place of the entry, or else of the text.
fn entry_place(places: &Places<'_>, number: usize) -> Place
    ensures { IsPlaceIn places.now.text result }
{
    match places.entry(number) {
        Some(place) => place,
        None => FIRST,
    }
}

// ---- keys

/// The place of the key that a finding is about.
fn key_place(
    alloc: Global,
    places: &Places<'_>,
    one: &LockFinding,
) -> Result<Option<Place>, AllocError>
    ensures { IfOk result (λ found. IfSome found (IsPlaceIn places.now.text)) }
{
    let kind = one.finding().kind();
    if let Some(path) = path_of(one.number(), kind) {
        return path_place(alloc, places, one.number(), path);
    }
    if !tells_path(kind) {
        return Ok(None);
    }
    match whole_text(alloc, one.finding().detail())? {
        Some(path) => path_place(alloc, places, one.number(), &path),
        None => Ok(None),
    }
}

/// The place of the key at a path, as findings write it.
fn path_place(
    alloc: Global,
    places: &Places<'_>,
    number: usize,
    path: &str,
) -> Result<Option<Place>, AllocError>
    ensures { IfOk result (λ found. IfSome found (IsPlaceIn places.now.text)) }
{
    let steps = steps_of(alloc, path)?;
    places.key(alloc, number, steps.as_slice())
}

/// The path of the key of an entry, or of the head, that each finding of the kind is about, where
/// there is one.
fn path_of(number: usize, kind: FindingKind) -> Option<&'static str> {
    match kind {
        FindingKind::LockVersion => Some("lock-version"),
        FindingKind::NameForm if number == 0 => Some("extras"),
        FindingKind::NameForm => Some("name"),
        FindingKind::Version | FindingKind::Vulnerable => Some("version"),
        FindingKind::MarkerExtra | FindingKind::ReadingsDiffer | FindingKind::UndeclaredName => {
            Some("marker")
        }
        FindingKind::NarrowerPython | FindingKind::MayBeNarrower => Some("requires-python"),
        FindingKind::MovingCommit => Some("vcs commit-id"),
        _ => None,
    }
}

/// Whether the detail of a finding of the kind is the path of a key.
fn tells_path(kind: FindingKind) -> bool {
    matches!(
        kind,
        FindingKind::UnknownKey | FindingKind::WrongType | FindingKind::SecretInUrl
    )
}
