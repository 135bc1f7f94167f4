//! Why an entry has what becomes of it, and why the head has its fault. Each text of the lock is
//! shown without what opens a URL.

ghost use Rattle.std.specs.Prelude.{◌≡◌, IfOk, option_and_then, option_map, slice_get};
ghost use Rattle.std.specs.Prelude.{string_bytes};
ghost use Rattle.std.specs.Option.{option_copied};
ghost use Rattle.pylock_readers.specs.Entry.{wheel_names};
ghost use Rattle.pylock_documents.specs.Reasons.{best_tag, condition_detail, deciding_marker};
ghost use Rattle.pylock_documents.specs.Reasons.{detail, files_word, has_tag, head_detail};
ghost use Rattle.pylock_documents.specs.Reasons.{marker_detail, sdist_word, shown_version};
ghost use Rattle.pylock_documents.specs.Reasons.{source_detail, wheel_at, wheel_detail};

use pylock_core::{
    Entry, Fate, FaultCode, Head, PickSource, Policy, Session, WheelFile, policy_word,
};
use pylock_places::{hidden_text, shown_file_name, source_label};
use pylock_shown::push_hidden;
use pymark_core::{Environment, EvalFault, Marker};
use pyver_core::SpecifierSet;
use pywheel_core::{Tag, TagList, WheelName};
use std::alloc::{AllocError, Global};
use std::fmt::Write;

/// Why an entry has its fate.
pub fn detail(
    alloc: Global,
    session: &Session,
    entry: &Entry,
    fate: Fate,
) -> Result<Option<String>, AllocError>
    ensures { IfOk result (λ text. option_map string_bytes text
        ≡ detail session.now.state entry.now fate) }
{
    match fate {
        Fate::Skipped => marker_of(alloc, session.environment(), entry.marker()),
        Fate::Faulty(code) => condition_detail(
            alloc,
            session.environment(),
            entry.requires_python(),
            entry.marker(),
            code,
        ),
        Fate::Ambiguous(first) => Ok(Some(format!(in alloc; "{first}")?)),
        Fate::Sources => Ok(Some(entry.kinds_text(alloc)?)),
        Fate::NoFile(policy) => Ok(Some(files_text(alloc, entry, policy)?)),
        Fate::Picked(source) => source_detail(alloc, session.tags(), entry, source),
    }
}

/// Why the head has its fault.
pub fn head_detail(
    alloc: Global,
    head: &Head,
    environment: &Environment,
    code: FaultCode,
) -> Result<Option<String>, AllocError>
    ensures { IfOk result (λ text. option_map string_bytes text
        ≡ head_detail head.now environment.now code) }
{
    let marker = deciding_marker(alloc, environment, head.environments())?;
    condition_detail(alloc, environment, head.requires_python(), marker, code)
}

/// The first of the markers that isn't false.
fn deciding_marker<'a>(
    alloc: Global,
    environment: &Environment,
    markers: &'a [Marker],
) -> Result<Option<&'a Marker>, AllocError>
    ensures { IfOk result (λ marker. option_copied marker
        ≡ deciding_marker environment.now markers.now) }
{
    for marker in markers {
        match marker.evaluate(alloc, environment) {
            Err(EvalFault::Memory) => return Err(AllocError),
            Ok(false) => {}
            _ => return Ok(Some(marker)),
        }
    }
    Ok(None)
}

/// The set of a Python check that has this fault, or the marker.
fn condition_detail(
    alloc: Global,
    environment: &Environment,
    set: Option<&SpecifierSet>,
    marker: Option<&Marker>,
    code: FaultCode,
) -> Result<Option<String>, AllocError>
    ensures { IfOk result (λ text. option_map string_bytes text
        ≡ condition_detail environment.now (option_copied set.entry) (option_copied marker.entry)
        code) }
{
    match code {
        FaultCode::PythonUnknown | FaultCode::PythonNotMet => {
            hidden_text(alloc, set.map(|set| set.text()))
        }
        _ => marker_of(alloc, environment, marker),
    }
}

fn marker_of(
    alloc: Global,
    environment: &Environment,
    marker: Option<&Marker>,
) -> Result<Option<String>, AllocError>
    ensures { IfOk result (λ text. option_map string_bytes text
        ≡ option_map (marker_detail environment.now) (option_copied marker.entry)) }
{
    match marker {
        Some(marker) => Ok(Some(marker_detail(alloc, environment, marker)?)),
        None => Ok(None),
    }
}

/// The text of a marker, after the variable whose value it misses.
fn marker_detail(
    alloc: Global,
    environment: &Environment,
    marker: &Marker,
) -> Result<String, AllocError>
    ensures { IfOk result (λ text. string_bytes text
        ≡ marker_detail environment.now marker.now) }
{
    let mut text = String::new(alloc);
    match marker.evaluate(alloc, environment) {
        Err(EvalFault::Memory) => return Err(AllocError),
        Err(EvalFault::Unset(variable)) => {
            text.push_str(variable.name())?;
            text.push_str(" ")?;
        }
        _ => {}
    }
    push_hidden(&mut text, marker.text())?;
    Ok(text)
}

/// What files an entry has, and the policy of its name.
fn files_text(alloc: Global, entry: &Entry, policy: Policy) -> Result<String, AllocError>
    ensures { IfOk result (λ text. string_bytes text ≡ files_word entry.now policy) }
{
    let (wheels, sdist, policy) = (entry.wheels().len(), sdist_word(entry), policy_word(policy));
    let text = format!(in alloc; "wheels {wheels}{sdist}{policy}")?;
    Ok(text)
}

fn sdist_word(entry: &Entry) -> &'static str
    ensures { result.now ≡ sdist_word entry.now }
{
    if entry.sdist().is_some() {
        " sdist "
    } else {
        " no sdist "
    }
}

/// Where a source lies: its file, or its place.
fn source_detail(
    alloc: Global,
    tags: &TagList,
    entry: &Entry,
    source: PickSource,
) -> Result<Option<String>, AllocError>
    ensures { IfOk result (λ text. option_map string_bytes text
        ≡ source_detail tags.now entry.now source) }
{
    match (source, source.of(entry)) {
        (PickSource::Wheel(index), _) => wheel_at(alloc, tags, entry, index),
        (_, Some(source)) => Ok(Some(source_label(alloc, source)?)),
        (_, None) => Ok(None),
    }
}

/// The version of an entry, as it is shown. It takes memory for the text, once more while it grows.
pub fn shown_version(alloc: Global, entry: &Entry) -> Result<Option<String>, AllocError>
    ensures { IfOk result (λ text. option_map string_bytes text ≡ shown_version entry.now) }
{
    hidden_text(alloc, entry.version())
}

/// The wheel at this index: its file name and its best tag.
fn wheel_at(
    alloc: Global,
    tags: &TagList,
    entry: &Entry,
    index: usize,
) -> Result<Option<String>, AllocError>
    ensures { IfOk result (λ text. option_map string_bytes text
        ≡ wheel_at tags.now entry.now index) }
{
    match entry.wheels().get(index) {
        Some(file) => Ok(Some(wheel_detail(alloc, tags, file, name_at(entry, index))?)),
        None => Ok(None),
    }
}

/// What the file name of the wheel at this index says.
fn name_at(entry: &Entry, index: usize) -> Option<&WheelName>
    ensures { option_copied result
        ≡ option_and_then (λ name. name) (slice_get (wheel_names entry.now) index) }
{
    entry.wheel_names().get(index)?.as_ref()
}

fn wheel_detail(
    alloc: Global,
    tags: &TagList,
    file: &WheelFile,
    name: Option<&WheelName>,
) -> Result<String, AllocError>
    ensures { IfOk result (λ text. string_bytes text
        ≡ wheel_detail tags.now file.now (option_copied name.entry)) }
{
    let mut text = match shown_file_name(alloc, file)? {
        Some(name) => name,
        None => String::new(alloc),
    };
    if let Some(tag) = best_of(name, tags) {
        write!(text, " {tag}")?;
    }
    Ok(text)
}

/// The first tag of the list that is one of the wheel's.
fn best_of<'a>(name: Option<&WheelName>, tags: &'a TagList) -> Option<&'a Tag>
    ensures { option_copied result
        ≡ option_and_then (λ w. best_tag w.tags tags.now) (option_copied name.entry) }
{
    best_tag(name?.tags(), tags.tags())
}

fn best_tag<'a>(own: &[Tag], tags: &'a [Tag]) -> Option<&'a Tag>
    ensures { option_copied result ≡ best_tag own.now tags.now }
{
    for tag in tags {
        if has_tag(own, tag) {
            return Some(tag);
        }
    }
    None
}

/// Whether a tag is one of these.
#[tactic(auto, unfolding(crate::specs::Reasons::has_tag))]
fn has_tag(own: &[Tag], tag: &Tag) -> bool
    ensures { result ≡ has_tag own.now tag.now }
{
    own.contains(tag)
}
