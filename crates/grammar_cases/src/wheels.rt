//! The names of wheels, and the choice of a wheel.

use crate::tags::tag_list;
use crate::told::{measure_text, printed_text, tell, with_copy};
use case_files::{text, texts};
use pywheel_core::{Tag, WheelName, choose};
use std::alloc::{AllocError, Global};
use toml::Table;

/// What the name `wheel` says: the name, the version, the build tag and the tags; or why it is
/// refused.
pub(crate) fn answer_case(alloc: Global, case: &Table) -> anyhow::Result<String> {
    tell(alloc, case, "wheel", WheelName::parse, name_text)
}

fn name_text(alloc: Global, wheel: &WheelName) -> anyhow::Result<String> {
    let (name, version, build) = (wheel.name(), wheel.version(), wheel.build());
    let mut said = format!(in alloc; "{name}, {version}, {:?}, {build:?},", wheel.build_text())?;
    push_tags(&mut said, wheel.tags())?;
    Ok(said)
}

fn push_tags(said: &mut String, tags: &[Tag]) -> Result<(), AllocError> {
    for tag in tags {
        write!(said, " {tag}")?;
    }
    Ok(())
}

/// The text that the name `wheel` prints, its compressed tag set, and how many tags it has.
pub(crate) fn print(alloc: Global, case: &Table) -> anyhow::Result<String> {
    tell(alloc, case, "wheel", WheelName::parse, |alloc, wheel| {
        let text = printed_text(alloc, wheel)?;
        Ok(format!(in alloc; "{text}\n{}\n{}", wheel.tag_set(), wheel.tags().len())?)
    })
}

/// The lengths of the parts of the long name `wheel`, those of its copy where they are others, and
/// what is to be seen of its text; or why it is refused.
pub(crate) fn measure(alloc: Global, case: &Table) -> anyhow::Result<String> {
    tell(alloc, case, "wheel", WheelName::parse, |alloc, wheel| {
        let printed = printed_text(alloc, wheel)?;
        let measured = measure_text(alloc, case, "wheel", printed.as_str())?;
        let lengths = with_copy(alloc, wheel, lengths)?;
        Ok(format!(in alloc; "{lengths}\n{measured}")?)
    })
}

/// The lengths of the name, of the build tag and of the tags; and the build's number and rest.
fn lengths(alloc: Global, wheel: &WheelName) -> Result<String, AllocError> {
    let (name, build) = (wheel.name().len(), wheel.build());
    let written = wheel.build_text().map(str::len);
    let (set, tags) = (wheel.tag_set().len(), wheel.tags().len());
    format!(in alloc; "name {name}, build {written:?} {build:?}, tag set {set}, {tags} tags")
}

/// The place of the best of `wheels` by `tags`, which are written with spaces between them. Where a
/// wheel is an empty text, no name stands in its place.
pub(crate) fn pick(alloc: Global, case: &Table) -> anyhow::Result<String> {
    let wheels = wheels(alloc, case)?;
    let tags = tag_list(alloc, text(alloc, case, "tags")?.as_str())?;
    Ok(format!(in alloc; "{:?}", choose(&wheels, &tags))?)
}

pub(crate) fn wheels(alloc: Global, case: &Table) -> anyhow::Result<Vec<Option<WheelName>>> {
    let mut wheels = Vec::new(alloc);
    for name in texts(alloc, case, "wheels")? {
        if name.is_empty() {
            wheels.push(None)?;
        } else {
            wheels.push(Some(WheelName::parse(alloc, name)?))?;
        }
    }
    Ok(wheels)
}
