//! The pages of an index, as a resolver or a mirror reads them: wheels and the best of them,
//! versions and the sets that admit them, requirements and their markers. `bench` counts what it
//! takes to read many.

use crate::environments::change_variable;
use crate::markers::evaluate;
use crate::still::times;
use crate::tags::tag_list;
use case_files::text;
use pymark_core::{Environment, Requirement};
use pyver_core::{SpecifierSet, Version};
use pywheel_core::{TagList, WheelName, choose};
use std::alloc::Global;
use toml::Table;

/// What the lines so far have left, and how many they tell of: wheels that were chosen, versions
/// that a set admits, and markers that hold.
#[derive(Drop)]
struct Pages {
    environment: Environment,
    tags: TagList,
    wheels: Vec<Option<WheelName>>,
    versions: Vec<Version>,
    chosen: u64,
    admitted: u64,
    holding: u64,
}

/// How many wheels are chosen, versions admitted and markers true in `lines`, which are read as
/// often as `times` says.
pub(crate) fn answer_case(alloc: Global, case: &Table) -> anyhow::Result<String> {
    let lines = text(alloc, case, "lines")?;
    let mut pages = Pages {
        environment: Environment::new(alloc),
        tags: tag_list(alloc, "")?,
        wheels: Vec::new(alloc),
        versions: Vec::new(alloc),
        chosen: 0,
        admitted: 0,
        holding: 0,
    };
    read_times(alloc, &mut pages, lines.as_str(), times(case))?;
    let (chosen, admitted, holding) = (pages.chosen, pages.admitted, pages.holding);
    Ok(format!(in alloc; "{chosen} chosen, {admitted} admitted, {holding} hold")?)
}

fn read_times(alloc: Global, pages: &mut Pages, lines: &str, times: i64) -> anyhow::Result<()> {
    for _ in 0..times {
        read_lines(alloc, pages, lines)?;
    }
    Ok(())
}

fn read_lines(alloc: Global, pages: &mut Pages, lines: &str) -> anyhow::Result<()> {
    for line in lines.lines() {
        let (word, text) = line.split_once(' ').unwrap_or((line, ""));
        read_line(alloc, pages, word, text)?;
    }
    Ok(())
}

fn read_line(alloc: Global, pages: &mut Pages, word: &str, text: &str) -> anyhow::Result<()> {
    match word {
        "set" => change_variable(alloc, &mut pages.environment, text),
        "tags" => read_tags(alloc, pages, text),
        "wheel" => read_wheel(alloc, pages, text),
        "choose" => choose_wheel(pages),
        "version" => read_version(alloc, pages, text),
        "sort" => Ok(pages.versions.sort()?),
        "admit" => admit_versions(alloc, pages, text),
        "requirement" => read_requirement(alloc, pages, text),
        "next" => end_project(pages),
        _ => Err(anyhow::anyhow!("no line")),
    }
}

fn read_tags(alloc: Global, pages: &mut Pages, text: &str) -> anyhow::Result<()> {
    pages.tags = tag_list(alloc, text)?;
    Ok(())
}

fn read_wheel(alloc: Global, pages: &mut Pages, text: &str) -> anyhow::Result<()> {
    Ok(pages.wheels.push(Some(WheelName::parse(alloc, text)?))?)
}

/// Chooses one of the wheels since the last choice.
fn choose_wheel(pages: &mut Pages) -> anyhow::Result<()> {
    if choose(&pages.wheels, &pages.tags).is_some() {
        pages.chosen = pages.chosen.saturating_add(1);
    }
    pages.wheels.clear();
    Ok(())
}

fn read_version(alloc: Global, pages: &mut Pages, text: &str) -> anyhow::Result<()> {
    Ok(pages.versions.push(Version::parse(alloc, text)?)?)
}

/// Counts the versions of the project that the set admits.
fn admit_versions(alloc: Global, pages: &mut Pages, text: &str) -> anyhow::Result<()> {
    let set = SpecifierSet::parse(alloc, text)?;
    let count = pages
        .versions
        .iter()
        .filter(|version| set.admits(version))
        .count();
    pages.admitted = pages.admitted.saturating_add(count as u64);
    Ok(())
}

/// Reads a requirement, and judges its marker with the extra `speed`.
fn read_requirement(alloc: Global, pages: &mut Pages, text: &str) -> anyhow::Result<()> {
    let requirement = Requirement::parse(alloc, text)?;
    if holds(alloc, &pages.environment, &requirement)? {
        pages.holding = pages.holding.saturating_add(1);
    }
    Ok(())
}

/// Whether the requirement has a marker, and that holds.
fn holds(
    alloc: Global,
    environment: &Environment,
    requirement: &Requirement,
) -> anyhow::Result<bool> {
    match requirement.marker() {
        Some(marker) => Ok(evaluate(alloc, environment, Some("speed"), marker)? == Ok(true)),
        None => Ok(false),
    }
}

fn end_project(pages: &mut Pages) -> anyhow::Result<()> {
    pages.versions.clear();
    Ok(())
}
