//! Calls that take no memory. Each is made of a value and of its copy, as often as `times` says,
//! and a case tells whether both always answer alike. `tools/check/allocations/run` compares the
//! allocations of a run that makes the calls once with those of one that makes them nine times.

use crate::environments::{environment_of, version};
use crate::markers::{evaluate, extra_of};
use crate::tags::tag_list;
use crate::told::read;
use crate::wheels::wheels;
use case_files::text;
use pymark_core::{Environment, Marker, Var};
use pyver_core::{NormalForm, SpecifierSet, Version, is_name, is_same_name};
use pywheel_core::{TagList, WheelName, choose};
use std::alloc::Global;
use toml::{Table, Value};

/// How often the calls are made.
pub(crate) fn times(case: &Table) -> i64 {
    match case.get("times") {
        Some(Value::Integer(times)) => *times,
        _ => 0,
    }
}

/// Whether all calls answer alike, which `are_alike` makes once.
fn tell_always<F: Fn() -> anyhow::Result<bool> + Copy>(
    alloc: Global,
    case: &Table,
    are_alike: F,
) -> anyhow::Result<String>
    requires { F.IsAlwaysCallable are_alike }
{
    let mut always = true;
    for _ in 0..times(case) {
        always = always && are_alike()?;
    }
    Ok(always.to_string(alloc)?)
}

/// The parts of `version`, its order after `older`, and what `set` admits of the two.
pub(crate) fn compare(alloc: Global, case: &Table) -> anyhow::Result<String> {
    let set = read(alloc, case, "set", SpecifierSet::parse)?;
    let older = read(alloc, case, "older", Version::parse)?;
    let version = read(alloc, case, "version", Version::parse)?;
    let (copied_set, copy) = (set.clone()?, version.clone()?);
    tell_always(alloc, case, || {
        Ok(
            are_parts_alike(&version, &copy)
                && admits_second(&set, &older, &copy)
                && admits_second(&copied_set, &older, &version)
                && set.is_seen_same(&copied_set) == copied_set.is_seen_same(&set)
                && admits_by_nothing(alloc, &version),
        )
    })
}

fn are_parts_alike(version: &Version, copy: &Version) -> bool {
    version.text() == copy.text()
        && version.epoch() == copy.epoch()
        && version.release() == copy.release()
        && version.pre() == copy.pre()
        && version.post() == copy.post()
        && version.dev() == copy.dev()
        && version.local() == copy.local()
        && version.is_prerelease() == copy.is_prerelease()
        && version.is_postrelease() == copy.is_postrelease()
}

/// Whether the set admits the second version alone, which is after the first.
fn admits_second(set: &SpecifierSet, first: &Version, second: &Version) -> bool {
    first < second
        && first != second
        && second == second
        && !set.admits(first)
        && set.admits(second)
        && !set.items().is_empty()
        && set == set
}

/// Whether the set without a specifier has none, and admits the version.
fn admits_by_nothing(alloc: Global, version: &Version) -> bool {
    let set = SpecifierSet::empty(alloc);
    set.items().is_empty() && set.text().is_empty() && set.admits(version)
}

/// The normal form of `text`, which stands in it already, whether it is a name, and the same as
/// itself.
pub(crate) fn lend(alloc: Global, case: &Table) -> anyhow::Result<String> {
    let text = text(alloc, case, "text")?;
    let text = text.as_str();
    tell_always(alloc, case, || {
        let form = NormalForm::of(alloc, text)?;
        Ok(is_name(text) && is_same_name(form.as_str(), text))
    })
}

/// The value of `marker`, which is true, its text and what it reads; where the case has a text
/// `extra`, that is the operand `extra`.
pub(crate) fn judge(alloc: Global, case: &Table) -> anyhow::Result<String> {
    let marker = read(alloc, case, "marker", Marker::parse)?;
    let environment = environment_of(alloc, case)?;
    tell_always(alloc, case, || {
        is_judged_alike(alloc, &marker, &environment, extra_of(case))
    })
}

/// The copies of the marker and of the environment take no memory either.
fn is_judged_alike(
    alloc: Global,
    marker: &Marker,
    environment: &Environment,
    extra: Option<&str>,
) -> anyhow::Result<bool> {
    let copy = marker.clone()?;
    let copied = environment.copy()?;
    let value = evaluate(alloc, environment, extra, marker)?;
    let copied = evaluate(alloc, &copied, extra, &copy)?;
    let is_read_alike = marker.is_seen_same(&copy)
        && marker.text() == copy.text()
        && marker.reads() == copy.reads();
    Ok(is_read_alike && value == Ok(true) && copied == value)
}

/// What an environment says of `python_version`, of an extra and of a group, and what its copy says
/// once the variable has no text and nothing is asked for. The copy takes no memory either.
pub(crate) fn ask(alloc: Global, case: &Table) -> anyhow::Result<String> {
    let environment = environment_of(alloc, case)?;
    tell_always(alloc, case, || is_copied_alike(&environment))
}

fn is_copied_alike(environment: &Environment) -> anyhow::Result<bool> {
    let mut copy = environment.copy()?;
    let is_alike = says_what_is_set(environment) && says_what_is_set(&copy);
    copy.unset(Var::PythonVersion);
    copy.ask_nothing();
    Ok(is_alike && says_nothing(&copy))
}

/// Whether `python_version` is 3.12, and the extra `a-b` and no group is asked for.
fn says_what_is_set(environment: &Environment) -> bool {
    environment.get(Var::PythonVersion) == Some("3.12")
        && version(environment, Var::PythonVersion) == "3.12"
        && environment.has_extra("a-b")
        && !environment.has_group("a-b")
        && environment.extras().next() == Some("a-b")
        && environment.groups().next().is_none()
}

fn says_nothing(environment: &Environment) -> bool {
    environment.get(Var::PythonVersion).is_none() && !environment.has_extra("a-b")
}

/// What the names `wheels` and the list `tags` say, and the choice of a wheel, which is told.
pub(crate) fn pick(alloc: Global, case: &Table) -> anyhow::Result<String> {
    let wheels = wheels(alloc, case)?;
    let tags = tag_list(alloc, text(alloc, case, "tags")?.as_str())?;
    let (copies, copy) = (wheels.clone()?, tags.clone()?);
    let always = tell_always(alloc, case, || {
        Ok(
            choose(&wheels, &tags) == choose(&copies, &copy)
                && are_wheels_alike(&wheels, &copies, [&tags, &copy]),
        )
    })?;
    Ok(format!(in alloc; "{always}, {:?}", choose(&wheels, &tags))?)
}

fn are_wheels_alike(
    wheels: &[Option<WheelName>],
    copies: &[Option<WheelName>],
    lists: [&TagList; 2],
) -> bool {
    wheels.iter().zip(copies).all(|pair| match pair {
        (Some(wheel), Some(copy)) => is_wheel_alike(wheel, copy) && are_ranks_alike(wheel, lists),
        _ => false,
    })
}

fn is_wheel_alike(wheel: &WheelName, copy: &WheelName) -> bool {
    wheel.name() == copy.name()
        && wheel.version() == copy.version()
        && wheel.build() == copy.build()
        && wheel.build_text() == copy.build_text()
        && wheel.tag_set() == copy.tag_set()
        && wheel.tags() == copy.tags()
}

fn are_ranks_alike(wheel: &WheelName, lists: [&TagList; 2]) -> bool {
    let [tags, copy] = lists;
    wheel
        .tags()
        .iter()
        .all(|tag| tags.rank(tag) == copy.rank(tag))
        && tags.len() == copy.len()
        && tags.is_empty() == copy.is_empty()
        && tags.tags() == copy.tags()
}
