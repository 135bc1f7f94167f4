//! What a project says of Python, extras and groups, beside the head of a lock (PEP 751).

ghost use Rattle.std.specs.Prelude.{◌≡◌, ◌++◌, [], ◌∷◌, IfOk, OnOk, Some, filter, map, not};
ghost use Rattle.std.specs.Prelude.{string_bytes};
ghost use Rattle.std.specs.Option.{option_copied};
ghost use Rattle.pylock_check.specs.Head.{AreHeadDifferences, ArePythons, extra_names};
ghost use Rattle.pylock_check.specs.Head.{extras_apart, is_locks, is_projects, locks_alone};
ghost use Rattle.pylock_check.specs.Head.{name_differences, names_apart, of_python};
ghost use Rattle.pylock_check.specs.Head.{projects_alone, python_differences};
ghost use Rattle.pylock_check.specs.Judging.{dynamic_difference};
ghost use Rattle.pylock_check.specs.Sections.{table_place};

use crate::difference::{Difference, DifferenceKind};
use crate::judging::dynamic_difference;
use crate::project::Project;
use crate::requirements::ListKind;
use crate::sections::{Section, has_section, table_place};
use pylock_core::{Head, HeadNames};
use pyver_algebra::{Answer, is_subset};
use pyver_core::SpecifierSet;
use std::alloc::{AllocError, Global};

/// What differs between a project and the head of a lock, whatever the target: where both have
/// `requires-python`, a version that the project's admits and the lock's doesn't, or that it wasn't
/// decided whether there is one; where the lock names extras, those that the project or the lock
/// alone has; the same of the groups.
///
/// It takes memory for the differences and for what `pyver_algebra` tries.
pub fn head_differences(
    alloc: Global,
    project: &Project,
    head: &Head,
) -> Result<Vec<Difference>, AllocError>
    ensures { IfOk result (λ list. AreHeadDifferences project.now head.now list.items) }
{
    let mut list = python_differences(alloc, project.requires_python(), head.requires_python())?;
    push_extra_names(alloc, &mut list, project, head.extras())?;
    push_group_names(alloc, &mut list, project.groups(), head.groups())?;
    Ok(list)
}

/// What differs between the versions of Python, where both are told.
fn python_differences(
    alloc: Global,
    project: Option<&SpecifierSet>,
    lock: Option<&SpecifierSet>,
) -> Result<Vec<Difference>, AllocError>
    ensures { IfOk result (λ list. ArePythons (option_copied project.entry)
        (option_copied lock.entry) list.items) }
{
    let Some(project) = project else {
        return Ok(Vec::new(alloc));
    };
    let Some(lock) = lock else {
        return Ok(Vec::new(alloc));
    };
    pythons_apart(alloc, project, lock)
}

fn pythons_apart(
    alloc: Global,
    project: &SpecifierSet,
    lock: &SpecifierSet,
) -> Result<Vec<Difference>, AllocError>
    ensures { IfOk result (λ list. ArePythons (Some project.now) (Some lock.now) list.items) }
{
    let answer = is_subset(alloc, project, lock)?;
    told(alloc, &answer)
}

/// What is found by the answer whether the project's versions of Python are the lock's.
fn told(alloc: Global, answer: &Answer) -> Result<Vec<Difference>, AllocError>
    ensures { IfOk result (λ list. list.items ≡ python_differences answer.now) }
{
    let mut list = Vec::new(alloc);
    match answer {
        Answer::Yes => {}
        Answer::No(version) => {
            list.push(of_python(alloc, DifferenceKind::Python, version.text())?)?;
        }
        Answer::Undecided => {
            list.push(of_python(alloc, DifferenceKind::Unknown, "undecided")?)?;
        }
    }
    Ok(list)
}

fn of_python(alloc: Global, kind: DifferenceKind, detail: &str) -> Result<Difference, AllocError>
    ensures { IfOk result (λ found. found ≡ of_python kind detail.now) }
{
    Difference::new(alloc, kind, "project.requires-python", None, Some(detail))
}

/// Adds what differs between the extras, where the lock names any.
fn push_extra_names(
    alloc: Global,
    list: &mut Vec<Difference>,
    project: &Project,
    names: &HeadNames,
) -> Result<(), AllocError>
    ensures { OnOk result (list.new.items ≡ list.old.items
        ++ extra_names project.now names.now) }
{
    if names.as_slice().is_empty() {
        return Ok(());
    }
    push_extras_apart(alloc, list, project, names)
}

fn push_extras_apart(
    alloc: Global,
    list: &mut Vec<Difference>,
    project: &Project,
    names: &HeadNames,
) -> Result<(), AllocError>
    ensures { OnOk result (list.new.items ≡ list.old.items
        ++ extras_apart project.now names.now) }
{
    if project.is_dynamic("optional-dependencies") {
        return push_dynamic(alloc, list, "optional-dependencies");
    }
    let place = table_place(ListKind::Requirements);
    push_names_apart(
        alloc,
        list,
        DifferenceKind::Extra,
        place,
        project.extras(),
        names,
    )
}

/// Adds that nothing can be told of a key that is dynamic.
fn push_dynamic(alloc: Global, list: &mut Vec<Difference>, key: &str) -> Result<(), AllocError>
    ensures { OnOk result (list.new.items ≡ list.old.items ++ dynamic_difference key.now ∷ []) }
{
    list.push(dynamic_difference(alloc, key)?)?;
    Ok(())
}

/// Adds what differs between the groups, where the lock names any.
fn push_group_names(
    alloc: Global,
    list: &mut Vec<Difference>,
    groups: &[Section],
    names: &HeadNames,
) -> Result<(), AllocError>
    ensures { OnOk result (list.new.items ≡ list.old.items
        ++ name_differences DifferenceKind.Group (table_place ListKind.Group) groups.now
        names.now) }
{
    if names.as_slice().is_empty() {
        return Ok(());
    }
    let place = table_place(ListKind::Group);
    push_names_apart(alloc, list, DifferenceKind::Group, place, groups, names)
}

/// Adds what the project or the lock alone has.
fn push_names_apart(
    alloc: Global,
    list: &mut Vec<Difference>,
    kind: DifferenceKind,
    place: &str,
    sections: &[Section],
    names: &HeadNames,
) -> Result<(), AllocError>
    ensures { OnOk result (list.new.items ≡ list.old.items
        ++ names_apart kind place.now sections.now names.now) }
{
    push_projects_alone(alloc, list, kind, sections, names)?;
    push_locks_alone(alloc, list, kind, place, sections, names.as_slice())
}

fn push_projects_alone(
    alloc: Global,
    list: &mut Vec<Difference>,
    kind: DifferenceKind,
    sections: &[Section],
    names: &HeadNames,
) -> Result<(), AllocError>
    ensures { OnOk result (list.new.items ≡ list.old.items
        ++ map (projects_alone kind) (filter (λ s. not (is_locks names.now s)) sections.now)) }
{
    for section in sections {
        if !names.has(section.name()) {
            list.push(projects_alone(alloc, kind, section)?)?;
        }
    }
    Ok(())
}

/// That the project alone has this extra or group.
fn projects_alone(
    alloc: Global,
    kind: DifferenceKind,
    section: &Section,
) -> Result<Difference, AllocError>
    ensures { IfOk result (λ found. found ≡ projects_alone kind section.now) }
{
    Difference::new(
        alloc,
        kind,
        section.place(),
        Some(section.name()),
        Some("project"),
    )
}

fn push_locks_alone(
    alloc: Global,
    list: &mut Vec<Difference>,
    kind: DifferenceKind,
    place: &str,
    sections: &[Section],
    names: &[String],
) -> Result<(), AllocError>
    ensures { OnOk result (list.new.items ≡ list.old.items
        ++ map (locks_alone kind place.now)
        (filter (λ n. not (is_projects sections.now n)) (map string_bytes names.now))) }
{
    for name in names {
        if !has_section(sections, name.as_str()) {
            list.push(locks_alone(alloc, kind, place, name.as_str())?)?;
        }
    }
    Ok(())
}

/// That the lock alone has the extra or the group of this name.
fn locks_alone(
    alloc: Global,
    kind: DifferenceKind,
    place: &str,
    name: &str,
) -> Result<Difference, AllocError>
    ensures { IfOk result (λ found. found ≡ locks_alone kind place.now name.now) }
{
    Difference::new(alloc, kind, place, Some(name), Some("lock"))
}
