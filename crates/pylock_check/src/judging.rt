//! Whether what a session plans is what a project asks for.

ghost use Rattle.std.specs.Prelude.{◌≡◌, ◌++◌, IfOk, OnOk, Some, map};
ghost use Rattle.std.specs.List.{flat_map};
ghost use Rattle.std.specs.Option.{option_copied};
ghost use Rattle.std.specs.Result.{result_ok};
ghost use Rattle.pyver_core.specs.Parsed.{parsed_version};
ghost use Rattle.pylock_check.specs.Groups.{lent_marked};
ghost use Rattle.pylock_check.specs.Judging.{declaration_difference, declaration_differences};
ghost use Rattle.pylock_check.specs.Judging.{differences, dynamic_difference, dynamic_differences};
ghost use Rattle.pylock_check.specs.Judging.{entry_difference, extra_differences, if_named};
ghost use Rattle.pylock_check.specs.Judging.{list_differences, marked_differences, marker_holds};
ghost use Rattle.pylock_check.specs.Judging.{of_declaration, planned, reached_differences};
ghost use Rattle.pylock_check.specs.Judging.{set_difference, version_difference};

use crate::difference::{Difference, DifferenceKind};
use crate::groups::{Marked, Question, found_of};
use crate::project::Project;
use crate::requirements::Declaration;
use crate::sections::Section;
use pylock_core::{Entry, Pick, Plan, Session};
use pymark_core::{Environment, EvalFault, Marker};
use pyver_core::{Version, VersionError};
use std::alloc::{AllocError, Global};

/// What differs between what a project asks for and the plan of a session. Judged are the
/// project's dependencies, the requirements of the extras that the session asks for, and those of
/// the groups that it asks for, with the groups that they include; each in its order.
///
/// A requirement whose marker is true in the session's environment wants an entry of its name in
/// the plan, of a version that its set admits. The variable `extra` has the name of the extra that
/// the requirement is under, and elsewhere the empty text. The extras that the requirement itself
/// names don't count.
///
/// It takes memory for the differences, for two marks of each group and for one version at a time.
#[tactic(auto, unfolding(crate::specs::Judging::differences))]
pub fn differences(
    alloc: Global,
    project: &Project,
    session: &Session,
    plan: &Plan,
) -> Result<Vec<Difference>, AllocError>
    ensures { IfOk result (λ list. list.items
        ≡ differences session.now.state plan.now project.now) }
{
    let picks = plan.picks();
    let mut list = Vec::new(alloc);
    push_dynamic(alloc, &mut list, project)?;
    push_list(
        alloc,
        &mut list,
        session,
        picks,
        "",
        project.dependencies().declarations(),
    )?;
    push_extras(alloc, &mut list, session, picks, project.extras())?;
    push_groups(alloc, &mut list, session, picks, project.groups())?;
    Ok(list)
}

/// Adds what can't be told where the dependencies are dynamic.
fn push_dynamic(
    alloc: Global,
    list: &mut Vec<Difference>,
    project: &Project,
) -> Result<(), AllocError>
    ensures { OnOk result (list.new.items ≡ list.old.items ++ dynamic_differences project.now) }
{
    if project.is_dynamic("dependencies") {
        list.push(dynamic_difference(alloc, "dependencies")?)?;
    }
    Ok(())
}

/// Nothing can be told of a key that is dynamic.
pub(crate) fn dynamic_difference(alloc: Global, key: &str) -> Result<Difference, AllocError>
    ensures { IfOk result (λ found. found ≡ dynamic_difference key.now) }
{
    Difference::new(
        alloc,
        DifferenceKind::Unknown,
        "project.dynamic",
        None,
        Some(key),
    )
}

/// Adds what differs for the extras that are asked for.
fn push_extras(
    alloc: Global,
    list: &mut Vec<Difference>,
    session: &Session,
    picks: &[Pick],
    extras: &[Section],
) -> Result<(), AllocError>
    ensures { OnOk result (list.new.items ≡ list.old.items
        ++ flat_map (extra_differences session.now.state picks.now) extras.now) }
{
    for section in extras {
        push_extra(alloc, list, session, picks, section)?;
    }
    Ok(())
}

fn push_extra(
    alloc: Global,
    list: &mut Vec<Difference>,
    session: &Session,
    picks: &[Pick],
    section: &Section,
) -> Result<(), AllocError>
    ensures { OnOk result (list.new.items ≡ list.old.items
        ++ extra_differences session.now.state picks.now section.now) }
{
    let name = section.name();
    if session.environment().has_extra(name) {
        push_list(
            alloc,
            list,
            session,
            picks,
            name,
            section.requirements().declarations(),
        )?;
    }
    Ok(())
}

/// Adds what differs for the groups that are asked for, and those that they include.
fn push_groups(
    alloc: Global,
    list: &mut Vec<Difference>,
    session: &Session,
    picks: &[Pick],
    groups: &[Section],
) -> Result<(), AllocError>
    ensures { OnOk result (list.new.items ≡ list.old.items
        ++ reached_differences session.now.state picks.now groups.now) }
{
    let found = found_of(alloc, Question::IsReached(session.environment()), groups)?;
    push_marked(alloc, list, session, picks, &found)
}

fn push_marked(
    alloc: Global,
    list: &mut Vec<Difference>,
    session: &Session,
    picks: &[Pick],
    found: &[Marked<'_>],
) -> Result<(), AllocError>
    ensures { OnOk result (list.new.items ≡ list.old.items
        ++ flat_map (marked_differences session.now.state picks.now) (map lent_marked found.now)) }
{
    for marked in found {
        if marked.is_so {
            let declarations = marked.group.requirements().declarations();
            push_list(alloc, list, session, picks, "", declarations)?;
        }
    }
    Ok(())
}

/// Adds what differs for the requirements of a list.
fn push_list(
    alloc: Global,
    list: &mut Vec<Difference>,
    session: &Session,
    picks: &[Pick],
    extra: &str,
    declarations: &[Declaration],
) -> Result<(), AllocError>
    ensures { OnOk result (list.new.items ≡ list.old.items
        ++ list_differences session.now.state picks.now extra.now declarations.now) }
{
    for declaration in declarations {
        push_declaration(alloc, list, session, picks, extra, declaration)?;
    }
    Ok(())
}

fn push_declaration(
    alloc: Global,
    list: &mut Vec<Difference>,
    session: &Session,
    picks: &[Pick],
    extra: &str,
    declaration: &Declaration,
) -> Result<(), AllocError>
    ensures { OnOk result (list.new.items ≡ list.old.items
        ++ declaration_differences session.now.state picks.now extra.now declaration.now) }
{
    if let Some(found) = declaration_difference(alloc, session, picks, extra, declaration)? {
        list.push(found)?;
    }
    Ok(())
}

/// What differs for a requirement, if anything does.
#[tactic(auto, unfolding(crate::specs::Judging::declaration_difference))]
fn declaration_difference(
    alloc: Global,
    session: &Session,
    picks: &[Pick],
    extra: &str,
    declaration: &Declaration,
) -> Result<Option<Difference>, AllocError>
    ensures { IfOk result (λ found. found
        ≡ declaration_difference session.now.state picks.now extra.now declaration.now) }
{
    let marker = declaration.requirement().marker();
    match marker_holds(alloc, session.environment(), extra, marker)? {
        None => unknown(alloc, declaration, "marker"),
        Some(false) => Ok(None),
        Some(true) => {
            entry_difference(
                alloc,
                declaration,
                planned(session, picks, declaration.name()),
            )
        }
    }
}

/// Whether the marker is absent or true; none where it has a fault.
fn marker_holds(
    alloc: Global,
    environment: &Environment,
    extra: &str,
    marker: Option<&Marker>,
) -> Result<Option<bool>, AllocError>
    ensures { IfOk result (λ holds. holds
        ≡ marker_holds extra.now environment.now (option_copied marker.entry)) }
{
    let Some(marker) = marker else {
        return Ok(Some(true));
    };
    match marker.evaluate_with_extra(alloc, environment, extra) {
        Ok(value) => Ok(Some(value)),
        Err(EvalFault::Memory) => Err(AllocError),
        Err(_) => Ok(None),
    }
}

/// The first entry of the plan that has the name.
fn planned<'a>(session: &'a Session, picks: &[Pick], name: &str) -> Option<&'a Entry>
    ensures { option_copied result ≡ planned name.now session.now.state picks.now }
{
    for pick in picks {
        if let Some(entry) = if_named(session.entry(pick.id), name) {
            return Some(entry);
        }
    }
    None
}

/// The entry, where it has the name.
fn if_named<'a>(entry: Option<&'a Entry>, name: &str) -> Option<&'a Entry>
    ensures { option_copied result ≡ if_named name.now (option_copied entry.entry) }
{
    match entry {
        Some(entry) if name == entry.name() => Some(entry),
        _ => None,
    }
}

/// What differs between a requirement and the entry of its name, if the plan has one.
fn entry_difference(
    alloc: Global,
    declaration: &Declaration,
    entry: Option<&Entry>,
) -> Result<Option<Difference>, AllocError>
    ensures { IfOk result (λ found. found
        ≡ entry_difference declaration.now (option_copied entry.entry)) }
{
    let Some(entry) = entry else {
        return told(alloc, DifferenceKind::Missing, declaration, None);
    };
    if declaration.requirement().url().is_some() {
        return unknown(alloc, declaration, "url");
    }
    if declaration.requirement().set().items().is_empty() {
        return Ok(None);
    }
    set_difference(alloc, declaration, entry.version())
}

/// What differs between the set of a requirement and the version of an entry, if it has one.
fn set_difference(
    alloc: Global,
    declaration: &Declaration,
    version: Option<&str>,
) -> Result<Option<Difference>, AllocError>
    ensures { IfOk result (λ found. found
        ≡ set_difference declaration.now (option_copied version.entry)) }
{
    let Some(text) = version else {
        return unknown(alloc, declaration, "version");
    };
    version_difference(alloc, declaration, text)
}

/// What differs between the set of a requirement and this version.
fn version_difference(
    alloc: Global,
    declaration: &Declaration,
    text: &str,
) -> Result<Option<Difference>, AllocError>
    ensures { IfOk result (λ found. found ≡ version_difference declaration.now text.now
        (result_ok (parsed_version text.now))) }
{
    let Some(version) = version_of(alloc, text)? else {
        return unknown(alloc, declaration, "version");
    };
    if declaration.requirement().set().admits(&version) {
        return Ok(None);
    }
    told(alloc, DifferenceKind::Version, declaration, Some(text))
}

/// The version that the text is, if it is one.
fn version_of(alloc: Global, text: &str) -> Result<Option<Version>, AllocError>
    ensures { IfOk result (λ version. version ≡ result_ok (parsed_version text.now)) }
{
    match Version::parse(alloc, text) {
        Ok(version) => Ok(Some(version)),
        Err(VersionError::Memory) => Err(AllocError),
        Err(_) => Ok(None),
    }
}

/// That it can't be told, for this reason.
fn unknown(
    alloc: Global,
    declaration: &Declaration,
    reason: &str,
) -> Result<Option<Difference>, AllocError>
    ensures { IfOk result (λ found. found
        ≡ Some (of_declaration DifferenceKind.Unknown declaration.now (Some reason.now))) }
{
    told(alloc, DifferenceKind::Unknown, declaration, Some(reason))
}

/// What is told of a requirement.
fn told(
    alloc: Global,
    kind: DifferenceKind,
    declaration: &Declaration,
    detail: Option<&str>,
) -> Result<Option<Difference>, AllocError>
    ensures { IfOk result (λ found. found
        ≡ Some (of_declaration kind declaration.now (option_copied detail.entry))) }
{
    let (place, name) = (declaration.place(), declaration.name());
    let found = Difference::new(alloc, kind, place, Some(name), detail)?;
    Ok(Some(found))
}
