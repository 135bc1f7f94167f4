//! Projects and the entries of a plan, found by their names.

ghost use Rattle.std.specs.Prelude.{◌≡◌, ◌||◌, ℕ, IfOk, List, None, OnOk, Some};
ghost use Rattle.std.specs.Prelude.{if◌then◌else◌, not};
ghost use Rattle.std.specs.Option.{option_copied};
ghost use Rattle.std.specs.Str.{bytes_eq};
ghost use Rattle.pytext.specs.Options.{either};
ghost use Rattle.pylock_installed.specs.Inner.Tables.{found, has};
ghost use Rattle.pylock_installed.specs.Project.{ProjectValue, is_named, project_named};
ghost use Rattle.pylock_installed.specs.Steps.{is_pick_of, is_planned};

use crate::project::Project;
use pylock_core::{Pick, Session};
use std::alloc::{AllocError, Global};
use std::collections::{BTreeMap, BTreeSet};

/// The projects by their names; of several of one name the first.
pub(crate) fn by_name<'a>(
    alloc: Global,
    projects: &'a [Project],
) -> Result<BTreeMap<&'a str, &'a Project>, AllocError>
    ensures { IfOk result (λ table. (name : List ℕ)
        → found table name ≡ project_named name projects.now) }
{
    let mut table = BTreeMap::new(alloc);
    for project in projects {
        put_first(&mut table, project)?;
    }
    Ok(table)
}

/// Puts the project under its name, unless another stands there.
fn put_first<'a>(
    table: &mut BTreeMap<&'a str, &'a Project>,
    project: &'a Project,
) -> Result<(), AllocError>
    ensures { OnOk result ((name : List ℕ) → found table.new name
        ≡ either (found table.old name)
        (if is_named name project.now then Some project.now else None)) }
{
    let name = project.name();
    if !table.contains_key(name) {
        table.insert(name, project)?;
    }
    Ok(())
}

/// The project under the name.
pub(crate) fn found<'a>(table: &BTreeMap<&'a str, &'a Project>, name: &str) -> Option<&'a Project>
    ensures { option_copied result ≡ found table.now name.now }
{
    table.get(name).copied()
}

/// The names of the entries that are picked.
pub(crate) fn planned_names<'a>(
    alloc: Global,
    session: &'a Session,
    picks: &[Pick],
) -> Result<BTreeSet<&'a str>, AllocError>
    ensures { IfOk result (λ names. (project : ProjectValue)
        → has names project.name ≡ is_planned session.now.state picks.now project) }
{
    let mut names = BTreeSet::new(alloc);
    for pick in picks {
        add_planned(&mut names, session, *pick)?;
    }
    Ok(names)
}

/// Adds the name of the entry that is picked.
fn add_planned<'a>(
    names: &mut BTreeSet<&'a str>,
    session: &'a Session,
    pick: Pick,
) -> Result<(), AllocError>
    ensures { OnOk result ((project : ProjectValue) → has names.new project.name
        ≡ (has names.old project.name || is_pick_of session.now.state project pick)) }
{
    if let Some(entry) = session.entry(pick.id) {
        add_name(names, entry.name())?;
    }
    Ok(())
}

/// Adds the name to the set, and tells whether it is new there.
pub(crate) fn add_name<'a>(names: &mut BTreeSet<&'a str>, name: &'a str) -> Result<bool, AllocError>
    ensures new { IfOk result (λ new. new ≡ not (has names.old name.now)) }
    ensures added { OnOk result ((other : List ℕ) → has names.new other
        ≡ (bytes_eq name.now other || has names.old other)) }
{
    Ok(names.insert(name)?)
}

/// Whether the set has the name.
pub(crate) fn has(names: &BTreeSet<&str>, name: &str) -> bool
    ensures { result ≡ has names.now name.now }
{
    names.contains(name)
}
