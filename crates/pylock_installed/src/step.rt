//! The steps after which an environment has what a plan says.

ghost use Rattle.std.specs.Prelude.{◌≡◌, ◌++◌, IfOk, OnOk, filter, map, not};
ghost use Rattle.std.specs.List.{flat_map};
ghost use Rattle.std.specs.Option.{option_copied};
ghost use Rattle.pylock_installed.specs.Inner.Tables.{found, found_steps, has};
ghost use Rattle.pylock_installed.specs.Steps.{is_done, is_keep, is_tool, lent_step, other_step};
ghost use Rattle.pylock_installed.specs.Steps.{step_for, steps};
ghost use Rattle.pylock_installed.specs.Written.{step_from, step_id, step_name, step_version};
ghost use Rattle.pylock_installed.specs.Written.{step_word};

use crate::installed::Installed;
use crate::picked::is_picked;
use crate::project::Project;
use crate::tables::{by_name, found, has, planned_names};
use pylock_core::{Entry, Pick, Plan, Session};
use std::alloc::{AllocError, Global};
use std::collections::{BTreeMap, BTreeSet};

/// What is done with an entry of a plan or with an installed project, which is lent.
#[derive(Clone, Copy)]
pub enum Step<'a> {
    /// The entry is installed: no project of its name is.
    Install {
        /// The number of the entry.
        id: u32,
    },
    /// The entry is installed in place of another project of its name.
    Replace {
        /// The number of the entry.
        id: u32,
        /// The project that is installed.
        project: &'a Project,
    },
    /// The project stays: it is what the plan says, or it is one of the tools that an environment
    /// is made with.
    Keep {
        /// The project.
        project: &'a Project,
    },
    /// The project goes: the plan doesn't name it.
    Remove {
        /// The project.
        project: &'a Project,
    },
}

impl<'a> Step<'a> {
    /// Its word: `install`, `replace`, `keep` or `remove`. It takes no memory, as all that follow.
    pub fn word(self) -> &'static str
        ensures { result.now ≡ step_word (lent_step self.entry) }
    {
        match self {
            Step::Install { .. } => "install",
            Step::Replace { .. } => "replace",
            Step::Keep { .. } => "keep",
            Step::Remove { .. } => "remove",
        }
    }

    /// The number of the entry that is installed.
    pub fn id(self) -> Option<u32>
        ensures { result ≡ step_id (lent_step self.entry) }
    {
        match self {
            Step::Install { id } | Step::Replace { id, .. } => Some(id),
            Step::Keep { .. } | Step::Remove { .. } => None,
        }
    }

    /// The name of the project in normal form; none where the session has no entry of the number.
    pub fn name(self, session: &'a Session) -> Option<&'a str>
        ensures { option_copied result ≡ step_name session.now.state (lent_step self.entry) }
    {
        match self {
            Step::Install { id } => Some(session.entry(id)?.name()),
            Step::Replace { project, .. } | Step::Keep { project } | Step::Remove { project } => {
                Some(project.name())
            }
        }
    }

    /// The version that is installed by the step, that stays, or that goes. An entry may have none.
    pub fn version(self, session: &'a Session) -> Option<&'a str>
        ensures { option_copied result ≡ step_version session.now.state (lent_step self.entry) }
    {
        match self {
            Step::Install { id } | Step::Replace { id, .. } => session.entry(id)?.version(),
            Step::Keep { project } | Step::Remove { project } => Some(project.version()),
        }
    }

    /// The version that is replaced.
    pub fn from(self) -> Option<&'a str>
        ensures { option_copied result ≡ step_from (lent_step self.entry) }
    {
        match self {
            Step::Replace { project, .. } => Some(project.version()),
            _ => None,
        }
    }

    /// Whether nothing is done: the project stays.
    pub fn is_keep(self) -> bool
        ensures { result ≡ is_keep (lent_step self.entry) }
    {
        matches!(self, Step::Keep { .. })
    }
}

/// The steps after which an environment with these projects has what the plan of the session says:
/// one for each pick, and then one for each project that the plan doesn't name, which goes. Of
/// these `pip`, `setuptools` and `wheel` stay, unless the steps are exact.
///
/// A project is what a pick says where its version is the entry's (PEP 440), if that has one, and
/// where it may be from the pick's source, if the list tells where projects are from: a file of an
/// index or of a URL for a wheel, an sdist or an archive, whose hashes of SHA-256 don't differ; a
/// checkout of the commit; a directory that is installed in place, or isn't, as the entry says.
///
/// Takes memory for the steps, for tables of the names and for two versions at a time. The time is
/// that of looking each name up in a table.
pub fn steps<'a>(
    alloc: Global,
    session: &Session,
    plan: &Plan,
    installed: &'a Installed,
    is_exact: bool,
) -> Result<Vec<Step<'a>>, AllocError>
    ensures { IfOk result (λ list. map lent_step list.items
        ≡ steps session.now.state plan.now installed.now is_exact) }
{
    let projects = by_name(alloc, installed.projects())?;
    let planned = planned_names(alloc, session, plan.picks())?;
    let mut steps = Vec::new(alloc);
    push_pick_steps(alloc, &mut steps, session, plan.picks(), &projects)?;
    push_other_steps(&mut steps, &planned, installed.projects(), is_exact)?;
    Ok(steps)
}

/// Whether nothing is left to do: each project stays. It takes no memory.
pub fn is_done(steps: &[Step<'_>]) -> bool
    ensures { result ≡ is_done (map lent_step steps.now) }
{
    steps.iter().all(|step| step.is_keep())
}

/// Adds a step for each pick, where the table has the projects.
fn push_pick_steps<'a>(
    alloc: Global,
    steps: &mut Vec<Step<'a>>,
    session: &Session,
    picks: &[Pick],
    projects: &BTreeMap<&'a str, &'a Project>,
) -> Result<(), AllocError>
    ensures { OnOk result (map lent_step steps.new.items ≡ map lent_step steps.old.items
        ++ flat_map (found_steps session.now.state projects.now) picks.now) }
{
    for pick in picks {
        push_pick_step(alloc, steps, session, *pick, projects)?;
    }
    Ok(())
}

/// Adds the step for a pick.
fn push_pick_step<'a>(
    alloc: Global,
    steps: &mut Vec<Step<'a>>,
    session: &Session,
    pick: Pick,
    projects: &BTreeMap<&'a str, &'a Project>,
) -> Result<(), AllocError>
    ensures { OnOk result (map lent_step steps.new.items ≡ map lent_step steps.old.items
        ++ found_steps session.now.state projects.now pick) }
{
    if let Some(entry) = session.entry(pick.id) {
        let project = found(projects, entry.name());
        steps.push(step_for(alloc, pick, entry, project)?)?;
    }
    Ok(())
}

/// What is done for an entry of the plan, with the project of its name if one is installed.
fn step_for<'a>(
    alloc: Global,
    pick: Pick,
    entry: &Entry,
    project: Option<&'a Project>,
) -> Result<Step<'a>, AllocError>
    ensures { IfOk result (λ step. lent_step step
        ≡ step_for pick entry.now (option_copied project.entry)) }
{
    let Some(project) = project else {
        return Ok(Step::Install { id: pick.id });
    };
    if is_picked(alloc, entry, pick.source, project)? {
        Ok(Step::Keep { project })
    } else {
        Ok(Step::Replace {
            id: pick.id,
            project,
        })
    }
}

/// Adds a step for each project that the plan, which has these names, doesn't name.
fn push_other_steps<'a>(
    steps: &mut Vec<Step<'a>>,
    planned: &BTreeSet<&str>,
    projects: &'a [Project],
    is_exact: bool,
) -> Result<(), AllocError>
    ensures { OnOk result (map lent_step steps.new.items ≡ map lent_step steps.old.items
        ++ map (other_step is_exact) (filter (λ p. not (has planned.now p.name)) projects.now)) }
{
    for project in projects {
        if !has(planned, project.name()) {
            steps.push(other_step(project, is_exact))?;
        }
    }
    Ok(())
}

/// What is done with a project that the plan doesn't name.
fn other_step(project: &Project, is_exact: bool) -> Step<'_>
    ensures { lent_step result ≡ other_step is_exact project.now }
{
    if !is_exact && is_tool(project) {
        Step::Keep { project }
    } else {
        Step::Remove { project }
    }
}

/// Whether an environment is made with the project.
fn is_tool(project: &Project) -> bool
    ensures { result ≡ is_tool project.now }
{
    let name = project.name();
    name == "pip" || name == "setuptools" || name == "wheel"
}
