//! Dependency groups that include others (PEP 735, "Dependency Group Include").

ghost use Rattle.std.specs.Prelude.{◌≡◌, IfOk, false, map};
ghost use Rattle.std.specs.List.{list_any};
ghost use Rattle.std.specs.Str.{bytes_eq};
ghost use Rattle.pytext.specs.Agreement.{Gives};
ghost use Rattle.pylock_check.specs.Groups.{after_round, all_end, ends, found_of, includes};
ghost use Rattle.pylock_check.specs.Groups.{is_found, is_reached, is_so, known_in};
ghost use Rattle.pylock_check.specs.Groups.{known_includes, leads_to, lent_marked, proper_groups};
ghost use Rattle.pylock_check.specs.Groups.{unmarked};

use crate::error::ProjectError;
use crate::requirements::Include;
use crate::sections::{Section, has_section};
use pymark_core::Environment;
use std::alloc::{AllocError, Global};

/// A group, and whether what is asked was found so of it.
#[derive(Clone, Copy)]
pub(crate) struct Marked<'a> {
    pub(crate) group: &'a Section,
    pub(crate) is_so: bool,
}

/// What is asked of each group.
#[derive(Clone, Copy)]
pub(crate) enum Question<'a> {
    /// Whether its includes end: it doesn't include itself, over others or not.
    Ends,
    /// Whether the environment asks for it, or for a group that includes it.
    IsReached(&'a Environment),
}

/// Refuses an include that names none of the groups, and groups that include themselves. It takes
/// memory for two marks of each group.
#[tactic(auto, unfolding(crate::specs::Groups::proper_groups))]
pub(crate) fn require_proper(alloc: Global, groups: &[Section]) -> Result<(), ProjectError>
    ensures { Gives ProjectError.Memory (λ u. u) result (proper_groups groups.now) }
{
    require_known(groups)?;
    let found = found_of(alloc, Question::Ends, groups)?;
    require_all_end(&found)
}

fn require_known(groups: &[Section]) -> Result<(), ProjectError>
    ensures { Gives ProjectError.Memory (λ u. u) result (known_in groups.now groups.now) }
{
    for group in groups {
        require_known_includes(groups, group.requirements().includes())?;
    }
    Ok(())
}

fn require_known_includes(groups: &[Section], includes: &[Include]) -> Result<(), ProjectError>
    ensures { Gives ProjectError.Memory (λ u. u) result (known_includes groups.now includes.now) }
{
    for include in includes {
        if !has_section(groups, include.name()) {
            return Err(ProjectError::UnknownGroup(include.copy_of_place()?));
        }
    }
    Ok(())
}

/// Refuses the first group that doesn't end.
fn require_all_end(found: &[Marked<'_>]) -> Result<(), ProjectError>
    ensures { Gives ProjectError.Memory (λ u. u) result (all_end (map lent_marked found.now)) }
{
    for marked in found {
        if !marked.is_so {
            return Err(ProjectError::Cycle(marked.group.copy_of_place()?));
        }
    }
    Ok(())
}

/// The groups, each with what is so of it. It takes memory for two marks of each.
#[tactic(auto, using(crate::proofs::GroupLemmas::steps), unfolding(crate::specs::Groups::found_of))]
pub(crate) fn found_of<'a>(
    alloc: Global,
    question: Question<'_>,
    groups: &'a [Section],
) -> Result<Vec<Marked<'a>>, AllocError>
    ensures { IfOk result (λ found. map lent_marked found.items
        ≡ found_of (is_so question.entry) groups.now) }
{
    let mut found = unmarked(alloc, groups)?;
    for _round in 0..groups.len() {
        let (next, has_changed) = after_round(alloc, question, &found)?;
        if !has_changed {
            return Ok(found);
        }
        found = next;
    }
    Ok(found)
}

fn unmarked(alloc: Global, groups: &[Section]) -> Result<Vec<Marked<'_>>, AllocError>
    ensures { IfOk result (λ found. map lent_marked found.items ≡ map unmarked groups.now) }
{
    let mut found = Vec::with_capacity(alloc, groups.len())?;
    for group in groups {
        found.push(Marked {
            group,
            is_so: false,
        })?;
    }
    Ok(found)
}

/// What is so by what was found before, and whether that is more.
fn after_round<'a>(
    alloc: Global,
    question: Question<'_>,
    before: &[Marked<'a>],
) -> Result<(Vec<Marked<'a>>, bool), AllocError>
    ensures found { IfOk result (λ next. map lent_marked next.0.items
        ≡ after_round (is_so question.entry) (map lent_marked before.now)) }
    ensures same { IfOk result (λ next. next.1 ≡ false
        → map lent_marked next.0.items ≡ map lent_marked before.now) }
{
    let mut found = Vec::with_capacity(alloc, before.len())?;
    let mut has_changed = false;
    for marked in before {
        let is_so = is_so(question, before, marked.group);
        has_changed = changes(has_changed, marked.is_so, is_so);
        found.push(Marked {
            group: marked.group,
            is_so,
        })?;
    }
    Ok((found, has_changed))
}

/// Whether something has changed, or a mark does now.
fn changes(has_changed: bool, before: bool, after: bool) -> bool
    ensures { result ≡ false → (has_changed ≡ false) × (after ≡ before) }
{
    has_changed || before != after
}

/// What is asked of a group, by what was found.
fn is_so(question: Question<'_>, found: &[Marked<'_>], group: &Section) -> bool
    ensures { result ≡ is_so question.entry (map lent_marked found.now) group.now }
{
    match question {
        Question::Ends => ends(found, group),
        Question::IsReached(environment) => is_reached(environment, found, group),
    }
}

/// Whether each group that it includes ends.
fn ends(found: &[Marked<'_>], group: &Section) -> bool
    ensures { result ≡ ends (map lent_marked found.now) group.now }
{
    let includes = group.requirements().includes();
    for include in includes {
        if !has_found(found, include.name()) {
            return false;
        }
    }
    true
}

/// Whether the group of the name was found so.
fn has_found(found: &[Marked<'_>], name: &str) -> bool
    ensures { result ≡ list_any (is_found name.now) (map lent_marked found.now) }
{
    for marked in found {
        if marked.is_so && name == marked.group.name() {
            return true;
        }
    }
    false
}

/// Whether the group is asked for, or included by one that is reached.
fn is_reached(environment: &Environment, found: &[Marked<'_>], group: &Section) -> bool
    ensures { result ≡ is_reached environment.now (map lent_marked found.now) group.now }
{
    environment.has_group(group.name()) || is_included(found, group.name())
}

/// Whether a group that was found so includes the one of the name.
fn is_included(found: &[Marked<'_>], name: &str) -> bool
    ensures { result ≡ list_any (leads_to name.now) (map lent_marked found.now) }
{
    for marked in found {
        if marked.is_so && includes(marked.group, name) {
            return true;
        }
    }
    false
}

fn includes(group: &Section, name: &str) -> bool
    ensures { result ≡ includes name.now group.now }
{
    has_include(group.requirements().includes(), name)
}

fn has_include(includes: &[Include], name: &str) -> bool
    ensures { result ≡ list_any (λ i. bytes_eq name.now i.name) includes.now }
{
    includes.iter().any(|include| name == include.name())
}
