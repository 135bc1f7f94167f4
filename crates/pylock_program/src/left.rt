//! What is left of a plan by `--only`, `--except` and `--no-project`.

ghost use Rattle.std.specs.Prelude.{◌≡◌, filter};
ghost use Rattle.std.specs.List.{list_any};
ghost use Rattle.pylock_program.specs.Left.{asks_alone, asks_for, is_left, is_left_of, is_own};
ghost use Rattle.pylock_program.specs.Left.{is_project, leaves_out, left_answer};
ghost use Rattle.pylock_program.specs.PlanOptions.{is_named};

use pylock_command::PlanOption;
use pylock_core::{Answer, Directory, Entry, Pick, Plan, Session};
use pyver_core::is_same_name;

/// What is left of an answer by the options, and how many picks are left out. It takes no memory.
/// Each pick is compared with each option.
pub(crate) fn left_answer(
    options: &[PlanOption<'_>],
    session: &Session,
    answer: Answer,
) -> (Answer, usize)
    ensures { result.0 ≡ left_answer options.now session.now.state answer }
{
    match answer {
        Answer::Plan(plan) => {
            let before = plan.picks().len();
            let mut picks = plan.into_vec();
            keep_left(options, session, &mut picks);
            let left_out = before.saturating_sub(picks.len());
            (Answer::Plan(Plan::new(picks)), left_out)
        }
        fault => (fault, 0),
    }
}

fn keep_left(options: &[PlanOption<'_>], session: &Session, picks: &mut Vec<Pick>)
    ensures { picks.new.items ≡ filter (is_left_of options.now session.now.state) picks.old.items }
{
    picks.retain(|pick| is_left_of(options, session, *pick));
}

fn is_left_of(options: &[PlanOption<'_>], session: &Session, pick: Pick) -> bool
    ensures { result ≡ is_left_of options.now session.now.state pick }
{
    match session.entry(pick.id) {
        Some(entry) => is_left(options, entry),
        None => true,
    }
}

/// Whether the options leave the entry in a plan.
pub(crate) fn is_left(options: &[PlanOption<'_>], entry: &Entry) -> bool
    ensures { result ≡ is_left options.now entry.now }
{
    (!any_asks_alone(options) || any_asks_for(options, entry)) && !any_leaves_out(options, entry)
}

fn any_asks_alone(options: &[PlanOption<'_>]) -> bool
    ensures { result ≡ list_any asks_alone options.now }
{
    options.iter().any(|option| asks_alone(*option))
}

fn asks_alone(option: PlanOption<'_>) -> bool
    ensures { result ≡ asks_alone option.entry }
{
    matches!(option, PlanOption::Only(_))
}

fn any_asks_for(options: &[PlanOption<'_>], entry: &Entry) -> bool
    ensures { result ≡ list_any (asks_for entry.now) options.now }
{
    options.iter().any(|option| asks_for(*option, entry))
}

fn asks_for(option: PlanOption<'_>, entry: &Entry) -> bool
    ensures { result ≡ asks_for entry.now option.entry }
{
    match option {
        PlanOption::Only(name) => is_named(name, entry),
        _ => false,
    }
}

fn any_leaves_out(options: &[PlanOption<'_>], entry: &Entry) -> bool
    ensures { result ≡ list_any (leaves_out entry.now) options.now }
{
    options.iter().any(|option| leaves_out(*option, entry))
}

fn leaves_out(option: PlanOption<'_>, entry: &Entry) -> bool
    ensures { result ≡ leaves_out entry.now option.entry }
{
    match option {
        PlanOption::Except(name) => is_named(name, entry),
        PlanOption::NoProject => is_project(entry),
        _ => false,
    }
}

/// Whether the entry has this name.
pub(crate) fn is_named(name: &str, entry: &Entry) -> bool
    ensures { result ≡ is_named name.now entry.now }
{
    is_same_name(name, entry.name())
}

fn is_project(entry: &Entry) -> bool
    ensures { result ≡ is_project entry.now }
{
    match entry.directory() {
        Some(directory) => is_own(directory),
        None => false,
    }
}

/// Whether the directory is editable, or the folder of the lock.
fn is_own(directory: &Directory) -> bool
    ensures { result ≡ is_own directory.now }
{
    directory.editable() || directory.path() == "."
}
