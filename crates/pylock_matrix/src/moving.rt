//! A session that is moved from target to target.

ghost use Rattle.std.specs.Prelude.{◌≡◌, IfOk, IfSome, IsTrue, Ok, OnErr, OnOk};
ghost use Rattle.std.specs.Option.{option_copied};
ghost use Rattle.pymark_core.specs.Change.{changed};
ghost use Rattle.pymark_core.specs.Environment.{EnvironmentValue, variable_in};
ghost use Rattle.pymark_core.specs.Variables.{variables};
ghost use Rattle.pywheel_core.specs.Target.Tags.{target_tags};
ghost use Rattle.pylock_readers.specs.Target.{target_environment as environment_on};
ghost use Rattle.pylock_core.specs.Session.State.{State, apply, in_environment};
ghost use Rattle.pylock_matrix.specs.Inner.Moving.{with_text, with_texts_of};
ghost use Rattle.pylock_matrix.specs.Moving.{HasVariables, placed, unmoved, with_settings};

use crate::setting::Setting;
use pylock_core::{Edit, Session};
use pylock_readers::target_environment;
use pymark_core::{Change, Environment, Var};
use pytext::Text;
use pywheel_core::{TagList, Target};
use std::alloc::{AllocError, Global};

/// Moves a session to a target: each variable of markers has the text of its last setting, else
/// the target's, and the tags are the target's. The extras and groups that are asked for, the
/// policies and the entries stay.
///
/// Only what reads a variable whose text is another one, or the tags, is judged again. It takes
/// memory for the target's environment and tags, and for the edits. Where there is none, the move
/// may be made in part, and may be made again.
pub fn move_to(
    alloc: Global,
    session: &mut Session,
    target: &Target,
    settings: &[Setting],
) -> Result<(), AllocError>
    ensures moved { HasVariables session.old.state → OnOk result
        (session.new.state ≡ placed target.now settings.now session.old.state) }
    ensures stays { unmoved session.new.state ≡ unmoved session.old.state }
{
    let (wanted, tags) = machine(alloc, target, settings)?;
    set_variables(alloc, session, &wanted)?;
    make(session, Edit::Tags(tags))
}

/// The environment of a target with the settings made, and its tags.
fn machine(
    alloc: Global,
    target: &Target,
    settings: &[Setting],
) -> Result<(Environment, TagList), AllocError>
    ensures { IfOk result (λ m. m
        ≡ (with_settings settings.now (environment_on target.now), target_tags target.now)) }
{
    let (mut environment, tags) = target_environment(alloc, target)?;
    make_settings(&mut environment, settings)?;
    Ok((environment, tags))
}

/// Makes the settings, one after another.
fn make_settings(environment: &mut Environment, settings: &[Setting]) -> Result<(), AllocError>
    ensures { OnOk result (environment.new ≡ with_settings settings.now environment.old) }
{
    for setting in settings {
        environment.set(setting.variable, setting.text.as_str())?;
    }
    Ok(())
}

/// Gives each variable the text that it has in this environment.
fn set_variables(
    alloc: Global,
    session: &mut Session,
    wanted: &Environment,
) -> Result<(), AllocError>
    ensures set { OnOk result (session.new.state ≡ in_environment
        (with_texts_of wanted.now variables session.old.state.environment) session.old.state) }
    ensures stays { unmoved session.new.state ≡ unmoved session.old.state }
{
    for variable in Var::all() {
        set_variable(alloc, session, wanted, variable)?;
    }
    Ok(())
}

/// Gives the variable the text that it has in this environment, by an edit where it has another.
fn set_variable(
    alloc: Global,
    session: &mut Session,
    wanted: &Environment,
    variable: Var,
) -> Result<(), AllocError>
    ensures set { OnOk result (session.new.state ≡ in_environment (with_text variable
        (variable_in variable wanted.now) session.old.state.environment) session.old.state) }
    ensures stays { unmoved session.new.state ≡ unmoved session.old.state }
{
    let text = wanted.get(variable);
    if has_text(session.environment(), variable, text) {
        return Ok(());
    }
    let change = change_to(alloc, variable, text)?;
    make(session, Edit::Environment(change))
}

/// Whether the variable has this text, or none.
fn has_text(environment: &Environment, variable: Var, text: Option<&str>) -> bool
    ensures { IsTrue result → variable_in variable environment.now ≡ option_copied text.entry }
{
    match (environment.get(variable), text) {
        (Some(found), Some(text)) => found == text,
        (None, None) => true,
        _ => false,
    }
}

/// The change that gives the variable this text, or none.
fn change_to(alloc: Global, variable: Var, text: Option<&str>) -> Result<Change, AllocError>
    ensures { IfOk result (λ change. (environment : EnvironmentValue)
        → changed change environment ≡ with_text variable (option_copied text.entry) environment) }
{
    match text {
        Some(text) => Ok(Change::Set(variable, Text::copy_of(alloc, text)?)),
        None => Ok(Change::Unset(variable)),
    }
}

/// Makes an edit that the state refuses only for want of memory.
fn make(session: &mut Session, edit: Edit) -> Result<(), AllocError>
    ensures ok { OnOk result (apply edit session.old.state ≡ Ok session.new.state) }
    ensures err { OnErr result (session.new ≡ session.old) }
{
    match session.edit(edit) {
        Ok(_) => Ok(()),
        Err(_) => Err(AllocError),
    }
}
