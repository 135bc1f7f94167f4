//! Edits of the environment: of a variable, an extra or a group.

ghost use Rattle.std.specs.Prelude.{◌≡◌, ◌++◌, Ok, Err, IfErr, IfOk, OnErr, OnOk, ◌||◌, true};
ghost use Rattle.std.specs.Prelude.{false, unwrap_or};
ghost use Rattle.pymark_core.specs.Change.{changed};
ghost use Rattle.pymark_core.specs.Environment.{EnvironmentValue};
ghost use Rattle.pylock_core.specs.Inner.Editing.{DifferAt, Leaves};
ghost use Rattle.pylock_core.specs.Inner.KeptEnvironment.{LeadsFrom};
ghost use Rattle.pylock_core.specs.Inner.Parts.{IsSession, shown, state_of};
ghost use Rattle.pylock_core.specs.Session.Judgement.{Marked, readers};
ghost use Rattle.pylock_core.specs.Session.Names.{name_change, names_key};
ghost use Rattle.pylock_core.specs.Session.State.{State, after_change, after_names};
ghost use Rattle.pylock_core.specs.Session.State.{in_environment, is_among};
ghost use Rattle.pylock_core.specs.declared.edit.Edit.TheVariants as edit;
ghost use Rattle.pylock_core.specs.declared.edit.EditError.TheVariants.{Memory};
ghost use Rattle.pylock_core.specs.declared.edit.EditError.TheVariants.{UnknownExtra, UnknownGroup};

use crate::edit::{EditError, NameChange};
use crate::session::judging::judgement::judge_key;
use crate::session::judging::verdict::HeadVerdict;
use crate::session::kept_environment::EditedEnvironment;
use crate::session::parts::Parts;
use crate::session::start_and_edit::Judged;
use crate::session::tables::rows::put_standings;
use pylock_readers::Head;
use pymark_core::laws::marker_reads;
use pymark_core::{Change, Key};
use pyver_core::NormalName;
use std::alloc::{AllocError, Global};

/// Refuses a change of an extra or a group that the lock doesn't name.
fn check_named(head: &Head, change: &Change) -> Result<(), EditError>
    ensures ok { OnOk result ((state : State) → state.head ≡ head.now
        → after_change change.now state
        ≡ Ok (in_environment (changed change.now state.environment) state)) }
    ensures refused { IfErr result (λ error. (state : State) → state.head ≡ head.now
        → after_change change.now state ≡ Err error) }
{
    match change {
        Change::Set(_, _) | Change::Unset(_) => Ok(()),
        Change::AddExtra(name) | Change::DropExtra(name) => check_extra(head, name),
        Change::AddGroup(name) | Change::DropGroup(name) => check_group(head, name),
    }
}

/// Refuses a name that isn't that of an extra of the lock.
fn check_extra(head: &Head, name: &NormalName) -> Result<(), EditError>
    ensures known { OnOk result (is_among head.now.extras name.now ≡ true) }
    ensures refused { IfErr result (λ error.
        (error ≡ UnknownExtra) × (is_among head.now.extras name.now ≡ false)) }
{
    if head.extras().has(name.as_str()) {
        return Ok(());
    }
    Err(EditError::UnknownExtra)
}

/// Refuses a name that isn't that of a group of the lock, a default one or not.
fn check_group(head: &Head, name: &NormalName) -> Result<(), EditError>
    ensures known { OnOk result ((is_among head.now.groups name.now
        || is_among head.now.default_groups name.now) ≡ true) }
    ensures refused { IfErr result (λ error. (error ≡ UnknownGroup)
        × ((is_among head.now.groups name.now
        || is_among head.now.default_groups name.now) ≡ false)) }
{
    let named = head.groups().has(name.as_str());
    let default = head.default_groups().has(name.as_str());
    if named || default {
        return Ok(());
    }
    Err(EditError::UnknownGroup)
}

/// Puts the verdict, if there is one, in place of the one that was there.
fn put_head(kept: &mut HeadVerdict, fresh: Option<HeadVerdict>)
    ensures { kept.new ≡ unwrap_or fresh kept.old }
{
    if let Some(verdict) = fresh {
        *kept = verdict;
    }
}

/// Begins an edit of the environment at the key.
fn begin_edit(parts: &mut Parts, key: Key) -> Result<EditedEnvironment, AllocError>
    ensures same { IfOk result (λ edited. edited.environment ≡ parts.old.environment) }
    ensures leads { IfOk result (λ edited. LeadsFrom parts.old.environment edited) }
    ensures kept { parts.new ≡ parts.old }
{
    let alloc = parts.alloc;
    parts.environment.begin(alloc, key)
}

/// Puts the edited environment, which differs at the key alone, in place of the one that was there.
/// What reads the key is judged again. Where there is no memory for it, all stays.
fn change_environment(
    parts: &mut Parts,
    edited: EditedEnvironment,
    key: Key,
    judged: &mut Judged,
) -> Result<(), AllocError>
    requires session { IsSession parts.old }
    requires differ { DifferAt key parts.old.environment edited.environment }
    requires leads { LeadsFrom parts.old.environment edited }
    ensures session { IsSession parts.new }
    ensures ok { OnOk result (state_of parts.new
        ≡ in_environment edited.environment (state_of parts.old)) }
    ensures judged { OnOk result (judged.new
        ≡ judged.old ++ readers (Marked key) (state_of parts.old)) }
    ensures err { OnErr result (shown parts.new ≡ shown parts.old) }
{
    marker_reads();
    let (verdict, fresh) = judge_key(parts, &edited.environment, key, judged)?;
    put_head(&mut parts.head_verdict, verdict);
    put_standings(&mut parts.rows, fresh);
    parts.environment.put(edited);
    Ok(())
}

/// Changes the environment, where the lock lets it be changed so: on another first, which takes the
/// place of this one.
pub(crate) fn edit_environment(
    parts: &mut Parts,
    change: Change,
    judged: &mut Judged,
) -> Result<(), EditError>
    requires { IsSession parts.old }
    ensures session { IsSession parts.new }
    ensures left { Leaves (edit.Environment change) parts.old parts.new
        judged.old judged.new result }
{
    check_named(&parts.head, &change)?;
    let key = change.key();
    let alloc = parts.alloc;
    let mut edited = begin_edit(parts, key)?;
    edited.apply(alloc, change)?;
    change_environment(parts, edited, key, judged)?;
    Ok(())
}

/// Changes the edited environment for one more name, where the lock has it.
fn change_name(
    alloc: Global,
    head: &Head,
    edited: &mut EditedEnvironment,
    change: NameChange,
    name: NormalName,
) -> Result<(), EditError>
    ensures ok { OnOk result ((state : State) → state.head ≡ head.now
        → state.environment ≡ edited.old.environment
        → after_change (name_change change name) state
        ≡ Ok (in_environment edited.new.environment state)) }
    ensures refused { IfErr result (λ error. (error ≡ Memory → ⊥) → (state : State)
        → state.head ≡ head.now → after_change (name_change change name) state ≡ Err error) }
    ensures differ { OnOk result
        (DifferAt (names_key change) edited.old.environment edited.new.environment) }
    ensures leads { OnOk result ((before : EnvironmentValue) → LeadsFrom before edited.old
        → LeadsFrom before edited.new) }
{
    let change = change.of(name);
    check_named(head, &change)?;
    edited.apply(alloc, change)?;
    Ok(())
}

/// Changes the edited environment, which is as that of the session yet, for these names.
fn change_names(
    parts: &Parts,
    edited: &mut EditedEnvironment,
    change: NameChange,
    names: Vec<NormalName>,
) -> Result<(), EditError>
    requires same { edited.old.environment ≡ parts.now.environment }
    requires leads { LeadsFrom parts.now.environment edited.old }
    ensures ok { OnOk result (after_names change names.items (state_of parts.now)
        ≡ Ok (in_environment edited.new.environment (state_of parts.now))) }
    ensures refused { IfErr result (λ error. (error ≡ Memory → ⊥)
        → after_names change names.items (state_of parts.now) ≡ Err error) }
    ensures differ { OnOk result
        (DifferAt (names_key change) parts.now.environment edited.new.environment) }
    ensures leads { OnOk result (LeadsFrom parts.now.environment edited.new) }
{
    for name in names {
        change_name(parts.alloc, &parts.head, edited, change, name)?;
    }
    Ok(())
}

/// Changes the environment for all of these names, where the lock has each of them. What reads
/// extras, or groups, is judged once. Where one is refused, all that is shown stays.
pub(crate) fn edit_names(
    parts: &mut Parts,
    change: NameChange,
    names: Vec<NormalName>,
    judged: &mut Judged,
) -> Result<(), EditError>
    requires { IsSession parts.old }
    ensures session { IsSession parts.new }
    ensures left { Leaves (edit.Names change names) parts.old parts.new
        judged.old judged.new result }
{
    let mut edited = begin_edit(parts, change.key())?;
    change_names(parts, &mut edited, change, names)?;
    change_environment(parts, edited, change.key(), judged)?;
    Ok(())
}
