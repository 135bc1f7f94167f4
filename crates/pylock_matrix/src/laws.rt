//! Laws of the definitions alone: each function's contract is a law, and its body is empty.

ghost use Rattle.std.specs.Prelude.{◌≡◌, ◌++◌, [], List, true};
ghost use Rattle.std.specs.List.{All, Contains, list_all};
ghost use Rattle.pymark_core.specs.Environment.{EnvironmentValue};
ghost use Rattle.pywheel_core.specs.Tag.{TagValue};
ghost use Rattle.pywheel_core.specs.Target.Value.{TargetValue};
ghost use Rattle.pylock_readers.specs.Lock.{LockValue};
ghost use Rattle.pylock_core.specs.Session.State.{NumbersRise, State, after_edits, apply, first};
ghost use Rattle.pylock_core.specs.Session.Steps.{answer};
ghost use Rattle.pylock_core.specs.declared.answer.Answer.TheVariants.{Plan};
ghost use Rattle.pylock_core.specs.declared.answer.Pick.{Pick};
ghost use Rattle.pylock_core.specs.declared.edit.Edit.{Edit};
ghost use Rattle.pylock_matrix.specs.Cell.{CellValue};
ghost use Rattle.pylock_matrix.specs.Files.{files_on};
ghost use Rattle.pylock_matrix.specs.Moving.{HasVariables, first_on, is_movable, placed, placed_if};
ghost use Rattle.pylock_matrix.specs.Moving.{settings_in, settings_of};
ghost use Rattle.pylock_matrix.specs.declared.setting.Setting.{Setting};

use pylock_core::laws::picks_stand;

/// A state on a target has a place for each variable.
pub fn states_on_targets_have_variables()
    ensures { (target : TargetValue) (settings : List Setting) (state : State)
        → HasVariables (placed target settings state) }
{}

/// Of two moves the second alone counts.
pub fn last_move_counts()
    ensures { (before after : TargetValue) (settings others : List Setting) (state : State)
        → placed after settings (placed before others state) ≡ placed after settings state }
{}

/// A session that begins on a target is in the state that one is moved to that begins anywhere.
pub fn beginnings_move()
    ensures { (target : TargetValue) (lock : LockValue) (environment : EnvironmentValue)
        (tags : List TagValue)
        → first_on target lock ≡ placed target [] (first lock environment tags) }
{}

/// An edit after a move is the move after the edit, with the settings that the edit makes; where
/// the edit is refused, it is refused on every target, for the same reason.
#[tactic(auto, using(crate::proofs::EditLemmas::edit_moved))]
pub fn edits_move()
    ensures { (edit : Edit) (target : TargetValue) (settings : List Setting) (state : State)
        → is_movable edit ≡ true → apply edit (placed target settings state)
        ≡ placed_if target (settings ++ settings_in edit) (apply edit state) }
{}

/// The same of edits one after another.
#[tactic(auto, using(crate::proofs::EditLemmas::edits_moved))]
pub fn lists_of_edits_move()
    ensures { (edits : List Edit) (target : TargetValue) (settings : List Setting) (state : State)
        → list_all is_movable edits ≡ true → after_edits edits (placed target settings state)
        ≡ placed_if target (settings ++ settings_of edits) (after_edits edits state) }
{}

/// What a session that begins on a target makes of edits is what the move to it makes of the state
/// after the same edits on another target.
#[tactic(auto, using(crate::proofs::EditLemmas::opened_moved))]
pub fn sessions_move()
    ensures { (edits : List Edit) (target other : TargetValue) (lock : LockValue)
        → list_all is_movable edits ≡ true → after_edits edits (first_on target lock)
        ≡ placed_if target (settings_of edits) (after_edits edits (first_on other lock)) }
{}

/// Each pick of the plan on a target is among the files that the targets take, where the numbers of
/// the entries increase, as they do in every session.
pub fn files_have_each_pick()
    ensures { (settings : List Setting) (state : State) (cells : List CellValue)
        (cell : CellValue) (plan : List Pick) → NumbersRise state → Contains cells cell
        → answer (placed cell.target settings state) ≡ Plan plan
        → All (Contains (files_on settings state cells)) plan }
{
    picks_stand();
}
