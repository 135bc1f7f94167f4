//! Laws of the definitions alone: each function's contract is a law, and its body is empty but for
//! laws of the crates below.

ghost use Rattle.std.specs.Prelude.{◌≡◌, ℕ, true, [], List, length, map};
ghost use Rattle.std.specs.List.{AllByRecursion};
ghost use Rattle.toml.specs.Data.{Members};
ghost use Rattle.pymark_core.specs.Environment.{EnvironmentValue};
ghost use Rattle.pywheel_core.specs.Tag.{TagValue};
ghost use Rattle.pylock_core.specs.Session.State.{NumbersRise, State, first};
ghost use Rattle.pylock_core.specs.Session.Steps.{answer};
ghost use Rattle.pylock_core.specs.declared.answer.Answer.{Answer};
ghost use Rattle.pylock_core.specs.declared.answer.Answer.TheVariants.{Plan, Fault};
ghost use Rattle.pylock_core.specs.declared.answer.FaultCode.{FaultCode};
ghost use Rattle.pylock_core.specs.declared.answer.Pick.{Pick};
ghost use Rattle.pylock_core.specs.declared.edit.Edit.{Edit};
ghost use Rattle.pylock_diff.specs.Change.{coming_and_going, turned};
ghost use Rattle.pylock_diff.specs.Changes.{answer_changes, lock_changes};
ghost use Rattle.pylock_diff.specs.Compared.{ComparedValue};
ghost use Rattle.pylock_diff.specs.Same.{HoldSameLock, IsRead};
ghost use Rattle.pylock_diff.specs.SamePicks.{AreAlike, PickSame, after_edits, leaves_entries};
ghost use Rattle.pylock_diff.specs.SamePlan.{PickTheSame, numberless};

use pylock_core::laws::picks_stand;

/// There is no change exactly where both documents hold the same lock.
pub fn nothing_changes_exactly_where_the_lock_is_the_same()
    ensures told { (old new : ComparedValue) (before after : Members) → IsRead old before
        → IsRead new after → lock_changes old new ≡ [] → HoldSameLock before after }
    ensures same { (old new : ComparedValue) (before after : Members) → IsRead old before
        → IsRead new after → HoldSameLock before after → lock_changes old new ≡ [] }
{}

/// Where nothing changes from OLD to NEW, nothing changes of what is installed. Two sessions, one
/// on each lock, start in the same environment with the same tags and get the same edits of extras,
/// groups, variables, tags and policies. Where one has a plan, so has the other, and both pick the
/// same sources of the same entries, whatever their numbers and their order. Where one has a fault,
/// so has the other, though maybe not the same: the order of the entries says which of several
/// faults is told.
///
/// The same holds of any two states of the same entries, in any order and under any numbers that
/// increase, whose head, environment, tags and policies are the same.
pub fn nothing_changes_what_is_installed()
    ensures locks { (old new : ComparedValue) (before after : Members)
        (environment : EnvironmentValue) (tags : List TagValue) (edits : List Edit)
        → IsRead old before → IsRead new after → lock_changes old new ≡ []
        → AllByRecursion (λ edit. leaves_entries edit ≡ true) edits
        → PickSame (after_edits edits (first old.lock environment tags))
        (after_edits edits (first new.lock environment tags)) }
    ensures states { (one other : State) → AreAlike one other → PickSame one other }
{}

/// A lock has no change from itself, and neither has a plan.
pub fn nothing_changes_from_itself()
    ensures locks { (lock : ComparedValue) → lock_changes lock lock ≡ [] }
    ensures plans { (state : State) (picks : List Pick)
        → answer_changes state state (Plan picks) (Plan picks) ≡ [] }
{}

/// `added` and `removed` change places when OLD and NEW do, and nothing else becomes one of them.
pub fn added_and_removed_change_places()
    ensures locks { (old new : ComparedValue) → coming_and_going (lock_changes new old)
        ≡ map turned (coming_and_going (lock_changes old new)) }
    ensures answers { (old new : State) (before after : Answer)
        → coming_and_going (answer_changes new old after before)
        ≡ map turned (coming_and_going (answer_changes old new before after)) }
{}

/// There is no change of two answers exactly where both are plans whose picks, numbers apart, are
/// the same, each with all its fields.
pub fn nothing_changes_exactly_where_the_picks_are_the_same()
    ensures told { (old new : State) (before after : Answer)
        → answer_changes old new before after ≡ [] → PickTheSame old new before after }
    ensures same { (old new : State) (before after : Answer)
        → PickTheSame old new before after → answer_changes old new before after ≡ [] }
{}

/// Where one answer is a fault, there is one change.
#[tactic(auto, using(crate::proofs::PlanLemmas::faults_alone))]
pub fn a_fault_is_told_alone()
    ensures before { (old new : State) (number : ℕ) (code : FaultCode) (after : Answer)
        → length (answer_changes old new (Fault number code) after) ≡ 1 }
    ensures after { (old new : State) (before : Answer) (number : ℕ) (code : FaultCode)
        → length (answer_changes old new before (Fault number code)) ≡ 1 }
{}

/// Where two states have the same picks, as those of two locks have between which nothing changes,
/// nothing changes of their answers, wherever one gives a plan.
#[tactic(auto, using(crate::proofs::MachineLemmas::plan_untold))]
pub fn the_same_picks_change_nothing()
    ensures { (one other : State) (plan : List Pick) → PickSame one other → answer one ≡ Plan plan
        → answer_changes one other (answer one) (answer other) ≡ [] }
{}

/// Each pick of an answer is compared: none lacks its entry or its source.
pub fn no_pick_is_left_out()
    ensures { (state : State) (plan : List Pick) → NumbersRise state → answer state ≡ Plan plan
        → length (numberless state plan) ≡ length plan }
{
    picks_stand();
}
