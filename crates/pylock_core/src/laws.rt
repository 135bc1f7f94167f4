//! Laws of the definitions alone: each function's contract is a law, and its body is empty.

ghost use Rattle.std.specs.Prelude.{◌≡◌, ℕ, List, Option, Err, true};
ghost use Rattle.std.specs.List.{All};
ghost use Rattle.pyver_core.specs.declared.set.specifier.Specifier.{Specifier};
ghost use Rattle.pymark_core.specs.Environment.{EnvironmentValue, variable_in};
ghost use Rattle.pymark_core.specs.declared.variable.Var.TheVariants.{PythonFullVersion};
ghost use Rattle.pywheel_core.specs.Tag.{TagValue};
ghost use Rattle.pylock_readers.specs.Entry.{EntryValue};
ghost use Rattle.pylock_readers.specs.Lock.{HeadValue};
ghost use Rattle.pylock_core.specs.Session.Fates.{explained_answer};
ghost use Rattle.pylock_core.specs.Session.Judgement.{AgreeAtKey, IndexKey, entry_reads};
ghost use Rattle.pylock_core.specs.Session.Judgement.{head_reads, readers, touched, verdict_of};
ghost use Rattle.pylock_core.specs.Session.Picks.{IsFaultIn, IsPickAmong};
ghost use Rattle.pylock_core.specs.Session.State.{NumbersRise, Rises, State, after_edits, apply};
ghost use Rattle.pylock_core.specs.Session.State.{in_turn};
ghost use Rattle.pylock_core.specs.Session.Steps.{answer, head_fault, python_check};
ghost use Rattle.pylock_core.specs.declared.answer.Answer.TheVariants.{Plan, Fault};
ghost use Rattle.pylock_core.specs.declared.answer.FaultCode.{FaultCode};
ghost use Rattle.pylock_core.specs.declared.answer.Pick.{Pick};
ghost use Rattle.pylock_core.specs.declared.edit.Edit.{Edit};
ghost use Rattle.pylock_core.specs.declared.edit.EditError.TheVariants.{Memory};
ghost use Rattle.pylock_core.specs.declared.edit.Policy.{Policy};

use pymark_core::laws::marker_reads;
use pywheel_core::laws::one_best_wheel;

/// A Python check reads nothing but `python_full_version`.
pub fn python_check_reads()
    ensures { (set : Option (List Specifier)) (e f : EnvironmentValue)
        → variable_in PythonFullVersion e ≡ variable_in PythonFullVersion f
        → python_check set e ≡ python_check set f }
{}

/// An entry reads nothing but its keys: two environments and tag lists that agree on them give it
/// the same verdict under a policy of its name.
pub fn entry_reads()
    ensures { (entry : EntryValue) (policy : Policy)
        (e f : EnvironmentValue) (tags others : List TagValue)
        → ((key : IndexKey) → entry_reads key entry ≡ true → AgreeAtKey key e f tags others)
        → verdict_of entry e tags policy ≡ verdict_of entry f others policy }
{
    marker_reads();
}

/// The head reads nothing but its keys.
pub fn head_reads()
    ensures { (head : HeadValue) (e f : EnvironmentValue) (tags others : List TagValue)
        → ((key : IndexKey) → head_reads key head ≡ true → AgreeAtKey key e f tags others)
        → head_fault head e ≡ head_fault head f }
{
    marker_reads();
}

/// The numbers of what reads a key increase, where those of the entries do, as they do in every
/// session.
pub fn readers_rise()
    ensures { (key : IndexKey) (state : State) → NumbersRise state → Rises 0 (readers key state) }
{}

/// The numbers that an edit touches increase, where those of the entries do.
pub fn touched_rises()
    ensures { (edit : Edit) (state : State) → NumbersRise state → Rises 0 (touched edit state) }
{}

/// Each pick of a plan names an entry that stands in the state, and that entry has the pick's
/// source.
pub fn picks_stand()
    ensures { (state : State) (plan : List Pick) → answer state ≡ Plan plan
        → All (IsPickAmong state.entries) plan }
{
    one_best_wheel();
}

/// A fault is the head's, or that of an entry that stands in the state.
pub fn fault_stands()
    ensures { (state : State) (id : ℕ) (code : FaultCode) → answer state ≡ Fault id code
        → IsFaultIn state id code }
{
    one_best_wheel();
}

/// What an edit makes of a state is never want of memory: only a call may answer it.
pub fn answers_are_never_out_of_memory()
    ensures { (edit : Edit) (state : State) → apply edit state ≡ Err Memory → ⊥ }
{}

/// An edit of several names makes of a state what the edits of each of them make of it, one after
/// another, up to the first that is refused.
#[tactic(auto, using(crate::proofs::Lemmas::Editing::InTurn::made_in_turn))]
pub fn names_are_edited_in_turn()
    ensures { (edit : Edit) (state : State) → apply edit state ≡ after_edits (in_turn edit) state }
{}

/// What becomes of each entry gives the answer: the head's fault; else the first fault of step 5
/// that an entry has; else the first entry without a file; else the plan of all that is picked.
#[tactic(auto, using(crate::proofs::Lemmas::Laws::fates_give))]
pub fn fates_give()
    ensures { (state : State) → NumbersRise state → answer state ≡ explained_answer state }
{}
