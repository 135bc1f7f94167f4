//! Laws of the definitions alone: each function's contract is a law, and its body is empty.

ghost use Rattle.std.specs.Prelude.{◌≡◌, ℕ, Bool, Err, List, Ok, true};
ghost use Rattle.std.specs.List.{AllByRecursion, IsDistinct};
ghost use Rattle.std.specs.Str.{bytes_eq};
ghost use Rattle.pylock_core.specs.Session.State.{State};
ghost use Rattle.pylock_core.specs.declared.answer.Pick.{Pick};
ghost use Rattle.pylock_installed.specs.Done.{HasOneOfEach, HasPlan, IsMade, after_steps};
ghost use Rattle.pylock_installed.specs.Project.{ProjectValue, names};
ghost use Rattle.pylock_installed.specs.Reading.{installed_of};
ghost use Rattle.pylock_installed.specs.Steps.{is_done, steps};
ghost use Rattle.pylock_installed.specs.declared.error.InstalledError.TheVariants.{Memory};

/// Nothing is left to do exactly where the environment has what the plan says: each entry of the
/// plan is installed, as the pick of it says, and every other project that is installed is one of
/// the tools that may stay.
#[tactic(auto, using(crate::proofs::DoneLemmas::done))]
pub fn nothing_is_left_exactly_where_the_plan_is_there()
    ensures told { (state : State) (picks : List Pick) (installed : List ProjectValue)
        (is_exact : Bool) → is_done (steps state picks installed is_exact) ≡ true
        → HasPlan state picks installed is_exact }
    ensures same { (state : State) (picks : List Pick) (installed : List ProjectValue)
        (is_exact : Bool) → HasPlan state picks installed is_exact
        → is_done (steps state picks installed is_exact) ≡ true }
{}

/// After the steps nothing is left to do. What an installer makes of an entry has the entry's name
/// and is what is picked of it; of a plan no two entries have one name.
#[tactic(auto, using(crate::proofs::LeftLemmas::done_after))]
pub fn nothing_is_left_after_the_steps()
    ensures { (state : State) (picks : List Pick) (installed : List ProjectValue)
        (made : ℕ → ProjectValue) (is_exact : Bool) → HasOneOfEach state picks
        → AllByRecursion (IsMade state made) picks
        → is_done (steps state picks (after_steps made (steps state picks installed is_exact))
        is_exact) ≡ true }
{}

/// Of the projects that are read no two have one name.
#[tactic(auto, using(crate::proofs::OnceLemmas::read_once))]
pub fn each_project_is_read_once()
    ensures { (bytes : List ℕ) (projects : List ProjectValue)
        → installed_of bytes ≡ Ok projects → IsDistinct bytes_eq (names projects) }
{}

/// The reading of a list is never out of memory: only a call may answer it.
#[tactic(auto, using(crate::proofs::NeverMemory::never_memory))]
pub fn answers_are_never_out_of_memory()
    ensures { (bytes : List ℕ) → installed_of bytes ≡ Err Memory → ⊥ }
{}
