//! Laws of the definitions alone: each function's contract is a law, and its body is empty. They
//! say what the findings of a lock mean for the answers of the installation steps in its
//! environments.

ghost use Rattle.std.specs.Prelude.{◌≡◌, ℕ, List};
ghost use Rattle.std.specs.List.{All, Contains};
ghost use Rattle.pylock_core.specs.Session.State.{State};
ghost use Rattle.pylock_core.specs.Session.Steps.{answer};
ghost use Rattle.pylock_core.specs.declared.answer.Answer.TheVariants.{Fault, Plan};
ghost use Rattle.pylock_core.specs.declared.answer.FaultCode.TheVariants.{Ambiguous, PythonNotMet};
ghost use Rattle.pylock_core.specs.declared.answer.Pick.{Pick};
ghost use Rattle.pylock_readers.specs.Entry.{EntryValue};
ghost use Rattle.pylock_readers.specs.Lock.{HeadValue};
ghost use Rattle.pymark_core.specs.Environment.{EnvironmentValue};
ghost use Rattle.pylock_environments.specs.Findings.{AreWhole, Clashes, FindNothing, IsShown};
ghost use Rattle.pylock_environments.specs.Findings.{Pythons};
ghost use Rattle.pylock_environments.specs.States.{IsStateOf};
ghost use Rattle.pylock_environments.specs.declared.finding.EnvironmentFinding.{EnvironmentFinding};
ghost use Rattle.pylock_environments.specs.declared.finding.Found.TheVariants.{Clash, Never};

/// An entry of which no clash is found, nor that there may be one, is never ambiguous: in no
/// environment of the lock is that its fault.
pub fn entries_without_a_clash_are_unambiguous()
    ensures { (head : HeadValue) (entries : List EntryValue) (found : List EnvironmentFinding)
        (state : State) (number : ℕ) → AreWhole head entries found
        → IsStateOf head entries state → FindNothing found number Clashes
        → answer state ≡ Fault number Ambiguous → ⊥ }
{}

/// In the environment of a clash the answer is no plan.
pub fn a_clash_is_no_plan()
    ensures { (head : HeadValue) (entries : List EntryValue) (found : List EnvironmentFinding)
        (state : State) (number other : ℕ) (environment : EnvironmentValue) (plan : List Pick)
        → All (IsShown head entries) found → IsStateOf head entries state
        → Contains found (record { entry = number; found = Clash other environment })
        → state.environment ≡ environment → answer state ≡ Plan plan → ⊥ }
{}

/// An entry that never stands is in no plan.
pub fn what_never_stands_is_unplanned()
    ensures { (head : HeadValue) (entries : List EntryValue) (found : List EnvironmentFinding)
        (state : State) (number : ℕ) (plan : List Pick)
        → All (IsShown head entries) found → IsStateOf head entries state
        → Contains found (record { entry = number; found = Never })
        → answer state ≡ Plan plan → All (λ pick. pick.id ≡ number → ⊥) plan }
{}

/// An entry whose `requires-python` isn't found to be narrower, nor that it may be, admits the
/// Python: in no environment of the lock is it its fault that it doesn't.
pub fn entries_that_are_no_narrower_admit_the_python()
    ensures { (head : HeadValue) (entries : List EntryValue) (found : List EnvironmentFinding)
        (state : State) (number : ℕ) → AreWhole head entries found
        → IsStateOf head entries state → FindNothing found number Pythons
        → answer state ≡ Fault number PythonNotMet → ⊥ }
{}
