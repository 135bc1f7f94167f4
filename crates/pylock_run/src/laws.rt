//! Laws of the definitions alone: each function's contract is a law, and its body is empty.

ghost use Rattle.std.specs.Prelude.{◌≡◌, ◌+◌, ◌++◌, ◌==◌, ◌&&◌, ℕ, List, Ok, count_by, false};
ghost use Rattle.std.specs.Prelude.{if◌then◌else◌, length, not};
ghost use Rattle.std.specs.List.{list_any};
ghost use Rattle.std.specs.Str.{IsUtf8, chars};
ghost use Rattle.pylock_core.specs.Session.State.{State};
ghost use Rattle.pylock_core.specs.Session.Steps.{answer};
ghost use Rattle.pylock_core.specs.declared.answer.Answer.TheVariants.{Plan};
ghost use Rattle.pylock_core.specs.declared.answer.Pick.{Pick};
ghost use Rattle.pylock_run.specs.Inner.Editing.{EditingValue, after_input, bytes_text};
ghost use Rattle.pylock_run.specs.Inner.Editing.{editing_after, input_end_text, start};
ghost use Rattle.pylock_run.specs.Line.{input_lines};
ghost use Rattle.pylock_run.specs.Report.{Shown, report_on};
ghost use Rattle.pylock_run.specs.Stream.Terminal.{steers_terminal, terminal_text};
ghost use Rattle.pylock_run.specs.Text.Plan.{answer_text};

use pylock_core::laws::picks_stand;

/// The text of a plan of K picks has exactly K + 1 lines: that many LF.
pub fn plan_lines()
    ensures { (state : State) (plan : List Pick) → answer state ≡ Plan plan
        → count_by (λ b. b == 10) (answer_text state (Plan plan)) ≡ length plan + 1 }
{
    picks_stand();
}

/// No character of what a terminal is given for a text steers it.
pub fn no_text_steers_a_terminal()
    ensures { (text : List ℕ) → IsUtf8 text
        → list_any steers_terminal (chars (terminal_text text)) ≡ false }
{}

/// What a terminal is given for a text is what it is given for its parts, one after the other.
pub fn parts_go_one_by_one()
    ensures { (front back : List ℕ) → IsUtf8 front
        → terminal_text (front ++ back) ≡ terminal_text front ++ terminal_text back }
{}

/// What a session prints at its start, of the bytes of an input and at their end is what a run
/// prints of the input's lines, and its status is the run's.
pub fn bytes_print_what_lines_print()
    ensures text { (shown : Shown) (state : State) (input : List ℕ)
        → (shown.answer state ++ bytes_text shown (start state) input)
        ++ input_end_text shown (editing_after (start state) input)
        ≡ (report_on shown (Ok state) (input_lines input)).text }
    ensures status { (shown : Shown) (state : State) (input : List ℕ)
        → (if (after_input (editing_after (start state) input)).plan
        && not (after_input (editing_after (start state) input)).refused then 0 else 1)
        ≡ (report_on shown (Ok state) (input_lines input)).status }
{}

/// An input may come in any pieces: each prints what it adds to those before it.
pub fn pieces_print_one_by_one()
    ensures text { (shown : Shown) (at : EditingValue) (piece rest : List ℕ)
        → bytes_text shown at (piece ++ rest)
        ≡ bytes_text shown at piece ++ bytes_text shown (editing_after at piece) rest }
    ensures editing { (at : EditingValue) (piece rest : List ℕ)
        → editing_after at (piece ++ rest) ≡ editing_after (editing_after at piece) rest }
{}
