//! Laws of the definitions alone: each function's contract is a law, and its body is empty.

ghost use Rattle.std.specs.Prelude.{◌≡◌};
ghost use Rattle.toml.specs.Data.{Data};
ghost use Rattle.pytoml_code.specs.Code.{code};
ghost use Rattle.pytoml_code.specs.HiddenValue.{HasTexts, hidden_value};
ghost use Rattle.pytoml_code.specs.Proper.{IsProper};
ghost use Rattle.pytoml_code.specs.Shown.{plain, shown};

/// Values that stand in memory are equal where their codes are.
#[tactic(auto, using(crate::proofs::CodeLemmas::equal_codes))]
pub fn equal_codes_are_of_equal_values()
    ensures { (d e : Data) → IsProper d → IsProper e → code d ≡ code e → d ≡ e }
{}

/// What is shown of a value is the value in which each text and each key is hidden, without marks.
#[tactic(auto, using(crate::proofs::ShownLemmas::shown_whole))]
pub fn the_hidden_value_is_shown()
    ensures { (d : Data) → IsProper d → HasTexts d
        → shown (code d) ≡ plain (code (hidden_value d)) }
{}
