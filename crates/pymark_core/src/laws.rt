//! Laws of markers, each a public function that does nothing: its contract is the law.

ghost use Rattle.std.specs.Prelude.{◌≡◌, ℕ, List, Option, Some, Err, Ok, false, true};
ghost use Rattle.pymark_core.specs.Environment.{EnvironmentValue};
ghost use Rattle.pymark_core.specs.Marker.Asked.{reads_extra};
ghost use Rattle.pymark_core.specs.Marker.Depth.{is_deep};
ghost use Rattle.pymark_core.specs.Marker.Grammar.{MarkerText, has_misuse};
ghost use Rattle.pymark_core.specs.Marker.Keys.{reads};
ghost use Rattle.pymark_core.specs.Marker.Reading.{MarkerValue, marker_of, tree_text};
ghost use Rattle.pymark_core.specs.Marker.Tree.{Tree};
ghost use Rattle.pymark_core.specs.Requirement.Grammar.{RequirementText};
ghost use Rattle.pymark_core.specs.Requirement.Reading.{requirement_of, written_set_of};
ghost use Rattle.pymark_core.specs.Requirement.Value.{RequirementValue};
ghost use Rattle.pymark_core.specs.Requirement.Written.{IsWrittenSet};
ghost use Rattle.pymark_core.specs.Marker.Value.{AgreeAt, marker_value, value_with};
ghost use Rattle.pytext.specs.White.{trim_white};
ghost use Rattle.pymark_core.specs.declared.marker.keys.Key.{Key};

use crate::{EvalFault, MarkerError, RequirementError};

/// A text has at most one tree.
pub fn one_tree()
    ensures { (text : List ℕ) (a b : Tree) → MarkerText text a → MarkerText text b → a ≡ b }
{}

/// The tree that `tree_text` gives is the text's, and it gives the tree of every text that has one.
#[tactic(auto, using(crate::proofs::Lemmas::Marker::Reading::Answers::text_is))]
pub fn tree_text_is_complete()
    ensures sound { (text : List ℕ) (tree : Tree)
        → tree_text text ≡ Some tree → MarkerText text tree }
    ensures complete { (text : List ℕ) (tree : Tree)
        → MarkerText text tree → tree_text text ≡ Some tree }
{}

/// The marker that `marker_of` gives is the text's: the tree is one of it, by which no set is
/// misused. It gives every such marker, unless the text is nested too deep.
pub fn marker_of_is_complete()
    ensures sound { (text : List ℕ) (m : MarkerValue) → marker_of text ≡ Ok m
        → MarkerText text m.tree × (m.text ≡ trim_white text)
        × (is_deep text ≡ false) × (has_misuse m.tree ≡ false) }
    ensures complete { (text : List ℕ) (tree : Tree) → MarkerText text tree
        → is_deep text ≡ false → has_misuse tree ≡ false
        → marker_of text ≡ Ok (record { text = trim_white text; tree = tree }) }
{}

/// A marker reads nothing but its keys: two environments that agree on them give it the same value
/// or the same fault.
#[tactic(auto, using(crate::proofs::Lemmas::Marker::Value::Agreement::tree_agrees))]
pub fn marker_reads()
    ensures { (tree : Tree) (e f : EnvironmentValue)
        → ((k : Key) → reads k tree ≡ true → AgreeAt k e f)
        → marker_value e tree ≡ marker_value f tree }
{}

/// Where `extra` is no operand of a marker, its value with any text for `extra` is its value.
#[tactic(auto, using(crate::proofs::Lemmas::Marker::Value::WithoutExtra::tree_same))]
pub fn marker_without_extra()
    ensures { (extra : List ℕ) (environment : EnvironmentValue) (tree : Tree)
        → reads_extra tree ≡ false
        → value_with (Some extra) environment tree ≡ marker_value environment tree }
{}

/// With a text for `extra` too, a marker reads nothing of the environment but its keys.
#[tactic(auto, using(crate::proofs::Lemmas::Marker::Value::Agreement::tree_agrees))]
pub fn marker_with_extra_reads()
    ensures { (tree : Tree) (extra : List ℕ) (e f : EnvironmentValue)
        → ((k : Key) → reads k tree ≡ true → AgreeAt k e f)
        → value_with (Some extra) e tree ≡ value_with (Some extra) f tree }
{}

/// What is read of a requirement, the text is, and what the text is, is read: each text is at most
/// one requirement.
pub fn requirement_of_is_complete()
    ensures sound { (text : List ℕ) (parts : RequirementValue)
        → requirement_of text ≡ Ok parts → RequirementText text parts }
    ensures complete { (text : List ℕ) (parts : RequirementValue)
        → RequirementText text parts → requirement_of text ≡ Ok parts }
{}

/// The specifiers of a requirement as they are written read as its set, and it has none written
/// where it has a URL.
#[tactic(auto, using(crate::proofs::Lemmas::Requirement::Written::written_is_read))]
pub fn written_sets_are_read()
    ensures { (text : List ℕ) (parts : RequirementValue) → requirement_of text ≡ Ok parts
        → (written : Option (List ℕ)) × (written_set_of text ≡ Ok written)
        × IsWrittenSet written parts.set parts.url }
{}

/// The reading of a marker or of a requirement is never out of memory, nor is a marker's value,
/// with a text for `extra` or without: only a call may answer it.
#[tactic(auto, using(crate::proofs::Lemmas::Memory::never_memory))]
pub fn answers_are_never_out_of_memory()
    ensures marker { (text : List ℕ) → marker_of text ≡ Err MarkerError.Memory → ⊥ }
    ensures value { (environment : EnvironmentValue) (tree : Tree)
        → marker_value environment tree ≡ Err EvalFault.Memory → ⊥ }
    ensures with_extra { (extra : List ℕ) (environment : EnvironmentValue) (tree : Tree)
        → value_with (Some extra) environment tree ≡ Err EvalFault.Memory → ⊥ }
    ensures requirement { (text : List ℕ) → requirement_of text ≡ Err RequirementError.Memory → ⊥ }
{}
