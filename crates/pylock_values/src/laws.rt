//! Laws of the definitions alone: each function's contract is a law, and its body is empty.

ghost use Rattle.std.specs.Prelude.{◌≡◌, ◌+◌, ◌*◌, ◌^◌, ◌↔◌, ℕ, List, take, true};
ghost use Rattle.pymark_core.specs.Marker.Pieces.{tree_pieces};
ghost use Rattle.pymark_core.specs.Marker.Tree.{Tree};
ghost use Rattle.pyver_core.specs.Set.Grammar.{SetText};
ghost use Rattle.pyver_core.specs.Version.Normal.{normal_text};
ghost use Rattle.pyver_core.specs.Version.Order.{IsSame};
ghost use Rattle.pyver_core.specs.Version.Parts.{Parts, base_release, public_part};
ghost use Rattle.pyver_core.specs.declared.set.specifier.Specifier.{Specifier};
ghost use Rattle.pylock_values.specs.Kind.{kind_of};
ghost use Rattle.pylock_values.specs.MarkerPieces.{marker_record};
ghost use Rattle.pylock_values.specs.Parts.{base_length, high_word, low_word, public_length};
ghost use Rattle.pylock_values.specs.Parts.{without_zeros};
ghost use Rattle.pylock_values.specs.Spans.{AreSpans, set_pieces, spans_from};

/// A text is seen as normal exactly where it is the normal form of its version.
pub fn normal_texts_are_normal_forms()
    ensures { (text : List ℕ) (v : Parts)
        → ((kind_of text v).is_normal ≡ true) ↔ (normal_text v ≡ text) }
{}

/// The base release and the public part of a version are what its normal form begins with.
pub fn parts_begin_the_normal_form()
    ensures base { (v : Parts)
        → take (base_length v) (normal_text v) ≡ normal_text (base_release v) }
    ensures public { (v : Parts)
        → take (public_length v) (normal_text v) ≡ normal_text (public_part v) }
{}

/// The offsets that [`set_spans`](crate::set_spans) tells of a set's text are where its specifiers
/// stand in it, each with its operator and its operand.
#[tactic(auto, using(crate::proofs::SpansLemmas::set_spans_are))]
pub fn spans_are_those_of_the_set()
    ensures { (text : List ℕ) (set : List Specifier) → SetText text set
        → AreSpans text set (spans_from 0 (set_pieces text)) }
{}

/// Without the zeros at the end of its release a version is equal to itself in order.
pub fn zeros_at_the_end_go()
    ensures { (v : Parts) → IsSame (without_zeros v) v }
{}

/// The two words of a number are the number.
pub fn words_make_the_number()
    ensures { (n : ℕ) → low_word n + 2 ^ 64 * high_word n ≡ n }
{}

/// A marker's pieces are its tree: no two trees have one list of them.
#[tactic(auto, using(crate::proofs::TreeLemmas::one_tree))]
pub fn pieces_are_the_tree()
    ensures { (a b : Tree) → tree_pieces a ≡ tree_pieces b → a ≡ b }
{}

/// The record of a marker is its tree too: no two trees have one record.
#[tactic(auto, using(crate::proofs::TreeRecordLemmas::one_marker))]
pub fn records_are_trees()
    ensures { (a b : Tree) → marker_record a ≡ marker_record b → a ≡ b }
{}
