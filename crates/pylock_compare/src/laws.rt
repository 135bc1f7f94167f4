//! Laws of the definitions alone: each function's contract is a law, and its body is empty.

ghost use Rattle.std.specs.Prelude.{◌≡◌, ℕ, List, true};
ghost use Rattle.std.specs.Cmp.Lexicographic.{slice_cmp};
ghost use Rattle.std.specs.List.{list_any};
ghost use Rattle.std.specs.List.Sorted.{IsStrictlySortedBy};
ghost use Rattle.std.specs.Ordering.{nat_cmp};
ghost use Rattle.std.specs.Str.{bytes_eq};
ghost use Rattle.pylock_compare.specs.Rows.{in_order};
ghost use Rattle.pylock_compare.specs.Texts.{Texts, are_alike};

/// Lists of texts are alike where they are equal.
#[tactic(auto, using(crate::proofs::KeyLemmas::alike_texts))]
pub fn alike_texts_are_equal()
    ensures equal { (xs ys : Texts) → are_alike xs ys ≡ true → xs ≡ ys }
    ensures itself { (xs : Texts) → are_alike xs xs ≡ true }
{}

/// Texts in order rise by code point, so each stands once, and they are the texts that were given.
#[tactic(auto, using(crate::proofs::OrderLemmas::in_their_order))]
pub fn texts_stand_in_order()
    ensures rise { (texts : List (List ℕ))
        → IsStrictlySortedBy (slice_cmp nat_cmp) (in_order texts) }
    ensures stand { (texts : List (List ℕ)) (text : List ℕ)
        → list_any (bytes_eq text) (in_order texts) ≡ list_any (bytes_eq text) texts }
{}
