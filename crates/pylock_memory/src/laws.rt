//! Laws of the definitions alone: each function's contract is a law, and its body is empty.

ghost use Rattle.std.specs.Prelude.{◌≡◌, ℕ, List, Some};
ghost use Rattle.pylock_memory.specs.Parts.{AreParts, cut_by};

/// Parts are cut by these lengths from these bytes exactly where they have these lengths and are,
/// one behind another, the bytes.
pub fn parts_are_cut_by_their_lengths()
    ensures are { (lengths bytes : List ℕ) (parts : List (List ℕ))
        → cut_by lengths bytes ≡ Some parts → AreParts lengths bytes parts }
    ensures cut { (lengths bytes : List ℕ) (parts : List (List ℕ))
        → AreParts lengths bytes parts → cut_by lengths bytes ≡ Some parts }
{}
