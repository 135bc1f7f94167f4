//! Laws of the definitions alone: each function's contract is a law, and its body is empty.

ghost use Rattle.std.specs.Prelude.{ℕ, List};
ghost use Rattle.pytext.specs.White.{IsTrimmed, trim_white};

/// What [`trim_white`](crate::trim_white) takes away is white space, and what stays neither begins
/// nor ends with any.
pub fn trim_white_leaves_none_round_it()
    ensures { (text : List ℕ) → IsTrimmed text (trim_white text) }
{}
