//! Laws of the definitions alone: each function's contract is a law, and its body is empty.

ghost use Rattle.std.specs.Prelude.{◌≡◌, ◌++◌, ℕ, All, List, false};
ghost use Rattle.serde_json.specs.Data.{Data, Members, put};
ghost use Rattle.serde_json.specs.Written.{has_float, members_have_float};
ghost use Rattle.pylock_json.specs.Json.{HasNone, Row, list_of, object_of, texts_of, with_rows};

/// Members without floats stay so where a value without floats is put among them.
#[tactic(auto, using(crate::proofs::Floats::put_has_none))]
pub fn put_keeps_floats_out()
    ensures { (key : List ℕ) (d : Data) (ms : Members) → has_float d ≡ false
        → members_have_float ms ≡ false → members_have_float (put key d ms) ≡ false }
{}

/// What is made of values without floats has none: an object, a list, and a list of texts.
#[tactic(auto, using(crate::proofs::Floats::made))]
pub fn floats_come_from_values()
    ensures object { (rows : List Row) → All HasNone rows → has_float (object_of rows) ≡ false }
    ensures list { (ds : List Data) → All (λ d. has_float d ≡ false) ds
        → has_float (list_of ds) ≡ false }
    ensures texts { (texts : List (List ℕ)) → has_float (texts_of texts) ≡ false }
{}

/// Rows that stand after others are put after them: a table may be put in parts.
#[tactic(auto, using(crate::proofs::Rows::with_rows_behind))]
pub fn rows_are_put_in_turn()
    ensures { (before after : List Row) (ms : Members)
        → with_rows (before ++ after) ms ≡ with_rows after (with_rows before ms) }
{}
