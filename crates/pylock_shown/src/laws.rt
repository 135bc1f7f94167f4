//! Laws of the definitions alone: each function's contract is a law, and its body is empty.

ghost use Rattle.std.specs.Prelude.{◌≡◌, ◌++◌, ◌∷◌, ℕ, List, codes, true};
ghost use Rattle.pylock_shown.specs.Hidden.{hidden, hidden_name, is_slash};
ghost use Rattle.pylock_shown.specs.Parted.{Lacks, begins_piece, ends_piece};

/// Two texts that differ only in what stands between a slash and an `@` before the next `/` or `?`
/// are shown alike. No `?` stands before it.
pub fn users_are_shown_alike()
    ensures { (place first second rest : List ℕ) (slash : ℕ) → is_slash slash ≡ true
        → Lacks (codes "?") place → Lacks (codes "/?") first → Lacks (codes "/?") second
        → hidden (place ++ slash ∷ first ++ 64 ∷ rest)
        ≡ hidden (place ++ slash ∷ second ++ 64 ∷ rest) }
{}

/// Two texts that differ only in a value of the query are shown alike: in what stands behind a `=`
/// and before the next `&`, `;` or `#`.
pub fn values_are_shown_alike()
    ensures { (place query first second rest : List ℕ)
        → Lacks (codes "?") place → Lacks (codes "#") query
        → Lacks (codes "&;#") first → Lacks (codes "&;#") second → ends_piece rest ≡ true
        → hidden (place ++ 63 ∷ query ++ 61 ∷ first ++ rest)
        ≡ hidden (place ++ 63 ∷ query ++ 61 ∷ second ++ rest) }
{}

/// Two texts that differ only in a piece of the query without `=` are shown alike.
pub fn pieces_are_shown_alike()
    ensures { (place query first second rest : List ℕ) → Lacks (codes "?") place
        → Lacks (codes "#") query → begins_piece query ≡ true
        → Lacks (codes "&;#=") first → Lacks (codes "&;#=") second → ends_piece rest ≡ true
        → hidden (place ++ 63 ∷ query ++ first ++ rest)
        ≡ hidden (place ++ 63 ∷ query ++ second ++ rest) }
{}

/// A text with neither `@` nor `?` is shown as it is.
pub fn plain_texts_stay()
    ensures { (text : List ℕ) → Lacks (codes "@?") text → hidden text ≡ text }
{}

/// What is shown of a text is shown as it is.
pub fn shown_texts_stay()
    ensures { (text : List ℕ) → hidden (hidden text) ≡ hidden text }
{}

/// A file name is shown as behind a slash.
pub fn names_are_shown_behind_a_slash()
    ensures { (name : List ℕ) → hidden (47 ∷ name) ≡ 47 ∷ hidden_name name }
{}
