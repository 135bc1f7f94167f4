//! Laws of the definitions alone: each function's contract is a law, and its body is empty.

ghost use Rattle.std.specs.Prelude.{◌≡◌, ℕ, List, Some, true};
ghost use Rattle.pylock_audit.specs.Kinds.{is_same_kind, kind_of_word};
ghost use Rattle.pylock_audit.specs.Words.{finding_word};
ghost use Rattle.pylock_audit.specs.declared.finding.FindingKind.{FindingKind};

/// The word of a kind names it, and no other text does.
#[tactic(auto, using(crate::proofs::KindLemmas::read_back, crate::proofs::KindLemmas::has_word))]
pub fn words_name_kinds()
    ensures named { (kind : FindingKind) → kind_of_word (finding_word kind) ≡ Some kind }
    ensures alone { (kind : FindingKind) (word : List ℕ) → kind_of_word word ≡ Some kind
        → finding_word kind ≡ word }
{}

/// No two kinds have one word.
#[tactic(auto, using(crate::proofs::KindLemmas::same_kind))]
pub fn words_differ()
    ensures { (kind other : FindingKind) → is_same_kind kind other ≡ true → kind ≡ other }
{}
