//! Laws of the definitions alone: each function's contract is a law, and its body is empty.

ghost use Rattle.std.specs.Prelude.{◌≡◌, ℕ, List, [], ◌∷◌, ◌++◌, Err, Ok, Some, false, replicate};
ghost use Rattle.std.specs.Prelude.{true, ◌↔◌, ◌+◌, ◌/◌, ◌%◌, ◌<◌, ◌≤◌};
ghost use Rattle.std.specs.Cmp.Lexicographic.{slice_cmp};
ghost use Rattle.std.specs.Char.{to_ascii_lowercase};
ghost use Rattle.std.specs.List.{list_all};
ghost use Rattle.std.specs.Ordering.{nat_cmp, ordering_then};
ghost use Rattle.pyver_core.specs.Parsed.{parsed_operand, parsed_set, parsed_specifier};
ghost use Rattle.pyver_core.specs.Parsed.{parsed_version};
ghost use Rattle.pyver_core.specs.Version.FromParts.{version_from_parts};
ghost use Rattle.pyver_core.specs.Version.Parts.{Parts};
ghost use Rattle.pytext.specs.Bytes.{is_separator, starts};
ghost use Rattle.pyver_core.specs.Version.Grammar.{Spells};
ghost use Rattle.pyver_core.specs.Name.{normal_name};
ghost use Rattle.pyver_core.specs.Version.Normal.{normal_text};
ghost use Rattle.pyver_core.specs.Version.Order.{IsSame, version_cmp};
ghost use Rattle.pyver_core.specs.Version.OrderKey.{number_key, order_key};
ghost use Rattle.pyver_core.specs.Version.Reading.{version_of};
ghost use Rattle.pyver_core.specs.Set.Equality.{set_eq, specifier_eq};
ghost use Rattle.pyver_core.specs.Set.Grammar.{IsOperand, SetText};
ghost use Rattle.pyver_core.specs.Set.Normal.{operator_of, set_text, specifier_text};
ghost use Rattle.pyver_core.specs.Set.Reading.{operand_of, set_of};
ghost use Rattle.pyver_core.specs.declared.set.specifier.Operator.{Operator};
ghost use Rattle.pyver_core.specs.declared.set.specifier.Specifier.{Specifier};

use crate::{PartsError, SpecifierError, VersionError};

/// A text spells at most one version, and so does the normal form of what it spells: the same one
/// (PEP 440, "Normalization").
pub fn one_spelling()
    ensures once { (text : List ℕ) (p q : Parts) → Spells text p → Spells text q → p ≡ q }
    ensures normal_form { (text : List ℕ) (p : Parts) → Spells text p → Spells (normal_text p) p }
{}

/// What [`Version::parse`](crate::Version::parse) reads, the text spells.
#[tactic(auto, using(crate::proofs::Lemmas::Version::Reading::Sound::Parts::version_sound))]
pub fn version_of_spells()
    ensures { (text : List ℕ) (p : Parts) → version_of text ≡ Some p → Spells text p }
{}

/// What a text spells, [`Version::parse`](crate::Version::parse) reads.
pub fn version_of_is_complete()
    ensures { (text : List ℕ) (p : Parts) → Spells text p → version_of text ≡ Some p }
{}

/// [`Version::from_parts`](crate::Version::from_parts) takes the parts that a text spells, and no
/// others; and their normal form is such a text.
pub fn parts_have_a_spelling()
    ensures made { (p v : Parts) → version_from_parts p ≡ Ok v
        → (v ≡ p) × Spells (normal_text p) p }
    ensures spelt { (text : List ℕ) (p : Parts) → Spells text p → version_from_parts p ≡ Ok p }
{}

/// What [`SpecifierSet::parse`](crate::SpecifierSet::parse) reads, the text writes.
#[tactic(auto, using(crate::proofs::Lemmas::Set::Reading::Sound::set_sound))]
pub fn set_of_is_written()
    ensures { (text : List ℕ) (s : List Specifier) → set_of text ≡ Some s → SetText text s }
{}

/// What a text writes, [`SpecifierSet::parse`](crate::SpecifierSet::parse) reads.
#[tactic(auto, using(crate::proofs::Lemmas::Set::Reading::Complete::set_complete))]
pub fn set_of_is_complete()
    ensures { (text : List ℕ) (s : List Specifier) → SetText text s → set_of text ≡ Some s }
{}

/// What is read after an operator is an operand of it, and every operand is read after its own.
pub fn operand_of_is_complete()
    ensures sound { (operator : Operator) (text : List ℕ) (s : Specifier)
        → operand_of operator text ≡ Some s → (operator_of s ≡ operator) × IsOperand text s }
    ensures complete { (text : List ℕ) (s : Specifier)
        → IsOperand text s → operand_of (operator_of s) text ≡ Some s }
{}

/// A text writes at most one specifier set.
#[tactic(auto, using(crate::proofs::Lemmas::Set::Reading::Complete::one_set))]
pub fn one_specifier_set()
    ensures { (text : List ℕ) (s t : List Specifier) → SetText text s → SetText text t → s ≡ t }
{}

/// Specifiers and sets that are equal as they are written have the same normal form.
#[tactic(auto, using(crate::proofs::Lemmas::Set::Equality::equal_texts))]
pub fn equal_ones_print_alike()
    ensures specifiers { (s t : Specifier) → specifier_eq s t ≡ true
        → specifier_text s ≡ specifier_text t }
    ensures sets { (s t : List Specifier) → set_eq s t ≡ true → set_text s ≡ set_text t }
{}

/// Zeros at the end of a release make no difference to the order of versions.
pub fn trailing_zeros_are_no_difference()
    ensures { (v w : Parts) (n : ℕ)
        → version_cmp (record v { release = v.release ++ replicate n 0 }) w ≡ version_cmp v w }
{}

/// The keys of [`Version::order_key`](crate::Version::order_key), compared number by number with a
/// proper prefix first, stand as their versions do; equal versions, and no others, have one key. No
/// key is a proper prefix of another: what stands after keys decides between equal versions alone.
pub fn keys_stand_in_order()
    ensures order { (v w : Parts)
        → slice_cmp nat_cmp (order_key v) (order_key w) ≡ version_cmp v w }
    ensures equal { (v w : Parts) → IsSame v w ↔ (order_key v ≡ order_key w) }
    ensures behind { (v w : Parts) (s t : List ℕ)
        → slice_cmp nat_cmp (order_key v ++ s) (order_key w ++ t)
        ≡ ordering_then (version_cmp v w) (slice_cmp nat_cmp s t) }
{}

/// The key of a number, of any size: below 253 it is the byte above the number; else it is 254, the
/// key of the quotient by 256, and the remainder.
pub fn number_keys_have_two_forms()
    ensures short { (n : ℕ) → n < 253 → number_key n ≡ (n + 1) ∷ [] }
    ensures long { (n : ℕ) → 253 ≤ n
        → number_key n ≡ 254 ∷ (number_key (n / 256) ++ n % 256 ∷ []) }
{}

/// The normal form of a name, read from the left: a run of separators that no separator follows is
/// one `-`, and any other byte is itself in lower case.
pub fn runs_become_one_dash()
    ensures empty { normal_name [] ≡ [] }
    ensures run { (b : ℕ) (run rest : List ℕ) → list_all is_separator (b ∷ run) ≡ true
        → starts is_separator rest ≡ false
        → normal_name ((b ∷ run) ++ rest) ≡ 45 ∷ normal_name rest }
    ensures other { (b : ℕ) (rest : List ℕ) → is_separator b ≡ false
        → normal_name (b ∷ rest) ≡ to_ascii_lowercase b ∷ normal_name rest }
{}

/// No reading of a text and no parts give out of memory: only a call may answer it.
pub fn answers_are_never_out_of_memory()
    ensures version { (text : List ℕ) → parsed_version text ≡ Err VersionError.Memory → ⊥ }
    ensures set { (text : List ℕ) → parsed_set text ≡ Err SpecifierError.Memory → ⊥ }
    ensures operand { (operator : Operator) (text : List ℕ)
        → parsed_operand operator text ≡ Err SpecifierError.Memory → ⊥ }
    ensures specifier { (text : List ℕ)
        → parsed_specifier text ≡ Err SpecifierError.Memory → ⊥ }
    ensures parts { (p : Parts) → version_from_parts p ≡ Err PartsError.Memory → ⊥ }
{}
