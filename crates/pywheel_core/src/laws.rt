//! Laws of the definitions alone: each function's contract is a law, and its body is empty.

ghost use Rattle.std.specs.Prelude.{◌≡◌, ◌↔◌, ◌∷◌, ℕ, List, Option, Some, Err, Ok, map, true};
ghost use Rattle.std.specs.List.{IsDistinct};
ghost use Rattle.pyver_core.specs.Name.{is_name, normal_name};
ghost use Rattle.pyver_core.specs.Version.Grammar.{IsLarge, Spells};
ghost use Rattle.pyver_core.specs.Version.Parts.{Parts};
ghost use Rattle.pywheel_core.specs.Choice.{IsBest, best};
ghost use Rattle.pywheel_core.specs.Sdist.Grammar.{Sdist};
ghost use Rattle.pywheel_core.specs.Sdist.Reading.{sdist_of};
ghost use Rattle.pywheel_core.specs.Sdist.Value.{SdistValue, sdist_text};
ghost use Rattle.pywheel_core.specs.Tag.{AreFirsts, AreTags, IsNoTag, TagText, TagValue, is_among};
ghost use Rattle.pywheel_core.specs.Tag.{rank_of, tag_eq, tag_of, tag_text, tags_of};
ghost use Rattle.pywheel_core.specs.Target.Compatible.{IsCompatible};
ghost use Rattle.pywheel_core.specs.Target.Grammar.{IsPlatform, IsPython, TargetText};
ghost use Rattle.pywheel_core.specs.Target.Newer.{IsAtLeast, IsPart};
ghost use Rattle.pywheel_core.specs.Target.Order.{IsOwn, StandsBefore};
ghost use Rattle.pywheel_core.specs.Target.Reading.{target_of};
ghost use Rattle.pywheel_core.specs.Target.Tags.{target_tags};
ghost use Rattle.pywheel_core.specs.Target.Value.{TargetValue, is_target};
ghost use Rattle.pywheel_core.specs.Wheel.Grammar.{Wheel};
ghost use Rattle.pywheel_core.specs.Wheel.Reading.{set_tags_in, wheel_of};
ghost use Rattle.pywheel_core.specs.Wheel.Value.{WheelValue};

use crate::{SdistError, TagError, TagListError, TargetError, WheelError};

/// What [`Tag::parse`](crate::Tag::parse) reads, the text is, and what the text is, it reads.
pub fn tag_of_is_the_answer()
    ensures sound { (text : List ℕ) (t : TagValue) → tag_of text ≡ Ok t → TagText text t }
    ensures complete { (text : List ℕ) (t : TagValue) → TagText text t → tag_of text ≡ Ok t }
{}

/// No two tags of a list are equal: each has one rank.
#[tactic(auto, using(crate::proofs::Lemmas::Tag::Listing::distinct))]
pub fn tags_are_distinct()
    ensures { (texts : List (List ℕ)) (tags : List TagValue)
        → tags_of texts ≡ Ok tags → IsDistinct tag_eq tags }
{}

/// What [`TagList::parse`](crate::TagList::parse) answers: the tags of the texts, each once, in the
/// order of their first positions; or the position of the first text that is no tag.
#[tactic(auto, using(crate::proofs::firsts, crate::proofs::refused))]
pub fn tags_of_is_the_answer()
    ensures tags { (texts : List (List ℕ)) (tags : List TagValue) → tags_of texts ≡ Ok tags
        → (given : List TagValue) × AreTags texts given × AreFirsts given tags }
    ensures refused { (texts : List (List ℕ)) (position : ℕ)
        → tags_of texts ≡ Err (TagListError.Tag position) → IsNoTag texts position }
{}

/// The tag of the first text has the rank 0.
#[tactic(auto, using(crate::proofs::Lemmas::Tag::Listing::first))]
pub fn first_tag_ranks_first()
    ensures { (text : List ℕ) (texts : List (List ℕ)) (t : TagValue) (tags : List TagValue)
        → tag_of text ≡ Ok t → tags_of (text ∷ texts) ≡ Ok tags → rank_of t tags ≡ Some 0 }
{}

/// Among some wheels there is one best position, or none: the one that [`choose`](crate::choose)
/// answers.
#[tactic(auto, using(crate::proofs::is_best, crate::proofs::best_is_one))]
pub fn one_best_wheel()
    ensures stands { (wheels : List (Option WheelValue)) (tags : List TagValue)
        → IsBest wheels tags (best wheels tags) }
    ensures once { (wheels : List (Option WheelValue)) (tags : List TagValue) (position : Option ℕ)
        → IsBest wheels tags position → position ≡ best wheels tags }
{}

/// What [`WheelName::parse`](crate::WheelName::parse) reads, the text says as the name of a wheel.
#[tactic(auto, using(crate::proofs::Lemmas::Wheel::Grammar::wheel_says))]
pub fn wheel_of_is_the_answer()
    ensures { (text : List ℕ) (w : WheelValue)
        → wheel_of text ≡ Ok w → Wheel text w.name w.version w.build w.tags }
{}

/// What a text says as the name of a wheel, [`WheelName::parse`](crate::WheelName::parse) reads.
#[tactic(auto, using(crate::proofs::Lemmas::Wheel::Grammar::wheel_made))]
pub fn wheel_of_is_complete()
    ensures { (text name : List ℕ) (version : Parts) (build : Option (List ℕ))
        (tags : List TagValue)
        → Wheel text name version build tags → (set : List ℕ) × (wheel_of text ≡ Ok (record {
          name = name;
          version = version;
          build = build;
          tag_set = set;
          tags = tags;
        })) }
{}

/// The tags of a wheel are those for which its compressed tag set stands.
#[tactic(auto, using(crate::proofs::Lemmas::Wheel::TagSet::set_has_tags))]
pub fn tag_set_has_the_tags()
    ensures { (text : List ℕ) (w : WheelValue)
        → wheel_of text ≡ Ok w → set_tags_in w.tag_set ≡ Ok w.tags }
{}

/// What [`SdistName::parse`](crate::SdistName::parse) reads, the text says as the name of a source
/// distribution.
#[tactic(auto, using(crate::proofs::Lemmas::Sdist::Grammar::sdist_says))]
pub fn sdist_of_is_the_answer()
    ensures { (text : List ℕ) (s : SdistValue)
        → sdist_of text ≡ Ok s → Sdist text s.name s.version }
{}

/// What a text says as the name of a source distribution,
/// [`SdistName::parse`](crate::SdistName::parse) reads.
pub fn sdist_of_is_complete()
    ensures { (text name : List ℕ) (version : Parts)
        → Sdist text name version
        → sdist_of text ≡ Ok (record { name = name; version = version }) }
{}

/// The file name that PEP 625 asks for says the name and the version that it is made of: a name in
/// normal form, and parts that a text spells, with no number past the limit.
pub fn sdist_of_normal()
    ensures { (s : SdistValue) (spelling : List ℕ)
        → is_name s.name ≡ true → normal_name s.name ≡ s.name
        → Spells spelling s.version → (IsLarge s.version → ⊥)
        → sdist_of (sdist_text s) ≡ Ok s }
{}

/// The reading of a tag, of a list of tags or of the name of a wheel or a source distribution is
/// never out of memory: only a call may answer it.
#[tactic(auto, using(crate::proofs::NeverMemory::never_memory))]
pub fn answers_are_never_out_of_memory()
    ensures tag { (text : List ℕ) → tag_of text ≡ Err TagError.Memory → ⊥ }
    ensures tags { (texts : List (List ℕ)) → tags_of texts ≡ Err TagListError.Memory → ⊥ }
    ensures wheel { (text : List ℕ) → wheel_of text ≡ Err WheelError.Memory → ⊥ }
    ensures sdist { (text : List ℕ) → sdist_of text ≡ Err SdistError.Memory → ⊥ }
{}

/// What [`Target::parse`](crate::Target::parse) reads, PYTHON and PLATFORM name, and what they
/// name, it reads. PYTHON is refused exactly where it names no CPython, and PLATFORM exactly where
/// PYTHON names one and PLATFORM names no platform.
pub fn target_of_is_the_answer()
    ensures sound { (python place : List ℕ) (target : TargetValue)
        → target_of python place ≡ Ok target → TargetText python place target }
    ensures complete { (python place : List ℕ) (target : TargetValue)
        → TargetText python place target → target_of python place ≡ Ok target }
    ensures no_python { (python place : List ℕ)
        → (target_of python place ≡ Err TargetError.Python) ↔ (IsPython python → ⊥) }
    ensures no_platform { (python place : List ℕ)
        → (target_of python place ≡ Err TargetError.Platform)
        ↔ (IsPython python × (IsPlatform place → ⊥)) }
{}

/// What [`Target::parse`](crate::Target::parse) reads is a target that there is, with a release and
/// a platform within their limits.
#[tactic(auto, using(crate::proofs::Lemmas::Target::Read::read_known))]
pub fn targets_are_known()
    ensures { (python platform : List ℕ) (target : TargetValue)
        → target_of python platform ≡ Ok target → is_target target ≡ true }
{}

/// The tags of a target are those that are compatible with it.
#[tactic(auto, using(crate::proofs::Lemmas::Target::Read::read_compatible))]
pub fn target_tags_are_the_compatible()
    ensures { (python platform : List ℕ) (target : TargetValue) (tag : TagValue)
        → target_of python platform ≡ Ok target
        → (is_among tag (target_tags target) ≡ true) ↔ IsCompatible target tag }
{}

/// No two tags of a target are equal: each has one rank.
#[tactic(auto, using(crate::proofs::Lemmas::Target::Read::read_distinct))]
pub fn target_tags_are_distinct()
    ensures { (python platform : List ℕ) (target : TargetValue)
        → target_of python platform ≡ Ok target → IsDistinct tag_eq (target_tags target) }
{}

/// Of the tags of a target those that are made for its own Python and ABI stand before all others,
/// so before what is made for an older release and for any (PEP 425, "Use").
#[tactic(auto, using(crate::proofs::Lemmas::Target::Own::own_before))]
pub fn own_tags_come_first()
    ensures { (target : TargetValue) (own other : TagValue)
        → is_among own (target_tags target) ≡ true → is_among other (target_tags target) ≡ true
        → IsOwn target.python own → (IsOwn target.python other → ⊥)
        → StandsBefore own other (target_tags target) }
{}

/// With a newer glibc, musl or macOS of the same machine, a Python takes what it took, in the same
/// order: a choice of a wheel is no worse there.
#[tactic(auto, using(crate::proofs::Lemmas::Target::Read::read_part))]
pub fn newer_platforms_take_more_tags()
    ensures { (python newer older : List ℕ) (target before : TargetValue)
        → target_of python newer ≡ Ok target → target_of python older ≡ Ok before
        → IsAtLeast target.platform before.platform
        → IsPart (target_tags before) (target_tags target) }
{}

/// The texts of the tags of a target are read as its list of tags.
#[tactic(auto, using(crate::proofs::Lemmas::Target::ReadBack::list_is_read))]
pub fn target_tags_are_read_back()
    ensures { (python platform : List ℕ) (target : TargetValue)
        → target_of python platform ≡ Ok target
        → tags_of (map tag_text (target_tags target)) ≡ Ok (target_tags target) }
{}
