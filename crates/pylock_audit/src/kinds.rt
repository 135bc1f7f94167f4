//! All kinds of findings, and the kind that a word names.

ghost use Rattle.std.specs.Prelude.{◌≡◌};
ghost use Rattle.pylock_audit.specs.Kinds.{is_same_kind, kind_of_word, kinds};

use crate::finding::FindingKind;

impl FindingKind {
    /// All kinds, in the order in which those of one entry are told.
    pub fn all() -> &'static [FindingKind]
        ensures { result.now ≡ kinds }
    {
        &[
            FindingKind::LockVersion,
            FindingKind::UnknownKey,
            FindingKind::WrongType,
            FindingKind::NoPackages,
            FindingKind::NameForm,
            FindingKind::Version,
            FindingKind::MarkerExtra,
            FindingKind::ReadingsDiffer,
            FindingKind::UndeclaredName,
            FindingKind::NoSource,
            FindingKind::SeveralSources,
            FindingKind::NoHash,
            FindingKind::WeakHash,
            FindingKind::OddHash,
            FindingKind::BadHash,
            FindingKind::NoWheelName,
            FindingKind::NoSdistName,
            FindingKind::OtherName,
            FindingKind::OtherVersion,
            FindingKind::SameFileName,
            FindingKind::UnsafeFileName,
            FindingKind::OutsidePath,
            FindingKind::UnsafeSubdirectory,
            FindingKind::NotHttps,
            FindingKind::Credentials,
            FindingKind::SecretInUrl,
            FindingKind::MovingCommit,
            FindingKind::ControlCharacter,
            FindingKind::Clash,
            FindingKind::MayClash,
            FindingKind::Never,
            FindingKind::MayNever,
            FindingKind::NarrowerPython,
            FindingKind::MayBeNarrower,
            FindingKind::Vulnerable,
            FindingKind::OtherHost,
        ]
    }

    /// The kind whose [`word`](FindingKind::word) this is. It takes no memory.
    pub fn of_word(word: &str) -> Option<FindingKind>
        ensures { result ≡ kind_of_word word.now }
    {
        FindingKind::all()
            .iter()
            .copied()
            .find(|kind| kind.word() == word)
    }

    /// Whether the kinds are the same.
    #[tactic(auto, using(crate::proofs::KindLemmas::same_is))]
    pub fn is_same(self, other: FindingKind) -> bool
        ensures { result ≡ is_same_kind self other }
    {
        self == other
    }
}
