//! What is found, and where.

ghost use Rattle.std.specs.Prelude.{◌≡◌, ◌++◌, ◌∷◌, [], IfOk, OnOk, option_map, string_bytes};
ghost use Rattle.std.specs.Option.{option_copied};
ghost use Rattle.pylock_audit.specs.Finding.{findings_at, findings_each, finding_of};
ghost use Rattle.pylock_audit.specs.Finding.{finding_where, shown_where};
ghost use Rattle.pylock_audit.specs.Words.{finding_word};

use pylock_shared::{LabelledText, SharedText, plain_text};
use pylock_shown::hidden;
use std::alloc::{AllocError, Global};
use std::marker::Model;

/// The kind of a finding, in the order in which those of one entry are told.
#[derive(Clone, Copy, Debug, PartialEq, Eq)]
pub enum FindingKind {
    /// The `lock-version` of the head isn't `1.0`.
    LockVersion,
    /// A key that PEP 751 doesn't name.
    UnknownKey,
    /// A key has another type than PEP 751 gives it.
    WrongType,
    /// The head has no key `packages`.
    NoPackages,
    /// A name, of an entry or an extra of the head, isn't its own normal form (PEP 503).
    NameForm,
    /// The version is none (PEP 440), or has a number past the limit.
    Version,
    /// The marker has the operand `extra`, which has no value in a lock.
    MarkerExtra,
    /// The marker compares a variable that installers read in two ways, as a text or a version.
    ReadingsDiffer,
    /// The marker asks for an extra or a group that the head doesn't declare.
    UndeclaredName,
    /// No source stands.
    NoSource,
    /// Sources of more than one kind stand.
    SeveralSources,
    /// A file has no hash.
    NoHash,
    /// No hash of a file is of a strong algorithm.
    WeakHash,
    /// A hash has a `,` or a `=`.
    OddHash,
    /// The value of a hash is none of its algorithm.
    BadHash,
    /// A wheel's file name can't be read (PEP 427), so it is never chosen.
    NoWheelName,
    /// An sdist's file name can't be read (PEP 625).
    NoSdistName,
    /// A file is of another package.
    OtherName,
    /// A file is of another version.
    OtherVersion,
    /// An earlier wheel has this file name too.
    SameFileName,
    /// A file name leaves its folder, or has a control character.
    UnsafeFileName,
    /// A path leaves the folder of the lock.
    OutsidePath,
    /// A subdirectory leaves its folder.
    UnsafeSubdirectory,
    /// A URL, of a source or of the index, isn't of HTTPS.
    NotHttps,
    /// A URL, of a source or of the index, names a user or a password.
    Credentials,
    /// The query of a URL has a password or a token.
    SecretInUrl,
    /// A commit isn't named by its hash.
    MovingCommit,
    /// A text has a control character.
    ControlCharacter,
    /// An earlier entry of its name and this one both stand in an environment of the lock.
    Clash,
    /// They weren't shown to exclude each other.
    MayClash,
    /// The entry stands in no environment of the lock.
    Never,
    /// It wasn't shown to stand in one.
    MayNever,
    /// Its `requires-python` doesn't admit a Python for which its marker asks for it.
    NarrowerPython,
    /// It wasn't shown that there is none.
    MayBeNarrower,
    /// An advisory affects the entry at its version.
    Vulnerable,
    /// The host of a source's URL is none of those that are asked for.
    OtherHost,
}

impl FindingKind {
    /// The word of the kind, as it is printed.
    pub fn word(self) -> &'static str
        ensures { result.now ≡ finding_word self }
    {
        match self {
            FindingKind::LockVersion => "lock-version",
            FindingKind::UnknownKey => "unknown-key",
            FindingKind::WrongType => "wrong-type",
            FindingKind::NoPackages => "no-packages",
            FindingKind::NameForm => "name-form",
            FindingKind::Version => "version",
            FindingKind::MarkerExtra => "marker-extra",
            FindingKind::ReadingsDiffer => "readings-differ",
            FindingKind::UndeclaredName => "undeclared-name",
            FindingKind::NoSource => "no-source",
            FindingKind::SeveralSources => "several-sources",
            FindingKind::NoHash => "no-hash",
            FindingKind::WeakHash => "weak-hash",
            FindingKind::OddHash => "odd-hash",
            FindingKind::BadHash => "bad-hash",
            FindingKind::NoWheelName => "no-wheel-name",
            FindingKind::NoSdistName => "no-sdist-name",
            FindingKind::OtherName => "other-name",
            FindingKind::OtherVersion => "other-version",
            FindingKind::SameFileName => "same-file-name",
            FindingKind::UnsafeFileName => "unsafe-file-name",
            FindingKind::OutsidePath => "outside-path",
            FindingKind::UnsafeSubdirectory => "unsafe-subdirectory",
            FindingKind::NotHttps => "not-https",
            FindingKind::Credentials => "credentials",
            FindingKind::SecretInUrl => "secret-in-url",
            FindingKind::MovingCommit => "moving-commit",
            FindingKind::ControlCharacter => "control-character",
            FindingKind::Clash => "clash",
            FindingKind::MayClash => "may-clash",
            FindingKind::Never => "never",
            FindingKind::MayNever => "may-never",
            FindingKind::NarrowerPython => "narrower-python",
            FindingKind::MayBeNarrower => "may-be-narrower",
            FindingKind::Vulnerable => "vulnerable",
            FindingKind::OtherHost => "other-host",
        }
    }
}

/// What is found: its kind, and what it names. Findings of the hashes of a file share what that is
/// called.
pub struct Finding {
    kind: FindingKind,
    detail: Option<LabelledText>,
}

impl Model for Finding {
    ghost use Rattle.pylock_audit.specs.Finding.{FindingValue, finding_of};

    ghost Value = { FindingValue };

    ghost view = { λ f. finding_of f.kind f.detail };
}

impl Drop for Finding {
    fn drop(self) {
        let Finding { kind: _, detail: _ } = self;
    }
}

impl Finding {
    /// The kind.
    pub fn kind(&self) -> FindingKind
        ensures { result ≡ self.now.kind }
    {
        self.kind
    }

    /// What it names, if it names something. Each text of the lock in it is shown without what
    /// opens a URL (`pylock_shown`).
    pub fn detail(&self) -> Option<&LabelledText>
        ensures { option_copied result ≡ self.now.detail }
    {
        self.detail.as_ref()
    }
}

/// A finding, and where it is. The findings of an entry share its name.
pub struct LockFinding {
    number: usize,
    name: Option<SharedText>,
    finding: Finding,
}

impl Model for LockFinding {
    ghost use Rattle.pylock_audit.specs.Finding.{LockFindingValue};

    ghost Value = { LockFindingValue };

    ghost view = { λ f. record {
      number = f.number;
      name = f.name;
      finding = f.finding;
    } };
}

impl Drop for LockFinding {
    fn drop(self) {
        let LockFinding {
            number: _,
            name: _,
            finding: _,
        } = self;
    }
}

impl LockFinding {
    /// A finding of the entry of this number, or of the head. The texts are moved: it takes no
    /// memory.
    pub fn new(
        number: usize,
        name: Option<SharedText>,
        kind: FindingKind,
        detail: Option<LabelledText>,
    ) -> LockFinding
        ensures { result ≡ record {
          number = number;
          name = name;
          finding = finding_of kind detail;
        } }
    {
        let finding = Finding { kind, detail };
        LockFinding {
            number,
            name,
            finding,
        }
    }

    /// The number of the entry, from 1; of the head it is 0.
    pub fn number(&self) -> usize
        ensures { result ≡ self.now.number }
    {
        self.number
    }

    /// The name of the entry in normal form; the head has none.
    pub fn name(&self) -> Option<&str>
        ensures { option_copied result ≡ self.now.name }
    {
        match &self.name {
            Some(name) => Some(name.as_str()),
            None => None,
        }
    }

    /// What is found.
    pub fn finding(&self) -> &Finding
        ensures { result.now ≡ self.now.finding }
    {
        &self.finding
    }
}

/// A text of the lock as it is shown, where it counts.
pub(crate) fn shown_where(
    alloc: Global,
    counts: bool,
    text: &str,
) -> Result<Vec<LabelledText>, AllocError>
    ensures { IfOk result (λ list. list.items ≡ shown_where counts text.now) }
{
    let mut list = Vec::new(alloc);
    if counts {
        push_plain(&mut list, hidden(alloc, text)?)?;
    }
    Ok(list)
}

/// Adds a detail without a label.
pub(crate) fn push_plain(list: &mut Vec<LabelledText>, text: String) -> Result<(), AllocError>
    ensures { OnOk result (list.new.items ≡ list.old.items ++ string_bytes text ∷ []) }
{
    list.push(LabelledText::plain(text))?;
    Ok(())
}

/// Adds a finding, where it stands.
pub(crate) fn push_where(
    findings: &mut Vec<Finding>,
    stands: bool,
    kind: FindingKind,
    detail: Option<String>,
) -> Result<(), AllocError>
    ensures { OnOk result (findings.new.items ≡ findings.old.items
        ++ finding_where stands kind (option_map string_bytes detail)) }
{
    if stands {
        let detail = plain_text(detail);
        findings.push(Finding { kind, detail })?;
    }
    Ok(())
}

/// Adds a finding of this kind for each of these details.
pub(crate) fn push_each(
    findings: &mut Vec<Finding>,
    kind: FindingKind,
    details: Vec<LabelledText>,
) -> Result<(), AllocError>
    ensures { OnOk result (findings.new.items
        ≡ findings.old.items ++ findings_each kind details.items) }
{
    for detail in details {
        findings.push(Finding {
            kind,
            detail: Some(detail),
        })?;
    }
    Ok(())
}

/// Adds the findings of the head or of an entry, whose name is copied once.
pub(crate) fn push_findings_at(
    alloc: Global,
    found: &mut Vec<LockFinding>,
    number: usize,
    name: Option<&str>,
    findings: Vec<Finding>,
) -> Result<(), AllocError>
    ensures { OnOk result (found.new.items ≡ found.old.items
        ++ findings_at number (option_copied name.entry) findings.items) }
{
    match name {
        Some(name) if !findings.is_empty() => {
            push_shared(
                found,
                number,
                Some(&SharedText::copy_of(alloc, name)?),
                findings,
            )
        }
        _ => push_shared(found, number, None, findings),
    }
}

/// Adds findings with a name that they share.
fn push_shared(
    found: &mut Vec<LockFinding>,
    number: usize,
    name: Option<&SharedText>,
    findings: Vec<Finding>,
) -> Result<(), AllocError>
    ensures { OnOk result (found.new.items ≡ found.old.items
        ++ findings_at number (option_copied name.entry) findings.items) }
{
    for finding in findings {
        let name = match name {
            Some(name) => Some(name.clone()?),
            None => None,
        };
        found.push(LockFinding {
            number,
            name,
            finding,
        })?;
    }
    Ok(())
}
