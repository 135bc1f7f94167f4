//! Which findings count, and which of them fail an audit.

ghost use Rattle.std.specs.Prelude.{◌≡◌, IfOk, filter, length, not, option_map};
ghost use Rattle.std.specs.List.{list_any};
ghost use Rattle.std.specs.Option.{option_copied};
ghost use Rattle.pytext.specs.Agreement.{Gives};
ghost use Rattle.pywheel_core.specs.Texts.{pieces_at};
ghost use Rattle.pylock_audit.specs.Kinds.{is_same_kind};
ghost use Rattle.pylock_findings.specs.Texts.{lent_texts};
ghost use Rattle.pylock_findings.specs.Policy.{all_ignored_of, counted, fail_on_of, fails};
ghost use Rattle.pylock_findings.specs.Policy.{ignored_at, ignored_of, ignores, is_ignored};
ghost use Rattle.pylock_findings.specs.Policy.{is_of_package};
ghost use Rattle.pylock_findings.specs.Policy.{kind_named, kinds_named, policy_of, status};
ghost use Rattle.pylock_findings.specs.declared.policy.PolicyError.TheVariants as refused;

use pylock_audit::{FindingKind, LockFinding};
use pylock_shown::around;
use pytext::Text;
use pyver_core::{NormalName, is_name};
use std::alloc::{AllocError, Global};
use std::marker::Model;

/// What is ignored: findings of this kind, all or those of one package.
#[derive(Drop)]
pub struct Ignored {
    /// The kind.
    pub kind: FindingKind,
    /// The package, if it is of one alone.
    pub name: Option<NormalName>,
}

/// Which findings count, and which of them fail an audit.
pub struct Policy {
    fail_on: Option<Vec<FindingKind>>,
    ignored: Vec<Ignored>,
}

impl Model for Policy {
    ghost use Rattle.std.specs.Prelude.{option_map};
    ghost use Rattle.pylock_findings.specs.Policy.{PolicyValue};

    ghost Value = { PolicyValue };

    ghost view = { λ p. record {
      fail_on = option_map (λ kinds. kinds.items) p.fail_on;
      ignored = p.ignored.items;
    } };
}

impl Drop for Policy {
    fn drop(self) {
        let Policy {
            fail_on: _,
            ignored: _,
        } = self;
    }
}

/// Why words say no policy.
#[derive(Debug, Drop)]
pub enum PolicyError {
    /// This is the word of no finding.
    UnknownFinding(Text),
    /// This is the name of no package.
    NoName(Text),
    /// Memory ran out.
    Memory,
}

impl<E: Into<AllocError> + Drop> From<E> for PolicyError {
    ghost from_gives = { λ _ e. e ≡ refused.Memory };

    fn from(_refused: E) -> PolicyError {
        PolicyError::Memory
    }
}

impl Policy {
    /// The policy that words say: `fail_on` the words of findings with `,` between them, without
    /// which each finding that counts fails; each of `ignored` the word of one, or `WORD:NAME` for
    /// one package, whose name is compared in normal form (PEP 503).
    ///
    /// The first word or name that is none is refused, `fail_on` first. It takes memory for the
    /// policy, or a copy of what is refused.
    pub fn read(
        alloc: Global,
        fail_on: Option<&str>,
        ignored: &[&str],
    ) -> Result<Policy, PolicyError>
        ensures { Gives PolicyError.Memory (λ policy. policy) result
            (policy_of (option_copied fail_on.entry) (lent_texts ignored.now)) }
    {
        let fail_on = fail_on_of(alloc, fail_on)?;
        let ignored = all_ignored_of(alloc, ignored)?;
        Ok(Policy { fail_on, ignored })
    }

    /// Whether the finding is ignored.
    fn is_ignored(&self, one: &LockFinding) -> bool
        ensures { result ≡ is_ignored self.now one.now }
    {
        self.ignored.iter().any(|ignored| ignores(one, ignored))
    }

    /// The findings that count, in their order, and how many are ignored. It takes no memory.
    pub fn counted(&self, found: Vec<LockFinding>) -> (Vec<LockFinding>, usize)
        ensures { (result.0.items, result.1) ≡ counted self.now found.items }
    {
        let ignored = self.ignored_count(&found);
        let mut found = found;
        self.keep_counted(&mut found);
        (found, ignored)
    }

    fn ignored_count(&self, found: &[LockFinding]) -> usize
        ensures { result ≡ length (filter (is_ignored self.now) found.now) }
    {
        found.iter().filter(|one| self.is_ignored(one)).count()
    }

    /// Leaves the findings that count.
    fn keep_counted(&self, found: &mut Vec<LockFinding>)
        ensures { found.new.items ≡ filter (λ one. not (is_ignored self.now one)) found.old.items }
    {
        found.retain(|one| !self.is_ignored(one));
    }

    /// Whether a finding of this kind fails an audit, if it counts.
    pub fn fails(&self, kind: FindingKind) -> bool
        ensures { result ≡ fails self.now kind }
    {
        match &self.fail_on {
            Some(kinds) => is_among(kind, kinds),
            None => true,
        }
    }

    /// The status of an audit with these findings: 1 where one of them fails it, else 0.
    pub fn status(&self, found: &[LockFinding]) -> u8
        ensures { result ≡ status self.now found.now }
    {
        if self.any_fails(found) { 1 } else { 0 }
    }

    fn any_fails(&self, found: &[LockFinding]) -> bool
        ensures { result ≡ list_any (λ one. fails self.now one.finding.kind) found.now }
    {
        found.iter().any(|one| self.fails(one.finding().kind()))
    }
}

// ---- what words say

/// The kinds that fail an audit, if words say which.
fn fail_on_of(alloc: Global, text: Option<&str>) -> Result<Option<Vec<FindingKind>>, PolicyError>
    ensures { Gives PolicyError.Memory (λ kinds. option_map (λ list. list.items) kinds) result
        (fail_on_of (option_copied text.entry)) }
{
    match text {
        Some(text) => {
            let words = pieces(alloc, text)?;
            Ok(Some(kinds_named(alloc, &words)?))
        }
        None => Ok(None),
    }
}

/// What stands between each `,`.
fn pieces(alloc: Global, text: &str) -> Result<Vec<&str>, AllocError>
    ensures { IfOk result (λ pieces. lent_texts pieces.items ≡ pieces_at 44 text.now) }
{
    text.split(',').collect(alloc)
}

fn kinds_named(alloc: Global, words: &[&str]) -> Result<Vec<FindingKind>, PolicyError>
    ensures { Gives PolicyError.Memory (λ kinds. kinds.items) result
        (kinds_named (lent_texts words.now)) }
{
    let mut kinds = Vec::new(alloc);
    for word in words {
        kinds.push(kind_named(alloc, word)?)?;
    }
    Ok(kinds)
}

/// The kind that the word names.
fn kind_named(alloc: Global, word: &str) -> Result<FindingKind, PolicyError>
    ensures { Gives PolicyError.Memory (λ kind. kind) result (kind_named word.now) }
{
    match FindingKind::of_word(word) {
        Some(kind) => Ok(kind),
        None => Err(PolicyError::UnknownFinding(Text::copy_of(alloc, word)?)),
    }
}

fn all_ignored_of(alloc: Global, texts: &[&str]) -> Result<Vec<Ignored>, PolicyError>
    ensures { Gives PolicyError.Memory (λ all. all.items) result
        (all_ignored_of (lent_texts texts.now)) }
{
    let mut all = Vec::new(alloc);
    for text in texts {
        all.push(ignored_of(alloc, text)?)?;
    }
    Ok(all)
}

/// What `WORD` or `WORD:NAME` says.
fn ignored_of(alloc: Global, text: &str) -> Result<Ignored, PolicyError>
    ensures { Gives PolicyError.Memory (λ ignored. ignored) result (ignored_of text.now) }
{
    match around(text, b':') {
        Some((word, name)) => {
            let kind = kind_named(alloc, word)?;
            ignored_at(alloc, name, kind)
        }
        None => Ok(Ignored {
            kind: kind_named(alloc, text)?,
            name: None,
        }),
    }
}

/// What is found of one package.
fn ignored_at(alloc: Global, name: &str, kind: FindingKind) -> Result<Ignored, PolicyError>
    ensures { Gives PolicyError.Memory (λ ignored. ignored) result (ignored_at name.now kind) }
{
    if is_name(name) {
        let name = Some(NormalName::new(alloc, name)?);
        Ok(Ignored { kind, name })
    } else {
        Err(PolicyError::NoName(Text::copy_of(alloc, name)?))
    }
}

// ---- what counts

fn ignores(one: &LockFinding, ignored: &Ignored) -> bool
    ensures { result ≡ ignores one.now ignored.now }
{
    one.finding().kind().is_same(ignored.kind) && is_of_package(ignored.name.as_ref(), one.name())
}

/// Whether what is found under a name is of the package, where one is named.
fn is_of_package(name: Option<&NormalName>, found: Option<&str>) -> bool
    ensures { result ≡ is_of_package (option_copied name.entry) (option_copied found.entry) }
{
    match (name, found) {
        (Some(name), Some(found)) => name.as_str() == found,
        (Some(_), None) => false,
        (None, _) => true,
    }
}

fn is_among(kind: FindingKind, kinds: &[FindingKind]) -> bool
    ensures { result ≡ list_any (is_same_kind kind) kinds.now }
{
    kinds.iter().any(|other| kind.is_same(*other))
}
