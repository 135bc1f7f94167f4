//! A strict reading: a lock in which nothing is found by which installers may differ.

ghost use Rattle.std.specs.Prelude.{◌≡◌, Ok};
ghost use Rattle.pytext.specs.Agreement.{Gives};
ghost use Rattle.pylock_audit.specs.Strict.{strict_findings, strict_lock_of, unless_found};
ghost use Rattle.pylock_audit.specs.Words.{is_refused};
ghost use Rattle.pylock_audit.specs.declared.strict.StrictError.TheVariants.{Memory};

use crate::finding::{FindingKind, LockFinding};
use crate::findings::audited_bytes;
use crate::scope::Scope;
use pylock_core::{Lock, LockError};
use std::alloc::Global;
use std::marker::Model;

/// Findings of a lock, in their order; made from a `Vec` without memory. Contracts see their list.
pub struct Findings {
    found: Vec<LockFinding>,
}

impl Model for Findings {
    ghost use Rattle.std.specs.Prelude.{List};
    ghost use Rattle.pylock_audit.specs.Finding.{LockFindingValue};

    ghost Value = { List LockFindingValue };

    ghost view = { λ f. f.found.items };
}

impl Drop for Findings {
    fn drop(self) {
        let Findings { found: _ } = self;
    }
}

impl Findings {
    /// These findings.
    pub fn new(found: Vec<LockFinding>) -> Findings
        ensures { result ≡ found.items }
    {
        Findings { found }
    }

    /// The findings, in their order.
    pub fn as_slice(&self) -> &[LockFinding]
        ensures { result.now ≡ self.now }
    {
        self.found.as_slice()
    }
}

/// Why a strict reading gives no lock.
#[derive(Drop)]
pub enum StrictError {
    /// The lock is refused.
    Lock(LockError),
    /// It is valid, and these are found in it, of which there is at least one.
    Findings(Findings),
    /// An allocation was refused.
    Memory,
}

impl FindingKind {
    /// Whether a strict reading refuses a lock in which this is found: by such findings one
    /// installer may differ from another.
    pub fn is_refused_by_strict(self) -> bool
        ensures { result ≡ is_refused self }
    {
        matches!(
            self,
            FindingKind::WrongType
                | FindingKind::NoPackages
                | FindingKind::NameForm
                | FindingKind::Version
                | FindingKind::MarkerExtra
                | FindingKind::NoSource
                | FindingKind::SeveralSources
                | FindingKind::NoHash
                | FindingKind::NoWheelName
                | FindingKind::NoSdistName
                | FindingKind::OtherName
                | FindingKind::OtherVersion
        )
    }
}

/// Reads a lock strictly: it is given only where nothing is found in it that a strict reading
/// refuses ([`FindingKind::is_refused_by_strict`]). A lock that [`Lock::read`] refuses is refused
/// as there, first.
///
/// It takes the memory of [`read_audited`] but for what isn't refused and stands beside a file or a
/// URL: so it takes no more than a few times that of the lock, however long the names in it are.
#[tactic(auto, using(crate::proofs::StrictLemmas::strict_alone))]
pub fn read_strict(alloc: Global, bytes: &[u8]) -> Result<Lock, StrictError>
    ensures { Gives Memory (λ lock. lock) result (strict_lock_of bytes.now) }
{
    match audited_bytes(alloc, Scope::Refused, bytes) {
        Ok((lock, found)) => lock_unless_found(lock, found),
        Err(LockError::Memory) => Err(StrictError::Memory),
        Err(error) => Err(StrictError::Lock(error)),
    }
}

/// The lock, unless one of the findings is refused; then those that are.
fn lock_unless_found(lock: Lock, found: Vec<LockFinding>) -> Result<Lock, StrictError>
    ensures { result ≡ unless_found (strict_findings found.items) (Ok lock) }
{
    let mut found = found;
    keep_refused(&mut found);
    if found.is_empty() {
        Ok(lock)
    } else {
        Err(StrictError::Findings(Findings::new(found)))
    }
}

/// Leaves of the findings those that a strict reading refuses.
fn keep_refused(found: &mut Vec<LockFinding>)
    ensures { found.new.items ≡ strict_findings found.old.items }
{
    found.retain(|one| one.finding().kind().is_refused_by_strict());
}
