//! What is found of a lock in every environment that it is for, as findings of an audit.

ghost use Rattle.std.specs.Prelude.{◌≡◌, ◌-◌, IfOk, option_map, slice_get};
ghost use Rattle.pylock_findings.specs.Environments.{AreEnvironmentLines, AreLines, IsLine};
ghost use Rattle.pylock_findings.specs.Environments.{kind_of};

use pylock_audit::{FindingKind, LockFinding};
use pylock_core::{Entry, Lock};
use pylock_environments::{EnvironmentFinding, Found, detail, environment_findings};
use pylock_shared::{SharedText, plain_text};
use std::alloc::{AllocError, Global};

/// What is found of the entries of a lock in every environment that its head admits, in the order
/// of the entries: entries of one name that stand together, entries that never stand, and entries
/// whose `requires-python` is narrower than their markers.
///
/// It takes the memory of [`environment_findings`], and for each finding the name of its entry and
/// its detail.
pub fn environment_lines(alloc: Global, lock: &Lock) -> Result<Vec<LockFinding>, AllocError>
    ensures { IfOk result (λ lines. AreEnvironmentLines lock.now lines.items) }
{
    let findings = environment_findings(alloc, lock.head(), lock.entries())?;
    lines_of(alloc, lock.entries(), &findings)
}

/// The line of each finding.
fn lines_of(
    alloc: Global,
    entries: &[Entry],
    findings: &[EnvironmentFinding],
) -> Result<Vec<LockFinding>, AllocError>
    ensures { IfOk result (λ lines. AreLines entries.now findings.now lines.items) }
{
    let mut lines = Vec::with_capacity(alloc, findings.len())?;
    for finding in findings {
        lines.push(line_of(alloc, entries, finding)?)?;
    }
    Ok(lines)
}

/// The line of a finding, with the name of its entry.
fn line_of(
    alloc: Global,
    entries: &[Entry],
    finding: &EnvironmentFinding,
) -> Result<LockFinding, AllocError>
    ensures { IfOk result (IsLine entries.now finding.now) }
{
    let name = name_at(alloc, entries, finding.entry)?;
    let text = plain_text(detail(alloc, &finding.found)?);
    let kind = kind_of(&finding.found);
    Ok(LockFinding::new(finding.entry, name, kind, text))
}

/// A copy of the name of the entry of a number, from 1.
fn name_at(
    alloc: Global,
    entries: &[Entry],
    number: usize,
) -> Result<Option<SharedText>, AllocError>
    ensures { IfOk result (λ name. name
        ≡ option_map (λ entry. entry.name) (slice_get entries.now (number - 1))) }
{
    match entries.get(number.saturating_sub(1)) {
        Some(entry) => Ok(Some(SharedText::copy_of(alloc, entry.name())?)),
        None => Ok(None),
    }
}

/// The kind that tells what is found.
fn kind_of(found: &Found) -> FindingKind
    ensures { result ≡ kind_of found.now }
{
    match found {
        Found::Clash { .. } => FindingKind::Clash,
        Found::MayClash { .. } => FindingKind::MayClash,
        Found::Never => FindingKind::Never,
        Found::MayNever => FindingKind::MayNever,
        Found::NarrowerPython { .. } => FindingKind::NarrowerPython,
        Found::MayBeNarrower => FindingKind::MayBeNarrower,
    }
}
