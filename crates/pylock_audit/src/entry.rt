//! What an entry of a lock gives to each kind of finding.

ghost use Rattle.std.specs.Prelude.{◌≡◌, ◌++◌, IfOk, OnOk, map};
ghost use Rattle.std.specs.Result.{is_err};
ghost use Rattle.pyver_core.specs.Parsed.{parsed_version};
ghost use Rattle.pylock_core.specs.Session.Picks.{lent_named};
ghost use Rattle.pylock_audit.specs.Entry.{controlled_version, entry_findings, of_controls};
ghost use Rattle.pylock_audit.specs.Entry.{of_hashes, of_kinds, of_marker, of_sources, over};
ghost use Rattle.pylock_audit.specs.Entry.{refused_version};

use crate::files::push_file_names;
use crate::finding::{Finding, FindingKind, push_each, push_plain, push_where, shown_where};
use crate::marker::push_marker;
use crate::scope::Scope;
use crate::source::over_sources;
use crate::tables::TableFindings;
use pylock_core::{Entry, Head, NamedSource, sources};
use pylock_places::joined;
use pylock_shared::LabelledText;
use pylock_shown::{has_control, hidden};
use pyver_core::{Version, VersionError};
use std::alloc::{AllocError, Global};

/// The findings of an entry that are asked for, with what its table gave.
pub(crate) fn entry_findings(
    alloc: Global,
    asked: Scope,
    head: &Head,
    table: TableFindings,
    entry: &Entry,
) -> Result<Vec<Finding>, AllocError>
    ensures { IfOk result (λ findings. findings.items
        ≡ entry_findings asked head.now table entry.now) }
{
    let sources = sources(alloc, entry)?;
    let list = sources.as_slice();
    let (told, not_https, credentials) = table.into_parts();
    let mut findings = told;
    let versions = refused_version(alloc, entry)?;
    push_each(&mut findings, FindingKind::Version, versions)?;
    push_marker(alloc, &mut findings, head, entry)?;
    push_kinds(alloc, &mut findings, entry)?;
    push_hashes(alloc, &mut findings, asked, list)?;
    push_file_names(alloc, &mut findings, entry)?;
    push_sources(alloc, &mut findings, asked, not_https, credentials, list)?;
    push_controls(alloc, &mut findings, asked, list, entry)?;
    Ok(findings)
}

/// The version, where it is none.
fn refused_version(alloc: Global, entry: &Entry) -> Result<Vec<LabelledText>, AllocError>
    ensures { IfOk result (λ list. list.items ≡ refused_version entry.now) }
{
    let Some(version) = entry.version() else {
        return Ok(Vec::new(alloc));
    };
    shown_where(alloc, is_refused(alloc, version)?, version)
}

fn is_refused(alloc: Global, version: &str) -> Result<bool, AllocError>
    ensures { IfOk result (λ refused. refused ≡ is_err (parsed_version version.now)) }
{
    match Version::parse(alloc, version) {
        Ok(_) => Ok(false),
        Err(VersionError::Memory) => Err(AllocError),
        Err(_) => Ok(true),
    }
}

/// Adds what the kinds of its sources give.
fn push_kinds(alloc: Global, findings: &mut Vec<Finding>, entry: &Entry) -> Result<(), AllocError>
    ensures { OnOk result (findings.new.items ≡ findings.old.items ++ of_kinds entry.now) }
{
    push_where(findings, !entry.has_source(), FindingKind::NoSource, None)?;
    if entry.has_conflict() {
        let kinds = entry.kinds_text(alloc)?;
        push_where(findings, true, FindingKind::SeveralSources, Some(kinds))?;
    }
    Ok(())
}

/// Adds what each of the sources gives to a kind of finding, where that is asked for.
fn push_over(
    alloc: Global,
    findings: &mut Vec<Finding>,
    asked: Scope,
    kind: FindingKind,
    sources: &[NamedSource<'_>],
) -> Result<(), AllocError>
    ensures { OnOk result (findings.new.items
        ≡ findings.old.items ++ over asked kind (map lent_named sources.now)) }
{
    if asked.wants(kind) {
        push_each(findings, kind, over_sources(alloc, kind, sources)?)?;
    }
    Ok(())
}

/// Adds what the hashes of its sources give.
fn push_hashes(
    alloc: Global,
    findings: &mut Vec<Finding>,
    asked: Scope,
    sources: &[NamedSource<'_>],
) -> Result<(), AllocError>
    ensures { OnOk result (findings.new.items
        ≡ findings.old.items ++ of_hashes asked (map lent_named sources.now)) }
{
    push_over(alloc, findings, asked, FindingKind::NoHash, sources)?;
    push_over(alloc, findings, asked, FindingKind::WeakHash, sources)?;
    push_over(alloc, findings, asked, FindingKind::OddHash, sources)?;
    push_over(alloc, findings, asked, FindingKind::BadHash, sources)
}

/// Adds what its index gave, and what its sources give by their names, paths, URLs and commits.
fn push_sources(
    alloc: Global,
    findings: &mut Vec<Finding>,
    asked: Scope,
    not_https: Vec<LabelledText>,
    credentials: Vec<LabelledText>,
    sources: &[NamedSource<'_>],
) -> Result<(), AllocError>
    ensures { OnOk result (findings.new.items ≡ findings.old.items
        ++ of_sources asked not_https.items credentials.items (map lent_named sources.now)) }
{
    push_over(alloc, findings, asked, FindingKind::UnsafeFileName, sources)?;
    push_over(alloc, findings, asked, FindingKind::OutsidePath, sources)?;
    push_over(
        alloc,
        findings,
        asked,
        FindingKind::UnsafeSubdirectory,
        sources,
    )?;
    push_each(findings, FindingKind::NotHttps, not_https)?;
    push_over(alloc, findings, asked, FindingKind::NotHttps, sources)?;
    push_each(findings, FindingKind::Credentials, credentials)?;
    push_over(alloc, findings, asked, FindingKind::Credentials, sources)?;
    push_over(alloc, findings, asked, FindingKind::SecretInUrl, sources)?;
    push_over(alloc, findings, asked, FindingKind::MovingCommit, sources)
}

/// Adds its texts that have a control character.
fn push_controls(
    alloc: Global,
    findings: &mut Vec<Finding>,
    asked: Scope,
    sources: &[NamedSource<'_>],
    entry: &Entry,
) -> Result<(), AllocError>
    ensures { OnOk result (findings.new.items
        ≡ findings.old.items ++ of_controls asked entry.now (map lent_named sources.now)) }
{
    let versions = controlled_version(alloc, entry)?;
    push_each(findings, FindingKind::ControlCharacter, versions)?;
    push_over(
        alloc,
        findings,
        asked,
        FindingKind::ControlCharacter,
        sources,
    )
}

/// The version with its path, where it has a control character.
fn controlled_version(alloc: Global, entry: &Entry) -> Result<Vec<LabelledText>, AllocError>
    ensures { IfOk result (λ list. list.items ≡ controlled_version entry.now) }
{
    let mut list = Vec::new(alloc);
    match entry.version() {
        Some(version) if has_control(version) => {
            let version = hidden(alloc, version)?;
            push_plain(&mut list, joined(alloc, "version ", version.as_str())?)?;
        }
        _ => {}
    }
    Ok(list)
}
