//! The findings of a lock.

ghost use Rattle.std.specs.Prelude.{◌≡◌, ◌++◌, IfOk, OnOk, Result, Some, codes};
ghost use Rattle.toml.specs.Data.{Items};
ghost use Rattle.toml.specs.View.{items_view, table_view, view};
ghost use Rattle.pytext.specs.Agreement.{Gives};
ghost use Rattle.pytoml.specs.Members.{with_elements};
ghost use Rattle.pylock_readers.specs.Lock.{LockValue};
ghost use Rattle.pylock_readers.specs.Lock.Packages.{HasRead};
ghost use Rattle.pylock_readers.specs.Lock.Reading.{document_in};
ghost use Rattle.pylock_readers.specs.declared.error.LockError.{LockError};
ghost use Rattle.pylock_audit.specs.Audit.{audited_of, findings_of, head_findings_where};
ghost use Rattle.pylock_audit.specs.Audit.{of_entries, other_form_of, other_forms};
ghost use Rattle.pylock_audit.specs.Audit.{other_lock_version};
ghost use Rattle.pylock_audit.specs.Entry.{entry_findings};
ghost use Rattle.pylock_audit.specs.Finding.{findings_at};
ghost use Rattle.pylock_audit.specs.Inner.Tables.{HasLooked, audited_from, document_audited};
ghost use Rattle.pylock_audit.specs.Inner.Tables.{has_no_packages, tables_after, tables_in};
ghost use Rattle.pylock_audit.specs.Inner.Tables.{with_findings};

use crate::entry::entry_findings;
use crate::finding::{
    Finding, FindingKind, LockFinding, push_each, push_findings_at, push_plain, push_where,
    shown_where,
};
use crate::keys::{LockTable, field, items_at, push_unknown, text_at};
use crate::scope::Scope;
use crate::tables::{Looked, TableFindings, is_other_form, table_findings};
use crate::types::push_wrong_types;
use pylock_core::{Entry, Head, Lock, LockError};
use pylock_readers::{MOST_ENTRIES, read_document_without};
use pylock_shared::LabelledText;
use pylock_shown::hidden;
use std::alloc::{AllocError, Global};
use toml::{Table, Value};

/// What a careful reader of the lock would want to be told, though the lock is valid: the findings
/// of its head, and then those of its entries in order (PEP 751). The refusals are those of
/// [`Lock::read`].
///
/// It takes the memory of [`read_audited`].
pub fn audit(alloc: Global, bytes: &[u8]) -> Result<Vec<LockFinding>, LockError>
    ensures { Gives LockError.Memory (λ found. found.items) result (findings_of bytes.now) }
{
    let (_lock, found) = read_audited(alloc, bytes)?;
    Ok(found)
}

/// The lock, and its findings as [`audit`] gives them. The refusals are those of [`Lock::read`].
///
/// The bytes are read once, and what a table of an entry alone tells is taken from it before it
/// becomes the entry. It takes the memory of [`Lock::read`], and memory for a list with a member
/// for each entry, for the text of each finding, and for lists of the sources and the comparisons
/// of one entry at a time.
pub fn read_audited(alloc: Global, bytes: &[u8]) -> Result<(Lock, Vec<LockFinding>), LockError>
    ensures both { Gives LockError.Memory (λ audited. (audited.0, audited.1.items)) result
        (audited_of bytes.now) }
    ensures found { Gives LockError.Memory (λ audited. audited.1.items) result
        (findings_of bytes.now) }
{
    audited_bytes(alloc, Scope::All, bytes)
}

/// The lock, and those of its findings that are asked for, by what the document gives.
pub(crate) fn audited_bytes(
    alloc: Global,
    asked: Scope,
    bytes: &[u8],
) -> Result<(Lock, Vec<LockFinding>), LockError>
    ensures { Gives LockError.Memory (λ audited. (audited.0, audited.1.items)) result
        (audited_from asked (document_in bytes.now)) }
{
    match read_document_without(alloc, bytes, Looked::new(alloc))? {
        (document, Some(looked)) => audited(alloc, asked, document, looked),
        (document, None) => audited_document(alloc, asked, document),
    }
}

/// The lock of a whole document, with its findings.
fn audited_document(
    alloc: Global,
    asked: Scope,
    document: Table,
) -> Result<(Lock, Vec<LockFinding>), LockError>
    ensures { Gives LockError.Memory (λ audited. (audited.0, audited.1.items)) result
        (document_audited asked (table_view document)) }
{
    audited(alloc, asked, document, Looked::new(alloc))
}

/// The lock of a document from which the tables of entries were taken, with its findings.
fn audited(
    alloc: Global,
    asked: Scope,
    document: Table,
    looked: Looked,
) -> Result<(Lock, Vec<LockFinding>), LockError>
    ensures { (taken : Items) → HasRead looked.packages taken
        → HasLooked looked.tables.items taken
        → Gives LockError.Memory (λ audited. (audited.0, audited.1.items)) result
        (document_audited asked (with_elements (codes "packages") taken (table_view document))) }
{
    let (packages, tables) = looked.into_parts();
    let is_absent = has_no_packages(&tables, &document);
    let head = head_findings(alloc, &document, is_absent)?;
    let tables = tables_after(alloc, tables, &document)?;
    with_findings(
        alloc,
        asked,
        head,
        tables,
        packages.into_lock(alloc, document),
    )
}

/// Whether the document names no packages, where these tables were taken from it.
fn has_no_packages(tables: &[TableFindings], document: &Table) -> bool
    ensures { result ≡ has_no_packages tables.now (table_view document.now) }
{
    tables.is_empty() && field(document, "packages").is_none()
}

/// What the tables gave; where none was taken, those that stand in the document.
fn tables_after(
    alloc: Global,
    tables: Vec<TableFindings>,
    document: &Table,
) -> Result<Vec<TableFindings>, AllocError>
    ensures { IfOk result (λ after. after.items
        ≡ tables_after tables.items (table_view document.now)) }
{
    if tables.is_empty() {
        tables_in(alloc, document)
    } else {
        Ok(tables)
    }
}

/// The lock with its findings, where it isn't refused.
fn with_findings(
    alloc: Global,
    asked: Scope,
    head: Vec<Finding>,
    tables: Vec<TableFindings>,
    lock: Result<Lock, LockError>,
) -> Result<(Lock, Vec<LockFinding>), LockError>
    ensures { (known : Result LockValue LockError) → Gives LockError.Memory (λ l. l) lock known
        → Gives LockError.Memory (λ audited. (audited.0, audited.1.items)) result
        (with_findings asked head.items tables.items known) }
{
    let lock = lock?;
    let mut found = Vec::new(alloc);
    push_findings_at(alloc, &mut found, 0, None, head)?;
    push_entries(alloc, &mut found, asked, &lock, tables)?;
    Ok((lock, found))
}

// ---- the head

/// The findings of the head.
fn head_findings(
    alloc: Global,
    document: &Table,
    has_no_packages: bool,
) -> Result<Vec<Finding>, AllocError>
    ensures { IfOk result (λ findings. findings.items
        ≡ head_findings_where has_no_packages (table_view document.now)) }
{
    let mut findings = Vec::new(alloc);
    let versions = other_lock_version(alloc, document)?;
    push_each(&mut findings, FindingKind::LockVersion, versions)?;
    let mut paths = Vec::new(alloc);
    push_unknown(alloc, &mut paths, LockTable::Head, document)?;
    push_each(&mut findings, FindingKind::UnknownKey, paths)?;
    let mut paths = Vec::new(alloc);
    push_wrong_types(alloc, &mut paths, LockTable::Head, document)?;
    push_each(&mut findings, FindingKind::WrongType, paths)?;
    push_where(
        &mut findings,
        has_no_packages,
        FindingKind::NoPackages,
        None,
    )?;
    let mut names = Vec::new(alloc);
    push_other_forms(alloc, &mut names, items_at(document, "extras"))?;
    push_each(&mut findings, FindingKind::NameForm, names)?;
    Ok(findings)
}

/// The version of the lock's form, where that isn't 1.0.
fn other_lock_version(alloc: Global, document: &Table) -> Result<Vec<LabelledText>, AllocError>
    ensures { IfOk result (λ list. list.items ≡ other_lock_version (table_view document.now)) }
{
    match text_at(document, "lock-version") {
        Some(version) => shown_where(alloc, version != "1.0", version),
        None => Ok(Vec::new(alloc)),
    }
}

/// Adds the texts that aren't in normal form, as they are written.
fn push_other_forms(
    alloc: Global,
    list: &mut Vec<LabelledText>,
    values: &[Value],
) -> Result<(), AllocError>
    ensures { OnOk result (list.new.items ≡ list.old.items ++ other_forms (items_view values.now)) }
{
    for value in values {
        push_other_form(alloc, list, value)?;
    }
    Ok(())
}

/// Adds a text that isn't in normal form.
fn push_other_form(
    alloc: Global,
    list: &mut Vec<LabelledText>,
    value: &Value,
) -> Result<(), AllocError>
    ensures { OnOk result (list.new.items ≡ list.old.items ++ other_form_of (view value.now)) }
{
    let Some(name) = value.as_str() else {
        return Ok(());
    };
    if is_other_form(alloc, name)? {
        push_plain(list, hidden(alloc, name)?)?;
    }
    Ok(())
}

// ---- the entries

/// What the tables of the entries of a document give. Where there are more than a lock may have,
/// none is looked at, since the document is refused.
#[tactic(auto, using(pylock_readers::proofs::EntryLemmas::count_of_items))]
fn tables_in(alloc: Global, document: &Table) -> Result<Vec<TableFindings>, AllocError>
    ensures { IfOk result (λ tables. tables.items ≡ tables_in (table_view document.now)) }
{
    let values = items_at(document, "packages");
    if values.len() > MOST_ENTRIES {
        return Ok(Vec::new(alloc));
    }
    table_findings(alloc, values)
}

/// Adds the findings of the entries, each with what its table gave.
fn push_entries(
    alloc: Global,
    found: &mut Vec<LockFinding>,
    asked: Scope,
    lock: &Lock,
    tables: Vec<TableFindings>,
) -> Result<(), AllocError>
    ensures { OnOk result (found.new.items ≡ found.old.items
        ++ of_entries asked lock.now.head 1 lock.now.entries tables.items) }
{
    let mut place = 0;
    for table in tables {
        match lock.entries().get(place) {
            Some(entry) => push_entry(alloc, found, asked, lock.head(), place + 1, table, entry)?,
            None => return Ok(()),
        }
        place += 1;
    }
    Ok(())
}

/// Adds the findings of an entry, which has this number, with what its table gave.
fn push_entry(
    alloc: Global,
    found: &mut Vec<LockFinding>,
    asked: Scope,
    head: &Head,
    number: usize,
    table: TableFindings,
    entry: &Entry,
) -> Result<(), AllocError>
    ensures { OnOk result (found.new.items ≡ found.old.items
        ++ findings_at number (Some entry.now.name)
        (entry_findings asked head.now table entry.now)) }
{
    let findings = entry_findings(alloc, asked, head, table, entry)?;
    push_findings_at(alloc, found, number, Some(entry.name()), findings)
}
