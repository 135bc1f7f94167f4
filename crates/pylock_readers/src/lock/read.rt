//! Locks from their texts.
ghost use Rattle.std.specs.Prelude.{◌≡◌, ◌≢◌, Err, IfErr, IfOk, option_map};
ghost use Rattle.toml.specs.Data.{no_items};
ghost use Rattle.toml.specs.View.{view, table_view};
ghost use Rattle.pytext.specs.Agreement.{Gives};
ghost use Rattle.pylock_readers.specs.Lock.Head.{created_by_in, is_lock_version, lock_version_in};
ghost use Rattle.pylock_readers.specs.Lock.Packages.{IsDocument};
ghost use Rattle.pylock_readers.specs.Lock.Reading.{document_in, document_of, lock_in, lock_of};

use crate::error::LockError;
use crate::field::{or_refused, text};
use crate::lock::Lock;
use crate::lock::elements::Packages;
use crate::text::as_text;
use pytext::is_number;
use pytoml::{Elements, TomlError, read_table_by_toml, read_table_without};
use std::alloc::Global;
use toml::{Table, Value};

impl Lock {
    /// Reads a lock of version 1 (PEP 751, "File format"). The refusals come in the order of
    /// `LockError`; keys that are not named there are ignored.
    ///
    /// Takes memory for the lock, for the document's head and for one entry's table at a time; for
    /// the whole document only where `packages` isn't written as tables of its own, or where
    /// `toml` has to read the text. A document of many small values takes more than a hundred times
    /// the memory of its text, so the system may end the process before it refuses the memory.
    #[tactic(auto, unfolding(crate::specs::Lock::Reading::lock_of))]
    pub fn read(alloc: Global, bytes: &[u8]) -> Result<Lock, LockError>
        ensures { Gives LockError.Memory (λ l. l) result (lock_of bytes.now) }
    {
        match read_document_without(alloc, bytes, Packages::new(alloc))? {
            (document, Some(packages)) => packages.into_lock(alloc, document),
            (document, None) => Lock::from_document(alloc, document),
        }
    }

    /// The lock of version 1 that a TOML document is (PEP 751, "File format"). The refusals are
    /// those of [`Lock::read`] that come after the reading of the document, in the same order; keys
    /// that are not named there are ignored. So whoever wants something of the document besides
    /// takes it from what [`read_document_without`] gives, and the bytes are read once.
    ///
    /// Takes memory for the lock; strings move from the document to it. The document is freed,
    /// whether it is a lock or not.
    pub fn from_document(alloc: Global, document: Table) -> Result<Lock, LockError>
        ensures { Gives LockError.Memory (λ l. l) result (lock_in (table_view document)) }
    {
        Packages::new(alloc).into_lock(alloc, document)
    }
}

/// The TOML document of the bytes without the elements of one array of tables, at the key of
/// `elements`, which took them as they came; or the whole document and nobody, where the text is of
/// a shape that doesn't allow it. The refusals are those of a lock that come before its keys.
///
/// So whoever wants something of the tables of entries that a [`Lock`] doesn't keep looks at each
/// before [`Packages`](crate::Packages) takes it, and the bytes are read once. Takes memory for the
/// document, for one element at a time, and for what `elements` takes.
pub fn read_document_without<E: Elements>(
    alloc: Global,
    bytes: &[u8],
    elements: E,
) -> Result<(Table, Option<E>), LockError>
    requires { E.holds elements no_items }
    ensures ok { IfOk result (λ read.
        IsDocument E.holds E.key (table_view read.0, read.1) (document_in bytes.now)) }
    ensures refused { IfErr result (λ e. e ≢ LockError.Memory → document_in bytes.now ≡ Err e) }
{
    let text = as_text(bytes).ok_or(LockError::NotText)?;
    match read_table_without(alloc, text, elements)? {
        Some((document, elements)) => Ok((document, Some(elements))),
        None => Ok((document_by_toml(alloc, text)?, None)),
    }
}

fn document_by_toml(alloc: Global, text: &str) -> Result<Table, LockError>
    ensures { Gives LockError.Memory table_view result (document_of text.now) }
{
    match read_table_by_toml(alloc, text) {
        Ok(table) => Ok(table),
        Err(TomlError::Memory) => Err(LockError::Memory),
        Err(_) => Err(LockError::Toml),
    }
}

pub(crate) fn require_lock_version(field: Option<Value>) -> Result<(), LockError>
    ensures { Gives LockError.Memory (λ u. u) result
        (lock_version_in (option_map view field)) }
{
    let version = or_refused(LockError::LockVersion, text(field))?;
    if is_lock_version(version.as_str()) {
        Ok(())
    } else {
        Err(LockError::LockVersion)
    }
}

/// Whether this is version 1 with some minor number.
fn is_lock_version(version: &str) -> bool
    ensures { result ≡ is_lock_version version.now }
{
    match version.as_bytes() {
        [b'1', b'.', minor @ ..] => is_number(minor),
        _ => false,
    }
}

pub(crate) fn require_creator(field: Option<Value>) -> Result<(), LockError>
    ensures { Gives LockError.Memory (λ u. u) result
        (created_by_in (option_map view field)) }
{
    let _creator = or_refused(LockError::CreatedBy, text(field))?;
    Ok(())
}
