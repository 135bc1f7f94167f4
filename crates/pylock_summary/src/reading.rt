//! The facts of a lock, from its text.

ghost use Rattle.std.specs.Prelude.{◌≡◌, IfOk, Result, codes, option_map, string_bytes};
ghost use Rattle.std.specs.Option.{option_copied};
ghost use Rattle.toml.specs.Data.{Items, get_member};
ghost use Rattle.toml.specs.View.{table_view, view};
ghost use Rattle.pytext.specs.Agreement.{Gives};
ghost use Rattle.pytoml.specs.Members.{with_elements};
ghost use Rattle.pylock_readers.specs.Lock.{LockValue};
ghost use Rattle.pylock_readers.specs.Lock.Packages.{HasRead};
ghost use Rattle.pylock_summary.specs.Summary.{summary_in, summary_of, text_at, with_facts};

use crate::fact::Fact;
use crate::facts::facts_of;
use pylock_core::{Lock, LockError};
use pylock_readers::{Packages, read_document_without};
use std::alloc::{AllocError, Global};
use toml::{Table, Value};

/// What a lock says of itself, given by the bytes of its TOML text: what made it, its
/// `requires-python`, `environments`, `extras`, `dependency-groups` and `default-groups`, how many
/// entries it has, and how many of them have sources of each kind (PEP 751, "File format"). The
/// refusals are those of a lock.
///
/// The bytes are read once. It takes the memory of the lock, and memory for the texts.
#[tactic(auto, unfolding(crate::specs::Summary::summary_of))]
pub fn read_facts(alloc: Global, bytes: &[u8]) -> Result<Vec<Fact>, LockError>
    ensures { Gives LockError.Memory (λ facts. facts.items) result (summary_of bytes.now) }
{
    match read_document_without(alloc, bytes, Packages::new(alloc))? {
        (document, Some(packages)) => facts_in(alloc, document, packages),
        (document, None) => whole_facts(alloc, document),
    }
}

/// The facts of a whole document.
fn whole_facts(alloc: Global, document: Table) -> Result<Vec<Fact>, LockError>
    ensures { Gives LockError.Memory (λ facts. facts.items) result
        (summary_in (table_view document)) }
{
    facts_in(alloc, document, Packages::new(alloc))
}

/// The facts of a document from which the tables of entries were taken.
fn facts_in(alloc: Global, document: Table, packages: Packages) -> Result<Vec<Fact>, LockError>
    ensures { (taken : Items) → HasRead packages taken
        → Gives LockError.Memory (λ facts. facts.items) result
        (summary_in (with_elements (codes "packages") taken (table_view document))) }
{
    let creator = copy_at(alloc, &document, "created-by")?;
    with_facts(alloc, creator, packages.into_lock(alloc, document))
}

/// The facts of the lock, where it isn't refused.
fn with_facts(
    alloc: Global,
    creator: Option<String>,
    lock: Result<Lock, LockError>,
) -> Result<Vec<Fact>, LockError>
    ensures { (known : Result LockValue LockError) → Gives LockError.Memory (λ l. l) lock known
        → Gives LockError.Memory (λ facts. facts.items) result
        (with_facts (option_map string_bytes creator) known) }
{
    let lock = lock?;
    Ok(facts_of(alloc, creator.as_deref(), &lock)?)
}

/// A copy of the text of a key, where that has one.
fn copy_at(alloc: Global, document: &Table, key: &str) -> Result<Option<String>, AllocError>
    ensures { IfOk result (λ copy. option_map string_bytes copy
        ≡ text_at key.now (table_view document.now)) }
{
    match text_at(document, key) {
        Some(text) => Ok(Some(String::from_str(alloc, text)?)),
        None => Ok(None),
    }
}

/// The text of a key, where that has one.
fn text_at<'a>(document: &'a Table, key: &str) -> Option<&'a str>
    ensures { option_copied result ≡ text_at key.now (table_view document.now) }
{
    field(document, key)?.as_str()
}

fn field<'a>(document: &'a Table, key: &str) -> Option<&'a Value>
    ensures { option_map (λ v. view v.now) result
        ≡ get_member key.now (table_view document.now) }
{
    document.get(key)
}
