//! The picks on which the entry of a pick depends.

ghost use Rattle.std.specs.Prelude.{◌≡◌, ◌++◌, IfOk, OnOk, option_map};
ghost use Rattle.std.specs.Option.{option_copied};
ghost use Rattle.toml.specs.View.{table_view};
ghost use Rattle.pylock_readers.specs.Text.{utf8_text};
ghost use Rattle.pylock_metadata.specs.Dependencies.{dependencies_of, document_of, row_of};
ghost use Rattle.pylock_metadata.specs.Dependencies.{rows_of};
ghost use Rattle.pylock_metadata.specs.Inner.Names.{lent_rows};
ghost use Rattle.pylock_metadata.specs.View.{dependents_view};

use crate::named::{Dependent, dependents, numbers_by_name};
use crate::table::items_at;
use pylock_core::{Pick, Plan, Session};
use pytoml::{TomlError, read_table_by_toml};
use std::alloc::{AllocError, Global};
use toml::Table;

/// The picks of the plan whose entries have `dependencies`, in order, each with the picks that
/// these name (PEP 751, `packages.dependencies`). An element names the pick of its `name` where
/// the entry has each other key of the element with what is wanted there: of a table at least its
/// keys, of an array its elements one by one, and otherwise an equal value. The numbers of picks
/// are places in `packages`, from 1: the session has the entries of the lock. Bytes that are no
/// TOML document have none.
///
/// It takes memory for the document, for a map of the picks by their names, and for the list.
#[tactic(auto, using(crate::proofs::DependencyLemmas::found_by))]
pub fn dependencies(
    alloc: Global,
    lock: &[u8],
    session: &Session,
    plan: &Plan,
) -> Result<Vec<Dependent>, AllocError>
    ensures { IfOk result (λ list. dependents_view list.items
        ≡ dependencies_of lock.now session.now.state plan.now) }
{
    let Some(document) = document_of(alloc, lock)? else {
        return Ok(Vec::new(alloc));
    };
    let packages = items_at(&document, "packages");
    let rows = rows_of(alloc, session, plan.picks())?;
    let numbers = numbers_by_name(alloc, rows.as_slice())?;
    dependents(alloc, packages, &numbers, rows.as_slice())
}

/// The document that the bytes are.
fn document_of(alloc: Global, lock: &[u8]) -> Result<Option<Table>, AllocError>
    ensures { IfOk result (λ document. option_map table_view document ≡ document_of lock.now) }
{
    let Some(text) = as_text(lock) else {
        return Ok(None);
    };
    match read_table_by_toml(alloc, text) {
        Ok(document) => Ok(Some(document)),
        Err(TomlError::Memory) => Err(AllocError),
        Err(TomlError::Syntax) => Ok(None),
    }
}

/// The bytes as text, where they are UTF-8.
#[tactic(auto, using(crate::proofs::TextLemmas::utf8_tests))]
fn as_text(bytes: &[u8]) -> Option<&str>
    ensures { option_copied result ≡ utf8_text bytes.now }
{
    std::str::from_utf8(bytes).ok()
}

// ---- the picks by their names

/// The name of the entry of each pick, with the number of the pick.
fn rows_of<'a>(
    alloc: Global,
    session: &'a Session,
    picks: &[Pick],
) -> Result<Vec<(&'a str, u32)>, AllocError>
    ensures { IfOk result (λ rows. lent_rows rows.items
        ≡ rows_of session.now.state picks.now) }
{
    let mut rows = Vec::with_capacity(alloc, picks.len())?;
    for pick in picks {
        push_row(&mut rows, session, pick)?;
    }
    Ok(rows)
}

fn push_row<'a>(
    rows: &mut Vec<(&'a str, u32)>,
    session: &'a Session,
    pick: &Pick,
) -> Result<(), AllocError>
    ensures { OnOk result (lent_rows rows.new.items
        ≡ lent_rows rows.old.items ++ row_of session.now.state pick.now) }
{
    let Some(entry) = session.entry(pick.id) else {
        return Ok(());
    };
    rows.push((entry.name(), pick.id))?;
    Ok(())
}
