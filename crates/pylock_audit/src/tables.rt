//! What the tables of entries give by themselves, before each becomes an entry. The reading of an
//! entry moves the table's strings out; unknown keys and names as they are written stand in the
//! table alone.

ghost use Rattle.std.specs.Prelude.{◌≡◌, IfOk, OnOk, codes};
ghost use Rattle.toml.specs.Data.{Items, no_items, push_item, table};
ghost use Rattle.toml.specs.View.{items_view, table_view, view};
ghost use Rattle.pylock_readers.specs.Lock.Packages.{HasRead};
ghost use Rattle.pylock_audit.specs.Audit.{members_in, of_tables};
ghost use Rattle.pylock_audit.specs.Entry.{is_other_form, of_table, other_form, told_by};
ghost use Rattle.pylock_audit.specs.Inner.Tables.{HasLooked};

use crate::entry_keys::entry_keys_told;
use crate::finding::{Finding, FindingKind, push_each, shown_where};
use crate::keys::text_at;
use pylock_places::{has_credentials, is_https};
use pylock_readers::{MOST_ENTRIES, Packages};
use pylock_shared::LabelledText;
use pytoml::Elements;
use pyver_core::NormalForm;
use std::alloc::{AllocError, Global};
use std::marker::Model;
use toml::{Table, Value};

/// What the table of an entry gives by itself: texts that the lock doesn't keep.
pub(crate) struct TableFindings {
    /// The findings of its keys and its name.
    told: Vec<Finding>,
    /// The URL of its index as it is shown, where that isn't of HTTPS.
    not_https: Vec<LabelledText>,
    /// The same where that names a user or a password.
    credentials: Vec<LabelledText>,
}

impl Model for TableFindings {
    ghost use Rattle.pylock_audit.specs.Entry.{TableValue};

    ghost Value = { TableValue };

    ghost view = { λ t. record {
      told = t.told.items;
      not_https = t.not_https.items;
      credentials = t.credentials.items;
    } };
}

impl Drop for TableFindings {
    fn drop(self) {
        let TableFindings {
            told: _,
            not_https: _,
            credentials: _,
        } = self;
    }
}

impl TableFindings {
    /// What this table gives.
    fn of(alloc: Global, table: &Table) -> Result<TableFindings, AllocError>
        ensures { IfOk result (λ found. found ≡ of_table (table_view table.now)) }
    {
        let told = told_by(alloc, table)?;
        let Some(url) = text_at(table, "index") else {
            return Ok(TableFindings {
                told,
                not_https: Vec::new(alloc),
                credentials: Vec::new(alloc),
            });
        };
        Ok(TableFindings {
            told,
            not_https: shown_where(alloc, !is_https(url), url)?,
            credentials: shown_where(alloc, has_credentials(url), url)?,
        })
    }

    /// What this value gives, which is a table in a lock, and otherwise gives nothing.
    fn of_value(alloc: Global, value: &Value) -> Result<TableFindings, AllocError>
        ensures { IfOk result (λ found. found ≡ of_table (members_in (view value.now))) }
    {
        match value {
            Value::Table(table) => TableFindings::of(alloc, table),
            _ => TableFindings::of(alloc, &Table::new(alloc)),
        }
    }

    /// What it gives, in the order of its fields.
    pub(crate) fn into_parts(self) -> (Vec<Finding>, Vec<LabelledText>, Vec<LabelledText>)
        ensures told { result.0.items ≡ self.told }
        ensures not_https { result.1.items ≡ self.not_https }
        ensures credentials { result.2.items ≡ self.credentials }
    {
        let TableFindings {
            told,
            not_https,
            credentials,
        } = self;
        (told, not_https, credentials)
    }
}

/// The findings of the keys and the name of an entry.
fn told_by(alloc: Global, table: &Table) -> Result<Vec<Finding>, AllocError>
    ensures { IfOk result (λ findings. findings.items ≡ told_by (table_view table.now)) }
{
    let mut findings = Vec::new(alloc);
    let unknown = entry_keys_told(alloc, FindingKind::UnknownKey, table)?;
    push_each(&mut findings, FindingKind::UnknownKey, unknown)?;
    let wrong = entry_keys_told(alloc, FindingKind::WrongType, table)?;
    push_each(&mut findings, FindingKind::WrongType, wrong)?;
    let name = other_form(alloc, table)?;
    push_each(&mut findings, FindingKind::NameForm, name)?;
    Ok(findings)
}

/// What each of these values gives. Where each key is named and each name is in normal form, it
/// takes memory for the list alone.
pub(crate) fn table_findings(
    alloc: Global,
    values: &[Value],
) -> Result<Vec<TableFindings>, AllocError>
    ensures { IfOk result (λ tables. tables.items ≡ of_tables (items_view values.now)) }
{
    let mut tables = Vec::with_capacity(alloc, values.len())?;
    for value in values {
        tables.push(TableFindings::of_value(alloc, value)?)?;
    }
    Ok(tables)
}

/// The name as written, where that isn't its own normal form.
fn other_form(alloc: Global, table: &Table) -> Result<Vec<LabelledText>, AllocError>
    ensures { IfOk result (λ list. list.items ≡ other_form (table_view table.now)) }
{
    match text_at(table, "name") {
        Some(name) => shown_where(alloc, is_other_form(alloc, name)?, name),
        None => Ok(Vec::new(alloc)),
    }
}

/// Whether a text isn't its own normal form. It takes memory only then.
pub(crate) fn is_other_form(alloc: Global, name: &str) -> Result<bool, AllocError>
    ensures { IfOk result (λ other. other ≡ is_other_form name.now) }
{
    Ok(NormalForm::of(alloc, name)?.as_str() != name)
}

/// The entries of a lock, read as their tables come, and what each table gives by itself.
pub(crate) struct Looked {
    alloc: Global,
    pub(crate) packages: Packages,
    /// Of the tables that came; of no more than a lock may have.
    pub(crate) tables: Vec<TableFindings>,
}

impl Drop for Looked {
    fn drop(self) {
        let Looked {
            alloc: _,
            packages: _,
            tables: _,
        } = self;
    }
}

impl Looked {
    /// Before the first table.
    pub(crate) fn new(alloc: Global) -> Looked
        ensures packages { HasRead result.packages no_items }
        ensures tables { HasLooked result.tables.items no_items }
    {
        Looked {
            alloc,
            packages: Packages::new(alloc),
            tables: Vec::new(alloc),
        }
    }

    /// What was read of the tables, and what they give.
    pub(crate) fn into_parts(self) -> (Packages, Vec<TableFindings>)
        ensures packages { result.0 ≡ self.packages }
        ensures tables { result.1 ≡ self.tables }
    {
        let Looked {
            alloc: _,
            packages,
            tables,
        } = self;
        (packages, tables)
    }
}

impl Elements for Looked {
    ghost key = { codes "packages" };

    ghost holds = { λ looked taken.
        HasRead looked.packages taken × HasLooked looked.tables.items taken };

    fn key() -> &'static str {
        "packages"
    }

    fn take(&mut self, element: Table) -> Result<(), AllocError> {
        look(self.alloc, &mut self.tables, &element)?;
        self.packages.take(element)
    }
}

/// Adds what the table of the next entry gives, unless a lock may have no more entries.
fn look(alloc: Global, tables: &mut Vec<TableFindings>, element: &Table) -> Result<(), AllocError>
    ensures { (taken : Items) → HasLooked tables.old.items taken → OnOk result
        (HasLooked tables.new.items (push_item taken (table (table_view element.now)))) }
{
    if tables.len() < MOST_ENTRIES {
        tables.push(TableFindings::of(alloc, element)?)?;
    }
    Ok(())
}
