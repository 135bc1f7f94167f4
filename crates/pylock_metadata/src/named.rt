//! What an element of `dependencies` names.

ghost use Rattle.std.specs.Prelude.{◌≡◌, ◌++◌, [], ℕ, IfOk, List, OnOk, Some, option_map};
ghost use Rattle.std.specs.Prelude.{if◌then◌else◌};
ghost use Rattle.std.specs.Str.{bytes_eq};
ghost use Rattle.toml.specs.Data.{get_item};
ghost use Rattle.toml.specs.View.{items_view, table_view, view};
ghost use Rattle.pylock_metadata.specs.Inner.Names.{lent_rows, number_under};
ghost use Rattle.pylock_metadata.specs.Named.{dependent_of, dependents_of, elements_at};
ghost use Rattle.pylock_metadata.specs.Named.{elements_in, is_meant, named_by, number_of};
ghost use Rattle.pylock_metadata.specs.Named.{table_at, with_named};
ghost use Rattle.pylock_metadata.specs.View.{dependents_view};

use crate::meets::has_others;
use crate::table::field;
use indexmap::IndexSet;
use pyver_core::NormalForm;
use std::alloc::{AllocError, Global};
use std::collections::BTreeMap;
use toml::{Table, Value};

/// A pick and the picks on which its entry depends (PEP 751, `packages.dependencies`).
#[derive(Debug, Drop)]
pub struct Dependent {
    /// The number of the pick.
    pub number: u32,
    /// The numbers of the others, in the order of the elements that name them, each once.
    pub depends_on: Vec<u32>,
}

// ---- the picks by their names

/// The number of the pick of each name; where there are more it is the last.
pub(crate) fn numbers_by_name<'a>(
    alloc: Global,
    rows: &[(&'a str, u32)],
) -> Result<BTreeMap<&'a str, u32>, AllocError>
    ensures { IfOk result (λ numbers. (name : List ℕ)
        → number_under numbers name ≡ number_of (lent_rows rows.now) name) }
{
    let mut numbers: BTreeMap<&'a str, u32> = BTreeMap::new(alloc);
    for (name, number) in rows {
        put_number(&mut numbers, *name, *number)?;
    }
    Ok(numbers)
}

/// Puts the number under the name.
fn put_number<'a>(
    numbers: &mut BTreeMap<&'a str, u32>,
    name: &'a str,
    number: u32,
) -> Result<(), AllocError>
    ensures { OnOk result ((other : List ℕ) → number_under numbers.new other
        ≡ (if bytes_eq other name.now then Some number else number_under numbers.old other)) }
{
    numbers.insert(name, number)?;
    Ok(())
}

fn number_under(numbers: &BTreeMap<&str, u32>, name: &str) -> Option<u32>
    ensures { result ≡ number_under numbers.now name.now }
{
    numbers.get(name).copied()
}

// ---- the picks that depend on others

/// Those of these picks whose entries have `dependencies`, in order.
pub(crate) fn dependents(
    alloc: Global,
    packages: &[Value],
    numbers: &BTreeMap<&str, u32>,
    rows: &[(&str, u32)],
) -> Result<Vec<Dependent>, AllocError>
    ensures { IfOk result (λ list. dependents_view list.items
        ≡ dependents_of (items_view packages.now)
        (number_under numbers.now) (lent_rows rows.now)) }
{
    let mut list = Vec::new(alloc);
    for (_, number) in rows {
        push_dependent(alloc, &mut list, packages, numbers, *number)?;
    }
    Ok(list)
}

/// Adds a pick, where its entry has `dependencies`.
fn push_dependent(
    alloc: Global,
    list: &mut Vec<Dependent>,
    packages: &[Value],
    numbers: &BTreeMap<&str, u32>,
    number: u32,
) -> Result<(), AllocError>
    ensures { OnOk result (dependents_view list.new.items
        ≡ dependents_view list.old.items
        ++ dependent_of (items_view packages.now) (number_under numbers.now) number) }
{
    let Some(elements) = elements_at(packages, number) else {
        return Ok(());
    };
    let depends_on = numbers_named(alloc, packages, numbers, elements)?;
    list.push(Dependent { number, depends_on })?;
    Ok(())
}

/// The numbers of the picks that elements name, in their order, each once.
fn numbers_named(
    alloc: Global,
    packages: &[Value],
    numbers: &BTreeMap<&str, u32>,
    elements: &[Value],
) -> Result<Vec<u32>, AllocError>
    ensures { IfOk result (λ list. list.items ≡ with_named (items_view packages.now)
        (number_under numbers.now) [] (items_view elements.now)) }
{
    let mut found: IndexSet<u32> = IndexSet::new(alloc);
    for element in elements {
        if let Some(number) = named_by(alloc, packages, numbers, element)? {
            found.insert_full(number)?;
        }
    }
    found.as_slice().to_vec(alloc)
}

// ---- what an element names

/// The number of the pick that an element names.
fn named_by(
    alloc: Global,
    packages: &[Value],
    numbers: &BTreeMap<&str, u32>,
    element: &Value,
) -> Result<Option<u32>, AllocError>
    ensures { IfOk result (λ number. number ≡ named_by (items_view packages.now)
        (number_under numbers.now) (view element.now)) }
{
    let Value::Table(element) = element else {
        return Ok(None);
    };
    let Some(Value::String(name)) = field(element, "name") else {
        return Ok(None);
    };
    let name = NormalForm::of(alloc, name.as_str())?;
    let Some(number) = number_under(numbers, name.as_str()) else {
        return Ok(None);
    };
    if is_meant(alloc, packages, element, number)? {
        Ok(Some(number))
    } else {
        Ok(None)
    }
}

/// Whether the entry of this number has each key of the element but `name`.
fn is_meant(
    alloc: Global,
    packages: &[Value],
    element: &Table,
    number: u32,
) -> Result<bool, AllocError>
    ensures { IfOk result (λ meant. meant
        ≡ is_meant (items_view packages.now) (table_view element.now) number) }
{
    match table_at(packages, number) {
        Some(entry) => has_others(alloc, element, entry),
        None => Ok(false),
    }
}

// ---- the tables of entries

/// The elements of the `dependencies` of the entry of this number.
fn elements_at(packages: &[Value], number: u32) -> Option<&[Value]>
    ensures { option_map (λ items. items_view items.now) result
        ≡ elements_at number (items_view packages.now) }
{
    elements_in(table_at(packages, number)?)
}

fn elements_in(entry: &Table) -> Option<&[Value]>
    ensures { option_map (λ items. items_view items.now) result
        ≡ elements_in (table_view entry.now) }
{
    match field(entry, "dependencies") {
        Some(Value::Array(items)) => Some(items.as_slice()),
        _ => None,
    }
}

/// The table of the entry of this number, from 1.
fn table_at(packages: &[Value], number: u32) -> Option<&Table>
    ensures { option_map (λ table. table_view table.now) result
        ≡ table_at number (items_view packages.now) }
{
    if number == 0 {
        return None;
    }
    match item_at(packages, (number - 1) as usize) {
        Some(entry) => entry.as_table(),
        None => None,
    }
}

#[tactic(auto, using(toml::proofs::Views::get_item_within, toml::proofs::Views::get_item_past))]
fn item_at(values: &[Value], place: usize) -> Option<&Value>
    ensures { option_map (λ v. view v.now) result ≡ get_item place (items_view values.now) }
{
    if place < values.len() {
        Some(&values[place])
    } else {
        None
    }
}
