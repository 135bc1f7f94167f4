//! What two locks have under each name.

ghost use Rattle.std.specs.Prelude.{◌≡◌, ◌++◌, ℕ, List, IfOk, OnOk};
ghost use Rattle.pylock_compare.specs.Lent.{found, lent_rows, lent_texts};
ghost use Rattle.pylock_compare.specs.Rows.{in_order, names_of, put_among, values_at};

use std::alloc::{AllocError, Global};
use std::collections::{BTreeMap, BTreeSet};

/// What OLD and NEW have under each name that either has.
#[derive(Drop)]
pub struct Sides<'a, V> {
    /// The names in order, each once.
    pub names: Vec<&'a str>,
    olds: BTreeMap<&'a str, Vec<V>>,
    news: BTreeMap<&'a str, Vec<V>>,
}

impl<'a, V: Copy + Drop> Sides<'a, V> {
    /// What these rows have under each name.
    pub fn new(
        alloc: Global,
        olds: &[(&'a str, V)],
        news: &[(&'a str, V)],
    ) -> Result<Sides<'a, V>, AllocError>
        ensures names { IfOk result (λ sides. lent_texts sides.names.items
            ≡ in_order (names_of (lent_rows olds.now) ++ names_of (lent_rows news.now))) }
        ensures olds { IfOk result (λ sides. (name : List ℕ)
            → found sides.olds name ≡ values_at name (lent_rows olds.now)) }
        ensures news { IfOk result (λ sides. (name : List ℕ)
            → found sides.news name ≡ values_at name (lent_rows news.now)) }
    {
        let mut names = Vec::with_capacity(alloc, olds.len())?;
        push_names(&mut names, olds)?;
        push_names(&mut names, news)?;
        Ok(Sides {
            names: in_order(alloc, names.as_slice())?,
            olds: by_name(alloc, olds)?,
            news: by_name(alloc, news)?,
        })
    }

    /// What OLD has under the name.
    pub fn old(&self, name: &str) -> &[V]
        ensures { result.now ≡ found self.now.olds name.now }
    {
        values(&self.olds, name)
    }

    /// What NEW has under the name.
    pub fn new_values(&self, name: &str) -> &[V]
        ensures { result.now ≡ found self.now.news name.now }
    {
        values(&self.news, name)
    }
}

/// Adds the names of rows.
fn push_names<'a, V>(names: &mut Vec<&'a str>, rows: &[(&'a str, V)]) -> Result<(), AllocError>
    ensures { OnOk result (lent_texts names.new.items
        ≡ lent_texts names.old.items ++ names_of (lent_rows rows.now)) }
{
    for (name, _) in rows {
        names.push(*name)?;
    }
    Ok(())
}

/// The values of rows by their names.
fn by_name<'a, V: Copy>(
    alloc: Global,
    rows: &[(&'a str, V)],
) -> Result<BTreeMap<&'a str, Vec<V>>, AllocError>
    ensures { IfOk result (λ table. (name : List ℕ)
        → found table name ≡ values_at name (lent_rows rows.now)) }
{
    let mut table: BTreeMap<&'a str, Vec<V>> = BTreeMap::new(alloc);
    for (name, value) in rows {
        table.entry(*name)?.or_default().push(*value)?;
    }
    Ok(table)
}

/// The values under the name.
fn values<'m, V>(table: &'m BTreeMap<&str, Vec<V>>, name: &str) -> &'m [V]
    ensures { result.now ≡ found table.now name.now }
{
    match table.get(name) {
        Some(values) => values.as_slice(),
        None => &[],
    }
}

/// The texts in order of code point, each once.
pub fn in_order<'a>(alloc: Global, texts: &[&'a str]) -> Result<Vec<&'a str>, AllocError>
    ensures { IfOk result (λ list. lent_texts list.items ≡ in_order (lent_texts texts.now)) }
{
    let set = set_of(alloc, texts)?;
    list_of(alloc, &set)
}

fn set_of<'a>(alloc: Global, texts: &[&'a str]) -> Result<BTreeSet<&'a str>, AllocError>
    ensures { IfOk result (λ set. lent_texts set.keys ≡ in_order (lent_texts texts.now)) }
{
    let mut set: BTreeSet<&'a str> = BTreeSet::new(alloc);
    for text in texts {
        set.insert(*text)?;
    }
    Ok(set)
}

fn list_of<'a>(alloc: Global, set: &BTreeSet<&'a str>) -> Result<Vec<&'a str>, AllocError>
    ensures { IfOk result (λ list. list.items ≡ set.now.keys) }
{
    let mut list = Vec::with_capacity(alloc, set.len())?;
    for text in set {
        list.push(*text)?;
    }
    Ok(list)
}
