//! Advisories by the names of the packages that they affect.
ghost use Rattle.std.specs.Prelude.{◌≡◌, ◌||◌, ◌++◌, ◌∷◌, ℕ, [], IfOk, List, OnOk, filter, map};
ghost use Rattle.std.specs.Prelude.{if◌then◌else◌, filter_map, not, option_copied};
ghost use Rattle.std.specs.Str.{bytes_eq};
ghost use Rattle.pyver_core.specs.Name.{normal_name};
ghost use Rattle.pylock_advisories.specs.Evaluation.{affecting, elements_of, told};
ghost use Rattle.pylock_advisories.specs.Index.{IsIndex, found, has, names_package};
ghost use Rattle.pylock_advisories.specs.Lent.{lent, told_as};

use crate::advisory::{Advisory, Affecting};
use crate::versions::version_in;
use pyver_core::{NormalForm, Version};
use std::alloc::{AllocError, Global};
use std::collections::{BTreeMap, BTreeSet};
use std::marker::Model;

/// Advisories, found by the names of the packages that they affect. Contracts see their list.
pub struct AdvisoryIndex<'a> {
    advisories: &'a [Advisory],
    under_names: BTreeMap<&'a str, Vec<&'a Advisory>>,
}

impl<'a> Model for AdvisoryIndex<'a> {
    ghost use Rattle.std.specs.Prelude.{List};
    ghost use Rattle.pylock_advisories.specs.Advisory.{AdvisoryValue};
    ghost use Rattle.pylock_advisories.specs.Index.{IsIndex};

    ghost Value = { List AdvisoryValue };

    ghost view = { λ i. i.advisories.now };

    ghost invariant = { λ i. IsIndex i.under_names i.advisories.now };
}

impl Drop for AdvisoryIndex<'_> {
    fn drop(self) {
        let AdvisoryIndex {
            advisories: _,
            under_names: _,
        } = self;
    }
}

impl<'a> AdvisoryIndex<'a> {
    /// The advisories by the names of their packages.
    pub(crate) fn new(
        alloc: Global,
        advisories: &'a [Advisory],
    ) -> Result<AdvisoryIndex<'a>, AllocError>
        ensures { IfOk result (λ index. index ≡ advisories.now) }
    {
        let under_names = under_names(alloc, advisories)?;
        Ok(AdvisoryIndex {
            advisories,
            under_names,
        })
    }

    /// The advisories, in order. It takes no memory.
    pub fn advisories(&self) -> &'a [Advisory]
        ensures { result.now ≡ self.now }
    {
        self.advisories
    }

    /// The advisories that affect the package of this name, compared in normal form (PEP 503), at
    /// the version of this text, in order, each with the version to go to (the OSV schema,
    /// "Evaluation").
    ///
    /// Takes the time of the advisories that name the package, and memory for those that affect it.
    #[tactic(auto, using(crate::proofs::IndexLemmas::all_told))]
    pub fn affecting(
        &self,
        alloc: Global,
        name: &str,
        version: &str,
    ) -> Result<Vec<Affecting<'a>>, AllocError>
        ensures { IfOk result (λ list. map told_as list.items
            ≡ affecting (normal_name name.now) version.now self.now) }
    {
        let name = NormalForm::of(alloc, name)?;
        let parsed = version_in(alloc, version)?;
        let under = self.under(name.as_str());
        let affecting = told(alloc, under, name.as_str(), version, parsed.as_ref())?;
        Ok(affecting)
    }

    /// The advisories that name the package.
    fn under(&self, name: &str) -> &[&'a Advisory]
        ensures { lent result.now ≡ filter (names_package name.now) self.now }
    {
        values(&self.under_names, name)
    }
}

/// What is told of these advisories where they affect the package.
fn told<'a>(
    alloc: Global,
    advisories: &[&'a Advisory],
    name: &str,
    text: &str,
    version: Option<&Version>,
) -> Result<Vec<Affecting<'a>>, AllocError>
    ensures { IfOk result (λ list. map told_as list.items
        ≡ filter_map (λ a. told text.now (option_copied version.entry)
        (elements_of name.now a) a) (lent advisories.now)) }
{
    let mut affecting = Vec::new(alloc);
    for advisory in advisories {
        if let Some(told) = advisory.told(alloc, name, text, version)? {
            affecting.push(told)?;
        }
    }
    Ok(affecting)
}

/// What the table has under the name.
fn values<'m, V>(table: &'m BTreeMap<&str, Vec<V>>, name: &str) -> &'m [V]
    ensures { result.now ≡ found table.now name.now }
{
    match table.get(name) {
        Some(values) => values.as_slice(),
        None => &[],
    }
}

fn under_names<'a>(
    alloc: Global,
    advisories: &'a [Advisory],
) -> Result<BTreeMap<&'a str, Vec<&'a Advisory>>, AllocError>
    ensures { IfOk result (λ table. IsIndex table advisories.now) }
{
    let mut table = BTreeMap::new(alloc);
    for advisory in advisories {
        put_under_names(alloc, advisory, &mut table)?;
    }
    Ok(table)
}

/// Puts the advisory under each name of its packages, behind those that stand there.
fn put_under_names<'a>(
    alloc: Global,
    advisory: &'a Advisory,
    table: &mut BTreeMap<&'a str, Vec<&'a Advisory>>,
) -> Result<(), AllocError>
    ensures { OnOk result ((name : List ℕ) → lent (found table.new name)
        ≡ lent (found table.old name)
        ++ (if names_package name advisory.now then advisory.now ∷ [] else [])) }
{
    let mut seen = BTreeSet::new(alloc);
    for element in advisory.affected() {
        let name = element.name();
        if add_name(&mut seen, name)? {
            put(table, name, advisory)?;
        }
    }
    Ok(())
}

/// Adds the name to the set, and tells whether it is new there.
fn add_name<'a>(seen: &mut BTreeSet<&'a str>, name: &'a str) -> Result<bool, AllocError>
    ensures new { IfOk result (λ new. new ≡ not (has seen.old name.now)) }
    ensures added { OnOk result ((other : List ℕ) → has seen.new other
        ≡ (bytes_eq other name.now || has seen.old other)) }
{
    Ok(seen.insert(name)?)
}

/// Puts the value under the name, behind those that stand there.
fn put<'a, V>(
    table: &mut BTreeMap<&'a str, Vec<V>>,
    name: &'a str,
    value: V,
) -> Result<(), AllocError>
where
    V: Drop,
    ensures { OnOk result ((other : List ℕ) → found table.new other ≡ found table.old other
        ++ (if bytes_eq other name.now then value ∷ [] else [])) }
{
    table.entry(name)?.or_default().push(value)?;
    Ok(())
}
