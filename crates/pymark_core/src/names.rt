//! Sets of normal names, and what goes over them.

ghost use Rattle.std.specs.Prelude.{◌≡◌, false, not, IfOk, IsTrue, OnErr};
ghost use Rattle.std.specs.FinSet as set;
ghost use Rattle.std.specs.Iterator.{YieldsFirstBy, item_count};
ghost use Rattle.pyver_core.specs.Name.{normal_name};
ghost use Rattle.pymark_core.specs.Environment.{AreNamesOf};

use pyver_core::NormalName;
use std::alloc::{AllocError, Global};
use std::collections::{BTreeSet, btree_set};
use std::marker::Model;
use std::sync::Arc;

/// A set of normal names.
pub(crate) struct NameSet {
    names: BTreeSet<String>,
}

impl Model for NameSet {
    ghost use Rattle.std.specs.Prelude.{List, ℕ, map, string_bytes};
    ghost use Rattle.std.specs.Coded.{coded_list, coded_ℕ};
    ghost use Rattle.std.specs.FinSet as set;
    ghost use Rattle.pymark_core.specs.Environment.{AreNormal, Texts};

    ghost Value = { Texts };

    ghost coded = { set.code (coded_list coded_ℕ) };

    ghost view = { λ a. set.from_list (map string_bytes a.names.keys) };

    ghost invariant = { λ a. AreNormal (set.from_list (map string_bytes a.names.keys)) };
}

impl Drop for NameSet {
    fn drop(self) {
        let NameSet { names: _ } = self;
    }
}

impl NameSet {
    /// The empty set. It takes no memory.
    #[tactic(auto, using(crate::proofs::Lemmas::Environment::Names::normal_none))]
    pub(crate) fn new(alloc: Global) -> NameSet
        ensures { result ≡ set.empty }
    {
        NameSet {
            names: BTreeSet::new(alloc),
        }
    }

    /// Whether this very text is in the set.
    pub(crate) fn has(&self, name: &str) -> bool
        ensures has { result ≡ set.contains self.now name.now }
        ensures normal { IsTrue result → normal_name name.now ≡ name.now }
    {
        self.names.contains(name)
    }

    /// Puts a name in.
    pub(crate) fn insert(&mut self, name: NormalName) -> Result<(), AllocError>
        ensures set { IfOk result (λ _. self.new ≡ set.insert self.old name) }
        ensures err { OnErr result (self.new ≡ self.old) }
    {
        self.names.insert(name.into_string())?;
        Ok(())
    }

    /// The names, lent.
    pub(crate) fn iter(&self) -> Names<'_>
        ensures { AreNamesOf self.now result }
    {
        Names {
            rest: Some(self.names.iter()),
        }
    }

    /// Takes a name out.
    pub(crate) fn remove(&mut self, name: &NormalName)
        ensures { self.new ≡ set.remove self.old name.now }
    {
        self.names.remove(name.as_str());
    }
}

/// A set of the same names, each copied.
impl Clone for NameSet {
    ghost is_clone = { λ names copy. copy ≡ names };

    fn clone(&self) -> Result<NameSet, AllocError> {
        let names = self.names.clone()?;
        Ok(NameSet { names })
    }
}

/// A set of normal names that environments share: it is copied where it changes, and so a change
/// of one moves no other.
pub(crate) struct SharedNames {
    /// None is the empty set.
    names: Option<Arc<NameSet>>,
}

impl Model for SharedNames {
    ghost use Rattle.std.specs.Prelude.{List, ℕ, option_map, unwrap_or};
    ghost use Rattle.std.specs.Coded.{coded_list, coded_ℕ};
    ghost use Rattle.std.specs.FinSet as set;
    ghost use Rattle.pymark_core.specs.Environment.{Texts};

    ghost Value = { Texts };

    ghost coded = { set.code (coded_list coded_ℕ) };

    ghost view = { λ s. unwrap_or (option_map (λ names. names.value) s.names) set.empty };
}

impl Drop for SharedNames {
    fn drop(self) {
        let SharedNames { names: _ } = self;
    }
}

impl SharedNames {
    /// The empty set. It takes no memory.
    pub(crate) fn new() -> SharedNames
        ensures { result ≡ set.empty }
    {
        SharedNames { names: None }
    }

    /// Whether this very text is in the set.
    pub(crate) fn has(&self, name: &str) -> bool
        ensures has { result ≡ set.contains self.now name.now }
        ensures normal { IsTrue result → normal_name name.now ≡ name.now }
    {
        match &self.names {
            Some(names) => names.has(name),
            None => false,
        }
    }

    /// The names, lent.
    pub(crate) fn iter(&self) -> Names<'_>
        ensures { AreNamesOf self.now result }
    {
        match &self.names {
            Some(names) => names.iter(),
            None => Names { rest: None },
        }
    }

    /// Puts the name in, and answers whether it was out. A name that is in takes no memory.
    #[tactic(auto, using(crate::proofs::Lemmas::Environment::Names::insert_or_stay))]
    pub(crate) fn insert(&mut self, alloc: Global, name: NormalName) -> Result<bool, AllocError>
        ensures set { IfOk result (λ added. self.new ≡ set.insert self.old name) }
        ensures added { IfOk result (λ added. added ≡ not (set.contains self.old name)) }
        ensures err { OnErr result (self.new ≡ self.old) }
    {
        let Some(names) = &mut self.names else {
            let mut names = NameSet::new(alloc);
            names.insert(name)?;
            self.names = Some(Arc::new(alloc, names)?);
            return Ok(true);
        };
        if names.has(name.as_str()) {
            return Ok(false);
        }
        Arc::make_mut(names)?.insert(name)?;
        Ok(true)
    }

    /// Takes the name out, and answers whether it was in. A name that is out takes no memory.
    #[tactic(auto, using(crate::proofs::Lemmas::Environment::Names::remove_stays))]
    pub(crate) fn remove(&mut self, name: &NormalName) -> Result<bool, AllocError>
        ensures set { IfOk result (λ dropped. self.new ≡ set.remove self.old name.now) }
        ensures dropped { IfOk result (λ dropped. dropped ≡ set.contains self.old name.now) }
        ensures err { OnErr result (self.new ≡ self.old) }
    {
        let Some(names) = &mut self.names else {
            return Ok(false);
        };
        if !names.has(name.as_str()) {
            return Ok(false);
        }
        Arc::make_mut(names)?.remove(name);
        Ok(true)
    }
}

/// A copy shares the names, also with other threads. It takes no memory; it is refused only where
/// 2^63 copies stand.
impl Clone for SharedNames {
    ghost is_clone = { λ shared copy. copy ≡ shared };

    fn clone(&self) -> Result<SharedNames, AllocError> {
        Ok(SharedNames {
            names: self.names.clone()?,
        })
    }
}

/// The names of a set, lent one by one, each once, in the order of their bytes. It takes no memory.
///
/// Contracts see the list of those that are left.
pub struct Names<'a> {
    /// None is the empty set.
    rest: Option<btree_set::Iter<'a, String>>,
}

impl<'a> Model for Names<'a> {
    ghost use Rattle.std.specs.Prelude.{List, ℕ, [], map, option_map, string_bytes, unwrap_or};
    ghost use Rattle.std.specs.Coded.{coded_list, coded_ℕ};

    ghost Value = { List (List ℕ) };

    ghost coded = { coded_list (coded_list coded_ℕ) };

    ghost view = { λ names. unwrap_or (option_map (map string_bytes) names.rest) [] };
}

impl Drop for Names<'_> {
    fn drop(self) {
        let Names { rest: _ } = self;
    }
}

impl<'a> Iterator for Names<'a> {
    type Item = &'a str;

    ghost next_gives = { YieldsFirstBy (λ name. name.now) (λ rest. rest) };

    ghost remaining = { item_count (λ rest. rest) };

    fn next(&mut self) -> Option<&'a str> {
        Some(self.rest.as_mut()?.next()?.as_str())
    }
}
