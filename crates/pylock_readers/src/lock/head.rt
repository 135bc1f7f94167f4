//! The head of a lock (PEP 751).
ghost use Rattle.std.specs.Prelude.{◌≡◌, codes, map, option_map, string_bytes};
ghost use Rattle.std.specs.Option.{option_copied};
ghost use Rattle.toml.specs.Data.{get_member};
ghost use Rattle.toml.specs.View.{view, items_view, table_view};
ghost use Rattle.pytext.specs.Agreement.{Gives};
ghost use Rattle.pylock_readers.specs.Entry.Fields.{read_each, marker_field, name_of, set_field};
ghost use Rattle.pylock_readers.specs.Lock.Head.{environments_in, head_in, head_names_in};
ghost use Rattle.pylock_readers.specs.Lock.Head.{head_requires_python_in, names_in};

use crate::error::{HeadKey, LockError};
use crate::field::{
    FieldError, FromValue, into_name, into_text, items, optional_field, or_refused, read_list, take,
};
use crate::interner::{Condition, read_set};
use crate::lock::names::HeadNames;
use pymark_core::Marker;
use pyver_core::SpecifierSet;
use std::alloc::Global;
use std::marker::Model;
use toml::{Table, Value};

/// The head of a lock (PEP 751): what it says of itself, which is the environments and the Pythons
/// that it is for, its extras and its groups.
pub struct Head {
    environments: Vec<Marker>,
    requires_python: Option<SpecifierSet>,
    extras: HeadNames,
    groups: HeadNames,
    default_groups: HeadNames,
}

impl Model for Head {
    ghost use Rattle.pylock_readers.specs.Lock.{HeadValue};
    ghost use Rattle.std.specs.Coded.{codes};
    ghost use Rattle.pymark_core.specs.Marker.Coding.{marker_code};

    ghost Value = { HeadValue };

    ghost coded = { Prim.hlevel (codes, marker_code) };

    ghost view = { λ h. record {
      environments = h.environments.items;
      requires_python = h.requires_python;
      extras = h.extras;
      groups = h.groups;
      default_groups = h.default_groups;
    } };
}

impl Drop for Head {
    fn drop(self) {
        let Head {
            environments: _,
            requires_python: _,
            extras: _,
            groups: _,
            default_groups: _,
        } = self;
    }
}

impl Head {
    /// The head of the document, whose keys are judged in their order.
    #[tactic(auto, using(crate::proofs::kept), unfolding(crate::specs::Lock::Head::head_in))]
    pub(crate) fn read(alloc: Global, mut document: Table) -> Result<Head, LockError>
        ensures { Gives LockError.Memory (λ h. h) result (head_in
            (get_member (codes "environments") (table_view document))
            (get_member (codes "requires-python") (table_view document))
            (get_member (codes "extras") (table_view document))
            (get_member (codes "dependency-groups") (table_view document))
            (get_member (codes "default-groups") (table_view document))) }
    {
        let environments = read_environments(alloc, take(&mut document, "environments"))?;
        let requires_python = read_requires_python(alloc, take(&mut document, "requires-python"))?;
        let extras = read_head_names(alloc, HeadKey::Extras, take(&mut document, "extras"))?;
        let groups = take(&mut document, "dependency-groups");
        let groups = read_head_names(alloc, HeadKey::DependencyGroups, groups)?;
        let default_groups = take(&mut document, "default-groups");
        let default_groups = read_head_names(alloc, HeadKey::DefaultGroups, default_groups)?;
        Ok(Head {
            environments,
            requires_python,
            extras,
            groups,
            default_groups,
        })
    }

    /// The markers of the key `environments`, in their order: the lock is for an environment where
    /// one of them is true, or for every one where there is none.
    pub fn environments(&self) -> &[Marker]
        ensures { result.now ≡ self.now.environments }
    {
        self.environments.as_slice()
    }

    /// The key `requires-python`.
    pub fn requires_python(&self) -> Option<&SpecifierSet>
        ensures { option_copied result ≡ self.now.requires_python }
    {
        self.requires_python.as_ref()
    }

    /// The names of the key `extras`.
    pub fn extras(&self) -> &HeadNames
        ensures { result.now ≡ self.now.extras }
    {
        &self.extras
    }

    /// The names of the key `dependency-groups`.
    pub fn groups(&self) -> &HeadNames
        ensures { result.now ≡ self.now.groups }
    {
        &self.groups
    }

    /// The names of the key `default-groups`.
    pub fn default_groups(&self) -> &HeadNames
        ensures { result.now ≡ self.now.default_groups }
    {
        &self.default_groups
    }
}

impl FromValue for Marker {
    ghost form = { marker_field };

    fn from_value(alloc: Global, value: Value) -> Result<Marker, FieldError> {
        let text = into_text(value)?;
        Marker::read(alloc, text.as_str())
    }
}

fn read_environments(alloc: Global, field: Option<Value>) -> Result<Vec<Marker>, LockError>
    ensures { Gives LockError.Memory (λ v. v.items) result
        (environments_in (option_map view field)) }
{
    or_refused(
        LockError::Head(HeadKey::Environments),
        read_list(alloc, field),
    )
}

fn read_requires_python(
    alloc: Global,
    field: Option<Value>,
) -> Result<Option<SpecifierSet>, LockError>
    ensures { Gives LockError.Memory (λ s. s) result
        (head_requires_python_in (option_map view field)) }
{
    let set = optional_field(field, |value| specifier_set(alloc, value));
    or_refused(LockError::Head(HeadKey::RequiresPython), set)
}

fn specifier_set(alloc: Global, value: Value) -> Result<SpecifierSet, FieldError>
    ensures { Gives FieldError.Memory (λ s. s) result (set_field (view value)) }
{
    let text = into_text(value)?;
    read_set(alloc, text.as_str())
}

/// The names of a key, in normal form, each once.
fn read_head_names(
    alloc: Global,
    key: HeadKey,
    field: Option<Value>,
) -> Result<HeadNames, LockError>
    ensures { Gives LockError.Memory (λ names. names) result
        (head_names_in key (option_map view field)) }
{
    or_refused(LockError::Head(key), names(alloc, field))
}

fn names(alloc: Global, field: Option<Value>) -> Result<HeadNames, FieldError>
    ensures { Gives FieldError.Memory (λ names. names) result (names_in (option_map view field)) }
{
    let values = items(alloc, field)?;
    let names = read_names(alloc, values)?;
    Ok(HeadNames::of(alloc, names)?)
}

#[tactic(auto, using(crate::proofs::PrefixLemmas::prefix_more))]
fn read_names(alloc: Global, values: Vec<Value>) -> Result<Vec<String>, FieldError>
    ensures { Gives FieldError.Memory (λ v. map string_bytes v.items) result
        (read_each name_of (items_view values.items)) }
{
    let mut names = Vec::with_capacity(alloc, values.len())?;
    for value in values {
        names.push(into_name(alloc, value)?.into_string())?;
    }
    Ok(names)
}
