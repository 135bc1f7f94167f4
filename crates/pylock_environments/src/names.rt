//! Values under names.

ghost use Rattle.std.specs.Prelude.{◌≡◌, ◌++◌, ℕ, List, [], ◌∷◌, OnOk, if◌then◌else◌};
ghost use Rattle.std.specs.Str.{bytes_eq};
ghost use Rattle.pylock_environments.specs.Inner.{values_under};

use std::alloc::{AllocError, Global};
use std::collections::BTreeMap;

/// A table of values, several under a name.
pub(crate) type Named<'a, V> = BTreeMap<&'a str, Vec<V>>;

/// The values under the name, in the order in which they were added. It takes no memory.
pub(crate) fn values_under<'m, V>(named: &'m Named<'_, V>, name: &str) -> &'m [V]
    ensures { result.now ≡ values_under named.now name.now }
{
    match named.get(name) {
        Some(values) => values.as_slice(),
        None => &[],
    }
}

/// An empty table. It takes no memory.
pub(crate) fn no_values<'a, V>(alloc: Global) -> Named<'a, V>
    ensures { (name : List ℕ) → values_under result name ≡ [] }
{
    BTreeMap::new(alloc)
}

/// Adds a value under the name.
pub(crate) fn add_value<'a, V: Drop>(
    named: &mut Named<'a, V>,
    name: &'a str,
    value: V,
) -> Result<(), AllocError>
    ensures { OnOk result ((other : List ℕ) → values_under named.new other
        ≡ values_under named.old other
        ++ (if bytes_eq other name.now then value ∷ [] else [])) }
{
    named.entry(name)?.or_default().push(value)?;
    Ok(())
}
