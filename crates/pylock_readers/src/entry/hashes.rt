//! Hashes of sources.
ghost use Rattle.std.specs.Prelude.{◌≡◌, option_map};
ghost use Rattle.toml.specs.View.{view, table_view};
ghost use Rattle.pytext.specs.Agreement.{Gives};
ghost use Rattle.pylock_readers.specs.Entry.Sources.{hashes_in, pairs_of};
ghost use Rattle.pylock_readers.specs.Text.{text_pairs};

use crate::field::{FieldError, into_table, into_text};
use std::alloc::Global;
use toml::{Table, Value};

/// The pairs of algorithm and value of the key `hashes`, in byte order of the algorithm.
pub(crate) fn hashes(
    alloc: Global,
    field: Option<Value>,
) -> Result<Vec<(String, String)>, FieldError>
    ensures { Gives FieldError.Memory (λ v. text_pairs v.items) result
        (hashes_in (option_map view field)) }
{
    match field {
        None => Ok(Vec::new(alloc)),
        Some(value) => pairs(alloc, into_table(value)?),
    }
}

fn pairs(alloc: Global, table: Table) -> Result<Vec<(String, String)>, FieldError>
    ensures { Gives FieldError.Memory (λ v. text_pairs v.items) result
        (pairs_of (table_view table)) }
{
    let mut pairs = Vec::with_capacity(alloc, table.len())?;
    for (algorithm, value) in table {
        pairs.push((algorithm, into_text(value)?))?;
    }
    Ok(pairs)
}
