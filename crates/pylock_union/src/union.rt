//! The union of the files of several locks.

ghost use Rattle.std.specs.Prelude.{◌≡◌, [], IfOk};
ghost use Rattle.pylock_union.specs.Answer.{IsUnion};
ghost use Rattle.pylock_union.specs.Listed.{all_lent};
ghost use Rattle.pylock_union.specs.Union.{firsts_after, united};
ghost use Rattle.pylock_union.specs.declared.union.UnionError.TheVariants as union_error;

use crate::claims::{claims_of, first_clash};
use crate::key::file_key;
use crate::listed::LockSource;
use std::alloc::{AllocError, Global};
use std::collections::BTreeSet;
use std::marker::Model;

/// Two sources that are one file, of which they say different hashes of one algorithm.
///
/// Contracts see what is lent.
#[derive(Drop)]
pub struct Clash<'a> {
    /// The earlier of them.
    pub earlier: LockSource<'a>,
    /// The first source of the list that contradicts an earlier one.
    pub later: LockSource<'a>,
}

impl<'a> Model for Clash<'a> {
    ghost use Rattle.std.specs.Coded.{codes};
    ghost use Rattle.pymark_core.specs.Marker.Coding.{marker_code};
    ghost use Rattle.pylock_union.specs.Listed.{LockSourceValue, lent};

    ghost Value = { LockSourceValue × LockSourceValue };

    ghost coded = { Prim.hlevel (codes, marker_code) };

    ghost view = { λ c. (lent c.earlier, lent c.later) };
}

/// Why there is no union.
#[derive(Drop)]
pub enum UnionError<'a> {
    /// Two sources differ.
    Differ(Clash<'a>),
    /// Memory was refused.
    Memory,
}

impl<'a, E: Into<AllocError> + Drop> From<E> for UnionError<'a> {
    ghost from_gives = { λ _ error. error ≡ union_error.Memory };

    fn from(_refused: E) -> UnionError<'a> {
        UnionError::Memory
    }
}

/// Each file of a list once, for the first source that is it, in the list's order.
///
/// Two sources are one file where they have the same file name; a checkout, a directory or an
/// archive has none, and is the same as another of its kind, place, revision and subdirectory. The
/// union is refused with two sources of one file whose hashes of one algorithm have different
/// values: the later is the first source of the list that differs from an earlier one, and by the
/// first of its algorithms at which it does, the earlier is the first that it differs from.
///
/// It takes memory for the list, for a list and a table of the hashes, and for a set of the files;
/// the work is that of as many look-ups.
pub fn union_of<'a>(
    alloc: Global,
    list: &[LockSource<'a>],
) -> Result<Vec<LockSource<'a>>, UnionError<'a>>
    ensures { IsUnion result (united (all_lent list.now)) }
{
    let claims = claims_of(alloc, list)?;
    if let Some((earlier, later)) = first_clash(alloc, claims.as_slice())? {
        return Err(UnionError::Differ(Clash {
            earlier: earlier.source,
            later: later.source,
        }));
    }
    Ok(first_of_each(alloc, list)?)
}

/// Each file once, for the first source that is it.
fn first_of_each<'a>(
    alloc: Global,
    list: &[LockSource<'a>],
) -> Result<Vec<LockSource<'a>>, AllocError>
    ensures { IfOk result (λ firsts. all_lent firsts.items ≡ firsts_after [] (all_lent list.now)) }
{
    let mut firsts = Vec::new(alloc);
    let mut seen = BTreeSet::new(alloc);
    for source in list {
        if seen.insert(file_key(alloc, source.source)?)? {
            firsts.push(*source)?;
        }
    }
    Ok(firsts)
}
