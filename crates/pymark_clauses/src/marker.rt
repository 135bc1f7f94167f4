//! The clauses of which one holds wherever a marker has a value.

ghost use Rattle.std.specs.Prelude.{◌≡◌, ◌≤◌, [], Bool, IfOk, IfSome, Ok, map, not, vec_len};
ghost use Rattle.pymark_core.specs.Environment.{EnvironmentValue};
ghost use Rattle.pymark_core.specs.Marker.Pieces.{piece_view};
ghost use Rattle.pymark_core.specs.Marker.Value.{marker_value};
ghost use Rattle.pymark_clauses.specs.Clauses.{SomeHolds};
ghost use Rattle.pymark_clauses.specs.Groups.{Reaches, empty, value_from};

use crate::clauses::Clause;
use crate::groups::{Form, Groups};
use pymark_core::{Marker, Piece};
use std::alloc::{AllocError, Global};

/// The clauses of which one holds wherever the marker has this value, and none where it has the
/// other, or `None` where there would be more than `most`.
///
/// `extra` has no text, as in a lock. It takes memory for that many clauses, each of which has at
/// most the comparisons of the marker, and time linear in the marker.
pub fn clauses_of<'a>(
    alloc: Global,
    marker: &'a Marker,
    wanted: bool,
    most: usize,
) -> Result<Option<Vec<Clause<'a>>>, AllocError>
    ensures holds { IfOk result (λ found. IfSome found (λ clauses. (e : EnvironmentValue)
        → marker_value e marker.now.tree ≡ Ok wanted → SomeHolds e clauses.items)) }
    ensures only { IfOk result (λ found. IfSome found (λ clauses. (e : EnvironmentValue)
        → marker_value e marker.now.tree ≡ Ok (not wanted) → SomeHolds e clauses.items → ⊥)) }
    ensures few { IfOk result (λ found. IfSome found (λ clauses. vec_len clauses ≤ most)) }
{
    let pieces = marker.pieces(alloc)?;
    let form = Form {
        alloc,
        wanted,
        most,
    };
    match read(&form, pieces.as_slice())? {
        Some(groups) => form.of_group(groups.inner),
        None => Ok(None),
    }
}

/// What is open behind all pieces.
fn read<'a>(form: &Form, pieces: &[Piece<'a>]) -> Result<Option<Groups<'a>>, AllocError>
    ensures { IfOk result (λ found. IfSome found (λ groups. (e : EnvironmentValue) (value : Bool)
        → value_from e empty [] (map piece_view pieces.now) ≡ Ok value
        → Reaches e form.now.wanted groups [] value)) }
{
    let mut groups = Groups {
        outer: Vec::new(form.alloc),
        inner: form.empty()?,
    };
    for piece in pieces {
        groups = match form.pass(groups, *piece)? {
            Some(next) => next,
            None => return Ok(None),
        };
    }
    Ok(Some(groups))
}
