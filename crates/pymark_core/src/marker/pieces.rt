//! A marker's tree as a list of pieces.

ghost use Rattle.std.specs.Prelude.{◌≡◌, ◌++◌, OnOk, map};
ghost use Rattle.pymark_core.specs.Marker.Pieces.{atom_pieces, conjunction_pieces, piece_view};
ghost use Rattle.pymark_core.specs.Marker.Pieces.{tree_pieces};
ghost use Rattle.pymark_core.specs.Marker.View.{atom_view, conjunction_view, tree_view};

use super::tree::{Atom, Conjunction, Tree};
use crate::comparison::Comparison;
use std::alloc::AllocError;

/// What a marker is made of (PEP 508, "Grammar").
#[derive(Clone, Copy)]
pub enum Piece<'a> {
    /// A comparison.
    Comparison(&'a Comparison),
    /// `and`
    And,
    /// `or`
    Or,
    /// `(`
    Open,
    /// `)`
    Close,
}

/// Adds the pieces of conjunctions joined by `or`.
#[cycle(pieces)]
pub(super) fn push_tree<'a>(list: &mut Vec<Piece<'a>>, tree: &'a Tree) -> Result<(), AllocError>
    ensures { OnOk result (map piece_view list.new.items
        ≡ map piece_view list.old.items ++ tree_pieces (tree_view tree.now)) }
{
    for conjunction in &tree.earlier {
        push_conjunction(list, conjunction)?;
        list.push(Piece::Or)?;
    }
    push_conjunction(list, &tree.last)
}

/// Adds those of atoms joined by `and`.
#[cycle(pieces)]
fn push_conjunction<'a>(
    list: &mut Vec<Piece<'a>>,
    conjunction: &'a Conjunction,
) -> Result<(), AllocError>
    ensures { OnOk result (map piece_view list.new.items ≡ map piece_view list.old.items
        ++ conjunction_pieces (conjunction_view conjunction.now)) }
{
    for atom in &conjunction.earlier {
        push_atom(list, atom)?;
        list.push(Piece::And)?;
    }
    push_atom(list, &conjunction.last)
}

/// Adds a comparison, or a marker in parentheses.
#[cycle(pieces)]
fn push_atom<'a>(list: &mut Vec<Piece<'a>>, atom: &'a Atom) -> Result<(), AllocError>
    ensures { OnOk result (map piece_view list.new.items
        ≡ map piece_view list.old.items ++ atom_pieces (atom_view atom.now)) }
{
    match atom {
        Atom::Leaf(comparison) => Ok(list.push(Piece::Comparison(comparison))?),
        Atom::Group(inner) => {
            list.push(Piece::Open)?;
            push_tree(list, inner)?;
            Ok(list.push(Piece::Close)?)
        }
    }
}
