//! The comparisons of a marker's tree, in order.

ghost use Rattle.std.specs.Prelude.{◌≡◌, ◌++◌, OnOk, map};
ghost use Rattle.pymark_core.specs.Marker.Grammar.{atom_comparisons, comparisons};
ghost use Rattle.pymark_core.specs.Marker.Grammar.{conjunction_comparisons};
ghost use Rattle.pymark_core.specs.Marker.View.{atom_view, conjunction_view, tree_view};

use super::tree::{Atom, Conjunction, Tree};
use crate::comparison::Comparison;
use std::alloc::AllocError;

/// Adds the comparisons of conjunctions joined by `or`.
#[cycle(comparisons)]
pub(super) fn push_tree<'a>(
    list: &mut Vec<&'a Comparison>,
    tree: &'a Tree,
) -> Result<(), AllocError>
    ensures { OnOk result (map (λ c. c.now) list.new.items
        ≡ map (λ c. c.now) list.old.items ++ comparisons (tree_view tree.now)) }
{
    for conjunction in &tree.earlier {
        push_conjunction(list, conjunction)?;
    }
    push_conjunction(list, &tree.last)
}

/// Adds those of atoms joined by `and`.
#[cycle(comparisons)]
fn push_conjunction<'a>(
    list: &mut Vec<&'a Comparison>,
    conjunction: &'a Conjunction,
) -> Result<(), AllocError>
    ensures { OnOk result (map (λ c. c.now) list.new.items ≡ map (λ c. c.now) list.old.items
        ++ conjunction_comparisons (conjunction_view conjunction.now)) }
{
    for atom in &conjunction.earlier {
        push_atom(list, atom)?;
    }
    push_atom(list, &conjunction.last)
}

/// Adds a comparison, or those of a marker in parentheses.
#[cycle(comparisons)]
fn push_atom<'a>(list: &mut Vec<&'a Comparison>, atom: &'a Atom) -> Result<(), AllocError>
    ensures { OnOk result (map (λ c. c.now) list.new.items
        ≡ map (λ c. c.now) list.old.items ++ atom_comparisons (atom_view atom.now)) }
{
    match atom {
        Atom::Leaf(comparison) => Ok(list.push(comparison)?),
        Atom::Group(inner) => push_tree(list, inner),
    }
}
