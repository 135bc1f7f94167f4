//! The value of a marker's tree (PEP 508, "Environment Markers"), where `extra` has a text or none.

ghost use Rattle.std.specs.Prelude.{◌≡◌};
ghost use Rattle.std.specs.Option.{option_copied};
ghost use Rattle.pytext.specs.Agreement.{Gives};
ghost use Rattle.pymark_core.specs.Marker.Value.{atom_value, conjunction_value, value_with};
ghost use Rattle.pymark_core.specs.Marker.View.{atom_view, conjunction_view, tree_view};

use super::tree::{Atom, Conjunction, Tree};
use crate::environment::Environment;
use crate::fault::EvalFault;
use std::alloc::Global;

/// The value of conjunctions joined by `or`. Each is judged, also where an earlier one is true, so
/// that the first fault of the text is found.
#[cycle(value)]
pub(super) fn tree_value(
    alloc: Global,
    environment: &Environment,
    extra: Option<&str>,
    tree: &Tree,
) -> Result<bool, EvalFault>
    ensures { Gives EvalFault.Memory (λ b. b) result
        (value_with (option_copied extra.entry) environment.now (tree_view tree.now)) }
{
    let mut value = false;
    for conjunction in &tree.earlier {
        let next = conjunction_value(alloc, environment, extra, conjunction)?;
        value = value || next;
    }
    let last = conjunction_value(alloc, environment, extra, &tree.last)?;
    Ok(value || last)
}

/// The value of atoms joined by `and`. Each is judged, also where an earlier one is false.
#[cycle(value)]
fn conjunction_value(
    alloc: Global,
    environment: &Environment,
    extra: Option<&str>,
    conjunction: &Conjunction,
) -> Result<bool, EvalFault>
    ensures { Gives EvalFault.Memory (λ b. b) result
        (conjunction_value (option_copied extra.entry) environment.now
        (conjunction_view conjunction.now)) }
{
    let mut value = true;
    for atom in &conjunction.earlier {
        let next = atom_value(alloc, environment, extra, atom)?;
        value = value && next;
    }
    let last = atom_value(alloc, environment, extra, &conjunction.last)?;
    Ok(value && last)
}

/// The value of a comparison, or of a marker in parentheses.
#[cycle(value)]
fn atom_value(
    alloc: Global,
    environment: &Environment,
    extra: Option<&str>,
    atom: &Atom,
) -> Result<bool, EvalFault>
    ensures { Gives EvalFault.Memory (λ b. b) result
        (atom_value (option_copied extra.entry) environment.now (atom_view atom.now)) }
{
    match atom {
        Atom::Leaf(comparison) => comparison.evaluate(alloc, environment, extra),
        Atom::Group(inner) => tree_value(alloc, environment, extra, inner),
    }
}
