//! Literals and clauses of them.

ghost use Rattle.std.specs.Prelude.{◌≡◌, ◌↔◌, Bool, IfOk, IsTrue, None, Ok};
ghost use Rattle.pymark_core.specs.Environment.{EnvironmentValue};
ghost use Rattle.pymark_core.specs.Marker.Value.{comparison_value};
ghost use Rattle.pymark_clauses.specs.Clauses.{Tells};

use pymark_core::Comparison;
use std::alloc::{AllocError, Global};

/// A comparison of a marker, and the value that is wanted of it.
#[derive(Clone, Copy)]
pub struct Literal<'a> {
    /// The comparison.
    pub comparison: &'a Comparison,
    /// Its value.
    pub wanted: bool,
}

/// Literals that all hold.
pub type Clause<'a> = Vec<Literal<'a>>;

/// The clauses of a value that is the wanted one, or isn't: one that always holds, or none.
pub(crate) fn of_constant<'a>(alloc: Global, is_wanted: bool) -> Result<Vec<Clause<'a>>, AllocError>
    ensures { IfOk result (λ clauses. (e : EnvironmentValue) (wanted value : Bool)
        → (value ≡ wanted) ↔ IsTrue is_wanted → Tells e wanted value clauses.items) }
{
    let mut clauses = Vec::new(alloc);
    if is_wanted {
        clauses.push(Vec::new(alloc))?;
    }
    Ok(clauses)
}

/// The one clause of a comparison alone.
pub(crate) fn of_comparison<'a>(
    alloc: Global,
    comparison: &'a Comparison,
    wanted: bool,
) -> Result<Vec<Clause<'a>>, AllocError>
    ensures { IfOk result (λ clauses. (e : EnvironmentValue) (value : Bool)
        → comparison_value None e comparison.now ≡ Ok value
        → Tells e wanted value clauses.items) }
{
    let mut clause = Vec::new(alloc);
    clause.push(Literal { comparison, wanted })?;
    let mut clauses = Vec::new(alloc);
    clauses.push(clause)?;
    Ok(clauses)
}
