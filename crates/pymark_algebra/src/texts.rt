//! Whether the literals of a clause hold together, by the texts that some of them tell.

ghost use Rattle.std.specs.Prelude.{◌≡◌, IfOk, IsTrue, None};
ghost use Rattle.pyver_core.specs.Version.Reading.{version_of};
ghost use Rattle.pymark_algebra.specs.Refuted.{IsRefuted, IsRefutedBy};

use crate::text::{Told, can_hold_at, told_text};
use pymark_clauses::Literal;
use std::alloc::{AllocError, Global};

/// The most literals of a clause of which each is put to all others, so that the time is linear in
/// the clause.
const MOST_TOLD: usize = 64;

/// Whether one literal tells a variable's text, at which another can't hold.
pub(crate) fn is_refuted(alloc: Global, clause: &[Literal<'_>]) -> Result<bool, AllocError>
    ensures { IfOk result (λ is. IsTrue is → IsRefuted clause.now) }
{
    for literal in clause.iter().take(MOST_TOLD) {
        if let Some(told) = told_text(alloc, literal)? {
            if is_refuted_by(&told, clause) {
                return Ok(true);
            }
        }
    }
    Ok(false)
}

/// Whether some literal can't hold where the variable has the text.
fn is_refuted_by(told: &Told<'_>, clause: &[Literal<'_>]) -> bool
    requires { version_of told.now.text.now ≡ None }
    ensures { IsTrue result → IsRefutedBy told.now clause.now }
{
    for literal in clause {
        if !can_hold_at(literal, told.variable, told.text) {
            return true;
        }
    }
    false
}
