//! Lists of clauses together: one behind the other, or each of the one with each of the other.

ghost use Rattle.std.specs.Prelude.{◌≡◌, ◌<◌, ◌≤◌, ◌+◌, ◌*◌, [], ◌∷◌, ◌++◌, IfNone, IfOk};
ghost use Rattle.std.specs.Prelude.{IfSome, OnOk, length, vec_len};
ghost use Rattle.pymark_core.specs.Environment.{EnvironmentValue};
ghost use Rattle.pymark_clauses.specs.Clauses.{SomeHolds, lists_of, product, with_each};

use crate::clauses::{Clause, Literal};
use std::alloc::{AllocError, Global};

/// The clauses of two lists together, each of the first with each of the second, or `None` where
/// there would be more than `most`. It takes memory for the clauses, and time linear in that.
pub fn both<'a>(
    alloc: Global,
    first: &[Clause<'a>],
    second: &[Clause<'a>],
    most: usize,
) -> Result<Option<Vec<Clause<'a>>>, AllocError>
    ensures holds { IfOk result (λ found. IfSome found (λ clauses. (e : EnvironmentValue)
        → SomeHolds e first.now → SomeHolds e second.now → SomeHolds e clauses.items)) }
    ensures only { IfOk result (λ found. IfSome found (λ clauses. (e : EnvironmentValue)
        → SomeHolds e clauses.items → SomeHolds e first.now × SomeHolds e second.now)) }
    ensures each { IfOk result (λ found. IfSome found (λ clauses.
        lists_of clauses.items ≡ product (lists_of first.now) (lists_of second.now))) }
    ensures few { IfOk result (λ found. IfSome found (λ clauses. vec_len clauses ≤ most)) }
    ensures many { IfOk result (λ found.
        IfNone found (most < length first.now * length second.now)) }
{
    match first.len().checked_mul(second.len()) {
        Some(count) if count <= most => Ok(Some(product(alloc, first, second)?)),
        _ => Ok(None),
    }
}

/// The same, of lists that aren't needed any more. Where the second is one clause, each of the
/// first is lengthened, so that a long row of those takes time linear in it.
pub(crate) fn multiplied<'a>(
    alloc: Global,
    first: Vec<Clause<'a>>,
    second: Vec<Clause<'a>>,
    most: usize,
) -> Result<Option<Vec<Clause<'a>>>, AllocError>
    ensures each { IfOk result (λ found. IfSome found (λ clauses. lists_of clauses.items
        ≡ product (lists_of first.entry.items) (lists_of second.entry.items))) }
    ensures few { IfOk result (λ found. IfSome found (λ clauses. vec_len clauses ≤ most)) }
{
    match second.as_slice() {
        [clause] if first.len() <= most => {
            Ok(Some(lengthened(alloc, first, clause.as_slice())?))
        }
        _ => both(alloc, first.as_slice(), second.as_slice(), most),
    }
}

/// The first clauses and the second ones, or `None` where they are more than `most`.
pub(crate) fn appended<'a>(
    mut first: Vec<Clause<'a>>,
    mut second: Vec<Clause<'a>>,
    most: usize,
) -> Result<Option<Vec<Clause<'a>>>, AllocError>
    ensures all { IfOk result (λ found. IfSome found (λ clauses.
        clauses.items ≡ first.entry.items ++ second.entry.items)) }
    ensures few { IfOk result (λ found. IfSome found (λ clauses. vec_len clauses ≤ most)) }
{
    if most < first.len() || most - first.len() < second.len() {
        return Ok(None);
    }
    first.append(&mut second)?;
    Ok(Some(first))
}

/// Each of the first clauses with each of the second.
fn product<'a>(
    alloc: Global,
    first: &[Clause<'a>],
    second: &[Clause<'a>],
) -> Result<Vec<Clause<'a>>, AllocError>
    ensures each { IfOk result (λ clauses.
        lists_of clauses.items ≡ product (lists_of first.now) (lists_of second.now)) }
    ensures len { IfOk result (λ clauses. vec_len clauses ≡ length first.now * length second.now) }
{
    let mut clauses = Vec::new(alloc);
    for clause in first {
        push_each(alloc, &mut clauses, clause.as_slice(), second)?;
    }
    Ok(clauses)
}

/// Adds a clause with each of these.
fn push_each<'a>(
    alloc: Global,
    clauses: &mut Vec<Clause<'a>>,
    clause: &[Literal<'a>],
    others: &[Clause<'a>],
) -> Result<(), AllocError>
    ensures each { OnOk result (lists_of clauses.new.items
        ≡ lists_of clauses.old.items ++ with_each clause.now (lists_of others.now)) }
    ensures len { OnOk result (vec_len clauses.new ≡ vec_len clauses.old + length others.now) }
{
    for other in others {
        clauses.push(joined(alloc, clause, other.as_slice())?)?;
    }
    Ok(())
}

/// The literals of both clauses.
fn joined<'a>(
    alloc: Global,
    first: &[Literal<'a>],
    second: &[Literal<'a>],
) -> Result<Clause<'a>, AllocError>
    ensures { IfOk result (λ clause. clause.items ≡ first.now ++ second.now) }
{
    let mut clause = Vec::from_slice(alloc, first)?;
    clause.extend_from_slice(second)?;
    Ok(clause)
}

/// The clauses, each with these literals too.
fn lengthened<'a>(
    alloc: Global,
    clauses: Vec<Clause<'a>>,
    literals: &[Literal<'a>],
) -> Result<Vec<Clause<'a>>, AllocError>
    ensures each { IfOk result (λ longer.
        lists_of longer.items ≡ product (lists_of clauses.entry.items) (literals.now ∷ [])) }
    ensures len { IfOk result (λ longer. vec_len longer ≡ vec_len clauses.entry) }
{
    let mut longer = Vec::with_capacity(alloc, clauses.len())?;
    for mut clause in clauses {
        clause.extend_from_slice(literals)?;
        longer.push(clause)?;
    }
    Ok(longer)
}
