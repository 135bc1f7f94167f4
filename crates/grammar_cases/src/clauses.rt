//! The clauses of markers.

use crate::told::read;
use pymark_clauses::{Clause, Literal, both, clauses_of};
use pymark_core::{Comparator, Marker};
use std::alloc::{AllocError, Global};
use toml::{Table, Value};

/// The clauses of `marker`, one a line, for the value `wanted`, true if that is left out; with
/// `other`, those of both.
pub(crate) fn tell(alloc: Global, case: &Table) -> anyhow::Result<String> {
    let marker = read(alloc, case, "marker", Marker::parse)?;
    if case.contains_key("other") {
        let other = read(alloc, case, "other", Marker::parse)?;
        let clauses = clauses_for_both(alloc, case, &marker, &other)?;
        return Ok(clauses_text(alloc, clauses)?);
    }
    let clauses = clauses_for(alloc, case, &marker)?;
    Ok(clauses_text(alloc, clauses)?)
}

fn clauses_for<'a>(
    alloc: Global,
    case: &Table,
    marker: &'a Marker,
) -> Result<Option<Vec<Clause<'a>>>, AllocError> {
    let wanted = case.get("wanted").and_then(Value::as_bool).unwrap_or(true);
    clauses_of(alloc, marker, wanted, most(case))
}

fn clauses_for_both<'a>(
    alloc: Global,
    case: &Table,
    first: &'a Marker,
    second: &'a Marker,
) -> Result<Option<Vec<Clause<'a>>>, AllocError> {
    let first = clauses_for(alloc, case, first)?;
    let second = clauses_for(alloc, case, second)?;
    match (first, second) {
        (Some(first), Some(second)) => both(alloc, first.as_slice(), second.as_slice(), most(case)),
        _ => Ok(None),
    }
}

/// The most clauses, a thousand if that is left out.
fn most(case: &Table) -> usize {
    let most = case.get("most").and_then(Value::as_integer);
    most.and_then(|most| usize::try_from(most).ok())
        .unwrap_or(1000)
}

fn clauses_text(alloc: Global, clauses: Option<Vec<Clause<'_>>>) -> Result<String, AllocError> {
    let Some(clauses) = clauses else {
        return String::from_str(alloc, "too many");
    };
    let mut told = String::new(alloc);
    for clause in &clauses {
        if !told.is_empty() {
            told.push('\n')?;
        }
        push_clause(&mut told, clause)?;
    }
    Ok(told)
}

fn push_clause(told: &mut String, clause: &Clause<'_>) -> Result<(), AllocError> {
    for (number, literal) in clause.iter().enumerate() {
        if number > 0 {
            told.push_str(", ")?;
        }
        push_literal(told, literal)?;
    }
    Ok(())
}

fn push_literal(told: &mut String, literal: &Literal<'_>) -> Result<(), AllocError> {
    if !literal.wanted {
        told.push_str("not ")?;
    }
    let comparison = literal.comparison;
    push_operand(told, comparison.left_word(), comparison.left_text())?;
    match comparison.comparator() {
        Comparator::By(operator) => write!(told, " {operator} ")?,
        Comparator::In => told.push_str(" in ")?,
        Comparator::NotIn => told.push_str(" not in ")?,
    }
    push_operand(told, comparison.right_word(), comparison.right_text())
}

/// The word, or the text in quotes.
fn push_operand(
    told: &mut String,
    word: Option<&str>,
    text: Option<&str>,
) -> Result<(), AllocError> {
    match (word, text) {
        (Some(word), _) => told.push_str(word),
        (None, Some(text)) => write!(told, "{text:?}"),
        (None, None) => Ok(()),
    }
}
