//! What markers ask for that no lock, or not this one, has, and what is read in two ways.

ghost use Rattle.std.specs.Prelude.{◌≡◌, ◌++◌, IfOk, OnOk, map};
ghost use Rattle.std.specs.List.{list_any};
ghost use Rattle.std.specs.Option.{option_copied};
ghost use Rattle.pymark_core.specs.Marker.Asked.{comparison_reads_extra};
ghost use Rattle.pylock_audit.specs.Entry.{asks_undeclared, is_undeclared, of_marker};
ghost use Rattle.pylock_audit.specs.Readings.{differs, differs_by, is_equality, is_operand};
ghost use Rattle.pylock_audit.specs.Readings.{is_other_variable};

use crate::finding::{Finding, FindingKind, push_each, shown_where};
use pylock_core::{Entry, Head};
use pymark_core::{Comparator, Comparison, Var};
use pyver_core::{Operator, Specifier, SpecifierError, normal_name};
use std::alloc::{AllocError, Global};

/// Adds what the marker of an entry gives. Its comparisons are listed once.
pub(crate) fn push_marker(
    alloc: Global,
    findings: &mut Vec<Finding>,
    head: &Head,
    entry: &Entry,
) -> Result<(), AllocError>
    ensures { OnOk result (findings.new.items
        ≡ findings.old.items ++ of_marker head.now entry.now) }
{
    let Some(marker) = entry.marker() else {
        return Ok(());
    };
    let listed = marker.comparisons(alloc)?;
    let compared = listed.as_slice();
    let texts = shown_where(alloc, any_extra(compared), marker.text())?;
    push_each(findings, FindingKind::MarkerExtra, texts)?;
    let differs = any_differs(alloc, compared)?;
    let texts = shown_where(alloc, differs, marker.text())?;
    push_each(findings, FindingKind::ReadingsDiffer, texts)?;
    let asked = any_undeclared(alloc, head, compared)?;
    let texts = shown_where(alloc, asked, marker.text())?;
    push_each(findings, FindingKind::UndeclaredName, texts)
}

/// Whether `extra` is one of the operands.
fn any_extra(comparisons: &[&Comparison]) -> bool
    ensures { result ≡ list_any comparison_reads_extra (map (λ c. c.now) comparisons.now) }
{
    for comparison in comparisons {
        if comparison.has_extra() {
            return true;
        }
    }
    false
}

// ---- what is read in two ways

/// Whether a comparison is read in two ways.
fn any_differs(alloc: Global, compared: &[&Comparison]) -> Result<bool, AllocError>
    ensures { IfOk result (λ found. found ≡ list_any differs (map (λ c. c.now) compared.now)) }
{
    for comparison in compared {
        if differs(alloc, comparison)? {
            return Ok(true);
        }
    }
    Ok(false)
}

/// Whether installers may read a comparison as one of texts or of versions. A text is read only
/// where it stands by `==` or `!=` beside a variable that isn't Python's version.
fn differs(alloc: Global, comparison: &Comparison) -> Result<bool, AllocError>
    ensures { IfOk result (λ found. found ≡ differs comparison.now) }
{
    match comparison.comparator() {
        Comparator::By(operator) => differs_by(alloc, operator, comparison),
        Comparator::In | Comparator::NotIn => Ok(false),
    }
}

fn differs_by(
    alloc: Global,
    operator: Operator,
    comparison: &Comparison,
) -> Result<bool, AllocError>
    ensures { IfOk result (λ found. found ≡ differs_by (Comparator.By operator) comparison.now) }
{
    let left = is_other_variable(comparison.left_variable());
    if !(left || is_other_variable(comparison.right_variable())) {
        return Ok(false);
    }
    if !is_equality(operator) || is_operand(alloc, operator, comparison.left_text())? {
        return Ok(true);
    }
    is_operand(alloc, operator, comparison.right_text())
}

/// Whether it is a variable other than those of Python's version, whose value may be no version.
fn is_other_variable(variable: Option<Var>) -> bool
    ensures { result ≡ is_other_variable variable }
{
    match variable {
        Some(Var::PythonVersion | Var::PythonFullVersion) | None => false,
        Some(_) => true,
    }
}

fn is_equality(operator: Operator) -> bool
    ensures { result ≡ is_equality operator }
{
    matches!(operator, Operator::Equal | Operator::NotEqual)
}

/// Whether a text is there and is an operand of the operator. One that isn't takes no memory.
fn is_operand(alloc: Global, operator: Operator, text: Option<&str>) -> Result<bool, AllocError>
    ensures { IfOk result (λ is. is ≡ is_operand operator (option_copied text.entry)) }
{
    let Some(text) = text else {
        return Ok(false);
    };
    match Specifier::new(alloc, operator, text) {
        Ok(_) | Err(SpecifierError::NumberTooLarge) => Ok(true),
        Err(SpecifierError::Memory) => Err(AllocError),
        Err(SpecifierError::Syntax) => Ok(false),
    }
}

// ---- what is asked for

/// Whether an extra or a group is asked for that the head doesn't declare.
fn any_undeclared(alloc: Global, head: &Head, compared: &[&Comparison]) -> Result<bool, AllocError>
    ensures { IfOk result (λ found. found
        ≡ list_any (asks_undeclared head.now) (map (λ c. c.now) compared.now)) }
{
    for comparison in compared {
        if asks_undeclared(alloc, head, comparison)? {
            return Ok(true);
        }
    }
    Ok(false)
}

fn asks_undeclared(alloc: Global, head: &Head, comparison: &Comparison) -> Result<bool, AllocError>
    ensures { IfOk result (λ found. found ≡ asks_undeclared head.now comparison.now) }
{
    if asks_undeclared_extra(alloc, head, comparison.extra_asked())? {
        return Ok(true);
    }
    asks_undeclared_group(alloc, head, comparison.group_asked())
}

fn asks_undeclared_extra(alloc: Global, head: &Head, name: Option<&str>) -> Result<bool, AllocError>
    ensures { IfOk result (λ found. found
        ≡ is_undeclared head.now.extras (option_copied name.entry)) }
{
    let Some(name) = name else {
        return Ok(false);
    };
    let name = normal_name(alloc, name)?;
    Ok(!head.extras().has(name.as_str()))
}

fn asks_undeclared_group(alloc: Global, head: &Head, name: Option<&str>) -> Result<bool, AllocError>
    ensures { IfOk result (λ found. found
        ≡ is_undeclared (head.now.groups ++ head.now.default_groups) (option_copied name.entry)) }
{
    let Some(name) = name else {
        return Ok(false);
    };
    let name = normal_name(alloc, name)?;
    Ok(!(head.groups().has(name.as_str()) || head.default_groups().has(name.as_str())))
}
