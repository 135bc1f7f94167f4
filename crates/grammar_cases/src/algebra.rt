//! What is true of every version: questions about specifier sets.

use crate::told::{printed_text, read};
use pyver_algebra::{Answer, Bounds, is_disjoint, is_subset, is_unsatisfiable};
use pyver_core::{Specifier, SpecifierSet};
use std::alloc::Global;
use toml::Table;

/// Whether `set` admits no version.
pub(crate) fn ask_of_one(alloc: Global, case: &Table) -> anyhow::Result<String> {
    let set = read(alloc, case, "set", SpecifierSet::parse)?;
    answer_text(alloc, &is_unsatisfiable(alloc, &set)?)
}

/// Whether no version is admitted by `left` and `right`.
pub(crate) fn ask_of_both(alloc: Global, case: &Table) -> anyhow::Result<String> {
    let left = read(alloc, case, "left", SpecifierSet::parse)?;
    let right = read(alloc, case, "right", SpecifierSet::parse)?;
    answer_text(alloc, &is_disjoint(alloc, &left, &right)?)
}

/// Whether `right` admits each version that `left` admits.
pub(crate) fn ask_within(alloc: Global, case: &Table) -> anyhow::Result<String> {
    let left = read(alloc, case, "left", SpecifierSet::parse)?;
    let right = read(alloc, case, "right", SpecifierSet::parse)?;
    answer_text(alloc, &is_subset(alloc, &left, &right)?)
}

/// Whether it is seen that `set` admits no version of which `first` admits the first two numbers.
pub(crate) fn ask_of_first_two(alloc: Global, case: &Table) -> anyhow::Result<String> {
    let set = read(alloc, case, "set", SpecifierSet::parse)?;
    let first = read(alloc, case, "first", Specifier::parse)?;
    let mut bounds = Bounds::new(alloc);
    bounds.add_all(alloc, set.items())?;
    bounds.add_first_two(alloc, &first, true)?;
    Ok(bounds.are_empty().to_string(alloc)?)
}

/// The word of the answer, with the version that shows it.
fn answer_text(alloc: Global, answer: &Answer) -> anyhow::Result<String> {
    match answer {
        Answer::Yes => Ok(String::from_str(alloc, "yes")?),
        Answer::No(version) => {
            let shown = printed_text(alloc, version)?;
            Ok(format!(in alloc; "no, {shown}")?)
        }
        Answer::Undecided => Ok(String::from_str(alloc, "undecided")?),
    }
}
