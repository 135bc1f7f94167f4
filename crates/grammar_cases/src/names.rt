//! Names.

use crate::told::measure_text;
use case_files::text;
use pyver_core::{NormalForm, NormalName, is_name, is_same_name, normal_name};
use std::alloc::{AllocError, Global};
use toml::Table;

/// Whether `text` is a name, and its normal form.
pub(crate) fn answer_case(alloc: Global, case: &Table) -> anyhow::Result<String> {
    let text = text(alloc, case, "text")?;
    let normal = normal_name(alloc, text.as_str())?;
    let mut told = format!(in alloc; "{}, {normal:?}", is_name(text.as_str()))?;
    push_forms(&mut told, alloc, text.as_str(), normal.as_str())?;
    Ok(told)
}

/// The form that is lent where the text has it, the name that is made, and the name that the text
/// itself may become, where they are others.
fn push_forms(
    told: &mut String,
    alloc: Global,
    text: &str,
    normal: &str,
) -> Result<(), AllocError> {
    let form = NormalForm::of(alloc, text)?;
    push_other(told, form.as_str(), normal)?;
    let name = NormalName::new(alloc, text)?;
    push_other(told, name.as_str(), normal)?;
    let name = NormalName::from_string(alloc, String::from_str(alloc, text)?)?;
    push_other(told, name.into_string().as_str(), normal)
}

fn push_other(told: &mut String, text: &str, normal: &str) -> Result<(), AllocError> {
    if text != normal {
        write!(told, ", but {text:?} too")?;
    }
    Ok(())
}

/// Whether `first` and `second` have the same normal form, told from either side.
pub(crate) fn compare(alloc: Global, case: &Table) -> anyhow::Result<String> {
    let first = text(alloc, case, "first")?;
    let second = text(alloc, case, "second")?;
    let is_same = is_same_name(first.as_str(), second.as_str());
    let turned = is_same_name(second.as_str(), first.as_str());
    Ok(format!(in alloc; "{is_same}, {turned}")?)
}

/// Whether the long `text` is a name, and what is to be seen of its normal form.
pub(crate) fn measure(alloc: Global, case: &Table) -> anyhow::Result<String> {
    let text = text(alloc, case, "text")?;
    let normal = normal_name(alloc, text.as_str())?;
    let measured = measure_text(alloc, case, "text", normal.as_str())?;
    Ok(format!(in alloc; "{}, {measured}", is_name(text.as_str()))?)
}
