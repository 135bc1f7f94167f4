//! Each key of a lock's head, of an entry and of a source: of its form, of another, and absent.

use crate::{entries, locks};
use case_files::{text, texts};
use std::alloc::{AllocError, Global};
use toml::Table;

/// For each key: what is answered where it is of its form as all the others, where it is of another
/// form, where it is absent, and where it and those after it are of another form. They stand in
/// `right` and `wrong`, of their form and of another, in the order in which they are judged.
pub(crate) fn answer_case(alloc: Global, case: &Table) -> anyhow::Result<String> {
    let right = texts(alloc, case, "right")?;
    let wrong = texts(alloc, case, "wrong")?;
    let mut told = String::new(alloc);
    for place in 0..right.len() {
        let before = right.get(..place).unwrap_or(&[]);
        let here = right.get(place..).unwrap_or(&[]);
        let wrong = wrong.get(place..).unwrap_or(&[]);
        push_key(&mut told, alloc, case, before, here, wrong)?;
    }
    Ok(told)
}

/// The four answers on the first key of `here` and of `wrong`.
fn push_key<'a>(
    told: &mut String,
    alloc: Global,
    case: &Table,
    before: &'a [&'a str],
    here: &'a [&'a str],
    wrong: &'a [&'a str],
) -> anyhow::Result<()> {
    let Some((key, behind)) = here.split_first() else {
        return Ok(());
    };
    let whole = answer_keys(alloc, case, &[before, here])?;
    let other = answer_keys(
        alloc,
        case,
        &[before, wrong.get(..1).unwrap_or(&[]), behind],
    )?;
    let absent = answer_keys(alloc, case, &[before, behind])?;
    let others = answer_keys(alloc, case, &[before, wrong])?;
    Ok(writeln!(told, "{key}: {whole}, {other}, {absent}, {others}")?)
}

/// `ok`, or why the lock or the entry is refused that has these keys.
fn answer_keys(alloc: Global, case: &Table, keys: &[&[&str]]) -> anyhow::Result<String> {
    let text = spell_keys(alloc, case, keys)?;
    if case.contains_key("front") {
        return Ok(entries::judge_text(alloc, text.as_str())?);
    }
    Ok(locks::judge_bytes(alloc, text.as_bytes())?)
}

/// The keys between `front` and `back`, with `end` after each.
fn spell_keys(alloc: Global, case: &Table, keys: &[&[&str]]) -> anyhow::Result<String> {
    let mut spelled = text(alloc, case, "front")?;
    let end = text(alloc, case, "end")?;
    for some in keys {
        push_all(&mut spelled, some, end.as_str())?;
    }
    spelled.push_str(text(alloc, case, "back")?.as_str())?;
    Ok(spelled)
}

fn push_all(spelled: &mut String, keys: &[&str], end: &str) -> Result<(), AllocError> {
    for key in keys {
        spelled.push_str(key)?;
        spelled.push_str(end)?;
    }
    Ok(())
}
