//! How texts are read, and how values and refusals are told. What is generic here opens no value.

use case_files::text;
use std::alloc::{AllocError, Global};
use std::error::Error;
use std::fmt::{Debug, Display};
use toml::Table;

/// What the text of the key is read as.
pub(crate) fn read<T, E: Error + Drop, P: Fn(Global, &str) -> Result<T, E> + Copy>(
    alloc: Global,
    case: &Table,
    key: &str,
    parse: P,
) -> anyhow::Result<T>
    requires { P.IsAlwaysCallable parse }
{
    let text = text(alloc, case, key)?;
    Ok(parse(alloc, text.as_str())?)
}

/// What is told of what the text of the key is read as, or why it is refused.
pub(crate) fn tell<T: Drop, E: Debug + Display + Drop, P, F>(
    alloc: Global,
    case: &Table,
    key: &str,
    parse: P,
    tell: F,
) -> anyhow::Result<String>
where
    P: Fn(Global, &str) -> Result<T, E> + Copy,
    F: Fn(Global, &T) -> anyhow::Result<String> + Copy,
    requires parses { P.IsAlwaysCallable parse }
    requires tells { F.IsAlwaysCallable tell }
{
    let text = text(alloc, case, key)?;
    match parse(alloc, text.as_str()) {
        Ok(value) => tell(alloc, &value),
        Err(refusal) => refused(alloc, &refusal),
    }
}

/// Whether `is_same` holds of what `left` is read as and of a copy of what `right` is.
pub(crate) fn compare<T: Clone + Drop, E: Error + Drop, P, F>(
    alloc: Global,
    case: &Table,
    parse: P,
    is_same: F,
) -> anyhow::Result<String>
where
    P: Fn(Global, &str) -> Result<T, E> + Copy,
    F: Fn(&T, &T) -> bool + Copy,
    requires parses { P.IsAlwaysCallable parse }
    requires compares { F.IsAlwaysCallable is_same }
{
    let left = read(alloc, case, "left", parse)?;
    let right = read(alloc, case, "right", parse)?;
    Ok(is_same(&left, &right.clone()?).to_string(alloc)?)
}

/// The word of a refusal, and its name. Want of memory is no answer: it ends the program.
pub(crate) fn refused<E: Debug + Display>(alloc: Global, refusal: &E) -> anyhow::Result<String> {
    let word = shown_text(alloc, refusal)?;
    if word.as_str() == "memory" {
        return Err(anyhow::anyhow!("memory"));
    }
    Ok(format!(in alloc; "{word}, {refusal:?}")?)
}

/// What is told of the value, with what is told of its copy where that is something else.
pub(crate) fn with_copy<T: Clone + Drop, F: Fn(Global, &T) -> Result<String, AllocError> + Copy>(
    alloc: Global,
    value: &T,
    tell: F,
) -> anyhow::Result<String>
    requires { F.IsAlwaysCallable tell }
{
    let told = tell(alloc, value)?;
    let copied = tell(alloc, &value.clone()?)?;
    if copied.as_str() == told.as_str() {
        return Ok(told);
    }
    Ok(format!(in alloc; "{told}, but its copy {copied}")?)
}

/// The text that the value prints, with that of its copy where it prints another.
pub(crate) fn printed_text<T: Display + Clone + Drop>(
    alloc: Global,
    value: &T,
) -> anyhow::Result<String> {
    with_copy(alloc, value, shown_text)
}

/// The text that the value prints, with a note where it prints another with options.
fn shown_text<T: Display>(alloc: Global, value: &T) -> Result<String, AllocError> {
    let text = value.to_string(alloc)?;
    if text.len() > 80 || prints_with_options(alloc, value, text.as_str())? {
        return Ok(text);
    }
    format!(in alloc; "{text}, but with options another text")
}

/// Whether the value prints this text of at most 80 bytes with options too; white space may stand
/// round it.
fn prints_with_options<T: Display>(
    alloc: Global,
    value: &T,
    text: &str,
) -> Result<bool, AllocError> {
    let wide = format!(in alloc; "{value:>90}")?;
    let short = format!(in alloc; "{value:90.80}")?;
    let long = format!(in alloc; "{value:#}")?;
    Ok(wide.trim() == text && short.trim() == text && long.as_str() == text)
}

/// What the value prints in a width, in a width with a precision, and in the long form.
pub(crate) fn filled_text<T: Display>(alloc: Global, value: &T) -> Result<String, AllocError> {
    format!(in alloc; "|{value:>20}|{value:20.9}|{value:#}|")
}

/// Of a text that is too long to be shown: how many bytes it has, whether it is that of the key,
/// and whether it begins and ends as the case says.
pub(crate) fn measure_text(
    alloc: Global,
    case: &Table,
    key: &str,
    shown: &str,
) -> anyhow::Result<String> {
    let given = text(alloc, case, key)?;
    let begins = text(alloc, case, "begins")?;
    let ends = text(alloc, case, "ends")?;
    let has_begin = shown.starts_with(begins.as_str());
    let has_end = shown.ends_with(ends.as_str());
    Ok(format!(in alloc;
        "{} bytes, as given {}, begins {has_begin}, ends {has_end}",
        shown.len(),
        shown == given.as_str()
    )?)
}
