//! Specifiers and sets of them: their texts, and what they admit.

use crate::told::{measure_text, printed_text, read, tell};
use case_files::{text, texts};
use pyver_core::{Operator, Specifier, SpecifierSet, Version};
use std::alloc::{AllocError, Global};
use toml::Table;

/// The specifiers of `set`, each with its operator before it, and a prefix with its parts after.
pub(crate) fn tell_items(alloc: Global, case: &Table) -> anyhow::Result<String> {
    let set = read(alloc, case, "set", SpecifierSet::parse)?;
    let mut items = String::new(alloc);
    for specifier in set.items() {
        let operator = printed_text(alloc, &specifier.operator())?;
        let printed = printed_text(alloc, specifier)?;
        writeln!(items, "{operator}  {printed}")?;
        push_prefix(&mut items, specifier)?;
    }
    Ok(items)
}

fn push_prefix(items: &mut String, specifier: &Specifier) -> Result<(), AllocError> {
    match specifier {
        Specifier::EqualPrefix(prefix) | Specifier::NotEqualPrefix(prefix) => {
            let (epoch, release) = (prefix.epoch(), prefix.release());
            writeln!(items, "epoch {epoch}, release {release:?}")
        }
        _ => Ok(()),
    }
}

/// How many specifiers the long `set` has, and what is to be seen of its text; or why it is
/// refused.
pub(crate) fn measure(alloc: Global, case: &Table) -> anyhow::Result<String> {
    tell(alloc, case, "set", SpecifierSet::parse, |alloc, set| {
        let printed = printed_text(alloc, set)?;
        let measured = measure_text(alloc, case, "set", printed.as_str())?;
        let joined = join_specifiers(alloc, set.items())?;
        let (count, is_joined) = (set.items().len(), joined.as_str() == printed.as_str());
        Ok(format!(in alloc; "{count} specifiers, joined {is_joined}, {measured}")?)
    })
}

/// The texts of the specifiers, with a comma between two of them.
fn join_specifiers(alloc: Global, specifiers: &[Specifier]) -> Result<String, AllocError> {
    let mut joined = String::new(alloc);
    for specifier in specifiers {
        if !joined.is_empty() {
            joined.push_str(",")?;
        }
        write!(joined, "{specifier}")?;
    }
    Ok(joined)
}

/// Whether `set` admits `version`.
pub(crate) fn admit(alloc: Global, case: &Table) -> anyhow::Result<String> {
    let set = read(alloc, case, "set", SpecifierSet::parse)?;
    let version = read(alloc, case, "version", Version::parse)?;
    Ok(set.admits(&version).to_string(alloc)?)
}

/// The specifier of `operator` and `operand`, or why it is refused.
pub(crate) fn make_specifier(alloc: Global, case: &Table) -> anyhow::Result<String> {
    let operator = operator(alloc, case)?;
    tell(
        alloc,
        case,
        "operand",
        |alloc, operand| Specifier::new(alloc, operator, operand),
        printed_text,
    )
}

/// Whether the specifier of `operator` and `operand` admits `version`.
pub(crate) fn admit_alone(alloc: Global, case: &Table) -> anyhow::Result<String> {
    let operator = operator(alloc, case)?;
    let specifier = read(alloc, case, "operand", |alloc, operand| {
        Specifier::new(alloc, operator, operand)
    })?;
    let version = read(alloc, case, "version", Version::parse)?;
    Ok(specifier.admits(&version).to_string(alloc)?)
}

/// The operator that `operator` is.
fn operator(alloc: Global, case: &Table) -> anyhow::Result<Operator> {
    match Operator::read(text(alloc, case, "operator")?.as_str()) {
        Some((operator, "")) => Ok(operator),
        _ => Err(anyhow::anyhow!("no operator")),
    }
}

/// The set of the specifiers that `specifiers` write.
pub(crate) fn join(alloc: Global, case: &Table) -> anyhow::Result<String> {
    let mut specifiers = Vec::new(alloc);
    for text in texts(alloc, case, "specifiers")? {
        specifiers.push(Specifier::parse(alloc, text)?)?;
    }
    printed_text(alloc, &SpecifierSet::from_specifiers(alloc, specifiers)?)
}

/// The operator at the front of `text`, with what stands after it.
pub(crate) fn cut(alloc: Global, case: &Table) -> anyhow::Result<String> {
    let text = text(alloc, case, "text")?;
    Ok(format!(in alloc; "{:?}", Operator::read(text.as_str()))?)
}
