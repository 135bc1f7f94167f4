//! What a person is told of a finding.

ghost use Rattle.std.specs.Prelude.{◌≡◌, ◌++◌, ℕ, List, IfOk, Some, option_map, string_bytes};
ghost use Rattle.std.specs.Fmt.{decimal};
ghost use Rattle.pymark_core.specs.Environment.{variable_in};
ghost use Rattle.pylock_environments.specs.Detail.{AreWordsOf, IsDetail, python_words};

use crate::finding::Found;
use crate::releases::is_release;
use crate::shell::push_environment;
use pymark_core::{Environment, Var};
use std::alloc::{AllocError, Global};

/// The detail of a finding: the number of the other entry, and of a clash the options that set its
/// environment (` --set os_name=posix --extra tests`); the version of the Python that the entry
/// doesn't admit, and ` (no known release)` where that is none of CPython's up to 3.14.2. A value
/// is shown without secrets (`pylock_shown`): as it stands where its bytes are ASCII letters,
/// digits and `._+-`, and else between quotes, as a POSIX shell reads it.
///
/// It takes memory for the text, and for one value at a time.
pub fn detail(alloc: Global, found: &Found) -> Result<Option<String>, AllocError>
    ensures { IfOk result (λ text. IsDetail found.now (option_map string_bytes text)) }
{
    match found {
        Found::Clash { other, environment } => { Ok(Some(clash_text(alloc, *other, environment)?)) }
        Found::MayClash { other } => Ok(Some(number_text(alloc, *other)?)),
        Found::NarrowerPython { environment } => python_text(alloc, environment),
        Found::Never | Found::MayNever | Found::MayBeNarrower => Ok(None),
    }
}

fn clash_text(alloc: Global, other: usize, environment: &Environment) -> Result<String, AllocError>
    ensures { IfOk result (λ text. (words : List ℕ) × AreWordsOf environment.now words
        × (string_bytes text ≡ decimal other ++ words)) }
{
    let mut text = number_text(alloc, other)?;
    push_environment(alloc, &mut text, environment)?;
    Ok(text)
}

fn number_text(alloc: Global, number: usize) -> Result<String, AllocError>
    ensures { IfOk result (λ text. string_bytes text ≡ decimal number) }
{
    format!(in alloc; "{number}")
}

/// The version of the environment's Python, as it is told.
fn python_text(alloc: Global, environment: &Environment) -> Result<Option<String>, AllocError>
    ensures { IfOk result (λ text. option_map string_bytes text
        ≡ option_map python_words (variable_in Var.PythonFullVersion environment.now)) }
{
    match environment.get(Var::PythonFullVersion) {
        Some(version) => Ok(Some(version_text(alloc, version)?)),
        None => Ok(None),
    }
}

/// The version, and whether CPython has no such release.
fn version_text(alloc: Global, version: &str) -> Result<String, AllocError>
    ensures { IfOk result (λ text. string_bytes text ≡ python_words version.now) }
{
    let mut text = String::from_str(alloc, version)?;
    if !is_release(version) {
        text.push_str(" (no known release)")?;
    }
    Ok(text)
}
