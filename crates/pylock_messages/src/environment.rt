//! Why an environment is refused.

use crate::diagnostic::{Diagnostic, saying};
use crate::other_file::other_than_json;
use crate::platform::{PLATFORMS, meant_platform};
use crate::shown_value::ShownValue;
use crate::syntax::{not_text, wrong_json};
use crate::wrong_part::{Part, PartFault, WrongPart, wrong_in_environment};
use pylock_readers::{EnvError, read_environment, read_target};
use pylock_shown::Shown;
use pymark_core::Var;
use serde_json::Value;
use std::alloc::{AllocError, Global};

/// What is taken as the Python of a target.
const PYTHONS: &str = "neither 3.MINOR nor 3.MINOR.MICRO, with MINOR from 8 to 99 and MICRO to \
999, and t behind it from 3.13 on for the free-threaded build";

/// Why the text is refused as an environment, in a line for a person, without LF; `name` is the
/// name given for the file. Nothing where it isn't refused. The line is that of
/// [`environment_diagnostic`].
pub fn environment_message(
    alloc: Global,
    name: &str,
    environment: &[u8],
) -> Result<Option<String>, AllocError> {
    match read_environment(alloc, environment) {
        Ok(_) => Ok(None),
        Err(EnvError::Memory) => Err(AllocError),
        Err(refusal) => {
            let diagnostic = environment_diagnostic(alloc, name, environment, &refusal)?;
            Ok(diagnostic.map(Diagnostic::into_message))
        }
    }
}

/// Where the text is wrong that is refused so as an environment; `name` is the name given for the
/// file.
///
/// It names the byte that is no UTF-8, the line and column where the text is no JSON, the first
/// part of another shape, or the first text that is no tag. Of an empty file and of TOML the line
/// says in place of that what the file is. The text is read again, and takes the memory of that;
/// one that is no JSON is read as TOML too. No contract says what it tells.
pub fn environment_diagnostic(
    alloc: Global,
    name: &str,
    environment: &[u8],
    refusal: &EnvError,
) -> Result<Option<Diagnostic>, AllocError> {
    let text = match std::str::from_utf8(environment) {
        Ok(text) => text,
        Err(fault) => return not_text(alloc, name, fault.valid_up_to()),
    };
    match Value::from_str(alloc, text) {
        Ok(value) => wrong_in_environment(alloc, name, wrong_value(&value, refusal)),
        Err(fault) => {
            let diagnostic = wrong_json(alloc, name, text, fault)?;
            saying(alloc, diagnostic, other_than_json(alloc, text)?)
        }
    }
}

/// Why a target is refused, in a line for a person, without LF, that says what is taken. Nothing
/// where it isn't refused. The line is that of [`target_diagnostic`].
pub fn target_message(
    alloc: Global,
    python: &str,
    platform: &str,
) -> Result<Option<String>, AllocError> {
    match read_target(alloc, python, platform) {
        Ok(_) => Ok(None),
        Err(EnvError::Memory) => Err(AllocError),
        Err(refusal) => {
            let diagnostic = target_diagnostic(alloc, python, platform, &refusal)?;
            Ok(diagnostic.map(Diagnostic::into_message))
        }
    }
}

/// Why the words of a target are refused so: the word that is none, the name of a platform for
/// which it may be meant, and what is taken. It takes memory for the line. No contract says what it
/// tells.
pub fn target_diagnostic(
    alloc: Global,
    python: &str,
    platform: &str,
    refusal: &EnvError,
) -> Result<Option<Diagnostic>, AllocError> {
    let line = match refusal {
        EnvError::Python => {
            let shown = Shown(python);
            format!(in alloc; "--python: `{shown}`: {PYTHONS}")?
        }
        EnvError::Platform => platform_line(alloc, platform)?,
        _ => return Ok(None),
    };
    Ok(Some(Diagnostic::of_message(alloc, line.as_str())?))
}

/// What is told of a word that is no platform.
fn platform_line(alloc: Global, platform: &str) -> Result<String, AllocError> {
    let shown = Shown(platform);
    match meant_platform(alloc, platform)? {
        Some(name) => {
            format!(in alloc; "--platform: `{shown}` (did you mean `{name}`?): {PLATFORMS}")
        }
        None => format!(in alloc; "--platform: `{shown}`: {PLATFORMS}"),
    }
}

/// The text that is no tag, or the part that has another shape, the first in the order in which
/// they are read.
fn wrong_value<'a>(value: &'a Value, refusal: &EnvError) -> Option<WrongPart<'a>> {
    match refusal {
        EnvError::Tag(position) => {
            let tag = value.get("tags")?.get(position.checked_sub(1)?)?;
            let fault = PartFault::IsNoTag(ShownValue::json(Some(tag)));
            Some(WrongPart::new(Part::Tag(*position), fault))
        }
        _ if !value.is_object() => Some(is_not(Part::Whole, "an object", Some(value))),
        _ => wrong_variables(value.get("environment")).or(wrong_tags(value.get("tags"))),
    }
}

fn wrong_variables(member: Option<&Value>) -> Option<WrongPart<'_>> {
    let Some(Value::Object(members)) = member else {
        return Some(is_not(Part::Key("environment"), "an object", member));
    };
    for variable in Var::all() {
        let key = variable.name();
        match members.get(key) {
            None | Some(Value::String(_)) => {}
            text => return Some(is_not(Part::Inner("environment", key), "a text", text)),
        }
    }
    None
}

fn wrong_tags(member: Option<&Value>) -> Option<WrongPart<'_>> {
    let Some(Value::Array(tags)) = member else {
        return Some(is_not(Part::Key("tags"), "a list of texts", member));
    };
    let at = tags.iter().position(|tag| !tag.is_string())?;
    Some(is_not(Part::Member("tags", at + 1), "a text", tags.get(at)))
}

fn is_not<'a>(part: Part, form: &'static str, member: Option<&'a Value>) -> WrongPart<'a> {
    WrongPart::new(part, PartFault::IsNot(form, ShownValue::json(member)))
}
