//! The words that set an environment, as a POSIX shell reads them.

ghost use Rattle.std.specs.Prelude.{◌≡◌, ◌++◌, ℕ, List, OnOk, codes, string_bytes};
ghost use Rattle.std.specs.List.{flat_map, list_all};
ghost use Rattle.std.specs.Str.{chars};
ghost use Rattle.pymark_core.specs.Variables.{variables};
ghost use Rattle.pylock_environments.specs.Detail.{AreWordsOf, is_plain, name_words, quoted};
ghost use Rattle.pylock_environments.specs.Detail.{quoted_character, shell_word, variable_words};

use pylock_shown::hidden;
use pymark_core::{Environment, Names, Var};
use std::alloc::{AllocError, Global};

/// Pushes the words of the environment.
pub(crate) fn push_environment(
    alloc: Global,
    out: &mut String,
    environment: &Environment,
) -> Result<(), AllocError>
    ensures { OnOk result ((words : List ℕ) × AreWordsOf environment.now words
        × (string_bytes out.new ≡ string_bytes out.old ++ words)) }
{
    push_variables(alloc, out, environment)?;
    push_names(out, " --extra ", environment.extras())?;
    push_names(out, " --group ", environment.groups())
}

/// Pushes the variables that are set.
fn push_variables(
    alloc: Global,
    out: &mut String,
    environment: &Environment,
) -> Result<(), AllocError>
    ensures { OnOk result (string_bytes out.new
        ≡ string_bytes out.old ++ flat_map (variable_words environment.now) variables) }
{
    for variable in Var::all() {
        push_variable(alloc, out, environment, variable)?;
    }
    Ok(())
}

/// Pushes the variable, if it is set. Its text is one of the lock, which is shown without secrets.
fn push_variable(
    alloc: Global,
    out: &mut String,
    environment: &Environment,
    variable: Var,
) -> Result<(), AllocError>
    ensures { OnOk result (string_bytes out.new
        ≡ string_bytes out.old ++ variable_words environment.now variable) }
{
    let Some(text) = environment.get(variable) else {
        return Ok(());
    };
    out.push_str(" --set ")?;
    out.push_str(variable.name())?;
    out.push_str("=")?;
    let shown = hidden(alloc, text)?;
    push_word(out, &shown)
}

/// Pushes the names, each behind the option.
fn push_names(out: &mut String, option: &str, names: Names<'_>) -> Result<(), AllocError>
    ensures { OnOk result (string_bytes out.new
        ≡ string_bytes out.old ++ name_words option.now names.entry) }
{
    for name in names {
        out.push_str(option)?;
        out.push_str(name)?;
    }
    Ok(())
}

/// Pushes the text as one word.
fn push_word(out: &mut String, text: &str) -> Result<(), AllocError>
    ensures { OnOk result (string_bytes out.new ≡ string_bytes out.old ++ shell_word text.now) }
{
    if are_plain(text.as_bytes()) {
        out.push_str(text)
    } else {
        push_quoted(out, text)
    }
}

/// Whether a shell reads the bytes as they stand.
fn are_plain(bytes: &[u8]) -> bool
    ensures { result ≡ list_all is_plain bytes.now }
{
    bytes.iter().all(|byte| is_plain(*byte))
}

fn is_plain(byte: u8) -> bool
    ensures { result ≡ is_plain byte }
{
    byte.is_ascii_alphanumeric() || byte == b'.' || byte == b'_' || byte == b'+' || byte == b'-'
}

/// Pushes the text between quotes.
fn push_quoted(out: &mut String, text: &str) -> Result<(), AllocError>
    ensures { OnOk result (string_bytes out.new ≡ string_bytes out.old ++ quoted text.now) }
{
    out.push_str("'")?;
    push_between(out, text)?;
    out.push_str("'")
}

/// Pushes the characters of the text as they stand between quotes.
fn push_between(out: &mut String, text: &str) -> Result<(), AllocError>
    ensures { OnOk result (string_bytes out.new
        ≡ string_bytes out.old ++ flat_map quoted_character (chars text.now)) }
{
    for character in text.chars() {
        push_character(out, character)?;
    }
    Ok(())
}

fn push_character(out: &mut String, character: char) -> Result<(), AllocError>
    ensures { OnOk result (string_bytes out.new
        ≡ string_bytes out.old ++ quoted_character character) }
{
    if character == '\'' {
        out.push_str("'\\''")
    } else {
        out.push(character)
    }
}
