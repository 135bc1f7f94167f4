//! The texts that clap found.
ghost use Rattle.std.specs.Prelude.{◌≡◌, IfOk, option_map};
ghost use Rattle.clap.specs.Words.{first_of, found_of, rows_of};
ghost use Rattle.pylock_command.specs.Misuse.{Refuses, lack};
ghost use Rattle.pylock_command.specs.Texts.{HasText, has_flag, input_misuse, inputs_misuse};
ghost use Rattle.pylock_command.specs.Texts.{is_input};

use crate::misuse::Misuse;
use clap::ArgMatches;

/// The word for standard input in the place of a file's path.
pub(crate) const STANDARD_INPUT: &str = "-";

/// The text of an argument that may be left out.
pub(crate) fn text_at<'a>(found: &ArgMatches<'a>, id: &str) -> Option<&'a str>
    ensures { option_map (λ text. text.now) result
        ≡ first_of id.now (rows_of (found_of found.now)) }
{
    found.get_str(id)
}

/// The text of an argument.
pub(crate) fn text_of<'a>(found: &ArgMatches<'a>, id: &str) -> Result<&'a str, Misuse>
    ensures text { IfOk result (λ text. HasText (rows_of (found_of found.now)) id.now text.now) }
    ensures refused { Refuses (lack id.now (rows_of (found_of found.now))) result }
{
    match text_at(found, id) {
        Some(text) => Ok(text),
        None => Err(Misuse::Missing),
    }
}

/// Whether the words have an option without a text.
pub(crate) fn has_flag(found: &ArgMatches<'_>, name: &str) -> bool
    ensures { result ≡ has_flag name.now (rows_of (found_of found.now)) }
{
    match text_at(found, name) {
        Some(text) => text == "true",
        None => false,
    }
}

/// Whether an argument is the word for standard input.
fn is_input(found: &ArgMatches<'_>, id: &str) -> bool
    ensures { result ≡ is_input id.now (rows_of (found_of found.now)) }
{
    match text_at(found, id) {
        Some(path) => path == STANDARD_INPUT,
        None => false,
    }
}

/// Refuses standard input as a file where it is read for something else.
pub(crate) fn judge_input(found: &ArgMatches<'_>, id: &str) -> Result<(), Misuse>
    ensures { Refuses (input_misuse id.now (rows_of (found_of found.now))) result }
{
    if is_input(found, id) {
        return Err(Misuse::EditsAndFile);
    }
    Ok(())
}

/// Refuses standard input as two files.
pub(crate) fn judge_inputs(found: &ArgMatches<'_>, one: &str, other: &str) -> Result<(), Misuse>
    ensures { Refuses (inputs_misuse one.now other.now (rows_of (found_of found.now))) result }
{
    if is_input(found, one) && is_input(found, other) {
        return Err(Misuse::TwoInputs);
    }
    Ok(())
}
