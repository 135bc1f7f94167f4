//! What is refused by a word and, where there is one, a place: a project file, the settings of an
//! audit, and the words that say which findings count.

ghost use Rattle.std.specs.Prelude.{◌≡◌, ◌++◌, ◌∷◌, OnOk, Some, codes, option_map, option_to_list};
ghost use Rattle.std.specs.Option.{option_copied};
ghost use Rattle.pylock_program.specs.Refusal.{placed_printed, policy_printed, policy_words};
ghost use Rattle.pylock_program.specs.Refusal.{project_printed, settings_printed};
ghost use Rattle.pylock_program.specs.Text.Json.{words_json};
ghost use Rattle.pylock_run.specs.Text.Field.{field, line_of};

use crate::text::json::{push_both, push_refused};
use pylock_check::ProjectError;
use pylock_command::Form;
use pylock_findings::PolicyError;
use pylock_messages::Diagnostic;
use pylock_run::{push_next_field, push_word};
use pylock_settings::SettingsError;
use std::alloc::{AllocError, Global};

/// What is refused, why, and where it is wrong.
#[derive(Clone, Copy)]
struct Placed<'a> {
    what: &'a str,
    word: &'a str,
    place: Option<&'a str>,
}

/// Pushes a refused project file: its line, or the document of the line's words and the diagnostic.
pub(crate) fn push_project_refusal(
    alloc: Global,
    out: &mut Vec<u8>,
    form: Form,
    error: &ProjectError,
    diagnostic: Option<&Diagnostic>,
) -> Result<(), AllocError>
    ensures { OnOk result (out.new.items ≡ out.old.items
        ++ project_printed form (option_copied diagnostic.entry) error.now) }
{
    let placed = Placed {
        what: "project",
        word: error.word(),
        place: error.place(),
    };
    push_placed(alloc, out, form, placed, diagnostic)
}

/// Pushes refused settings: their line, or the document of the line's words and the diagnostic.
pub(crate) fn push_settings_refusal(
    alloc: Global,
    out: &mut Vec<u8>,
    form: Form,
    error: &SettingsError,
    diagnostic: Option<&Diagnostic>,
) -> Result<(), AllocError>
    ensures { OnOk result (out.new.items ≡ out.old.items
        ++ settings_printed form (option_copied diagnostic.entry) error.now) }
{
    let placed = Placed {
        what: "config",
        word: error.word(),
        place: error.place(),
    };
    push_placed(alloc, out, form, placed, diagnostic)
}

/// Pushes a refused word of a finding or name: its line, or the document of the line's words and
/// the diagnostic.
pub(crate) fn push_policy_refusal(
    alloc: Global,
    out: &mut Vec<u8>,
    form: Form,
    error: &PolicyError,
    diagnostic: Option<&Diagnostic>,
) -> Result<(), AllocError>
    ensures { OnOk result (out.new.items ≡ out.old.items
        ++ policy_printed form (option_copied diagnostic.entry) error.now) }
{
    let (word, place) = policy_words(error);
    let what = "refused";
    match (form, place) {
        (Form::Lines, _) => push_line(out, Placed { what, word, place }),
        (Form::Json, Some(text)) => push_refused(alloc, out, &[word, text], diagnostic),
        (Form::Json, None) => push_refused(alloc, out, &[word], diagnostic),
    }
}

/// What a text is not, and the text.
fn policy_words(error: &PolicyError) -> (&str, Option<&str>)
    ensures { (result.0.now, option_copied result.1) ≡ policy_words error.now }
{
    match error {
        PolicyError::UnknownFinding(text) => ("finding", Some(text.as_str())),
        PolicyError::NoName(text) => ("name", Some(text.as_str())),
        PolicyError::Memory => ("memory", None),
    }
}

/// Pushes the line, or the document of its words and the diagnostic.
fn push_placed(
    alloc: Global,
    out: &mut Vec<u8>,
    form: Form,
    placed: Placed<'_>,
    diagnostic: Option<&Diagnostic>,
) -> Result<(), AllocError>
    ensures { OnOk result (out.new.items ≡ out.old.items
        ++ placed_printed form (option_copied diagnostic.entry) placed.entry.what.now
        placed.entry.word.now (option_copied placed.entry.place)) }
{
    match form {
        Form::Lines => push_line(out, placed),
        Form::Json => push_words(alloc, out, placed, diagnostic),
    }
}

/// Pushes the document of the words, and of the place that there may be.
fn push_words(
    alloc: Global,
    out: &mut Vec<u8>,
    placed: Placed<'_>,
    diagnostic: Option<&Diagnostic>,
) -> Result<(), AllocError>
    ensures { OnOk result (out.new.items ≡ out.old.items ++ words_json (placed.entry.what.now
        ∷ placed.entry.word.now ∷ option_to_list (option_copied placed.entry.place))
        (option_copied diagnostic.entry)) }
{
    let Placed { what, word, place } = placed;
    match place {
        Some(place) => push_both(alloc, out, &[what], &[word, place], diagnostic),
        None => push_both(alloc, out, &[what], &[word], diagnostic),
    }
}

fn push_line(out: &mut Vec<u8>, placed: Placed<'_>) -> Result<(), AllocError>
    ensures { OnOk result (out.new.items ≡ out.old.items
        ++ line_of placed.entry.what.now (placed.entry.word.now
        ∷ option_to_list (option_map (λ p. field (Some p)) (option_copied placed.entry.place)))) }
{
    out.extend_from_slice(placed.what.as_bytes())?;
    push_word(out, placed.word.as_bytes())?;
    if let Some(place) = placed.place {
        push_next_field(out, Some(place))?;
    }
    out.push(b'\n')?;
    Ok(())
}
