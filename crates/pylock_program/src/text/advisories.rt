//! A refused file of advisories.

ghost use Rattle.std.specs.Prelude.{◌≡◌, ◌++◌, ◌∷◌, OnOk, codes, decimal};
ghost use Rattle.std.specs.Option.{option_copied};
ghost use Rattle.pylock_program.specs.Refusal.{advisories_printed, advisories_words};
ghost use Rattle.pylock_program.specs.Refusal.{advisory_words, reason_word};
ghost use Rattle.pylock_program.specs.Text.Json.{words_json};
ghost use Rattle.pylock_run.specs.Text.Field.{fields_text, line_of};

use crate::text::json::push_both;
use pylock_advisories::{AdvisoriesError, AdvisoryError};
use pylock_command::Form;
use pylock_messages::Diagnostic;
use pylock_run::{push_decimal, push_word};
use std::alloc::{AllocError, Global};

/// Pushes a refused file of this number: its line, or the document of the line's words and the
/// diagnostic.
pub(crate) fn push_advisories_refusal(
    alloc: Global,
    out: &mut Vec<u8>,
    form: Form,
    refused: (usize, &AdvisoriesError),
    diagnostic: Option<&Diagnostic>,
) -> Result<(), AllocError>
    ensures { OnOk result (out.new.items ≡ out.old.items
        ++ advisories_printed form (option_copied diagnostic.entry) refused.entry.0
        refused.entry.1.now) }
{
    let (number, error) = refused;
    match form {
        Form::Lines => push_line(out, number, error),
        Form::Json => push_refusal_document(alloc, out, number, error, diagnostic),
    }
}

fn push_line(out: &mut Vec<u8>, number: usize, error: &AdvisoriesError) -> Result<(), AllocError>
    ensures { OnOk result (out.new.items ≡ out.old.items
        ++ line_of (codes "advisories") (advisories_words number error.now)) }
{
    out.extend_from_slice(b"advisories")?;
    match error {
        AdvisoriesError::Advisory(place, error) => {
            push_number(out, number)?;
            push_number(out, *place)?;
            push_reason(out, error)?;
        }
        AdvisoriesError::Memory => push_word(out, b"memory")?,
    }
    out.push(b'\n')?;
    Ok(())
}

fn push_number(out: &mut Vec<u8>, number: usize) -> Result<(), AllocError>
    ensures { OnOk result (out.new.items ≡ out.old.items ++ codes "\t" ++ decimal number) }
{
    out.push(b'\t')?;
    push_decimal(out, number as u64)
}

/// Pushes what is wrong with an advisory.
fn push_reason(out: &mut Vec<u8>, error: &AdvisoryError) -> Result<(), AllocError>
    ensures { OnOk result
        (out.new.items ≡ out.old.items ++ fields_text (advisory_words error.now)) }
{
    push_word(out, reason_word(error).as_bytes())?;
    if let AdvisoryError::Member(member) = error {
        push_word(out, member.as_str().as_bytes())?;
    }
    Ok(())
}

/// The word for what is wrong with an advisory.
fn reason_word(error: &AdvisoryError) -> &'static str
    ensures { result.now ≡ reason_word error.now }
{
    match error {
        AdvisoryError::Json => "json",
        AdvisoryError::Object => "object",
        AdvisoryError::Member(_) => "member",
        AdvisoryError::Memory => "memory",
    }
}

/// Pushes the document of the words and the diagnostic.
fn push_refusal_document(
    alloc: Global,
    out: &mut Vec<u8>,
    number: usize,
    error: &AdvisoriesError,
    diagnostic: Option<&Diagnostic>,
) -> Result<(), AllocError>
    ensures { OnOk result (out.new.items ≡ out.old.items
        ++ words_json (codes "advisories" ∷ advisories_words number error.now)
        (option_copied diagnostic.entry)) }
{
    let AdvisoriesError::Advisory(place, error) = error else {
        return push_both(alloc, out, &["advisories"], &["memory"], diagnostic);
    };
    let number = format!(in alloc; "{number}")?;
    let place = format!(in alloc; "{place}")?;
    let word = reason_word(error);
    let (number, place) = (number.as_str(), place.as_str());
    match error {
        AdvisoryError::Member(member) => push_both(
            alloc,
            out,
            &["advisories"],
            &[number, place, word, member.as_str()],
            diagnostic,
        ),
        _ => push_both(
            alloc,
            out,
            &["advisories"],
            &[number, place, word],
            diagnostic,
        ),
    }
}
