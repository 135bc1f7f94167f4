//! A refused list of what is installed.

ghost use Rattle.std.specs.Prelude.{◌≡◌, ◌++◌, OnOk, codes};
ghost use Rattle.std.specs.Option.{option_copied};
ghost use Rattle.pylock_installed.specs.Words.{installed_words};
ghost use Rattle.pylock_program.specs.Refusal.{installed_printed};
ghost use Rattle.pylock_run.specs.Text.Field.{line_of};
ghost use Rattle.pylock_run.specs.Text.Refusal.{refusal_words};

use crate::text::json::push_words;
use pylock_command::Form;
use pylock_installed::InstalledError;
use pylock_messages::Diagnostic;
use pylock_run::{RefusalWords, push_decimal, push_word};
use std::alloc::{AllocError, Global};

/// Pushes a refused list: its line, or the document of the line's words and the diagnostic.
pub(crate) fn push_installed_refusal(
    alloc: Global,
    out: &mut Vec<u8>,
    form: Form,
    error: &InstalledError,
    diagnostic: Option<&Diagnostic>,
) -> Result<(), AllocError>
    ensures { OnOk result (out.new.items ≡ out.old.items
        ++ installed_printed form (option_copied diagnostic.entry) error.now) }
{
    match form {
        Form::Lines => push_line(out, error),
        Form::Json => push_words(alloc, out, &["installed"], words_of(error), diagnostic),
    }
}

fn push_line(out: &mut Vec<u8>, error: &InstalledError) -> Result<(), AllocError>
    ensures { OnOk result (out.new.items
        ≡ out.old.items ++ line_of (codes "installed") (installed_words error.now)) }
{
    out.extend_from_slice(b"installed")?;
    push_word(out, error.word().as_bytes())?;
    if let Some(place) = error.place() {
        out.push(b'\t')?;
        push_decimal(out, place as u64)?;
    }
    out.push(b'\n')?;
    Ok(())
}

/// The words of the refusal.
fn words_of(error: &InstalledError) -> RefusalWords
    ensures { refusal_words result ≡ installed_words error.now }
{
    RefusalWords {
        word: error.word(),
        number: error.place().map(|place| place as u64),
        detail: None,
    }
}
