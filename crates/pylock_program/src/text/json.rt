//! What is printed in place of an answer, as JSON documents.

ghost use Rattle.std.specs.Prelude.{◌≡◌, ◌++◌, IfOk, OnOk, decimal, map, option_map};
ghost use Rattle.std.specs.Prelude.{string_bytes};
ghost use Rattle.std.specs.Option.{option_copied};
ghost use Rattle.pylock_command.specs.declared.form.Form.TheVariants as form;
ghost use Rattle.pylock_program.specs.Refusal.{clash_printed};
ghost use Rattle.pylock_program.specs.Text.Json.{fault_json, line_refusal_json, option_json};
ghost use Rattle.pylock_program.specs.Text.Json.{refusal_json, words_json};
ghost use Rattle.pylock_run.specs.Text.Refusal.{refusal_words};

use crate::options::option_words;
use pylock_command::PlanOption;
use pylock_documents::{push_document, refused_document, refused_line_document};
use pylock_json::Object;
use pylock_messages::Diagnostic;
use pylock_run::{LineRefusal, OpenError, RefusalWords, environment_words, line_word, lock_words};
use pylock_union::{Clash, clash_words};
use std::alloc::{AllocError, Global};

/// Pushes the document of a refusal, of these words and the diagnostic.
#[tactic(auto, unfolding(crate::specs::Text::Json::words_json))]
pub(crate) fn push_refused(
    alloc: Global,
    out: &mut Vec<u8>,
    words: &[&str],
    diagnostic: Option<&Diagnostic>,
) -> Result<(), AllocError>
    ensures { OnOk result (out.new.items ≡ out.old.items
        ++ words_json (map (λ word. word.now) words.now) (option_copied diagnostic.entry)) }
{
    push_document(alloc, out, refused_document(alloc, words, diagnostic)?)
}

/// Pushes the document of a refusal whose words stand behind these.
pub(crate) fn push_words(
    alloc: Global,
    out: &mut Vec<u8>,
    front: &[&str],
    words: RefusalWords,
    diagnostic: Option<&Diagnostic>,
) -> Result<(), AllocError>
    ensures { OnOk result (out.new.items ≡ out.old.items
        ++ words_json (map (λ word. word.now) front.now ++ refusal_words words)
        (option_copied diagnostic.entry)) }
{
    let word = words.word;
    let number = number_text(alloc, words.number)?;
    match (number.as_deref(), words.detail) {
        (Some(number), Some(detail)) => {
            push_both(alloc, out, front, &[word, number, detail], diagnostic)
        }
        (Some(number), None) => push_both(alloc, out, front, &[word, number], diagnostic),
        (None, Some(detail)) => push_both(alloc, out, front, &[word, detail], diagnostic),
        (None, None) => push_both(alloc, out, front, &[word], diagnostic),
    }
}

fn number_text(alloc: Global, number: Option<u64>) -> Result<Option<String>, AllocError>
    ensures { IfOk result (λ text. option_map string_bytes text ≡ option_map decimal number) }
{
    match number {
        Some(number) => Ok(Some(format!(in alloc; "{number}")?)),
        None => Ok(None),
    }
}

/// Pushes the document of a refusal, of words in two parts.
pub(crate) fn push_both(
    alloc: Global,
    out: &mut Vec<u8>,
    front: &[&str],
    words: &[&str],
    diagnostic: Option<&Diagnostic>,
) -> Result<(), AllocError>
    ensures { OnOk result (out.new.items ≡ out.old.items
        ++ words_json (map (λ word. word.now) front.now ++ map (λ word. word.now) words.now)
        (option_copied diagnostic.entry)) }
{
    let mut all = Vec::with_capacity(alloc, front.len() + words.len())?;
    all.extend_from_slice(front)?;
    all.extend_from_slice(words)?;
    push_refused(alloc, out, &all, diagnostic)
}

/// Pushes the document of a refused lock or environment. Want of memory prints nothing.
pub(crate) fn push_refusal_json(
    alloc: Global,
    out: &mut Vec<u8>,
    error: &OpenError,
    diagnostic: Option<&Diagnostic>,
) -> Result<(), AllocError>
    ensures { OnOk result (out.new.items
        ≡ out.old.items ++ refusal_json error.now (option_copied diagnostic.entry)) }
{
    match error {
        OpenError::Lock(error) => push_words(alloc, out, &["lock"], lock_words(error), diagnostic),
        OpenError::Environment(error) => {
            push_words(
                alloc,
                out,
                &["environment"],
                environment_words(error),
                diagnostic,
            )
        }
        OpenError::Memory => Ok(()),
    }
}

/// Pushes the document of a refused line of the input, whose number counts from 1.
#[tactic(auto, unfolding(crate::specs::Text::Json::line_refusal_json))]
pub(crate) fn push_line_refusal_json(
    alloc: Global,
    out: &mut Vec<u8>,
    number: u64,
    refusal: LineRefusal,
) -> Result<(), AllocError>
    ensures { OnOk result (out.new.items ≡ out.old.items ++ line_refusal_json number refusal) }
{
    let document = refused_line_document(alloc, number, &[line_word(refusal)])?;
    push_document(alloc, out, document)
}

/// Pushes the document of a marker's fault, of this code.
pub(crate) fn push_fault_json(
    alloc: Global,
    out: &mut Vec<u8>,
    code: &str,
) -> Result<(), AllocError>
    ensures { OnOk result (out.new.items ≡ out.old.items ++ fault_json code.now) }
{
    let mut fault = Object::new(alloc);
    fault.put_text(alloc, "code", code)?;
    let mut object = Object::new(alloc);
    object.put(alloc, "fault", fault.into_json())?;
    push_document(alloc, out, object)
}

/// Pushes the document of an option that is refused.
pub(crate) fn push_option_json(
    alloc: Global,
    out: &mut Vec<u8>,
    option: PlanOption<'_>,
    diagnostic: Option<&Diagnostic>,
) -> Result<(), AllocError>
    ensures { OnOk result (out.new.items
        ≡ out.old.items ++ option_json option.entry (option_copied diagnostic.entry)) }
{
    match option_words(option) {
        (word, Some(text)) => push_refused(alloc, out, &[word, text], diagnostic),
        (word, None) => push_refused(alloc, out, &[word], diagnostic),
    }
}

/// Pushes the document of two files of one name that differ.
pub(crate) fn push_clash_json(
    alloc: Global,
    out: &mut Vec<u8>,
    clash: &Clash<'_>,
    diagnostic: Option<&Diagnostic>,
) -> Result<(), AllocError>
    ensures { OnOk result (out.new.items
        ≡ out.old.items ++ clash_printed form.Json (option_copied diagnostic.entry) clash.now) }
{
    let texts = clash_words(alloc, clash)?;
    let words = lent_words(alloc, &texts)?;
    push_refused(alloc, out, &words, diagnostic)
}

fn lent_words(alloc: Global, texts: &[String]) -> Result<Vec<&str>, AllocError>
    ensures { IfOk result (λ words. map (λ word. word.now) words.items
        ≡ map string_bytes texts.now) }
{
    let mut words = Vec::with_capacity(alloc, texts.len())?;
    for text in texts {
        words.push(text.as_str())?;
    }
    Ok(words)
}
