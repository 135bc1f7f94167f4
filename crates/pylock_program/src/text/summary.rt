//! What a lock says of itself, a line for each fact.

ghost use Rattle.std.specs.Prelude.{◌≡◌, ◌++◌, OnOk};
ghost use Rattle.pylock_program.specs.Text.Summary.{fact_line, summary_text, told_fields};
ghost use Rattle.pylock_program.specs.Text.Summary.{texts_fields};
ghost use Rattle.pylock_run.specs.Text.Field.{fields_text};
ghost use Rattle.pylock_summary.specs.Fact.{told_view};

use crate::text::safe::push_next_safe;
use pylock_run::push_decimal;
use pylock_summary::{Fact, Told};
use pytext::Text;
use std::alloc::AllocError;

/// Pushes a line for each fact.
pub(crate) fn push_summary(out: &mut Vec<u8>, facts: &[Fact]) -> Result<(), AllocError>
    ensures { OnOk result (out.new.items ≡ out.old.items ++ summary_text facts.now) }
{
    for fact in facts {
        push_fact(out, fact)?;
    }
    Ok(())
}

/// Pushes the line of a fact: its key, and what is told as fields that are safe to show.
fn push_fact(out: &mut Vec<u8>, fact: &Fact) -> Result<(), AllocError>
    ensures { OnOk result (out.new.items ≡ out.old.items ++ fact_line fact.now) }
{
    out.extend_from_slice(fact.key().as_bytes())?;
    push_told(out, fact.told())?;
    out.push(b'\n')?;
    Ok(())
}

/// Pushes a TAB and a field for each text; where there is none one that is absent.
fn push_told(out: &mut Vec<u8>, told: &Told) -> Result<(), AllocError>
    ensures { OnOk result (out.new.items
        ≡ out.old.items ++ fields_text (told_fields (told_view told.now))) }
{
    match told {
        Told::Text(text) => push_next_safe(out, text.as_ref().map(|text| text.as_str())),
        Told::Texts(texts) if texts.is_empty() => push_next_safe(out, None),
        Told::Texts(texts) => push_texts(out, texts),
        Told::Number(number) => {
            out.push(b'\t')?;
            push_decimal(out, *number as u64)
        }
    }
}

fn push_texts(out: &mut Vec<u8>, texts: &[Text]) -> Result<(), AllocError>
    ensures { OnOk result (out.new.items
        ≡ out.old.items ++ fields_text (texts_fields texts.now)) }
{
    for text in texts {
        push_next_safe(out, Some(text.as_str()))?;
    }
    Ok(())
}
