//! What becomes of the head and of each entry, and why, a line for each.

ghost use Rattle.std.specs.Prelude.{◌≡◌, ◌++◌, ◌∷◌, [], OnOk, Some};
ghost use Rattle.std.specs.List.{flat_map};
ghost use Rattle.std.specs.Option.{option_copied};
ghost use Rattle.pylock_program.specs.Text.Explain.{entry_line, explain_text, fate_text, head_text};
ghost use Rattle.pylock_program.specs.Text.Explain.{verdict_line};
ghost use Rattle.pylock_run.specs.Text.Field.{line_of};
ghost use Rattle.pylock_program.specs.Text.Safe.{safe_field};

use crate::text::safe::push_next_safe;
use pylock_core::{Entry, Fate, Session, fault_word, verdict_word};
use pylock_documents::{detail, head_detail, shown_version};
use pylock_run::{push_decimal, push_next_field, push_word};
use std::alloc::{AllocError, Global};

/// Pushes the lines of the head and of each entry. Takes memory for the lines, for what `fates`
/// takes, and for one detail at a time.
pub(crate) fn push_explanation(
    alloc: Global,
    out: &mut Vec<u8>,
    session: &Session,
) -> Result<(), AllocError>
    ensures { OnOk result (out.new.items ≡ out.old.items ++ explain_text session.now.state) }
{
    push_head(alloc, out, session)?;
    let fates = session.fates()?;
    push_fates(alloc, out, session, fates.as_slice())
}

/// Pushes the line of the head.
fn push_head(alloc: Global, out: &mut Vec<u8>, session: &Session) -> Result<(), AllocError>
    ensures { OnOk result (out.new.items ≡ out.old.items ++ head_text session.now.state) }
{
    let Some(code) = session.head_fault() else {
        return Ok(out.extend_from_slice(b"head\tok\t-\n")?);
    };
    let detail = head_detail(alloc, session.head(), session.environment(), code)?;
    out.extend_from_slice(b"head")?;
    push_reason(out, fault_word(code), detail.as_deref())
}

/// Pushes a line for each entry.
fn push_fates(
    alloc: Global,
    out: &mut Vec<u8>,
    session: &Session,
    fates: &[(u32, Fate)],
) -> Result<(), AllocError>
    ensures { OnOk result (out.new.items
        ≡ out.old.items ++ flat_map (fate_text session.now.state) fates.now) }
{
    for fate in fates {
        push_fate(alloc, out, session, fate)?;
    }
    Ok(())
}

fn push_fate(
    alloc: Global,
    out: &mut Vec<u8>,
    session: &Session,
    fate: &(u32, Fate),
) -> Result<(), AllocError>
    ensures { OnOk result (out.new.items ≡ out.old.items ++ fate_text session.now.state fate.now) }
{
    match session.entry(fate.0) {
        Some(entry) => push_entry(alloc, out, session, *fate, entry),
        None => Ok(()),
    }
}

fn push_entry(
    alloc: Global,
    out: &mut Vec<u8>,
    session: &Session,
    fate: (u32, Fate),
    entry: &Entry,
) -> Result<(), AllocError>
    ensures { OnOk result (out.new.items
        ≡ out.old.items ++ entry_line session.now.state fate.0 fate.1 entry.now) }
{
    let (number, fate) = fate;
    let detail = detail(alloc, session, entry, fate)?;
    let verdict = verdict_word(entry, fate);
    push_verdict(alloc, out, (number, entry), verdict, detail.as_deref())
}

fn push_verdict(
    alloc: Global,
    out: &mut Vec<u8>,
    numbered: (u32, &Entry),
    verdict: &str,
    detail: Option<&str>,
) -> Result<(), AllocError>
    ensures { OnOk result (out.new.items ≡ out.old.items ++ verdict_line
        numbered.entry.0 numbered.entry.1.now verdict.now (option_copied detail.entry)) }
{
    let (number, entry) = numbered;
    let version = shown_version(alloc, entry)?;
    push_decimal(out, u64::from(number))?;
    push_next_field(out, Some(entry.name()))?;
    push_next_safe(out, version.as_deref())?;
    push_reason(out, verdict, detail)
}

/// Pushes the last two fields of a line, a TAB before each, and the LF.
fn push_reason(out: &mut Vec<u8>, word: &str, detail: Option<&str>) -> Result<(), AllocError>
    ensures { OnOk result (out.new.items ≡ out.old.items
        ++ line_of [] (word.now ∷ safe_field (option_copied detail.entry) ∷ [])) }
{
    push_word(out, word.as_bytes())?;
    push_next_safe(out, detail)?;
    out.push(b'\n')?;
    Ok(())
}
