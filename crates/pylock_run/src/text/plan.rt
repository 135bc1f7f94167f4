//! Answers: the lines of a plan, or a fault.

ghost use Rattle.std.specs.Prelude.{◌≡◌, ◌++◌, ◌∷◌, [], OnOk, option_map, string_bytes};
ghost use Rattle.std.specs.List.{flat_map};
ghost use Rattle.std.specs.Option.{option_copied, option_map_or};
ghost use Rattle.pylock_readers.specs.Text.{text_pairs};
ghost use Rattle.pylock_core.specs.Session.Picks.{lent_source};
ghost use Rattle.pylock_run.specs.Inner.Fields.{escaped_hash, more_hashes};
ghost use Rattle.pylock_run.specs.Text.Field.{field, fields_text};
ghost use Rattle.pylock_run.specs.Text.Plan.{answer_text, hashes_text, pick_text, revision};
ghost use Rattle.pylock_run.specs.Text.Plan.{source_fields, source_line};

use crate::text::field::{
    push_decimal, push_escaped_text, push_last_word, push_next_field, push_word,
};
use crate::text::file_line::push_file_line;
use pylock_core::{Answer, Entry, Pick, PickedSource, Session, Vcs, fault_word};
use std::alloc::AllocError;

fn push_hash(out: &mut Vec<u8>, hash: &(String, String)) -> Result<(), AllocError>
    ensures { OnOk result (out.new.items
        ≡ out.old.items ++ escaped_hash (string_bytes hash.now.0, string_bytes hash.now.1)) }
{
    let (algorithm, value) = hash;
    push_escaped_text(out, algorithm.as_str())?;
    out.push(b'=')?;
    push_escaped_text(out, value.as_str())
}

/// Pushes a TAB and the field of the hashes.
fn push_hashes(out: &mut Vec<u8>, hashes: &[(String, String)]) -> Result<(), AllocError>
    ensures { OnOk result (out.new.items
        ≡ out.old.items ++ 9 ∷ field (hashes_text (text_pairs hashes.now))) }
{
    let Some((first, rest)) = hashes.split_first() else {
        return push_next_field(out, None);
    };
    out.push(b'\t')?;
    push_hash(out, first)?;
    push_more_hashes(out, rest)
}

fn push_more_hashes(out: &mut Vec<u8>, hashes: &[(String, String)]) -> Result<(), AllocError>
    ensures { OnOk result (out.new.items ≡ out.old.items ++ more_hashes (text_pairs hashes.now)) }
{
    for hash in hashes {
        out.push(b',')?;
        push_hash(out, hash)?;
    }
    Ok(())
}

/// Pushes a TAB and the field of the revision, which a checkout has.
#[tactic(auto, using(crate::proofs::TextLemmas::field_revision))]
fn push_revision(out: &mut Vec<u8>, vcs: Option<&Vcs>) -> Result<(), AllocError>
    ensures { OnOk result (out.new.items
        ≡ out.old.items ++ 9 ∷ field (option_map revision (option_copied vcs.entry))) }
{
    let Some(vcs) = vcs else {
        return push_next_field(out, None);
    };
    out.push(b'\t')?;
    push_escaped_text(out, vcs.kind())?;
    out.push(b'@')?;
    push_escaped_text(out, vcs.commit_id())
}

/// Pushes the fields of a source, which stands in its entry and so is never left out.
fn push_source(out: &mut Vec<u8>, source: Option<PickedSource<'_>>) -> Result<(), AllocError>
    ensures { OnOk result (out.new.items ≡ out.old.items
        ++ fields_text (option_map_or source_fields (option_map lent_source source.entry) [])) }
{
    let Some(source) = source else {
        return Ok(());
    };
    push_word(out, source.word().as_bytes())?;
    push_next_field(out, source.file_name())?;
    push_next_field(out, Some(source.place()))?;
    push_hashes(out, source.hashes())?;
    push_revision(out, source.vcs())?;
    push_next_field(out, source.subdirectory())
}

/// Pushes the line of a source of an entry, which has this number: at once where it is that of a
/// file, as `file_line.rt` says, and else part by part.
pub fn push_source_line(
    out: &mut Vec<u8>,
    number: u64,
    entry: &Entry,
    source: Option<PickedSource<'_>>,
) -> Result<(), AllocError>
    ensures { OnOk result (out.new.items ≡ out.old.items ++ source_line number entry.now
        (option_map_or source_fields (option_map lent_source source.entry) [])) }
{
    let done = match source {
        Some(PickedSource::Wheel(wheel)) => push_file_line(out, number, entry, b"wheel", wheel)?,
        Some(PickedSource::Sdist(sdist)) => push_file_line(out, number, entry, b"sdist", sdist)?,
        _ => false,
    };
    if done {
        return Ok(());
    }
    push_decimal(out, number)?;
    push_next_field(out, Some(entry.name()))?;
    push_next_field(out, entry.version())?;
    push_source(out, source)?;
    out.push(b'\n')?;
    Ok(())
}

fn push_pick(out: &mut Vec<u8>, session: &Session, pick: &Pick) -> Result<(), AllocError>
    ensures { OnOk result (out.new.items ≡ out.old.items ++ pick_text session.now.state pick.now) }
{
    match session.entry(pick.id) {
        Some(entry) => push_source_line(out, u64::from(pick.id), entry, pick.source.of(entry)),
        None => Ok(()),
    }
}

fn push_picks(out: &mut Vec<u8>, session: &Session, picks: &[Pick]) -> Result<(), AllocError>
    ensures { OnOk result (out.new.items
        ≡ out.old.items ++ flat_map (pick_text session.now.state) picks.now) }
{
    for pick in picks {
        push_pick(out, session, pick)?;
    }
    Ok(())
}

/// Pushes an answer on the state of its session.
pub fn push_answer(out: &mut Vec<u8>, session: &Session, answer: &Answer) -> Result<(), AllocError>
    ensures { OnOk result (out.new.items
        ≡ out.old.items ++ answer_text session.now.state answer.now) }
{
    match answer {
        Answer::Plan(plan) => {
            let picks = plan.picks();
            out.extend_from_slice(b"plan ")?;
            push_decimal(out, picks.len() as u64)?;
            out.push(b'\n')?;
            push_picks(out, session, picks)
        }
        Answer::Fault { id, code } => {
            out.extend_from_slice(b"fault ")?;
            push_decimal(out, u64::from(*id))?;
            push_last_word(out, fault_word(*code).as_bytes())
        }
    }
}
