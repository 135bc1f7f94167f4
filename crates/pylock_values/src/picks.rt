//! Answers for a program: a line for each pick, or the line of the fault (PEP 751,
//! "Installation").

ghost use Rattle.std.specs.Prelude.{◌≡◌, ◌++◌, ◌∷◌, OnOk};
ghost use Rattle.std.specs.List.{flat_map};
ghost use Rattle.std.specs.Option.{option_copied};
ghost use Rattle.pylock_readers.specs.Text.{text_pair, text_pairs};
ghost use Rattle.pylock_core.specs.Session.Picks.{lent_source};
ghost use Rattle.pylock_run.specs.Text.Field.{fields_text};
ghost use Rattle.pylock_values.specs.Picks.{fault_line, hash_fields, name_at, pick_in, pick_line};
ghost use Rattle.pylock_values.specs.Picks.{pick_text, picks_text, place_text, source_fields};
ghost use Rattle.pylock_values.specs.Picks.{wheel_place};

use pylock_core::{Entry, FaultCode, Pick, PickSource, PickedSource, Session, fault_word};
use pylock_run::{push_decimal, push_next_field, push_word};
use std::alloc::AllocError;

/// The place of a wheel among those of its entry, from 1.
fn wheel_place(entry: &Entry, source: PickSource) -> Option<u64>
    ensures { result ≡ wheel_place entry.now source }
{
    match source {
        PickSource::Wheel(place) if place < entry.wheels().len() => Some(place as u64 + 1),
        _ => None,
    }
}

/// Pushes the line of each pick of a plan, in their order: number, kind, place of the wheel from 1,
/// name, version, file, URL, path, type and commit of a VCS, subdirectory, and of each hash its
/// algorithm and its value. It takes memory for the lines.
pub fn push_picks(out: &mut Vec<u8>, session: &Session, picks: &[Pick]) -> Result<(), AllocError>
    ensures { OnOk result (out.new.items
        ≡ out.old.items ++ picks_text session.now.state picks.now) }
{
    for pick in picks {
        push_pick(out, session, pick)?;
    }
    Ok(())
}

fn push_pick(out: &mut Vec<u8>, session: &Session, pick: &Pick) -> Result<(), AllocError>
    ensures { OnOk result (out.new.items ≡ out.old.items ++ pick_text session.now.state pick.now) }
{
    match session.entry(pick.id) {
        Some(entry) => push_entry(out, pick, entry),
        None => Ok(()),
    }
}

fn push_entry(out: &mut Vec<u8>, pick: &Pick, entry: &Entry) -> Result<(), AllocError>
    ensures { OnOk result (out.new.items ≡ out.old.items ++ pick_in pick.now entry.now) }
{
    let Some(source) = pick.source.of(entry) else {
        return Ok(());
    };
    let place = wheel_place(entry, pick.source);
    push_line(out, u64::from(pick.id), place, entry, source)
}

fn push_line(
    out: &mut Vec<u8>,
    number: u64,
    place: Option<u64>,
    entry: &Entry,
    source: PickedSource<'_>,
) -> Result<(), AllocError>
    ensures { OnOk result (out.new.items
        ≡ out.old.items ++ pick_line number place entry.now (lent_source source.entry)) }
{
    push_decimal(out, number)?;
    push_word(out, source.word().as_bytes())?;
    push_place(out, place)?;
    push_next_field(out, Some(entry.name()))?;
    push_next_field(out, entry.version())?;
    push_source(out, source)?;
    Ok(out.push(b'\n')?)
}

/// Pushes a TAB and a place.
fn push_place(out: &mut Vec<u8>, place: Option<u64>) -> Result<(), AllocError>
    ensures { OnOk result (out.new.items ≡ out.old.items ++ 9 ∷ place_text place) }
{
    let Some(place) = place else {
        return push_next_field(out, None);
    };
    out.push(b'\t')?;
    push_decimal(out, place)
}

/// Pushes the fields that stand behind the version.
fn push_source(out: &mut Vec<u8>, source: PickedSource<'_>) -> Result<(), AllocError>
    ensures { OnOk result (out.new.items
        ≡ out.old.items ++ fields_text (source_fields (lent_source source.entry))) }
{
    push_next_field(out, source.file_name())?;
    push_next_field(out, source.url())?;
    push_next_field(out, source.path())?;
    push_next_field(out, source.vcs_kind())?;
    push_next_field(out, source.commit_id())?;
    push_next_field(out, source.subdirectory())?;
    push_hashes(out, source.hashes())
}

fn push_hashes(out: &mut Vec<u8>, hashes: &[(String, String)]) -> Result<(), AllocError>
    ensures { OnOk result (out.new.items
        ≡ out.old.items ++ fields_text (flat_map hash_fields (text_pairs hashes.now))) }
{
    for hash in hashes {
        push_hash(out, hash)?;
    }
    Ok(())
}

fn push_hash(out: &mut Vec<u8>, hash: &(String, String)) -> Result<(), AllocError>
    ensures { OnOk result (out.new.items
        ≡ out.old.items ++ fields_text (hash_fields (text_pair hash.now))) }
{
    let (algorithm, value) = hash;
    push_next_field(out, Some(algorithm.as_str()))?;
    push_next_field(out, Some(value.as_str()))
}

/// Pushes the line of a fault: number, name, code and detail. It takes memory for the line.
pub fn push_fault(
    out: &mut Vec<u8>,
    session: &Session,
    number: u32,
    code: FaultCode,
    detail: Option<&str>,
) -> Result<(), AllocError>
    ensures { OnOk result (out.new.items ≡ out.old.items
        ++ fault_line session.now.state number code (option_copied detail.entry)) }
{
    push_decimal(out, u64::from(number))?;
    push_next_field(out, name_at(session, number))?;
    push_word(out, fault_word(code).as_bytes())?;
    push_next_field(out, detail)?;
    Ok(out.push(b'\n')?)
}

/// The name of the entry of a number; the head has none.
fn name_at(session: &Session, number: u32) -> Option<&str>
    ensures { option_copied result ≡ name_at session.now.state number }
{
    Some(session.entry(number)?.name())
}
