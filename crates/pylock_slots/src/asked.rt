//! What `select` is asked, for a host that streams its edit lines.

ghost use Rattle.std.specs.Prelude.{◌≡◌, ◌++◌, ◌⊎◌, IfErr, IfOk, None, OnOk, Some, map, pos};
ghost use Rattle.std.specs.List.{flat_map};
ghost use Rattle.std.specs.Option.{option_copied};
ghost use Rattle.pylock_memory.specs.Parts.{cut_by};
ghost use Rattle.pylock_slots.specs.Asked.{Asks, AsksOfJoined, flag_text, machine_fields};
ghost use Rattle.pylock_slots.specs.Asked.{next_field, select_record};
ghost use Rattle.pylock_slots.specs.Refusal.{number};
ghost use Rattle.pylock_slots.specs.Slot.{object};
ghost use Rattle.pylock_slots.specs.declared.object.Object.TheVariants as kind;
ghost use Rattle.pylock_slots.specs.declared.refusal.Refusal.TheVariants.{Memory, Parts};

use crate::answer::OK;
use crate::object::{Bytes, Object};
use crate::opening::leave_object;
use crate::program::Joined;
use crate::refusal::Refusal;
use crate::slot::Slot;
use pylock_command::{CommandError, Form, Machine, Opening, Task, command};
use pylock_memory::{cut_parts, texts_of};
use pylock_program::Failure;
use pylock_run::{push_field, push_next_field};
use std::alloc::{AllocError, Global};

/// What `select` is asked by the words, of which the first is the program's name, as a record: the
/// path of the lock; that of the environment, or else the Python and the platform of a target;
/// `strict`, and `json`, where that is asked for. Words that ask for anything else, or are refused,
/// give no bytes. It takes memory for the words and the record.
pub fn asked_of_select(alloc: Global, words: Joined) -> Result<Vec<u8>, Refusal>
    ensures told { IfOk result (λ told. AsksOfJoined words.entry.lengths.now words.entry.bytes.now
        told.items) }
    ensures refused { IfErr result (λ refusal. (refusal ≡ Memory) ⊎ ((refusal ≡ Parts)
        × (cut_by words.entry.lengths.now words.entry.bytes.now ≡ None))) }
{
    let Some(words) = cut_parts(alloc, words.lengths, words.bytes)? else {
        return Err(Refusal::Parts);
    };
    match texts_of(alloc, &words) {
        Ok(texts) => record_of_words(alloc, &texts),
        Err(Failure::Memory) => Err(Refusal::Memory),
        Err(_) => Ok(Vec::new(alloc)),
    }
}

/// Leaves the record in the slot, and answers the code.
pub fn keep_asked(alloc: Global, outcome: Result<Vec<u8>, Refusal>, asked: &mut Slot) -> i32
    ensures kept { IfOk outcome (λ told. ((result ≡ pos 0)
        × (object asked.new ≡ Some (kind.Text told.items)))
        ⊎ ((result ≡ pos 1) × (object asked.new ≡ object asked.old))) }
    ensures refused { IfErr outcome (λ refusal. (result ≡ number refusal)
        × (object asked.new ≡ object asked.old)) }
{
    match outcome {
        Ok(told) => leave_object(alloc, Object::Text(Bytes::new(told)), OK, asked),
        Err(refusal) => refusal.number(),
    }
}

fn record_of_words(alloc: Global, words: &[&str]) -> Result<Vec<u8>, Refusal>
    ensures told { IfOk result (λ told. Asks (map (λ w. w.now) words.now) told.items) }
    ensures refused { IfErr result (λ refusal. refusal ≡ Memory) }
{
    match command(alloc, words) {
        Ok(Task::Select(opening, form)) => Ok(opening_record(alloc, opening, form)?),
        Ok(_) | Err(CommandError::Refused(_)) => Ok(Vec::new(alloc)),
        Err(CommandError::Memory) => Err(Refusal::Memory),
    }
}

fn opening_record(alloc: Global, opening: Opening<'_>, form: Form) -> Result<Vec<u8>, AllocError>
    ensures { IfOk result (λ told. told.items ≡ select_record opening.entry form) }
{
    let mut out = Vec::new(alloc);
    push_field(&mut out, Some(opening.lock))?;
    push_machine(&mut out, opening.machine)?;
    push_next_field(&mut out, flag_text(opening.strict, "strict"))?;
    push_next_field(&mut out, flag_text(matches!(form, Form::Json), "json"))?;
    Ok(out)
}

fn push_machine(out: &mut Vec<u8>, machine: Machine<'_>) -> Result<(), AllocError>
    ensures { OnOk result (out.new.items ≡ out.old.items
        ++ flat_map next_field (machine_fields machine.entry)) }
{
    match machine {
        Machine::File(path) => {
            push_next_field(out, Some(path))?;
            push_next_field(out, None)?;
            push_next_field(out, None)
        }
        Machine::Target(target) => {
            push_next_field(out, None)?;
            push_next_field(out, Some(target.python))?;
            push_next_field(out, Some(target.platform))
        }
    }
}

/// The word of what is asked for.
fn flag_text<'a>(asked: bool, word: &'a str) -> Option<&'a str>
    ensures { option_copied result ≡ flag_text asked word.entry.now }
{
    if asked { Some(word) } else { None }
}
