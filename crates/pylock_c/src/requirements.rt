//! The record of a requirement's parts (PEP 508).

ghost use Rattle.std.specs.Prelude.{◌≡◌, ◌++◌, ◌∷◌, OnOk, codes, map, string_bytes};
ghost use Rattle.pytext.specs.Agreement.{Gives};
ghost use Rattle.pyver_core.specs.Set.Normal.{specifier_text};
ghost use Rattle.pylock_run.specs.Text.Field.{field};
ghost use Rattle.pylock_slots.specs.Answer.{Tells, Writes};
ghost use Rattle.pylock_values.specs.Record.{joined};
ghost use Rattle.pylock_c.specs.Requirements.{requirement_record, requirement_set};
ghost use Rattle.pylock_slots.specs.Slot.{object};
ghost use Rattle.pylock_slots.specs.Text.{kept_text};
ghost use Rattle.pylock_slots.specs.declared.refusal.Refusal.TheVariants.{Memory};

use pylock_run::{push_field, push_next_field};
use pylock_slots::{Refusal, Slot, keep_text, text, write};
use pymark_core::Requirement;
use pyver_core::SpecifierSet;
use std::alloc::{AllocError, Global};

fn requirement_record(alloc: Global, bytes: &[u8]) -> Result<Vec<u8>, Refusal>
    ensures { Gives Memory (λ made. made.items) result (requirement_record bytes.now) }
{
    let requirement = Requirement::parse(alloc, text(bytes)?)?;
    let mut out = Vec::new(alloc);
    push_field(&mut out, Some(requirement.name()))?;
    push_extras(alloc, &mut out, requirement.extras())?;
    push_set(&mut out, requirement.set())?;
    push_next_field(&mut out, requirement.url())?;
    push_next_field(&mut out, requirement.marker().map(|marker| marker.text()))?;
    Ok(out)
}

/// The record of a requirement's parts, as they are written.
#[unsafe(no_mangle)]
pub extern "C" fn pylock_requirement(alloc: Global, text: &[u8], slot: &mut Slot) -> i32
    ensures { Tells (kept_text (requirement_record text.now)) (object slot.old) (object slot.new)
        result }
{
    keep_text(alloc, requirement_record(alloc, text), slot)
}

fn requirement_set(alloc: Global, bytes: &[u8]) -> Result<&[u8], Refusal>
    ensures { Gives Memory (λ set. set.now) result (requirement_set bytes.now) }
{
    match Requirement::written_set(alloc, text(bytes)?)? {
        Some(set) => Ok(set.as_bytes()),
        None => Ok(&[]),
    }
}

/// The specifiers of a requirement, as they are written.
#[unsafe(no_mangle)]
pub extern "C" fn pylock_requirement_set(
    alloc: Global,
    text: &[u8],
    out: &mut [u8],
    needed: &mut usize,
) -> i32
    ensures { Writes (requirement_set text.now) out.old out.new needed.old needed.new result }
{
    write(requirement_set(alloc, text), out, needed)
}

/// Pushes a TAB and the field of extras.
fn push_extras(alloc: Global, out: &mut Vec<u8>, extras: &[String]) -> Result<(), AllocError>
    ensures { OnOk result (out.new.items ≡ out.old.items
        ++ 9 ∷ field (joined (λ extra. extra) (codes ",") (map string_bytes extras.now))) }
{
    if extras.is_empty() {
        return push_next_field(out, None);
    }
    let text = extras.join(alloc, ",")?;
    push_next_field(out, Some(text.as_str()))
}

/// Pushes a TAB and the field of a specifier set.
fn push_set(out: &mut Vec<u8>, set: &SpecifierSet) -> Result<(), AllocError>
    ensures { OnOk result (out.new.items
        ≡ out.old.items ++ 9 ∷ field (joined specifier_text (codes ",") set.now)) }
{
    if set.items().is_empty() {
        return push_next_field(out, None);
    }
    push_next_field(out, Some(set.text()))
}
