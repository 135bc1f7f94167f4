//! The record of the tags that a text stands for (PEP 425).

ghost use Rattle.pytext.specs.Agreement.{Gives};
ghost use Rattle.pylock_slots.specs.Answer.{Tells};
ghost use Rattle.pylock_slots.specs.Slot.{object};
ghost use Rattle.pylock_c.specs.Tags.{tags_of};
ghost use Rattle.pylock_slots.specs.Text.{kept_text};
ghost use Rattle.pylock_slots.specs.declared.refusal.Refusal.TheVariants.{Memory};

use pylock_slots::{Refusal, Slot, keep_text, text};
use pylock_values::tags_record;
use std::alloc::Global;

fn tags(alloc: Global, bytes: &[u8]) -> Result<Vec<u8>, Refusal>
    ensures { Gives Memory (λ made. made.items) result (tags_of bytes.now) }
{
    match tags_record(alloc, text(bytes)?)? {
        Some(record) => Ok(record),
        None => Err(Refusal::TagParts),
    }
}

/// The record of the tags that a text of three parts stands for.
#[unsafe(no_mangle)]
pub extern "C" fn pylock_tags(alloc: Global, text: &[u8], slot: &mut Slot) -> i32
    ensures { Tells (kept_text (tags_of text.now)) (object slot.old) (object slot.new) result }
{
    keep_text(alloc, tags(alloc, text), slot)
}
