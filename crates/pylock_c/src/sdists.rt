//! The record of what the name of a source distribution says (PEP 625).

ghost use Rattle.pytext.specs.Agreement.{Gives};
ghost use Rattle.pylock_slots.specs.Answer.{Tells};
ghost use Rattle.pylock_c.specs.Sdists.{sdist_record};
ghost use Rattle.pylock_slots.specs.Slot.{object};
ghost use Rattle.pylock_slots.specs.Text.{kept_text};
ghost use Rattle.pylock_slots.specs.declared.refusal.Refusal.TheVariants.{Memory};

use pylock_run::{push_field, push_next_field};
use pylock_slots::{Refusal, Slot, keep_text, text};
use pywheel_core::SdistName;
use std::alloc::Global;

fn sdist_record(alloc: Global, bytes: &[u8]) -> Result<Vec<u8>, Refusal>
    ensures { Gives Memory (λ made. made.items) result (sdist_record bytes.now) }
{
    let sdist = SdistName::parse(alloc, text(bytes)?)?;
    // Nearly each record is no longer than its text.
    let mut out = Vec::with_capacity(alloc, bytes.len())?;
    push_field(&mut out, Some(sdist.name()))?;
    push_next_field(&mut out, Some(sdist.version().text()))?;
    Ok(out)
}

/// The record of what the name of a source distribution says.
#[unsafe(no_mangle)]
pub extern "C" fn pylock_sdist(alloc: Global, text: &[u8], slot: &mut Slot) -> i32
    ensures { Tells (kept_text (sdist_record text.now)) (object slot.old) (object slot.new) result }
{
    keep_text(alloc, sdist_record(alloc, text), slot)
}
