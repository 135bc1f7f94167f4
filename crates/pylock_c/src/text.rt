//! Kept texts.

ghost use Rattle.std.specs.Prelude.{◌≡◌, None};
ghost use Rattle.pylock_slots.specs.Answer.{Tells, Writes};
ghost use Rattle.pylock_slots.specs.Slot.{object};
ghost use Rattle.pylock_slots.specs.Text.{text_in, text_length};

use pylock_slots::{Slot, copy_text, tell_text_length};
use std::alloc::Global;

/// The length of a kept text.
#[unsafe(no_mangle)]
pub extern "C" fn pylock_text_length(alloc: Global, text: &mut Slot, length: &mut usize) -> i32
    ensures kept { object text.new ≡ object text.old }
    ensures told { Tells (text_length (object text.old)) length.old length.new result }
{
    tell_text_length(alloc, text, length)
}

/// The bytes of a kept text.
#[unsafe(no_mangle)]
pub extern "C" fn pylock_text_copy(
    alloc: Global,
    text: &mut Slot,
    out: &mut [u8],
    needed: &mut usize,
) -> i32
    ensures kept { object text.new ≡ object text.old }
    ensures told { Writes (text_in (object text.old)) out.old out.new needed.old needed.new result }
{
    copy_text(alloc, text, out, needed)
}

/// Empties the slot.
#[unsafe(no_mangle)]
pub extern "C" fn pylock_text_free(alloc: Global, text: &mut Slot)
    ensures { object text.new ≡ None }
{
    let _kept = text.take(alloc);
}
