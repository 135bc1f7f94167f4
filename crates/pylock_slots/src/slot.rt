//! The slots in which C keeps objects.

ghost use Rattle.std.specs.Prelude.{◌≡◌};
ghost use Rattle.pylock_slots.specs.Kept.{is_full};

mod keeping;

use crate::kept::Kept;

/// A slot of C: an object or none. Every type of `pylock.h` whose objects are kept is this one; a
/// slot with an object of another kind is as one with none.
#[repr(C)]
pub struct Slot {
    kept: Kept,
    full: bool,
    ghost marked: { full ≡ is_full kept.object },
}
