//! Objects into slots and out of them.

ghost use Rattle.std.specs.Prelude.{◌≡◌, None};
ghost use Rattle.pylock_slots.specs.Slot.{kept_object, object};

use crate::kept::Kept;
use crate::loose::Loose;
use crate::object::Object;
use crate::slot::Slot;
use std::alloc::Global;
use std::mem::replace;

impl Slot {
    /// Takes the object out. The slot is empty then.
    pub fn take(&mut self, alloc: Global) -> Option<Box<Object>>
        ensures taken { kept_object result ≡ object self.old }
        ensures empty { object self.new ≡ None }
    {
        let empty = Slot {
            kept: Kept::none(),
            full: false,
        };
        replace(self, empty).into_box(alloc)
    }

    /// Puts the object in, or leaves the slot empty. What the slot had is freed.
    pub fn put(&mut self, alloc: Global, kept: Option<Box<Object>>)
        ensures { object self.new ≡ kept_object kept }
    {
        let _old = replace(self, Slot::of(kept)).into_box(alloc);
    }

    fn of(kept: Option<Box<Object>>) -> Slot
        ensures { object result ≡ kept_object kept }
    {
        match kept {
            Some(kept) => Slot {
                kept: Kept::of(Loose::of(kept)),
                full: true,
            },
            None => Slot {
                kept: Kept::none(),
                full: false,
            },
        }
    }

    fn into_box(self, alloc: Global) -> Option<Box<Object>>
        ensures { kept_object result ≡ object self }
    {
        let Slot { kept, full } = self;
        if full {
            return Some(kept.into_loose(alloc).into_box());
        }
        kept.forget();
        None
    }
}
