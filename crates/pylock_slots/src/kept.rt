//! A pointer that may have a box.

ghost use Rattle.std.specs.Prelude.{◌≡◌, None, Option, Some, true};
ghost use Rattle.pylock_slots.specs.Kept.{is_full, kept_at};
ghost use Rattle.std.specs.Coded.{codes};
ghost use Rattle.pylock_slots.specs.contracts.object.Object as kind;
ghost use Rattle.pylock_slots.specs.declared.object.Object.{Object as Kind};

use crate::loose::Loose;
use crate::object::Object;
use std::alloc::Global;
use std::marker::Model;
use std::ptr::null_mut;

/// The pointer of a slot, which C sees as one that it never follows. It owns the box of the object
/// where there is one, and nothing otherwise.
#[repr(C)]
pub struct Kept {
    at: *mut u8,
    ghost object: { Option Kind } by { Prim.hlevel (codes, kind.the_row.coded) },
}

impl Model for Kept {
    ghost also_owns = { λ k. kept_at k.at k.object };
}

impl Kept {
    /// The pointer of an empty slot.
    pub(crate) fn none() -> Kept
        ensures { result.object ≡ None }
    {
        Kept { at: null_mut() }
    }

    /// The pointer of a box.
    pub(crate) fn of(loose: Loose<Object, Global>) -> Kept
        ensures { result.object ≡ Some loose.value }
    {
        let Loose { at, alloc: _ } = loose;
        Kept { at: at as *mut u8 }
    }

    /// The box of the pointer.
    pub(crate) fn into_loose(self, alloc: Global) -> Loose<Object, Global>
        requires { is_full self.object ≡ true }
        ensures { Some result.value ≡ self.object }
    {
        let Kept { at } = self;
        Loose {
            at: at as *mut Object,
            alloc,
        }
    }

    /// Lets the pointer of an empty slot go.
    pub(crate) fn forget(self)
        requires { self.object ≡ None }
    {
        let Kept { at: _ } = self;
    }
}
