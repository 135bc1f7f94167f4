//! Marks of the parts of tags. Most tags that a list lacks have a part with a mark that no tag of
//! the list has there, so a few bytes tell that it lacks them.

ghost use Rattle.std.specs.Prelude.{◌≡◌, ◌<◌, ℕ, IsTrue, false, slice_index_or, true};
ghost use Rattle.pywheel_core.specs.Marks.{IsMarked, mark_of};
ghost use Rattle.pywheel_core.specs.Tag.{TagValue};

use crate::tag::Tag;
use std::alloc::{AllocError, Global};
use std::marker::Model;

/// How many marks there are.
const MARKS: usize = 256;

/// The marks that the parts of some tags have: a flag for each of a Python, an ABI and a platform.
#[derive(Clone)]
pub(crate) struct Marks {
    flags: Vec<bool>,
}

impl Model for Marks {
    ghost use Rattle.std.specs.Prelude.{◌≡◌, Bool, List, length};

    ghost Value = { List Bool };

    ghost view = { λ m. m.flags.items };

    ghost invariant = { λ m. length m.flags.items ≡ 768 };
}

impl Drop for Marks {
    fn drop(self) {
        let Marks { flags: _ } = self;
    }
}

impl Marks {
    /// Those of no tag.
    pub(crate) fn none(alloc: Global) -> Result<Marks, AllocError> {
        Ok(Marks {
            flags: vec![in alloc; false; 3 * MARKS]?,
        })
    }

    /// Adds those of the tag.
    pub(crate) fn add(&mut self, tag: &Tag)
        ensures marked { IsMarked self.new tag.now }
        ensures kept { (t : TagValue) → IsMarked self.old t → IsMarked self.new t }
    {
        self.set(mark(tag.python()));
        self.set(MARKS + mark(tag.abi()));
        self.set(2 * MARKS + mark(tag.platform()));
    }

    fn set(&mut self, place: usize)
        requires { place < 768 }
        ensures set { slice_index_or self.new place false ≡ true }
        ensures kept { (i : ℕ) → slice_index_or self.old i false ≡ true
            → slice_index_or self.new i false ≡ true }
    {
        self.flags[place] = true;
    }

    /// Whether the parts of the tag have marks that parts of those tags have.
    pub(crate) fn may_have(&self, tag: &Tag) -> bool
        ensures { IsMarked self.now tag.now → IsTrue result }
    {
        self.flags[mark(tag.python())]
            && self.flags[MARKS + mark(tag.abi())]
            && self.flags[2 * MARKS + mark(tag.platform())]
    }
}

/// The mark of a part.
#[tactic(auto, unfolding(crate::specs::Marks::mark_of))]
fn mark(part: &str) -> usize
    ensures mark { result ≡ mark_of part.now }
    ensures small { result < 256 }
{
    let bytes = part.as_bytes();
    let len = bytes.len();
    if len < 3 {
        return len;
    }
    let first = usize::from(bytes[0]);
    let third = usize::from(bytes[len - 3]);
    let last = usize::from(bytes[len - 1]);
    (31 * first + 7 * third + last + 3 * (len % 64)) % MARKS
}
