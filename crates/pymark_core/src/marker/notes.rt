//! What is noted of a marker's comparisons while they are read.

ghost use Rattle.std.specs.Prelude.{◌≡◌, ◌||◌, false};
ghost use Rattle.pymark_core.specs.Marker.Grammar.{is_misuse, is_set};
ghost use Rattle.pymark_core.specs.Marker.Keys.{comparison_reads, is_flagged};
ghost use Rattle.pymark_core.specs.declared.marker.keys.Key.{Key};

use super::keys::Reads;
use crate::operand::{Comparator, Operand};

/// What was noted of the comparisons so far.
#[derive(Clone, Copy)]
pub(super) struct Notes {
    /// The keys that they read.
    pub(super) reads: Reads,
    /// Whether one of them misuses a set.
    pub(super) misuse: bool,
}

fn is_set(operand: &Operand) -> bool
    ensures { result ≡ is_set operand.now }
{
    matches!(operand, Operand::Extras | Operand::Groups)
}

/// Whether a set stands anywhere but right of `in` or `not in`.
fn is_misuse(left: &Operand, comparator: Comparator, right: &Operand) -> bool
    ensures { result ≡ is_misuse (record {
      left = left.now;
      comparator = comparator;
      right = right.now;
    }) }
{
    is_set(left) || is_set(right) && matches!(comparator, Comparator::By(_))
}

impl Notes {
    /// Nothing.
    pub(super) fn none() -> Notes
        ensures reads { (key : Key) → is_flagged result.reads key ≡ false }
        ensures misuse { result.misuse ≡ false }
    {
        Notes {
            reads: Reads::none(),
            misuse: false,
        }
    }

    /// Notes a comparison.
    pub(super) fn add(&mut self, left: &Operand, comparator: Comparator, right: &Operand)
        ensures reads { (key : Key) → is_flagged self.new.reads key ≡ (is_flagged self.old.reads key
            || comparison_reads key (record {
              left = left.now;
              comparator = comparator;
              right = right.now;
            })) }
        ensures misuse { self.new.misuse ≡ (self.old.misuse || is_misuse (record {
          left = left.now;
          comparator = comparator;
          right = right.now;
        })) }
    {
        self.reads.insert_operand(left);
        self.reads.insert_operand(right);
        self.misuse |= is_misuse(left, comparator, right);
    }
}
