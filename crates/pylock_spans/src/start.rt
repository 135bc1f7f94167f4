//! Where an entry begins.

ghost use Rattle.std.specs.Prelude.{◌≡◌, ◌≤◌, IfSome};
ghost use Rattle.pylock_spans.specs.Places.{IsStart};

use crate::place::{FIRST_PLACE, Place, place_behind};
use crate::reading::between;

/// Where an entry begins.
#[derive(Clone, Copy)]
pub(crate) struct EntryStart {
    /// In bytes from the beginning of the text.
    pub(crate) at: usize,
    /// The same as a line and a column.
    pub(crate) place: Place,
}

/// Where the text begins.
pub(crate) const TEXT_START: EntryStart = EntryStart {
    at: 0,
    place: FIRST_PLACE,
};

/// The place of a byte, counted from a place that isn't behind it.
#[tactic(auto, using(crate::proofs::Lemmas::place_moves, crate::proofs::Lemmas::starts_early))]
pub(crate) fn moved(from: EntryStart, text: &str, at: usize) -> Option<EntryStart>
    requires { IsStart text.now from }
    ensures { IfSome result (λ start. (start.at ≡ at) × IsStart text.now start) }
{
    let bytes = between(text, from.at, at)?.as_bytes();
    Some(EntryStart {
        at,
        place: place_behind(from.place, bytes),
    })
}
