//! Whether one text stands in another, as `in` and `not in` ask (PEP 508, "Environment Markers").
//!
//! A short text is searched by `contains`. Of a long one the front in which the part begins
//! nowhere is passed over first, many places at a time; nothing is prepared for that, so that it
//! costs no more than the search of that front, whatever the two texts are. (The kit's `memmem`
//! prepares some 50 instructions for each byte of a part over 32 bytes, anew at each evaluation;
//! notes on which triples of bytes a text has pay only from some 16 looks on.)

ghost use Rattle.std.specs.Prelude.{◌≡◌, ◌+◌, ◌-◌, ◌/◌, ◌<◌, ◌≤◌, drop, false, length, nat_eq};
ghost use Rattle.std.specs.Prelude.{slice_index};
ghost use Rattle.std.specs.List.{starts_with};
ghost use Rattle.pymark_core.specs.Inner.Passed.{BeginsNowhere};
ghost use Rattle.pymark_core.specs.Marker.Value.{is_substring};

/// From this length on a text is looked through many places at a time.
const LONG: usize = 256;

/// So many places.
const PLACES: usize = 32;

/// Whether the first text stands somewhere in the second. It takes no memory.
pub(crate) fn is_substring(part: &str, whole: &str) -> bool
    ensures { result ≡ is_substring part.now whole.now }
{
    has_capacity(part, whole) && is_found(part, whole)
}

/// Whether the second text is as long as the first, which else stands nowhere in it. Neither is
/// looked at, however long they are.
#[tactic(auto, using(crate::proofs::Lemmas::Marker::Value::Substrings::longer_nowhere))]
fn has_capacity(part: &str, whole: &str) -> bool
    ensures { result ≡ false → is_substring part.now whole.now ≡ false }
{
    part.len() <= whole.len()
}

/// Whether the first text is found in the second, by a search.
fn is_found(part: &str, whole: &str) -> bool
    ensures { result ≡ is_substring part.now whole.now }
{
    if whole.len() < LONG {
        is_near_in(part, whole)
    } else {
        is_far_in(part, whole)
    }
}

fn is_near_in(part: &str, whole: &str) -> bool
    ensures { result ≡ is_substring part.now whole.now }
{
    whole.contains(part)
}

/// The same of a long text: what is left of it behind the places that are passed over is searched.
fn is_far_in(part: &str, whole: &str) -> bool
    ensures { result ≡ is_substring part.now whole.now }
{
    let from = whole.floor_char_boundary(passed_places(part.as_bytes(), whole.as_bytes()));
    let rest = &whole[from..];
    has_capacity(part, rest) && is_near_in(part, rest)
}

/// How many places at the front of the text are passed over, at none of which the part begins.
fn passed_places(part: &[u8], whole: &[u8]) -> usize
    ensures nowhere { BeginsNowhere part.now whole.now 0 result }
    ensures within { result ≤ length whole.now }
{
    if part.is_empty() || whole.len() < part.len() + (PLACES - 1) {
        return 0;
    }
    let places = whole.len() - (part.len() - 1);
    let mut passed = 0;
    while places - passed >= PLACES {
        if may_begin(part, whole, passed) {
            return passed;
        }
        passed += PLACES;
    }
    // fewer are left, which stand among the last ones
    if may_begin(part, whole, places - PLACES) {
        return passed;
    }
    places
}

/// Whether the part may begin at one of the places from this one on. They are looked at without a
/// branch, so that the compiler looks at many at a time.
fn may_begin(part: &[u8], whole: &[u8], from: usize) -> bool
    requires some { 0 < length part.now }
    requires within { from + 31 + length part.now ≤ length whole.now }
    ensures { result ≡ false → BeginsNowhere part.now whole.now from (from + 32) }
{
    let bytes = (part[0], part[part.len() / 2], part[part.len() - 1]);
    let mut may = false;
    for place in from..from + PLACES {
        may |= is_alike_at(part, whole, place, bytes);
    }
    may
}

/// Whether three bytes of the part, the first, the middle and the last, stand where they would if
/// the part began at this place. They are handed in, so that a loop over places loads them once.
#[tactic(auto, using(crate::proofs::Lemmas::Marker::Value::Substrings::unlike_bytes_at))]
#[inline(always)]
fn is_alike_at(part: &[u8], whole: &[u8], place: usize, bytes: (u8, u8, u8)) -> bool
    requires some { 0 < length part.now }
    requires within { place + length part.now ≤ length whole.now }
    requires first { bytes.0 ≡ slice_index part.now 0 }
    requires middle { bytes.1 ≡ slice_index part.now (length part.now / 2) }
    requires last { bytes.2 ≡ slice_index part.now (length part.now - 1) }
    ensures { result ≡ false → starts_with nat_eq (drop place whole.now) part.now ≡ false }
{
    let middle = place + part.len() / 2;
    let last = place + (part.len() - 1);
    (whole[place] == bytes.0) & (whole[middle] == bytes.1) & (whole[last] == bytes.2)
}
