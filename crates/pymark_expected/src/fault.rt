//! A stretch of a text, and what was expected there.

ghost use Rattle.std.specs.Prelude.{◌≡◌, ◌+◌, ◌-◌, length};
ghost use Rattle.pymark_expected.specs.Stretch.{EndsWith, IsStretch};

use crate::expected::Expected;

/// What was expected of a text, and where: a stretch of it that ends at the place. It is empty
/// where nothing before the place counts.
#[derive(Clone, Copy, PartialEq, Eq, Debug)]
pub struct Fault {
    /// How many bytes stand before the stretch.
    pub begin: usize,
    /// How many bytes stand before its end.
    pub end: usize,
    /// What was expected.
    pub expected: Expected,
}

/// The fault at the stretch from one place of a text to another one, of which each is told by what
/// stands behind it.
#[tactic(auto, using(crate::proofs::StretchLemmas::end_place))]
pub(crate) fn fault_between(text: &str, from: &str, to: &str, expected: Expected) -> Fault
    ensures stretch { IsStretch text.now result }
    ensures expected { result.expected ≡ expected }
    ensures end { EndsWith text.now to.now → result.end ≡ length text.now - length to.now }
{
    let end = text.floor_char_boundary(text.len().saturating_sub(to.len()));
    let begin = text.floor_char_boundary(text.len().saturating_sub(from.len()).min(end));
    Fault {
        begin,
        end,
        expected,
    }
}

/// The fault at one place, told by what stands behind it.
pub(crate) fn fault_at(text: &str, at: &str, expected: Expected) -> Fault
    ensures stretch { IsStretch text.now result }
    ensures expected { result.expected ≡ expected }
    ensures end { EndsWith text.now at.now → result.end ≡ length text.now - length at.now }
{
    fault_between(text, at, at, expected)
}

/// The fault of what a text ends with as one of the text.
pub(crate) fn fault_within(text: &str, end: &str, fault: Fault) -> Fault
    ensures stretch { IsStretch text.now result }
    ensures expected { result.expected ≡ fault.expected }
    ensures end { EndsWith text.now end.now → IsStretch end.now fault
        → result.end ≡ length text.now - length end.now + fault.end }
{
    let before = text.len().saturating_sub(end.len());
    fault_between(
        text,
        text.split_at(text.floor_char_boundary(before.saturating_add(fault.begin)))
            .1,
        text.split_at(text.floor_char_boundary(before.saturating_add(fault.end)))
            .1,
        fault.expected,
    )
}
