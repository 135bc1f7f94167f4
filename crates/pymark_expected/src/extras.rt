//! The fault of the extras of a requirement (PEP 508, "Grammar").

ghost use Rattle.std.specs.Prelude.{◌≡◌, ◌<◌, IfSome, length, true};
ghost use Rattle.pymark_expected.specs.Kinds.{is_of_extras};
ghost use Rattle.pymark_expected.specs.Stretch.{IsStretch};

use crate::cut::{after_byte, after_name, begins_name};
use crate::expected::Expected;
use crate::fault::{Fault, fault_at, fault_between};
use pytext::after_white;

/// The fault of the extras of a text, which has this behind its name.
pub(crate) fn extras_fault(text: &str, behind_name: &str) -> Fault
    ensures kind { is_of_extras result.expected ≡ true }
    ensures stretch { IsStretch text.now result }
{
    let first = after_white(after_byte(b'[', behind_name).unwrap_or(behind_name));
    let last = behind_commas(first);
    let behind = after_white(after_name(last));
    if !begins_name(last) && last.len() < first.len() {
        return fault_at(text, last, Expected::ExtraName);
    }
    if begins_name(behind) {
        return fault_at(text, behind, Expected::ExtrasComma);
    }
    fault_between(text, behind_name, behind, Expected::ClosingBracket)
}

/// The text behind names with a comma behind each.
fn behind_commas(start: &str) -> &str {
    let mut rest = start;
    while let Some(further) = pass_name(rest) {
        rest = further;
    }
    rest
}

/// The text behind a name, a comma and white space.
fn pass_name(text: &str) -> Option<&str>
    ensures { IfSome result (λ rest. length rest.now < length text.now) }
{
    if !begins_name(text) {
        return None;
    }
    let rest = after_byte(b',', after_white(after_name(text)))?;
    Some(after_white(rest))
}
