//! The place at which a text has too many open parentheses.

ghost use Rattle.std.specs.Prelude.{◌≡◌, IfSome};
ghost use Rattle.pymark_expected.specs.Stretch.{IsStretch};

use crate::expected::Expected;
use crate::fault::{Fault, fault_at};

/// How many parentheses may be open at one position.
const DEPTH_LIMIT: usize = 64;

/// The fault of a text that is nested too deep; nothing for one that isn't.
pub(crate) fn depth_fault(text: &str) -> Option<Fault>
    ensures expected { IfSome result (λ fault. fault.expected ≡ Expected.FewParentheses) }
    ensures stretch { IfSome result (λ fault. IsStretch text.now fault) }
{
    let place = text.floor_char_boundary(place_too_deep(text.as_bytes())?);
    Some(fault_at(text, text.split_at(place).1, Expected::FewParentheses))
}

/// How many bytes stand before the first parenthesis that is one too many, quoted texts passed
/// over.
fn place_too_deep(text: &[u8]) -> Option<usize> {
    let mut quote = None;
    let mut opened = 0usize;
    let mut closed = 0usize;
    for (place, byte) in text.iter().enumerate() {
        match quote {
            Some(open) => {
                if *byte == open {
                    quote = None;
                }
            }
            None => match *byte {
                b'(' => opened = opened.saturating_add(1),
                b')' => closed = closed.saturating_add(1),
                b'"' | b'\'' => quote = Some(*byte),
                _ => {}
            },
        }
        if opened.saturating_sub(closed) > DEPTH_LIMIT {
            return Some(place);
        }
    }
    None
}
