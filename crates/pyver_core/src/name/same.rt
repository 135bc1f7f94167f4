//! Names compared by their normal forms (PEP 503, "Normalized Names").

ghost use Rattle.std.specs.Prelude.{◌≡◌, [], MatchOption};
ghost use Rattle.std.specs.Str.{bytes_eq};
ghost use Rattle.pytext.specs.Bytes.{is_separator, starts};
ghost use Rattle.pyver_core.specs.Name.{normal_name};
ghost use Rattle.pyver_core.specs.Inner.Names.{BeginsNormal};

use pytext::is_separator;

/// Whether the two texts have the same normal form, so that they name the same project or extra. It
/// takes time linear in the texts and no memory.
pub fn is_same_name(first: &str, second: &str) -> bool
    ensures { result ≡ bytes_eq (normal_name first.now) (normal_name second.now) }
{
    let mut left = first.as_bytes();
    let mut right = second.as_bytes();
    while let Some((byte, behind)) = first_normal_byte(left) {
        match first_normal_byte(right) {
            Some((other, others)) if byte == other => {
                left = behind;
                right = others;
            }
            _ => return false,
        }
    }
    first_normal_byte(right).is_none()
}

/// The first byte of the text's normal form, and the text whose normal form stands after it.
#[tactic(auto, unfolding(crate::specs::Name::normal_name))]
fn first_normal_byte(text: &[u8]) -> Option<(u8, &[u8])>
    ensures { MatchOption result (normal_name text.now ≡ [])
        (λ cut. BeginsNormal text.now cut.0 cut.1.now) }
{
    let mut left = text;
    while let [byte, behind @ ..] = left {
        if !is_separator(*byte) {
            return Some((byte.to_ascii_lowercase(), behind));
        }
        if !starts_with_separator(behind) {
            return Some((b'-', behind));
        }
        left = behind;
    }
    None
}

fn starts_with_separator(text: &[u8]) -> bool
    ensures { result ≡ starts is_separator text.now }
{
    match text {
        [byte, ..] => is_separator(*byte),
        [] => false,
    }
}
