//! Versions that stand in their texts in normal form, as nearly each does: one look at the text
//! reads them. It stands beside `read_version`, which reads every text; that both give the same is
//! `specs/Inner/NormalVersion.antt`.

ghost use Rattle.std.specs.Prelude.{◌≡◌, ◌<◌, ◌≤◌, false, [], ◌∷◌, ◌++◌, IfSome, length, take};
ghost use Rattle.pyver_core.specs.Inner.NormalVersion.{IsNormalVersion, normal_parts};
ghost use Rattle.pyver_core.specs.Version.Grammar.{has_large, number_in, number_in_pre, numbers};
ghost use Rattle.pyver_core.specs.Version.Normal.{decimal_text, dev_text, dotted_number};
ghost use Rattle.pyver_core.specs.Version.Normal.{post_text, pre_text, release_text};

use crate::version::PreKind;

/// A number past this is read in the other way.
const LARGE: u64 = 1_000_000_000_000;

/// The parts of a version that has neither an epoch nor a local part, but for the numbers of its
/// release, which stand in a room apart. It holds no memory.
#[derive(Clone, Copy)]
pub(crate) struct NormalVersion {
    pub(crate) count: usize,
    pub(crate) pre: Option<(PreKind, u128)>,
    pub(crate) post: Option<u128>,
    pub(crate) dev: Option<u128>,
}

/// The parts of which the text is the normal form; the room is for the numbers of the release.
/// There may be such parts where this finds none.
#[inline(always)]
pub(crate) fn read_normal(bytes: &[u8], capacity: &mut [u128]) -> Option<NormalVersion>
    requires { 1 ≤ length capacity.old }
    ensures capacity { length capacity.new ≡ length capacity.old }
    ensures within { IfSome result (λ p. p.count ≤ length capacity.new) }
    ensures normal { IfSome result (λ p. IsNormalVersion bytes.now (normal_parts capacity.new p)) }
    ensures fits { IfSome result (λ p. has_large (numbers (normal_parts capacity.new p)) ≡ false) }
{
    let (count, rest) = read_release(bytes, capacity)?;
    let (pre, rest) = normal_pre(rest)?;
    let (post, rest) = normal_post(rest)?;
    let (dev, rest) = normal_dev(rest)?;
    rest.is_empty().then_some(NormalVersion {
        count,
        pre,
        post,
        dev,
    })
}

/// Puts the numbers of a release in the room: how many these are, and the text behind them.
#[inline(always)]
pub(crate) fn read_release<'a>(bytes: &'a [u8], capacity: &mut [u128]) -> Option<(usize, &'a [u8])>
    requires { 1 ≤ length capacity.old }
    ensures capacity { length capacity.new ≡ length capacity.old }
    ensures some { IfSome result (λ x. 1 ≤ x.0) }
    ensures within { IfSome result (λ x. x.0 ≤ length capacity.new) }
    ensures text { IfSome result (λ x. bytes.now
        ≡ release_text (take x.0 capacity.new) ++ x.1.now) }
    ensures fits { IfSome result (λ x. has_large (take x.0 capacity.new) ≡ false) }
{
    let (first, behind) = normal_number(bytes)?;
    capacity[0] = first;
    let mut count = 1;
    let mut rest = behind;
    while let Some((next, after)) = normal_dotted(rest) {
        if count == capacity.len() {
            return None;
        }
        capacity[count] = next;
        count += 1;
        rest = after;
    }
    Some((count, rest))
}

/// A dot and a number, and the text behind it.
fn normal_dotted(bytes: &[u8]) -> Option<(u128, &[u8])>
    ensures text { IfSome result (λ x. bytes.now ≡ dotted_number x.0 ++ x.1.now) }
    ensures fits { IfSome result (λ x. has_large (x.0 ∷ []) ≡ false) }
{
    match bytes {
        [b'.', rest @ ..] => normal_number(rest),
        _ => None,
    }
}

/// A number, and the text behind it.
fn normal_number(bytes: &[u8]) -> Option<(u128, &[u8])>
    ensures text { IfSome result (λ x. bytes.now ≡ decimal_text x.0 ++ x.1.now) }
    ensures fits { IfSome result (λ x. has_large (x.0 ∷ []) ≡ false) }
{
    match bytes {
        [b'0', rest @ ..] => Some((0, rest)),
        [first @ b'1'..=b'9', rest @ ..] => with_digits(u64::from(*first - b'0'), rest),
        _ => None,
    }
}

/// The number with the digits behind it, and the text behind these.
fn with_digits(number: u64, bytes: &[u8]) -> Option<(u128, &[u8])>
    requires some { 0 < number }
    requires digit { number < 10 }
    ensures text { IfSome result (λ x. decimal_text number ++ bytes.now
        ≡ decimal_text x.0 ++ x.1.now) }
    ensures fits { IfSome result (λ x. has_large (x.0 ∷ []) ≡ false) }
{
    let mut value = number;
    let mut rest = bytes;
    while let [digit @ b'0'..=b'9', after @ ..] = rest {
        if value > LARGE {
            return None;
        }
        value = value * 10 + u64::from(*digit - b'0');
        rest = after;
    }
    Some((u128::from(value), rest))
}

/// The letter and the number of a pre-release or none, and the text behind them.
fn normal_pre(bytes: &[u8]) -> Option<(Option<(PreKind, u128)>, &[u8])>
    ensures text { IfSome result (λ x. bytes.now ≡ pre_text x.0 ++ x.1.now) }
    ensures fits { IfSome result (λ x. has_large (number_in_pre x.0) ≡ false) }
{
    let (kind, rest) = match bytes {
        [b'a', rest @ ..] => (PreKind::A, rest),
        [b'b', rest @ ..] => (PreKind::B, rest),
        [b'r', b'c', rest @ ..] => (PreKind::Rc, rest),
        _ => return Some((None, bytes)),
    };
    let (number, rest) = normal_number(rest)?;
    Some((Some((kind, number)), rest))
}

/// The number of a post-release or none, and the text behind it.
fn normal_post(bytes: &[u8]) -> Option<(Option<u128>, &[u8])>
    ensures text { IfSome result (λ x. bytes.now ≡ post_text x.0 ++ x.1.now) }
    ensures fits { IfSome result (λ x. has_large (number_in x.0) ≡ false) }
{
    match bytes {
        [b'.', b'p', b'o', b's', b't', rest @ ..] => {
            let (number, rest) = normal_number(rest)?;
            Some((Some(number), rest))
        }
        _ => Some((None, bytes)),
    }
}

/// The number of a developmental release or none, and the text behind it.
fn normal_dev(bytes: &[u8]) -> Option<(Option<u128>, &[u8])>
    ensures text { IfSome result (λ x. bytes.now ≡ dev_text x.0 ++ x.1.now) }
    ensures fits { IfSome result (λ x. has_large (number_in x.0) ≡ false) }
{
    match bytes {
        [b'.', b'd', b'e', b'v', rest @ ..] => {
            let (number, rest) = normal_number(rest)?;
            Some((Some(number), rest))
        }
        _ => Some((None, bytes)),
    }
}
