//! The rank of a version: one number by which versions order that have one, as nearly each has. It
//! is made with the version; 0 stands for none.

ghost use Rattle.std.specs.Prelude.{◌≡◌, ◌<◌, ◌^◌, ◌∷◌, [], IfSome, if◌then◌else◌};
ghost use Rattle.pyver_core.specs.Inner.PartsRef.{parts_of};
ghost use Rattle.pyver_core.specs.Inner.Rank.{are_digits, four_numbers, in_base_4096, rank_of};
ghost use Rattle.pyver_core.specs.Inner.Rank.{suffix_of};

use crate::version::{PartsRef, PreKind};

/// Each of four numbers of the release has 12 bits of the rank.
const RELEASE_LIMIT: u128 = 4096;

/// Below these stand 3 bits for the kind of the suffix, and then 13 for its number.
const SUFFIX_LIMIT: u128 = 8192;

/// The rank of the version with these parts, 0 where it has none.
#[tactic(auto, unfolding(crate::specs::Inner::Rank::rank_of))]
#[inline(always)]
pub(crate) fn rank_of(parts: &PartsRef<'_>) -> u64
    ensures { result ≡ rank_of (parts_of parts.now) }
{
    let (kind, number) = suffix_of(parts);
    if parts.epoch != 0 || !parts.local.is_empty() || kind == 0 || number >= SUFFIX_LIMIT {
        return 0;
    }
    match release_rank(parts.release) {
        Some(release) => (release * 8 + kind) * 8192 + number as u64,
        None => 0,
    }
}

/// The kind of what stands behind the release, lowest first, and its number: the kind is 0 where
/// two suffixes stand there.
#[inline(always)]
fn suffix_of(parts: &PartsRef<'_>) -> (u64, u128)
    ensures value { result ≡ suffix_of parts.now.pre parts.now.post parts.now.dev }
    ensures fits { result.0 < 8 }
{
    match (parts.pre, parts.post, parts.dev) {
        (None, None, None) => (5, 0),
        (None, None, Some(number)) => (1, number),
        (Some((PreKind::A, number)), None, None) => (2, number),
        (Some((PreKind::B, number)), None, None) => (3, number),
        (Some((PreKind::Rc, number)), None, None) => (4, number),
        (None, Some(number), None) => (6, number),
        _ => (0, 0),
    }
}

/// The numbers of the release as the digits of one number, those that it lacks as 0; `None` where
/// there are too many, or one is too large.
#[inline(always)]
fn release_rank(release: &[u128]) -> Option<u64>
    ensures value { result ≡ (if are_digits (four_numbers release.now)
        then Some (in_base_4096 (four_numbers release.now)) else None) }
    ensures fits { IfSome result (λ n. n < 4096 ^ 4) }
{
    match release {
        [] => from_digits(0, 0, 0, 0),
        [first] => from_digits(*first, 0, 0, 0),
        [first, second] => from_digits(*first, *second, 0, 0),
        [first, second, third] => from_digits(*first, *second, *third, 0),
        [first, second, third, fourth] => from_digits(*first, *second, *third, *fourth),
        _ => None,
    }
}

/// The number with these digits in base 4096, `None` where one is too large.
#[inline(always)]
fn from_digits(first: u128, second: u128, third: u128, fourth: u128) -> Option<u64>
    ensures value { let digits = first ∷ second ∷ third ∷ fourth ∷ [] in
        result ≡ (if are_digits digits then Some (in_base_4096 digits) else None) }
    ensures fits { IfSome result (λ n. n < 4096 ^ 4) }
{
    if first < RELEASE_LIMIT
        && second < RELEASE_LIMIT
        && third < RELEASE_LIMIT
        && fourth < RELEASE_LIMIT
    {
        let front = (first as u64 * 4096 + second as u64) * 4096 + third as u64;
        Some(front * 4096 + fourth as u64)
    } else {
        None
    }
}
