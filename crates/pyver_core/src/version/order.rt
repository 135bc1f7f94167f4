//! The order of versions (PEP 440, "Summary of permitted suffixes and relative ordering").

ghost use Rattle.std.specs.Prelude.{◌≡◌, refl};
ghost use Rattle.std.specs.Cmp.{eq_by_cmp_equiv, partial_equiv_from_equiv};
ghost use Rattle.std.specs.Cmp.{partial_order_from_total};
ghost use Rattle.std.specs.Ordering.{as_partial_cmp, eq_by_cmp, nat_cmp, ordering_then};
ghost use Rattle.pyver_core.specs.Inner.PartsRef.{parts_of};
ghost use Rattle.pyver_core.specs.Inner.Tails.{tail_cmp};
ghost use Rattle.pyver_core.specs.Version.Order.{dev_cmp, phase_number, phase_rank, release_cmp};
ghost use Rattle.pyver_core.specs.Version.Order.{version_cmp};
ghost use Rattle.pyver_core.specs.Inner.Phase.{phase_of};
ghost use Rattle.pyver_core.specs.Version.OrderLaws.{version_total};
ghost use Rattle.pyver_core.specs.Version.Hashing.{without_trailing_zeros};
ghost use Rattle.pyver_core.specs.Version.Parts.{public_part};

use crate::version::{PartsRef, PreKind, Version};
use std::cmp::Ordering;

/// Compares the version without its local part with the operand.
#[tactic(auto, using(crate::proofs::Lemmas::Version::Rank::by_rank))]
pub(crate) fn compare_public(version: &Version, operand: &Version) -> Ordering
    ensures { result ≡ version_cmp (public_part version.now) operand.now }
{
    if version.rank() != 0 && operand.rank() != 0 {
        return version.rank().cmp(&operand.rank());
    }
    compare_public_parts(version, operand)
}

/// Compares the operand with the version without its local part.
#[tactic(auto, using(crate::proofs::Lemmas::Version::Rank::by_rank))]
pub(crate) fn compare_to_public(operand: &Version, version: &Version) -> Ordering
    ensures { result ≡ version_cmp operand.now (public_part version.now) }
{
    if operand.rank() != 0 && version.rank() != 0 {
        return operand.rank().cmp(&version.rank());
    }
    compare_to_public_parts(operand, version)
}

/// Compares two versions by their parts. This and the two below stand apart from the comparisons by
/// ranks, which are a few instructions so.
#[inline(never)]
#[tactic(auto, using(crate::proofs::Lemmas::Version::Fronts::in_parts))]
fn compare_parts(left: &Version, right: &Version) -> Ordering
    ensures { result ≡ version_cmp left.now right.now }
{
    match compare_fronts(left, right) {
        Ordering::Equal => compare_tails(&left.parts(), &right.parts()),
        decided => decided,
    }
}

#[inline(never)]
#[tactic(auto, using(crate::proofs::Lemmas::Version::Fronts::in_parts))]
fn compare_public_parts(version: &Version, operand: &Version) -> Ordering
    ensures { result ≡ version_cmp (public_part version.now) operand.now }
{
    match compare_fronts(version, operand) {
        Ordering::Equal => compare_tails(&version.parts().public_part(), &operand.parts()),
        decided => decided,
    }
}

#[inline(never)]
#[tactic(auto, using(crate::proofs::Lemmas::Version::Fronts::in_parts))]
fn compare_to_public_parts(operand: &Version, version: &Version) -> Ordering
    ensures { result ≡ version_cmp operand.now (public_part version.now) }
{
    match compare_fronts(operand, version) {
        Ordering::Equal => compare_tails(&operand.parts(), &version.parts().public_part()),
        decided => decided,
    }
}

/// Compares the epochs and then the releases. Where they differ the parts behind them don't count,
/// and those aren't looked at: so do most versions.
pub(crate) fn compare_fronts(left: &Version, right: &Version) -> Ordering
    ensures { result ≡ ordering_then (nat_cmp left.now.epoch right.now.epoch)
        (release_cmp left.now.release right.now.release) }
{
    match left.epoch().cmp(&right.epoch()) {
        Ordering::Equal => compare_releases(left.release(), right.release()),
        decided => decided,
    }
}

/// Compares what stands behind the epochs and the releases, which decides where those are equal.
fn compare_tails(left: &PartsRef<'_>, right: &PartsRef<'_>) -> Ordering
    ensures { result ≡ tail_cmp (parts_of left.now) (parts_of right.now) }
{
    compare_phases(left, right)
        .then(left.post.cmp(&right.post))
        .then(compare_dev(left.dev, right.dev))
        .then(left.local.cmp(right.local))
}

/// Compares releases as if the shorter one ended in as many zeros as it lacks. Zeros are looked at
/// only behind what the two have alike.
fn compare_releases(left: &[u128], right: &[u128]) -> Ordering
    ensures { result ≡ release_cmp left.now right.now }
{
    let both = left.len().min(right.len());
    let (left_front, left) = left.split_at(both);
    let (right_front, right) = right.split_at(both);
    match left_front.cmp(right_front) {
        Ordering::Equal => without_trailing_zeros(left).cmp(without_trailing_zeros(right)),
        decided => decided,
    }
}

/// A release without the zeros at its end.
#[tactic(auto, using(crate::proofs::Lemmas::Version::Hashing::TrailingZeros::trailing_zeros))]
pub(crate) fn without_trailing_zeros(release: &[u128]) -> &[u128]
    ensures { result.now ≡ without_trailing_zeros release.now }
{
    let mut end = release.len();
    while end > 0 && release[end - 1] == 0 {
        end -= 1;
    }
    release.split_at(end).0
}

/// Where a version stands among those of its release, lowest first.
#[derive(Clone, Copy, PartialEq, Eq, PartialOrd, Ord)]
pub(super) enum Phase {
    /// A developmental release that is neither a pre- nor a post-release.
    Developmental,
    /// A pre-release: by its letter, then by its number.
    Pre(PreKind, u128),
    /// Every other version.
    Final,
}

pub(super) fn phase_of(parts: &PartsRef<'_>) -> Phase
    ensures { result ≡ phase_of parts.now.pre parts.now.post parts.now.dev }
{
    match (parts.pre, parts.post, parts.dev) {
        (Some((kind, number)), _, _) => Phase::Pre(kind, number),
        (None, None, Some(_)) => Phase::Developmental,
        (None, _, _) => Phase::Final,
    }
}

fn compare_phases(left: &PartsRef<'_>, right: &PartsRef<'_>) -> Ordering
    ensures { result ≡ ordering_then
        (nat_cmp (phase_rank left.now.pre left.now.post left.now.dev)
        (phase_rank right.now.pre right.now.post right.now.dev))
        (nat_cmp (phase_number left.now.pre) (phase_number right.now.pre)) }
{
    phase_of(left).cmp(&phase_of(right))
}

/// Compares developmental releases: by number, and then what is none.
fn compare_dev(left: Option<u128>, right: Option<u128>) -> Ordering
    ensures { result ≡ dev_cmp left right }
{
    match (left, right) {
        (Some(left), Some(right)) => left.cmp(&right),
        (Some(_), None) => Ordering::Less,
        (None, Some(_)) => Ordering::Greater,
        (None, None) => Ordering::Equal,
    }
}

impl PartialEq for Version {
    ghost eq = { eq_by_cmp version_cmp };

    ghost laws = { partial_equiv_from_equiv (eq_by_cmp_equiv version_total) };

    fn eq(&self, other: &Version) -> bool {
        self.cmp(other).is_eq()
    }
}

impl Eq for Version {
    ghost laws = { eq_by_cmp_equiv version_total };
}

impl PartialOrd for Version {
    ghost partial_cmp = { as_partial_cmp version_cmp };

    ghost laws = { partial_order_from_total version_total };

    fn partial_cmp(&self, other: &Version) -> Option<Ordering> {
        Some(self.cmp(other))
    }
}

/// Compares in turn the epochs, the releases (the shorter one padded with zeros), the phases, the
/// post-releases, the developmental releases and the local parts. It takes no memory. Where both
/// versions have a rank, these two numbers say the same.
impl Ord for Version {
    ghost cmp = { version_cmp };

    ghost total = { version_total };

    ghost matches_partial_cmp = { λ v w. refl };

    ghost matches_eq = { λ v w. refl };

    #[tactic(auto, using(crate::proofs::Lemmas::Version::Rank::by_rank))]
    fn cmp(&self, other: &Version) -> Ordering {
        if self.rank() != 0 && other.rank() != 0 {
            return self.rank().cmp(&other.rank());
        }
        compare_parts(self, other)
    }
}
