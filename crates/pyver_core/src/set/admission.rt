//! Which versions a specifier admits (PEP 440, "Version specifiers").

ghost use Rattle.std.specs.Prelude.{◌≡◌, ◌==◌, length, nat_eq};
ghost use Rattle.std.specs.List.{list_all, starts_with};
ghost use Rattle.pyver_core.specs.Version.Order.{with_zeros};
ghost use Rattle.pyver_core.specs.Set.Admission as admission;

use crate::set::Specifier;
use crate::version::{Version, compare_fronts, compare_public, compare_to_public};

impl Specifier {
    /// Whether the specifier admits the version. It takes no memory.
    pub fn admits(&self, version: &Version) -> bool
        ensures { result ≡ admission.admits self.now version.now }
    {
        match self {
            Specifier::Equal(operand) => matches(operand, version),
            Specifier::EqualPrefix(prefix) => {
                matches_prefix(prefix.epoch(), prefix.release(), version)
            }
            Specifier::NotEqual(operand) => !matches(operand, version),
            Specifier::NotEqualPrefix(prefix) => {
                !matches_prefix(prefix.epoch(), prefix.release(), version)
            }
            Specifier::AtMost(operand) => is_at_most(operand, version),
            Specifier::AtLeast(operand) => is_at_least(operand, version),
            Specifier::Before(operand) => is_below(operand, version),
            Specifier::After(operand) => is_above(operand, version),
            Specifier::Compatible(operand) => is_compatible(operand, version),
            Specifier::Arbitrary(text) => version.text().eq_ignore_ascii_case(text.as_str()),
        }
    }
}

fn has_local(version: &Version) -> bool
    ensures { result ≡ admission.has_local version.now }
{
    !version.local().is_empty()
}

fn matches(operand: &Version, version: &Version) -> bool
    ensures { result ≡ admission.matches operand.now version.now }
{
    if has_local(operand) {
        version == operand
    } else {
        compare_public(version, operand).is_eq()
    }
}

fn matches_prefix(epoch: u128, release: &[u128], version: &Version) -> bool
    ensures { result ≡ admission.matches_prefix epoch release.now version.now }
{
    version.epoch() == epoch && begins_with(version.release(), release)
}

/// Whether a release begins with these numbers, as if it ended in as many zeros as it lacks.
#[tactic(auto, using(crate::proofs::Lemmas::Set::Admission::begins_short))]
fn begins_with(release: &[u128], prefix: &[u128]) -> bool
    ensures { result ≡ starts_with nat_eq (with_zeros (length prefix.now) release.now) prefix.now }
{
    if prefix.len() <= release.len() {
        return release.starts_with(prefix);
    }
    let (first, rest) = prefix.split_at(release.len());
    first == release && are_zeros(rest)
}

fn are_zeros(numbers: &[u128]) -> bool
    ensures { result ≡ list_all (λ n. n == 0) numbers.now }
{
    numbers.iter().all(|number| *number == 0)
}

/// Whether the base releases are the same version: they have nothing behind the release.
#[tactic(auto, using(crate::proofs::Lemmas::Version::Fronts::fronts_of_bases))]
fn has_base_of(operand: &Version, version: &Version) -> bool
    ensures { result ≡ admission.has_base_of operand.now version.now }
{
    compare_fronts(version, operand).is_eq()
}

fn is_at_most(operand: &Version, version: &Version) -> bool
    ensures { result ≡ admission.is_at_most operand.now version.now }
{
    !compare_to_public(operand, version).is_lt()
}

fn is_at_least(operand: &Version, version: &Version) -> bool
    ensures { result ≡ admission.is_at_least operand.now version.now }
{
    !compare_public(version, operand).is_lt()
}

fn is_below(operand: &Version, version: &Version) -> bool
    ensures { result ≡ admission.is_below operand.now version.now }
{
    version < operand
        && !(!operand.is_prerelease() && version.is_prerelease() && has_base_of(operand, version))
}

fn is_above(operand: &Version, version: &Version) -> bool
    ensures { result ≡ admission.is_above operand.now version.now }
{
    operand < version
        && !(!operand.is_postrelease() && version.is_postrelease() && has_base_of(operand, version))
        && !(has_local(version) && compare_public(version, operand).is_eq())
}

fn is_compatible(operand: &Version, version: &Version) -> bool
    ensures { result ≡ admission.is_compatible operand.now version.now }
{
    let release = operand.release();
    is_at_least(operand, version)
        && matches_prefix(operand.epoch(), &release[..release.len() - 1], version)
}
