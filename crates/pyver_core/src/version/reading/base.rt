//! The epoch and the release, as they stand in a text.

ghost use Rattle.std.specs.Prelude.{◌≡◌, ◌≢◌, ◌++◌, [], IfOk, length, nat_le, option_map};
ghost use Rattle.pyver_core.specs.Inner.VersionDraft.{base_of};
ghost use Rattle.pyver_core.specs.Inner.Limit.{Makes};
ghost use Rattle.pyver_core.specs.Version.Reading.{after_prefix, base_at, dotted_number_at};
ghost use Rattle.pyver_core.specs.Version.Reading.{head_at, many_at};

use super::digits::Digits;
use super::scan;
use crate::version::VersionError;
use std::alloc::Global;
use std::marker::Model;

/// A release: its first number, and the text that begins with the others.
#[derive(Drop)]
pub(crate) struct Release<'a> {
    first: Digits<'a>,
    others: &'a [u8],
}

impl<'a> Model for Release<'a> {
    ghost use Rattle.std.specs.Prelude.{ℕ, List, ◌∷◌};
    ghost use Rattle.pyver_core.specs.Version.Reading.{many_at, dotted_number_at};

    ghost Value = { List ℕ };

    ghost view = { λ a. a.first ∷ (many_at dotted_number_at a.others.now).0 };
}

impl Release<'_> {
    /// Whether there are two numbers or more.
    pub(crate) fn has_two_numbers(&self) -> bool
        ensures { result ≡ nat_le 2 (length self.now) }
    {
        scan::read_dotted_number(self.others).is_some()
    }

    /// The numbers.
    pub(crate) fn to_numbers(&self, alloc: Global) -> Result<Vec<u128>, VersionError>
        ensures made { Makes (λ v. v.items) result self.now self.now }
        ensures not_empty { IfOk result (λ v. v.items ≢ []) }
    {
        let mut numbers = Vec::new(alloc);
        numbers.push(self.first.number()?)?;
        with_dotted_numbers(numbers, self.others)
    }
}

/// An epoch and a release.
#[derive(Drop)]
pub(crate) struct Base<'a> {
    pub(crate) epoch: Digits<'a>,
    pub(crate) release: Release<'a>,
}

/// The text behind the prefix `v`, or the text.
fn after_prefix(bytes: &[u8]) -> &[u8]
    ensures { result.now ≡ after_prefix bytes.now }
{
    match bytes {
        [b'v' | b'V', rest @ ..] => rest,
        _ => bytes,
    }
}

/// The epoch, the first number of the release, and the text after it.
#[tactic(auto, unfolding(crate::specs::Version::Reading::head_at))]
fn read_head(bytes: &[u8]) -> Option<(Digits<'_>, Digits<'_>, &[u8])>
    ensures { option_map (λ x. ((x.0, x.1), x.2.now)) result ≡ head_at bytes.now }
{
    let (first, rest) = scan::read_number(bytes)?;
    match rest {
        [b'!', rest @ ..] => {
            let (second, rest) = scan::read_number(rest)?;
            Some((first, second, rest))
        }
        _ => Some((Digits::zero(), first, rest)),
    }
}

/// The text after numbers with a dot before each.
#[tactic(auto, using(crate::proofs::Lemmas::Version::Reading::Many::dotted))]
fn after_dotted_numbers(bytes: &[u8]) -> &[u8]
    ensures { result.now ≡ (many_at dotted_number_at bytes.now).1 }
{
    let mut rest = bytes;
    while let Some((_, after)) = scan::read_dotted_number(rest) {
        rest = after;
    }
    rest
}

/// The epoch and the release, after the prefix, and the text after them.
#[tactic(auto, unfolding(crate::specs::Version::Reading::base_at))]
pub(crate) fn read_base(bytes: &[u8]) -> Option<(Base<'_>, &[u8])>
    ensures { option_map (λ x. (base_of x.0, x.1.now)) result ≡ base_at bytes.now }
{
    let (epoch, first, others) = read_head(after_prefix(bytes))?;
    let rest = after_dotted_numbers(others);
    let release = Release { first, others };
    Some((Base { epoch, release }, rest))
}

/// The numbers, and those that the text begins with, with a dot before each.
pub(super) fn with_dotted_numbers(
    mut numbers: Vec<u128>,
    bytes: &[u8],
) -> Result<Vec<u128>, VersionError>
    ensures { Makes (λ v. v.items) result (numbers.items ++ (many_at dotted_number_at bytes.now).0)
        (many_at dotted_number_at bytes.now).0 }
{
    let mut rest = bytes;
    while let Some((next, after)) = scan::read_dotted_number(rest) {
        numbers.push(next.number()?)?;
        rest = after;
    }
    Ok(numbers)
}
