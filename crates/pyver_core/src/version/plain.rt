//! Versions that are a release alone and stand in their texts in normal form, as most do: they are
//! read without an allocation.

ghost use Rattle.std.specs.Prelude.{◌≡◌, ◌≢◌, ◌≤◌, [], IfOk, IfSome, Ok, length, take};
ghost use Rattle.pyver_core.specs.Inner.PartsRef.{parts_of};
ghost use Rattle.pyver_core.specs.Parsed.{parsed_version};
ghost use Rattle.pyver_core.specs.Version.Normal.{normal_text};
ghost use Rattle.pyver_core.specs.Version.OrderKey.{order_key};
ghost use Rattle.pyver_core.specs.Version.Parts.{Parts, release_alone};

use super::order_key::key_of;
use super::reading::read_release;
use crate::version::PartsRef;
use std::alloc::{AllocError, Global};
use std::marker::Model;

/// The most numbers of a release that is kept in place.
const MOST_NUMBERS: usize = 8;

/// A version that is a release of a few numbers alone, read from its normal form (PEP 440, "Final
/// releases"). It takes no memory.
///
/// [`Version::parse`](crate::Version::parse) reads every version. This stands beside it for whoever
/// reads many, since most are of this kind.
#[derive(Drop)]
pub struct PlainVersion {
    numbers: [u128; MOST_NUMBERS],
    count: usize,
}

impl Model for PlainVersion {
    ghost Value = { Parts };

    ghost view = { λ v. release_alone (take v.count v.numbers) };

    ghost invariant = { λ v. (v.count ≤ length v.numbers)
        × (take v.count v.numbers ≢ []) };
}

impl PlainVersion {
    /// The version that the text spells, where the text is its normal form, and it is a release of
    /// eight numbers at most, each below 2^40. There may be a version where this finds none.
    #[tactic(auto, using(crate::proofs::Lemmas::Version::NormalVersion::plain_is_read))]
    pub fn read(text: &str) -> Option<PlainVersion>
        ensures parsed { IfSome result (λ v. parsed_version text.now ≡ Ok v) }
        ensures normal { IfSome result (λ v. normal_text v ≡ text.now) }
        ensures alone { IfSome result (λ v. v ≡ release_alone v.release) }
    {
        let mut numbers = [0; MOST_NUMBERS];
        let (count, rest) = read_release(text.as_bytes(), &mut numbers)?;
        rest.is_empty().then_some(PlainVersion { numbers, count })
    }

    /// The numbers of the release.
    pub fn release(&self) -> &[u128]
        ensures { result.now ≡ self.now.release }
    {
        self.parts().release
    }

    /// The order key, as [`Version::order_key`](crate::Version::order_key) has it. It takes memory
    /// for the key.
    pub fn order_key(&self, alloc: Global) -> Result<Vec<u8>, AllocError>
        ensures { IfOk result (λ key. key.items ≡ order_key self.now) }
    {
        key_of(alloc, &self.parts())
    }

    /// The parts, lent.
    fn parts(&self) -> PartsRef<'_>
        ensures { parts_of result ≡ self.now }
    {
        PartsRef {
            epoch: 0,
            release: &self.numbers[..self.count],
            pre: None,
            post: None,
            dev: None,
            local: &[],
        }
    }
}
