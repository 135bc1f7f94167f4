//! Numbers as they stand in a text.

ghost use Rattle.std.specs.Prelude.{◌≡◌, ◌<◌, ℕ, true, SomeIff, [], ◌∷◌};
ghost use Rattle.std.specs.Char.{is_ascii_digit};
ghost use Rattle.std.specs.List.{list_all};
ghost use Rattle.std.specs.Str.Parse.{digits_value};
ghost use Rattle.pytext.specs.Digits.{number_limit};
ghost use Rattle.pyver_core.specs.Inner.Limit.{Makes};

use crate::version::VersionError;
use pytext::digits_value;
use std::marker::Model;

/// The digits of a number, of which there may be none for 0. Contracts see the number, of any size.
#[derive(Drop)]
pub(crate) struct Digits<'a> {
    digits: &'a [u8],
}

impl<'a> Model for Digits<'a> {
    ghost Value = { ℕ };

    ghost view = { λ a. digits_value 10 a.digits.now };

    ghost invariant = { λ a. list_all is_ascii_digit a.digits.now ≡ true };
}

impl<'a> Digits<'a> {
    /// The number that these digits write.
    pub(super) fn new(digits: &'a [u8]) -> Digits<'a>
        requires { list_all is_ascii_digit digits.now ≡ true }
        ensures { result ≡ digits_value 10 digits.now }
    {
        Digits { digits }
    }

    /// 0, which no digits stand for.
    pub(super) fn zero() -> Digits<'a>
        ensures { result ≡ 0 }
    {
        Digits { digits: &[] }
    }

    /// The number, where it isn't past the limit.
    pub(crate) fn value(&self) -> Option<u128>
        ensures { SomeIff result (self.now < number_limit) self.now }
    {
        digits_value(self.digits)
    }

    /// The number, or the refusal of one past the limit.
    pub(crate) fn number(&self) -> Result<u128, VersionError>
        ensures { Makes (λ n. n) result self.now (self.now ∷ []) }
    {
        self.value().ok_or(VersionError::NumberTooLarge)
    }
}
