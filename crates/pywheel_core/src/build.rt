//! Build tags (PEP 427, "File name convention").

ghost use Rattle.std.specs.Prelude.{◌≡◌, if◌then◌else◌, Ok, Err};
ghost use Rattle.std.specs.Char.{is_ascii};
ghost use Rattle.std.specs.List.{list_all};
ghost use Rattle.pytext.specs.Agreement.{Gives};
ghost use Rattle.pywheel_core.specs.Wheel.Build.{build_cmp, build_number, build_rest, is_build};

use crate::error::WheelError;
use pytext::{digits_len, digits_value};
use std::alloc::{AllocError, Global};
use std::cmp::Ordering;
use std::marker::Model;

/// A build tag. Contracts see it as written.
pub(crate) struct BuildTag {
    text: String,
    digits: usize,
    number: u128,
}

impl Model for BuildTag {
    ghost use Rattle.std.specs.Prelude.{◌≡◌, ℕ, List, true, string_bytes};
    ghost use Rattle.std.specs.Char.{is_ascii_digit};
    ghost use Rattle.std.specs.List.{prefix_len};
    ghost use Rattle.pywheel_core.specs.Wheel.Build.{build_number, is_build};

    ghost Value = { List ℕ };

    ghost view = { λ b. string_bytes b.text };

    ghost invariant = { λ b. (is_build (string_bytes b.text) ≡ true)
        × (b.digits ≡ prefix_len is_ascii_digit (string_bytes b.text))
        × (b.number ≡ build_number (string_bytes b.text)) };
}

impl Drop for BuildTag {
    fn drop(self) {
        let BuildTag {
            text: _,
            digits: _,
            number: _,
        } = self;
    }
}

impl BuildTag {
    /// The build tag that the text is.
    pub(crate) fn parse(alloc: Global, text: &str) -> Result<BuildTag, WheelError>
        ensures { Gives WheelError.Memory (λ b. b) result
            (if is_build text.now then Ok text.now else Err WheelError.Build) }
    {
        let digits = digits_len(text.as_bytes());
        let Some(number) = digits_value(&text.as_bytes()[..digits]) else {
            return Err(WheelError::Build);
        };
        if digits == 0 || !is_ascii(text.as_bytes()) {
            return Err(WheelError::Build);
        }
        let text = String::from_str(alloc, text)?;
        Ok(BuildTag {
            text,
            digits,
            number,
        })
    }

    /// The build tag as written.
    pub(crate) fn as_str(&self) -> &str
        ensures { result.now ≡ self.now }
    {
        self.text.as_str()
    }

    /// The number of the leading digits.
    pub(crate) fn number(&self) -> u128
        ensures { result ≡ build_number self.now }
    {
        self.number
    }

    /// What stands after those digits.
    pub(crate) fn rest(&self) -> &str
        ensures { result.now ≡ build_rest self.now }
    {
        self.text.as_str().split_at(self.digits).1
    }

    /// The order of build tags: by number, then by what stands after it, by code point.
    pub(crate) fn compare(&self, other: &BuildTag) -> Ordering
        ensures { result ≡ build_cmp self.now other.now }
    {
        self.number
            .cmp(&other.number)
            .then(self.rest().cmp(other.rest()))
    }
}

/// A copy takes memory for the text.
impl Clone for BuildTag {
    ghost is_clone = { λ build copy. copy ≡ build };

    fn clone(&self) -> Result<BuildTag, AllocError> {
        Ok(BuildTag {
            text: self.text.clone()?,
            digits: self.digits,
            number: self.number,
        })
    }
}

fn is_ascii(bytes: &[u8]) -> bool
    ensures { result ≡ list_all is_ascii bytes.now }
{
    bytes.iter().all(|byte| byte.is_ascii())
}
