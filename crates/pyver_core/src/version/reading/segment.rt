//! Segments of a local part as they stand in a text.

ghost use Rattle.std.specs.Prelude.{◌≡◌, true, IfOk, string_bytes};
ghost use Rattle.std.specs.Char.{is_ascii_alphanumeric};
ghost use Rattle.std.specs.List.{list_all};
ghost use Rattle.std.specs.Str.{str_to_ascii_lowercase};
ghost use Rattle.pyver_core.specs.Inner.Limit.{Makes};
ghost use Rattle.pyver_core.specs.Version.Grammar.{number_in_segment};
ghost use Rattle.pyver_core.specs.Version.Reading.{segment_of};
ghost use Rattle.pyver_core.specs.declared.version.part.LocalPart.{LocalPart};

use super::digits::Digits;
use crate::version::{LocalPart, VersionError};
use pytext::{Text, are_digits};
use std::alloc::{AllocError, Global};
use std::marker::Model;

/// Letters and digits in a text. Contracts see the segment that they spell.
#[derive(Drop)]
pub(crate) struct Segment<'a> {
    run: &'a [u8],
}

impl<'a> Model for Segment<'a> {
    ghost Value = { LocalPart };

    ghost view = { λ a. segment_of a.run.now };

    ghost invariant = { λ a. list_all is_ascii_alphanumeric a.run.now ≡ true };
}

impl<'a> Segment<'a> {
    /// The segment that these letters and digits spell.
    pub(super) fn new(run: &'a [u8]) -> Segment<'a>
        requires { list_all is_ascii_alphanumeric run.now ≡ true }
        ensures { result ≡ segment_of run.now }
    {
        Segment { run }
    }

    /// The segment, with its text in lower case.
    pub(crate) fn to_local_part(&self, alloc: Global) -> Result<LocalPart, VersionError>
        ensures { Makes (λ s. s) result self.now (number_in_segment self.now) }
    {
        if are_digits(self.run) {
            let number = Digits::new(self.run).number()?;
            return Ok(LocalPart::Number(number));
        }
        let text = lowercase(alloc, self.run)?;
        Ok(LocalPart::Text(Text::new(text)))
    }
}

/// The letters and digits in lower case.
fn lowercase(alloc: Global, bytes: &[u8]) -> Result<String, AllocError>
    requires { list_all is_ascii_alphanumeric bytes.now ≡ true }
    ensures { IfOk result (λ text. string_bytes text ≡ str_to_ascii_lowercase bytes.now) }
{
    let mut text = String::with_capacity(alloc, bytes.len())?;
    for byte in bytes {
        text.push(char::from(byte.to_ascii_lowercase()))?;
    }
    Ok(text)
}
