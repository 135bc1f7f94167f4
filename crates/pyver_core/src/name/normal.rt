//! Names in normal form (PEP 503, "Normalized Names"), which own their text.

ghost use Rattle.std.specs.Prelude.{◌≡◌, ℕ, false, IfOk, List, string_bytes, unwrap_or};
ghost use Rattle.std.specs.Coded.{coded_list, coded_ℕ};
ghost use Rattle.pyver_core.specs.Inner.Names.{is_normal_rest, is_normal_byte};
ghost use Rattle.pyver_core.specs.Name.{normal_name};

use crate::name::normal_name;
use std::alloc::{AllocError, Global};
use std::marker::Model;

/// A name in normal form (PEP 503, "Normalized Names"). Contracts see its text.
pub struct NormalName {
    text: String,
}

impl Model for NormalName {
    ghost Value = { List ℕ };

    ghost coded = { coded_list coded_ℕ };

    ghost view = { λ a. string_bytes a.text };

    ghost invariant = { λ a. normal_name (string_bytes a.text) ≡ string_bytes a.text };
}

impl Drop for NormalName {
    fn drop(self) {
        let NormalName { text: _ } = self;
    }
}

/// A copy takes the memory of its text.
impl Clone for NormalName {
    ghost is_clone = { λ name copy. copy ≡ name };

    fn clone(&self) -> Result<NormalName, AllocError> {
        Ok(NormalName {
            text: self.text.clone()?,
        })
    }
}

impl NormalName {
    /// The normal form of any text, as [`normal_name`] makes it. It takes the memory of one text as
    /// long as the given one.
    #[tactic(auto, using(crate::proofs::Lemmas::Name::Normal::normal_made))]
    pub fn new(alloc: Global, text: &str) -> Result<NormalName, AllocError>
        ensures { IfOk result (λ name. name ≡ normal_name text.now) }
    {
        let text = normal_name(alloc, text)?;
        Ok(NormalName { text })
    }

    /// The normal form of the text, which is the text itself where it stands in it already: then
    /// it takes no memory.
    #[tactic(auto, using(crate::proofs::Lemmas::Name::Normal::normal_stays))]
    pub fn from_string(alloc: Global, text: String) -> Result<NormalName, AllocError>
        ensures { IfOk result (λ name. name ≡ normal_name (string_bytes text)) }
    {
        if is_normal(text.as_bytes()) {
            Ok(NormalName { text })
        } else {
            NormalName::new(alloc, text.as_str())
        }
    }

    /// The text. It takes no memory.
    pub fn as_str(&self) -> &str
        ensures text { result.now ≡ self.now }
        ensures normal { normal_name self.now ≡ self.now }
    {
        self.text.as_str()
    }

    /// The text, moved out. It takes no memory.
    pub fn into_string(self) -> String
        ensures text { string_bytes result ≡ self }
        ensures normal { normal_name self ≡ self }
    {
        let NormalName { text } = self;
        text
    }
}

/// The normal form of a text (PEP 503, "Normalized Names"), which is lent where the text stands in
/// it already. Contracts see the normal form.
pub struct NormalForm<'a> {
    text: &'a str,
    /// The normal form, where it was made.
    made: Option<NormalName>,
}

impl<'a> Model for NormalForm<'a> {
    ghost Value = { List ℕ };

    ghost view = { λ n. unwrap_or n.made n.text.now };
}

impl Drop for NormalForm<'_> {
    fn drop(self) {
        let NormalForm { text: _, made: _ } = self;
    }
}

impl<'a> NormalForm<'a> {
    /// The normal form of any text. It takes memory only where the text isn't lower-case letters,
    /// digits and single `-` alone: then that of one text as long as the given one.
    #[tactic(auto, using(crate::proofs::Lemmas::Name::Normal::normal_stays))]
    pub fn of(alloc: Global, text: &'a str) -> Result<NormalForm<'a>, AllocError>
        ensures { IfOk result (λ name. name ≡ normal_name text.now) }
    {
        let made = if is_normal(text.as_bytes()) {
            None
        } else {
            Some(NormalName::new(alloc, text)?)
        };
        Ok(NormalForm { text, made })
    }

    /// The normal form. It takes no memory.
    pub fn as_str(&self) -> &str
        ensures { result.now ≡ self.now }
    {
        match &self.made {
            Some(name) => name.as_str(),
            None => self.text,
        }
    }
}

/// Whether these are lower-case letters, digits and single `-`.
fn is_normal(bytes: &[u8]) -> bool
    ensures { result ≡ is_normal_rest false bytes.now }
{
    let mut after_dash = false;
    for byte in bytes {
        let is_dash = *byte == b'-';
        if after_dash && is_dash || !is_normal_byte(*byte) {
            return false;
        }
        after_dash = is_dash;
    }
    true
}

fn is_normal_byte(byte: u8) -> bool
    ensures { result ≡ is_normal_byte byte }
{
    byte.is_ascii_lowercase() || byte.is_ascii_digit() || byte == b'-'
}
