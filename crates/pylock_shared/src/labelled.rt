//! A text whose front others share.

ghost use Rattle.std.specs.Prelude.{◌≡◌, ◌++◌, IfOk, option_map, string_bytes};
ghost use Rattle.std.specs.Option.{option_copied};

use crate::shared::SharedText;
use std::alloc::{AllocError, Global};
use std::marker::Model;

/// A text whose front, its label, it may share with others. Contracts see the whole text.
pub struct LabelledText {
    label: Option<SharedText>,
    rest: String,
}

impl Model for LabelledText {
    ghost use Rattle.std.specs.Prelude.{◌++◌, [], List, ℕ, string_bytes};
    ghost use Rattle.std.specs.Option.{option_map_or};

    ghost Value = { List ℕ };

    ghost view = { λ t. option_map_or (λ label. label) t.label [] ++ string_bytes t.rest };
}

impl Drop for LabelledText {
    fn drop(self) {
        let LabelledText { label: _, rest: _ } = self;
    }
}

impl LabelledText {
    /// The label, and behind it a text, which is moved. It takes no memory; it is refused only
    /// where 2^63 share the label.
    pub fn new(label: &SharedText, rest: String) -> Result<LabelledText, AllocError>
        ensures { IfOk result (λ text. text ≡ label.now ++ string_bytes rest) }
    {
        let label = Some(label.clone()?);
        Ok(LabelledText { label, rest })
    }

    /// A text without a label, which is moved. It takes no memory.
    pub fn plain(text: String) -> LabelledText
        ensures { result ≡ string_bytes text }
    {
        LabelledText {
            label: None,
            rest: text,
        }
    }

    /// The label, or the empty text, and what stands behind it.
    pub fn parts(&self) -> (&str, &str)
        ensures { result.0.now ++ result.1.now ≡ self.now }
    {
        match &self.label {
            Some(label) => (label.as_str(), self.rest.as_str()),
            None => ("", self.rest.as_str()),
        }
    }

    /// The whole text, which it takes memory for, once more while it grows.
    pub fn to_text(&self, alloc: Global) -> Result<String, AllocError>
        ensures { IfOk result (λ text. string_bytes text ≡ self.now) }
    {
        let (label, rest) = self.parts();
        let mut text = String::from_str(alloc, label)?;
        text.push_str(rest)?;
        Ok(text)
    }
}

/// A text without a label, where it is there.
pub fn plain_text(text: Option<String>) -> Option<LabelledText>
    ensures { result ≡ option_map string_bytes text }
{
    match text {
        Some(text) => Some(LabelledText::plain(text)),
        None => None,
    }
}

/// The whole text, where it is there.
pub fn whole_text(alloc: Global, text: Option<&LabelledText>) -> Result<Option<String>, AllocError>
    ensures { IfOk result (λ whole. option_map string_bytes whole ≡ option_copied text.entry) }
{
    match text {
        Some(text) => Ok(Some(text.to_text(alloc)?)),
        None => Ok(None),
    }
}
