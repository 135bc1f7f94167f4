//! Texts that markers compare, with the version that each spells.

ghost use Rattle.std.specs.Prelude.{◌≡◌, IfOk, IfSome, string_bytes};
ghost use Rattle.std.specs.FinSet as set;
ghost use Rattle.pyver_core.specs.Name.{normal_name};
ghost use Rattle.pyver_core.specs.Parsed.{parsed_version};

use crate::names::SharedNames;
use pyver_core::{NormalForm, NormalName, Version, VersionError};
use std::alloc::{AllocError, Global};
use std::marker::Model;
use std::sync::Arc;

/// A text with what it reads as by PEP 440, so that no comparison reads it again.
///
/// Contracts see the text alone, since the version and the name follow from it.
pub(crate) struct ComparedText {
    text: String,
    version: Result<Version, VersionError>,
    /// The text in normal form (PEP 503), where it was asked for.
    name: Option<NormalName>,
}

impl Model for ComparedText {
    ghost use Rattle.std.specs.Prelude.{◌≡◌, IfSome, List, ℕ, string_bytes};
    ghost use Rattle.pyver_core.specs.Name.{normal_name};
    ghost use Rattle.pyver_core.specs.Parsed.{parsed_version};

    ghost Value = { List ℕ };

    ghost view = { λ c. string_bytes c.text };

    ghost invariant = { λ c. (parsed_version (string_bytes c.text) ≡ c.version)
        × IfSome c.name (λ name. name ≡ normal_name (string_bytes c.text)) };
}

impl ComparedText {
    /// The text, read.
    pub(crate) fn new(alloc: Global, text: String) -> Result<ComparedText, AllocError>
        ensures { IfOk result (λ compared. compared ≡ string_bytes text) }
    {
        let version = read_version(alloc, text.as_str())?;
        Ok(ComparedText {
            text,
            version,
            name: None,
        })
    }

    /// The text, read, and in normal form beside.
    pub(crate) fn with_name(alloc: Global, text: String) -> Result<ComparedText, AllocError>
        ensures { IfOk result (λ compared. compared ≡ string_bytes text) }
    {
        let name = NormalName::new(alloc, text.as_str())?;
        let version = read_version(alloc, text.as_str())?;
        Ok(ComparedText {
            text,
            version,
            name: Some(name),
        })
    }

    /// The text as it was given.
    pub(crate) fn text(&self) -> &str
        ensures { result.now ≡ self.now }
    {
        self.text.as_str()
    }

    /// The version that the text spells, or why it spells none.
    pub(crate) fn version(&self) -> &Result<Version, VersionError>
        ensures { result.now ≡ parsed_version self.now }
    {
        &self.version
    }

    /// Whether the text in normal form is one of the names. It takes memory only where that form is
    /// neither kept nor the text itself.
    pub(crate) fn is_among(&self, alloc: Global, names: &SharedNames) -> Result<bool, AllocError>
        ensures { IfOk result (λ b. b ≡ set.contains names.now (normal_name self.now)) }
    {
        match &self.name {
            Some(name) => Ok(names.has(name.as_str())),
            None => Ok(names.has(NormalForm::of(alloc, self.text.as_str())?.as_str())),
        }
    }
}

impl Drop for ComparedText {
    fn drop(self) {
        let ComparedText {
            text: _,
            version: _,
            name: _,
        } = self;
    }
}

/// A text that environments share, read once.
///
/// Contracts see the text.
pub(crate) struct SharedText {
    compared: Arc<ComparedText>,
}

impl Model for SharedText {
    ghost use Rattle.std.specs.Prelude.{List, ℕ};

    ghost Value = { List ℕ };

    ghost view = { λ s. s.compared.value };
}

impl Drop for SharedText {
    fn drop(self) {
        let SharedText { compared: _ } = self;
    }
}

impl SharedText {
    /// The text, read.
    pub(crate) fn new(alloc: Global, text: String) -> Result<SharedText, AllocError>
        ensures { IfOk result (λ shared. shared ≡ string_bytes text) }
    {
        let compared = Arc::new(alloc, ComparedText::new(alloc, text)?)?;
        Ok(SharedText { compared })
    }

    /// The text with what it reads as.
    pub(crate) fn compared_text(&self) -> &ComparedText
        ensures { result.now ≡ self.now }
    {
        &self.compared
    }
}

/// A copy shares the text, also with other threads. It takes no memory; it is refused only where
/// 2^63 copies stand.
impl Clone for SharedText {
    ghost is_clone = { λ shared copy. copy ≡ shared };

    fn clone(&self) -> Result<SharedText, AllocError> {
        Ok(SharedText {
            compared: self.compared.clone()?,
        })
    }
}

/// What the text reads as.
fn read_version(alloc: Global, text: &str) -> Result<Result<Version, VersionError>, AllocError>
    ensures { IfOk result (λ read. read ≡ parsed_version text.now) }
{
    match Version::parse(alloc, text) {
        Err(VersionError::Memory) => Err(AllocError),
        read => Ok(read),
    }
}
