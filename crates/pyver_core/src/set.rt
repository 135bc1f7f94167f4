//! Specifier sets (PEP 440, "Version specifiers").

ghost use Rattle.std.specs.Prelude.{◌≡◌, [], IfOk, IsTrue, List, Ok, string_bytes};
ghost use Rattle.std.specs.Cmp.{partial_equiv_from_equiv};
ghost use Rattle.pyver_core.specs.Inner.EqualityLaws.{set_equivalence};
ghost use Rattle.pyver_core.specs.Set.Equality.{set_eq};
ghost use Rattle.pyver_core.specs.Set.Normal.{set_text};
ghost use Rattle.pyver_core.specs.Set.Admission.{admits_all};
ghost use Rattle.pyver_core.specs.Parsed.{parsed_set};
ghost use Rattle.pyver_core.specs.declared.set.specifier.Specifier.{Specifier};

mod admission;
mod error;
mod normal;
mod operand;
mod parse;
mod reading;
mod specifier;

use crate::version::Version;
pub use error::SpecifierError;
use normal::set_text;
pub(crate) use specifier::Operand;
pub use specifier::{Operator, ReleasePrefix, Specifier};
use std::alloc::{AllocError, Global};
use std::marker::Model;

/// The most bytes of a text that are compared to see that two sets are the same. Nearly each set is
/// shorter, and a long text that another party chose costs no more than this.
const MOST_COMPARED: usize = 256;

/// Specifiers that all have to hold, kept in the order in which they were written, with their
/// normal form. The empty set admits every version.
///
/// Contracts see the list of the specifiers, since the normal form follows from it.
pub struct SpecifierSet {
    items: Vec<Specifier>,
    text: String,
    /// Whether the set was read from this very text, so that it is known to be the text's own.
    is_normal: bool,
}

impl Model for SpecifierSet {
    ghost Value = { List Specifier };

    ghost view = { λ set. set.items.items };

    ghost invariant = { λ set. (string_bytes set.text ≡ set_text set.items.items)
        × (IsTrue set.is_normal → parsed_set (string_bytes set.text) ≡ Ok set.items.items) };
}

impl SpecifierSet {
    /// The set without a specifier, which admits every version. It takes no memory.
    pub fn empty(alloc: Global) -> SpecifierSet
        ensures { result ≡ [] }
    {
        SpecifierSet {
            items: Vec::new(alloc),
            text: String::new(alloc),
            is_normal: false,
        }
    }

    /// The set of these specifiers, in this order. It takes memory for the normal form.
    pub fn from_specifiers(
        alloc: Global,
        specifiers: Vec<Specifier>,
    ) -> Result<SpecifierSet, AllocError>
        ensures { IfOk result (λ set. set ≡ specifiers.items) }
    {
        let text = set_text(alloc, &specifiers)?;
        Ok(SpecifierSet {
            items: specifiers,
            text,
            is_normal: false,
        })
    }

    /// The specifiers in the order in which they were written.
    pub fn items(&self) -> &[Specifier]
        ensures { result.now ≡ self.now }
    {
        &self.items
    }

    /// The normal form: the specifiers in order, joined by commas.
    pub fn text(&self) -> &str
        ensures { result.now ≡ set_text self.now }
    {
        self.text.as_str()
    }

    /// Whether the sets are seen at once to be the same, as two of one text in normal form are, up
    /// to 256 bytes. `false` says nothing. It takes no memory.
    pub fn is_seen_same(&self, other: &SpecifierSet) -> bool
        ensures { IsTrue result → self.now ≡ other.now }
    {
        self.is_normal
            && other.is_normal
            && self.text.len() <= MOST_COMPARED
            && self.text.as_str() == other.text.as_str()
    }

    /// Whether each of the specifiers admits the version. It takes no memory.
    pub fn admits(&self, version: &Version) -> bool
        ensures { result ≡ admits_all self.now version.now }
    {
        self.items.iter().all(|specifier| specifier.admits(version))
    }
}

/// A copy takes memory for the specifiers and the normal form.
impl Clone for SpecifierSet {
    ghost is_clone = { λ set copy. copy ≡ set };

    fn clone(&self) -> Result<SpecifierSet, AllocError> {
        Ok(SpecifierSet {
            items: self.items.clone()?,
            text: self.text.clone()?,
            is_normal: self.is_normal,
        })
    }
}

/// Equal as they are written: the same specifiers in the same order. It takes no memory.
impl PartialEq for SpecifierSet {
    ghost eq = { set_eq };

    ghost laws = { partial_equiv_from_equiv set_equivalence };

    fn eq(&self, other: &SpecifierSet) -> bool {
        self.items == other.items
    }
}

impl Eq for SpecifierSet {
    ghost laws = { set_equivalence };
}

impl Drop for SpecifierSet {
    fn drop(self) {
        let SpecifierSet {
            items: _,
            text: _,
            is_normal: _,
        } = self;
    }
}
