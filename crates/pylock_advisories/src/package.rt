//! Elements of `affected`: which versions of a package an advisory affects.
ghost use Rattle.std.specs.Prelude.{◌≡◌, IfOk, List, ℕ, map, option_copied};
ghost use Rattle.std.specs.List.{list_any};
ghost use Rattle.std.specs.Str.{bytes_eq};
ghost use Rattle.pyver_core.specs.Version.Order.{is_same};
ghost use Rattle.pylock_advisories.specs.Evaluation.{affects, affects_version, is_included};
ghost use Rattle.pylock_advisories.specs.Reading.{element_of};

use crate::range::Range;
use crate::versions::sorted_out;
use pytext::Text;
use pyver_core::{NormalName, Version};
use std::alloc::{AllocError, Global};
use std::marker::Model;

/// An element of `affected` that is of a package of PyPI.
pub struct AffectedPackage {
    name: NormalName,
    versions: Vec<Version>,
    /// The texts of `versions` that are no version.
    texts: Vec<Text>,
    ranges: Vec<Range>,
}

impl Model for AffectedPackage {
    ghost use Rattle.pylock_advisories.specs.Advisory.{AffectedValue};

    ghost Value = { AffectedValue };

    ghost view = { λ a. record {
      name = a.name;
      versions = a.versions.items;
      texts = a.texts.items;
      ranges = a.ranges.items;
    } };
}

impl Drop for AffectedPackage {
    fn drop(self) {
        let AffectedPackage {
            name: _,
            versions: _,
            texts: _,
            ranges: _,
        } = self;
    }
}

impl AffectedPackage {
    /// The element with these texts of `versions`.
    pub(crate) fn new(
        alloc: Global,
        name: NormalName,
        texts: &[&str],
        ranges: Vec<Range>,
    ) -> Result<AffectedPackage, AllocError>
        ensures { IfOk result (λ made. made
            ≡ element_of (map (λ text. text.now) texts.now) ranges.items name) }
    {
        let (versions, texts) = sorted_out(alloc, texts)?;
        Ok(AffectedPackage {
            name,
            versions,
            texts,
            ranges,
        })
    }

    /// The package's name, in normal form.
    pub(crate) fn name(&self) -> &str
        ensures { result.now ≡ self.now.name }
    {
        self.name.as_str()
    }

    /// The ranges.
    pub(crate) fn ranges(&self) -> &[Range]
        ensures { result.now ≡ self.now.ranges }
    {
        &self.ranges
    }

    /// Whether it affects the package at the version of this text.
    pub(crate) fn affects(&self, text: &str, version: Option<&Version>) -> bool
        ensures { result ≡ affects text.now (option_copied version.entry) self.now }
    {
        match version {
            Some(version) => self.affects_version(version),
            None => self.has_text(text),
        }
    }

    /// Whether it affects the version: one of those that are listed is the same, or a range
    /// includes it.
    #[tactic(auto, unfolding(crate::specs::Evaluation::affects_version))]
    pub(crate) fn affects_version(&self, version: &Version) -> bool
        ensures { result ≡ affects_version version.now self.now }
    {
        self.lists(version) || self.is_included(version)
    }

    fn lists(&self, version: &Version) -> bool
        ensures { result ≡ list_any (is_same version.now) self.now.versions }
    {
        self.versions
            .iter()
            .any(|listed| version.cmp(listed).is_eq())
    }

    fn is_included(&self, version: &Version) -> bool
        ensures { result ≡ list_any (is_included version.now) self.now.ranges }
    {
        self.ranges.iter().any(|range| range.includes(version))
    }

    fn has_text(&self, text: &str) -> bool
        ensures { result ≡ list_any (bytes_eq text.now) self.now.texts }
    {
        self.texts.iter().any(|other| text == other.as_str())
    }
}
