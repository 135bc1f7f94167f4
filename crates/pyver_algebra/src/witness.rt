//! Versions that show something of two sets.

ghost use Rattle.std.specs.Prelude.{◌≡◌, IfOk, IfSome, IsTrue};
ghost use Rattle.pyver_algebra.specs.Sets.{IsShownBy};

use crate::near::{WAYS, operand_of, zero};
use pyver_core::{Specifier, SpecifierSet, Version};
use std::alloc::{AllocError, Global};

/// The most specifiers of a set whose operands are tried.
const MOST_TRIED: usize = 64;

/// A version is looked for that the first set admits and the second one admits or, where it isn't
/// wanted, doesn't.
#[derive(Clone, Copy)]
pub(crate) struct Quest<'a> {
    pub(crate) first: &'a SpecifierSet,
    pub(crate) second: &'a SpecifierSet,
    pub(crate) wanted: bool,
}

impl Quest<'_> {
    /// A version that shows it; none says nothing.
    pub(crate) fn version(&self, alloc: Global) -> Result<Option<Version>, AllocError>
        ensures { IfOk result (λ found. IfSome found (λ v. IsShownBy self.now v)) }
    {
        if let Some(version) = self.among(alloc, self.first.items())? {
            return Ok(Some(version));
        }
        if let Some(version) = self.among(alloc, self.second.items())? {
            return Ok(Some(version));
        }
        match zero(alloc)? {
            Some(version) => self.near(alloc, &version),
            None => Ok(None),
        }
    }

    /// A version near an operand that shows it.
    fn among(&self, alloc: Global, specifiers: &[Specifier]) -> Result<Option<Version>, AllocError>
        ensures { IfOk result (λ found. IfSome found (λ v. IsShownBy self.now v)) }
    {
        for specifier in specifiers.iter().take(MOST_TRIED) {
            if let Some(operand) = operand_of(alloc, specifier)?
                && let Some(version) = self.near(alloc, &operand)?
            {
                return Ok(Some(version));
            }
        }
        Ok(None)
    }

    fn near(&self, alloc: Global, operand: &Version) -> Result<Option<Version>, AllocError>
        ensures { IfOk result (λ found. IfSome found (λ v. IsShownBy self.now v)) }
    {
        for way in &WAYS {
            if let Some(version) = way.make(alloc, operand)?
                && self.is_shown_by(&version)
            {
                return Ok(Some(version));
            }
        }
        Ok(None)
    }

    fn is_shown_by(&self, version: &Version) -> bool
        ensures { IsTrue result → IsShownBy self.now version.now }
    {
        self.first.admits(version) && self.second.admits(version) == self.wanted
    }
}
