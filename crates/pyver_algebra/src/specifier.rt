//! What follows of a version that a specifier admits, or doesn't admit.

ghost use Rattle.std.specs.Prelude.{◌≡◌, ◌∷◌, ◌++◌, [], IsTrue, OnOk, false, true};
ghost use Rattle.pyver_core.specs.Set.Admission.{is_above, is_at_least, is_at_most, is_below};
ghost use Rattle.pyver_core.specs.Set.Admission.{has_local, is_compatible, is_spelled, matches};
ghost use Rattle.pyver_core.specs.Set.Admission.{matches_prefix};
ghost use Rattle.pyver_core.specs.Version.Parts.{Parts, base_release, is_prerelease};
ghost use Rattle.pyver_algebra.specs.Limits.{Keeps, is_at, is_from};
ghost use Rattle.pyver_algebra.specs.Firsts.{first_of};

use crate::bounds::Bounds;
use crate::first::{first_of, with_one};
use crate::limit::Cut;
use crate::spelled::spelled_version;
use crate::step::prefix_step;
use pyver_core::Version;
use std::alloc::{AllocError, Global};

impl Bounds {
    /// `>=V`
    pub(crate) fn add_at_least(&mut self, operand: &Version, wanted: bool) -> Result<(), AllocError>
        ensures { OnOk result ((v : Parts) → Keeps self.old v
            → is_at_least operand.now v ≡ wanted → Keeps self.new v) }
    {
        self.keep_past(Cut::before(operand.clone()?), wanted)
    }

    /// `<=V`
    pub(crate) fn add_at_most(&mut self, operand: &Version, wanted: bool) -> Result<(), AllocError>
        ensures { OnOk result ((v : Parts) → Keeps self.old v
            → is_at_most operand.now v ≡ wanted → Keeps self.new v) }
    {
        self.keep_past(Cut::after(operand.clone()?), !wanted)
    }

    /// `==V`. Where V has a local part, nothing follows of versions that aren't admitted.
    pub(crate) fn add_equal(
        &mut self,
        alloc: Global,
        operand: &Version,
        wanted: bool,
    ) -> Result<(), AllocError>
        ensures { OnOk result ((v : Parts) → Keeps self.old v
            → matches operand.now v ≡ wanted → Keeps self.new v) }
    {
        if operand.local().is_empty() {
            return self.keep_at(operand.clone()?, operand.clone()?, wanted);
        }
        if wanted {
            return self.keep_at(
                operand.public_part(alloc)?,
                operand.public_part(alloc)?,
                true,
            );
        }
        Ok(())
    }

    /// Keeps that versions stand at a version, which is given twice, or that they don't.
    fn keep_at(&mut self, low: Version, high: Version, at: bool) -> Result<(), AllocError>
        requires { low ≡ high }
        ensures { OnOk result ((v : Parts) → Keeps self.old v
            → is_at low v ≡ at → Keeps self.new v) }
    {
        self.keep_between(Cut::before(low), Cut::after(high), at)
    }

    /// `==R.*`
    pub(crate) fn add_prefix(
        &mut self,
        alloc: Global,
        epoch: u128,
        release: &[u128],
        wanted: bool,
    ) -> Result<(), AllocError>
        ensures { OnOk result ((v : Parts) → Keeps self.old v
            → matches_prefix epoch release.now v ≡ wanted → Keeps self.new v) }
    {
        match prefix_step(alloc, epoch, release)? {
            Some(step) => self.keep_between(step.begin, step.end, wanted),
            None => Ok(()),
        }
    }

    /// `<V`
    pub(crate) fn add_before(
        &mut self,
        alloc: Global,
        operand: &Version,
        wanted: bool,
    ) -> Result<(), AllocError>
        ensures { OnOk result ((v : Parts) → Keeps self.old v
            → is_below operand.now v ≡ wanted → Keeps self.new v) }
    {
        if is_final(operand) {
            return self.keep_from_first(alloc, operand, !wanted);
        }
        if wanted {
            return self.keep_past(Cut::before(operand.clone()?), false);
        }
        if is_public_prerelease(operand) {
            return self.keep_past(Cut::before(operand.clone()?), true);
        }
        self.keep_from_first(alloc, operand, true)
    }

    /// Keeps that versions lie past the first one of an operand's release, or that they don't.
    fn keep_from_first(
        &mut self,
        alloc: Global,
        operand: &Version,
        past: bool,
    ) -> Result<(), AllocError>
        ensures { OnOk result ((v : Parts) → Keeps self.old v
            → is_from (first_of operand.now.epoch operand.now.release) v ≡ past
            → Keeps self.new v) }
    {
        let release = Vec::from_slice(alloc, operand.release())?;
        match first_of(alloc, operand.epoch(), release)? {
            Some(first) => self.keep_past(Cut::before(first), past),
            None => Ok(()),
        }
    }

    /// `>V`
    pub(crate) fn add_after(
        &mut self,
        alloc: Global,
        operand: &Version,
        wanted: bool,
    ) -> Result<(), AllocError>
        ensures { OnOk result ((v : Parts) → Keeps self.old v
            → is_above operand.now v ≡ wanted → Keeps self.new v) }
    {
        if !wanted {
            return self.keep_until_longer(alloc, operand);
        }
        if operand.local().is_empty() {
            return self.keep_past(Cut::after(operand.clone()?), true);
        }
        Ok(())
    }

    /// Keeps that versions come before the first one of an operand's release with a 1 behind it.
    fn keep_until_longer(&mut self, alloc: Global, operand: &Version) -> Result<(), AllocError>
        ensures { OnOk result ((v : Parts) → Keeps self.old v
            → is_from (first_of operand.now.epoch (operand.now.release ++ 1 ∷ [])) v ≡ false
            → Keeps self.new v) }
    {
        let longer = with_one(alloc, operand.release())?;
        match first_of(alloc, operand.epoch(), longer)? {
            Some(end) => self.keep_past(Cut::before(end), false),
            None => Ok(()),
        }
    }

    /// `~=V`
    pub(crate) fn add_compatible(
        &mut self,
        alloc: Global,
        operand: &Version,
        wanted: bool,
    ) -> Result<(), AllocError>
        ensures { OnOk result ((v : Parts) → Keeps self.old v
            → is_compatible operand.now v ≡ wanted → Keeps self.new v) }
    {
        if !wanted {
            return self.keep_incompatible(alloc, operand);
        }
        let release = operand.release();
        self.add_at_least(operand, true)?;
        self.add_prefix(alloc, operand.epoch(), &release[..release.len() - 1], true)
    }

    /// Keeps that versions come before V, or behind those that begin as V does.
    fn keep_incompatible(&mut self, alloc: Global, operand: &Version) -> Result<(), AllocError>
        ensures { OnOk result ((v : Parts) → Keeps self.old v
            → is_compatible operand.now v ≡ false → Keeps self.new v) }
    {
        let release = operand.release();
        let prefix = &release[..release.len() - 1];
        match prefix_step(alloc, operand.epoch(), prefix)? {
            Some(step) => self.keep_outside(Cut::before(operand.clone()?), step),
            None => Ok(()),
        }
    }
}

impl Bounds {
    /// `===T`. Nothing follows of versions that aren't admitted, nor where T has an epoch or a
    /// local part.
    pub(crate) fn add_arbitrary(
        &mut self,
        alloc: Global,
        text: &str,
        wanted: bool,
    ) -> Result<(), AllocError>
        ensures { OnOk result ((v : Parts) → Keeps self.old v
            → is_spelled text.now v ≡ wanted → Keeps self.new v) }
    {
        if !wanted {
            return Ok(());
        }
        match spelled_version(alloc, text)? {
            Some(version) => self.keep_one(version),
            None => Ok(()),
        }
    }
}

impl Bounds {
    /// Keeps that versions stand at this one.
    fn keep_one(&mut self, version: Version) -> Result<(), AllocError>
        ensures { OnOk result ((v : Parts) → Keeps self.old v
            → is_at version v ≡ true → Keeps self.new v) }
    {
        let copy = version.clone()?;
        self.keep_at(copy, version, true)
    }
}

/// Whether the version is a release alone, with or without an epoch.
pub(crate) fn is_final(version: &Version) -> bool
    ensures { IsTrue result → version.now ≡ base_release version.now }
{
    version.pre().is_none()
        && version.post().is_none()
        && version.dev().is_none()
        && version.local().is_empty()
}

/// Whether the version is a pre-release without a local part.
fn is_public_prerelease(version: &Version) -> bool
    ensures { IsTrue result
        → (is_prerelease version.now ≡ true) × (has_local version.now ≡ false) }
{
    version.is_prerelease() && version.local().is_empty()
}
