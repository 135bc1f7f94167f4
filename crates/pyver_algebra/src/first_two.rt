//! What follows of a version whose first two numbers a specifier admits, or doesn't admit.

ghost use Rattle.std.specs.Prelude.{◌≡◌, OnOk, false};
ghost use Rattle.pyver_core.specs.Set.Admission.{is_above, is_at_least, is_at_most, is_below};
ghost use Rattle.pyver_core.specs.Set.Admission.{is_compatible, matches, matches_prefix};
ghost use Rattle.pyver_core.specs.Version.Parts.{Parts};
ghost use Rattle.pyver_algebra.specs.FirstTwo.{first_two};
ghost use Rattle.pyver_algebra.specs.Limits.{Keeps};

use crate::bounds::Bounds;
use crate::step::{first_prefix_step, step_of};
use pyver_core::Version;
use std::alloc::{AllocError, Global};

impl Bounds {
    /// `==V`
    pub(crate) fn add_first_equal(
        &mut self,
        alloc: Global,
        operand: &Version,
        wanted: bool,
    ) -> Result<(), AllocError>
        ensures { OnOk result ((v : Parts) → v.epoch ≡ 0 → Keeps self.old v
            → matches operand.now (first_two v) ≡ wanted → Keeps self.new v) }
    {
        match step_of(alloc, operand)? {
            Some(step) => self.keep_between(step.begin, step.end, wanted),
            None => Ok(()),
        }
    }

    /// `>=V`
    pub(crate) fn add_first_at_least(
        &mut self,
        alloc: Global,
        operand: &Version,
        wanted: bool,
    ) -> Result<(), AllocError>
        ensures { OnOk result ((v : Parts) → v.epoch ≡ 0 → Keeps self.old v
            → is_at_least operand.now (first_two v) ≡ wanted → Keeps self.new v) }
    {
        match step_of(alloc, operand)? {
            Some(step) => self.keep_past(step.begin, wanted),
            None => Ok(()),
        }
    }

    /// `<=V`
    pub(crate) fn add_first_at_most(
        &mut self,
        alloc: Global,
        operand: &Version,
        wanted: bool,
    ) -> Result<(), AllocError>
        ensures { OnOk result ((v : Parts) → v.epoch ≡ 0 → Keeps self.old v
            → is_at_most operand.now (first_two v) ≡ wanted → Keeps self.new v) }
    {
        match step_of(alloc, operand)? {
            Some(step) => self.keep_past(step.end, !wanted),
            None => Ok(()),
        }
    }

    /// `<V`
    pub(crate) fn add_first_before(
        &mut self,
        alloc: Global,
        operand: &Version,
        wanted: bool,
    ) -> Result<(), AllocError>
        ensures { OnOk result ((v : Parts) → v.epoch ≡ 0 → Keeps self.old v
            → is_below operand.now (first_two v) ≡ wanted → Keeps self.new v) }
    {
        match step_of(alloc, operand)? {
            Some(step) => self.keep_past(step.begin, !wanted),
            None => Ok(()),
        }
    }

    /// `>V`
    pub(crate) fn add_first_after(
        &mut self,
        alloc: Global,
        operand: &Version,
        wanted: bool,
    ) -> Result<(), AllocError>
        ensures { OnOk result ((v : Parts) → v.epoch ≡ 0 → Keeps self.old v
            → is_above operand.now (first_two v) ≡ wanted → Keeps self.new v) }
    {
        match step_of(alloc, operand)? {
            Some(step) => self.keep_past(step.end, wanted),
            None => Ok(()),
        }
    }

    /// `==R.*`
    pub(crate) fn add_first_prefix(
        &mut self,
        alloc: Global,
        epoch: u128,
        release: &[u128],
        wanted: bool,
    ) -> Result<(), AllocError>
        ensures { OnOk result ((v : Parts) → v.epoch ≡ 0 → Keeps self.old v
            → matches_prefix epoch release.now (first_two v) ≡ wanted → Keeps self.new v) }
    {
        if epoch != 0 {
            return Ok(());
        }
        match first_prefix_step(alloc, release)? {
            Some(step) => self.keep_between(step.begin, step.end, wanted),
            None => Ok(()),
        }
    }

    /// `~=V`
    pub(crate) fn add_first_compatible(
        &mut self,
        alloc: Global,
        operand: &Version,
        wanted: bool,
    ) -> Result<(), AllocError>
        ensures { OnOk result ((v : Parts) → v.epoch ≡ 0 → Keeps self.old v
            → is_compatible operand.now (first_two v) ≡ wanted → Keeps self.new v) }
    {
        if !wanted {
            return self.keep_first_incompatible(alloc, operand);
        }
        let release = operand.release();
        self.add_first_at_least(alloc, operand, true)?;
        self.add_first_prefix(alloc, operand.epoch(), &release[..release.len() - 1], true)
    }

    /// Keeps that versions come before the step of V, or behind those that begin as V does.
    fn keep_first_incompatible(
        &mut self,
        alloc: Global,
        operand: &Version,
    ) -> Result<(), AllocError>
        ensures { OnOk result ((v : Parts) → v.epoch ≡ 0 → Keeps self.old v
            → is_compatible operand.now (first_two v) ≡ false → Keeps self.new v) }
    {
        let release = operand.release();
        if operand.epoch() != 0 {
            return Ok(());
        }
        match (
            step_of(alloc, operand)?,
            first_prefix_step(alloc, &release[..release.len() - 1])?,
        ) {
            (Some(step), Some(outer)) => self.keep_outside(step.begin, outer),
            _ => Ok(()),
        }
    }
}
