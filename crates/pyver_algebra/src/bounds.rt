//! What is known of a version.

ghost use Rattle.std.specs.Prelude.{◌≡◌, ◌&&◌, IsTrue, OnOk, false};
ghost use Rattle.pyver_core.specs.Set.Admission.{admits, admits_all};
ghost use Rattle.pyver_core.specs.Version.Parts.{Parts};
ghost use Rattle.pyver_algebra.specs.FirstTwo.{first_two};
ghost use Rattle.pyver_algebra.specs.Limits.{Keeps, is_between, is_past, lies_within};

use crate::limit::{Cut, Limit};
use crate::lowest::{any_ends_before, lowest_cut};
use crate::step::Step;
use pyver_core::Specifier;
use std::alloc::{AllocError, Global};
use std::marker::Model;

/// What is known of a version: limits that it keeps.
pub struct Bounds {
    limits: Vec<Limit>,
}

impl Model for Bounds {
    ghost use Rattle.std.specs.Prelude.{List};
    ghost use Rattle.pyver_algebra.specs.declared.limit.Limit.{Limit};

    ghost Value = { List Limit };

    ghost view = { λ bounds. bounds.limits.items };
}

impl Bounds {
    /// Nothing is known: every version keeps these. It takes no memory.
    pub fn new(alloc: Global) -> Bounds
        ensures { (v : Parts) → Keeps result v }
    {
        Bounds {
            limits: Vec::new(alloc),
        }
    }

    /// Adds what follows of a version that the specifier admits or, where it isn't wanted, doesn't
    /// admit. It takes memory for limits. After a refusal some of them are kept.
    pub fn add(
        &mut self,
        alloc: Global,
        specifier: &Specifier,
        wanted: bool,
    ) -> Result<(), AllocError>
        ensures { OnOk result ((v : Parts) → Keeps self.old v
            → admits specifier.now v ≡ wanted → Keeps self.new v) }
    {
        match specifier {
            Specifier::Equal(operand) => self.add_equal(alloc, operand, wanted),
            Specifier::NotEqual(operand) => self.add_equal(alloc, operand, !wanted),
            Specifier::EqualPrefix(prefix) => {
                self.add_prefix(alloc, prefix.epoch(), prefix.release(), wanted)
            }
            Specifier::NotEqualPrefix(prefix) => {
                self.add_prefix(alloc, prefix.epoch(), prefix.release(), !wanted)
            }
            Specifier::AtMost(operand) => self.add_at_most(operand, wanted),
            Specifier::AtLeast(operand) => self.add_at_least(operand, wanted),
            Specifier::Before(operand) => self.add_before(alloc, operand, wanted),
            Specifier::After(operand) => self.add_after(alloc, operand, wanted),
            Specifier::Compatible(operand) => self.add_compatible(alloc, operand, wanted),
            Specifier::Arbitrary(text) => self.add_arbitrary(alloc, text.as_str(), wanted),
        }
    }

    /// Adds what follows of a version that each of the specifiers admits.
    pub fn add_all(&mut self, alloc: Global, specifiers: &[Specifier]) -> Result<(), AllocError>
        ensures { OnOk result ((v : Parts) → Keeps self.old v
            → IsTrue (admits_all specifiers.now v) → Keeps self.new v) }
    {
        for specifier in specifiers {
            self.add(alloc, specifier, true)?;
        }
        Ok(())
    }

    /// The same where the specifier judges the first two numbers of the version's release alone, as
    /// `python_version` has those of `python_full_version`.
    pub fn add_first_two(
        &mut self,
        alloc: Global,
        specifier: &Specifier,
        wanted: bool,
    ) -> Result<(), AllocError>
        ensures { OnOk result ((v : Parts) → v.epoch ≡ 0 → Keeps self.old v
            → admits specifier.now (first_two v) ≡ wanted → Keeps self.new v) }
    {
        match specifier {
            Specifier::Equal(operand) => self.add_first_equal(alloc, operand, wanted),
            Specifier::NotEqual(operand) => self.add_first_equal(alloc, operand, !wanted),
            Specifier::EqualPrefix(prefix) => {
                self.add_first_prefix(alloc, prefix.epoch(), prefix.release(), wanted)
            }
            Specifier::NotEqualPrefix(prefix) => {
                self.add_first_prefix(alloc, prefix.epoch(), prefix.release(), !wanted)
            }
            Specifier::AtMost(operand) => self.add_first_at_most(alloc, operand, wanted),
            Specifier::AtLeast(operand) => self.add_first_at_least(alloc, operand, wanted),
            Specifier::Before(operand) => self.add_first_before(alloc, operand, wanted),
            Specifier::After(operand) => self.add_first_after(alloc, operand, wanted),
            Specifier::Compatible(operand) => self.add_first_compatible(alloc, operand, wanted),
            Specifier::Arbitrary(_) => Ok(()),
        }
    }

    /// Whether no version keeps them all. `false` says nothing. It takes no memory.
    pub fn are_empty(&self) -> bool
        ensures { IsTrue result → (v : Parts) → Keeps self.now v → ⊥ }
    {
        any_ends_before(lowest_cut(&self.limits), &self.limits)
    }
}

impl Bounds {
    fn keep(&mut self, limit: Limit) -> Result<(), AllocError>
        ensures { OnOk result ((v : Parts) → Keeps self.old v
            → IsTrue (lies_within limit v) → Keeps self.new v) }
    {
        self.limits.push(limit)?;
        Ok(())
    }

    /// Keeps that versions lie past a cut, or that they don't.
    pub(crate) fn keep_past(&mut self, cut: Cut, past: bool) -> Result<(), AllocError>
        ensures { OnOk result ((v : Parts) → Keeps self.old v
            → is_past cut v ≡ past → Keeps self.new v) }
    {
        if past {
            self.keep(Limit::From(cut))
        } else {
            self.keep(Limit::Until(cut))
        }
    }

    /// Keeps that versions lie between two cuts, or that they don't.
    pub(crate) fn keep_between(
        &mut self,
        begin: Cut,
        end: Cut,
        inside: bool,
    ) -> Result<(), AllocError>
        ensures { OnOk result ((v : Parts) → Keeps self.old v
            → is_between begin end v ≡ inside → Keeps self.new v) }
    {
        if inside {
            self.keep(Limit::From(begin))?;
            self.keep(Limit::Until(end))
        } else {
            self.keep(Limit::Outside(begin, end))
        }
    }

    /// Keeps that versions lie before a cut, or outside of a step. Nothing follows where the step
    /// begins behind the cut.
    pub(crate) fn keep_outside(&mut self, low: Cut, step: Step) -> Result<(), AllocError>
        ensures { OnOk result ((v : Parts) → Keeps self.old v
            → (is_past low v && is_between step.begin step.end v) ≡ false → Keeps self.new v) }
    {
        if !step.begin.is_at_or_before(&low) {
            return Ok(());
        }
        self.keep(Limit::Outside(low, step.end))
    }
}

impl Drop for Bounds {
    fn drop(self) {
        let Bounds { limits: _ } = self;
    }
}
