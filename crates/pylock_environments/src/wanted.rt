//! What is wanted of markers and specifiers wherever what is sought is so.

ghost use Rattle.std.specs.Prelude.{◌≡◌, IfOk, None, OnOk, false, true};
ghost use Rattle.std.specs.List.{All};
ghost use Rattle.std.specs.Option.{option_copied};
ghost use Rattle.pymark_core.specs.Environment.{EnvironmentValue};
ghost use Rattle.pymark_algebra.specs.Questions.{AllSay, PythonSays};
ghost use Rattle.pylock_core.specs.Session.Steps.{head_fault, python_check};
ghost use Rattle.pylock_environments.specs.Environments.{IsMarked, Stands};
ghost use Rattle.pylock_environments.specs.Inner.{AreWanted, IsSoughtIn};

use crate::budget::Weight;
use crate::lock::{WeighedEntry, WeighedHead};
use crate::sought::Sought;
use pymark_algebra::{Condition, PythonCondition};
use pymark_core::Marker;
use pyver_core::{Specifier, SpecifierSet};
use std::alloc::{AllocError, Global};

/// What is wanted of specifiers and of markers.
#[derive(Drop)]
pub(crate) struct Wanted<'a> {
    pub(crate) pythons: Vec<PythonCondition<'a>>,
    pub(crate) markers: Vec<Condition<'a>>,
    pub(crate) weight: Weight,
}

/// What is wanted where the head admits the environment, one of its markers is absent or true, and
/// what is sought is so.
pub(crate) fn wanted_for<'s, 'a>(
    lock: &'s WeighedHead<'a>,
    marker: Option<&'s Marker>,
    weight: Weight,
    sought: &'s Sought<'s, 'a>,
) -> Result<Wanted<'s>, AllocError>
    ensures { IfOk result (λ wanted. (environment : EnvironmentValue)
        → head_fault lock.now.head.now environment ≡ None
        → IsMarked (option_copied marker.entry) environment
        → IsSoughtIn environment sought.now → AreWanted environment wanted) }
{
    let mut wanted = Wanted::new(lock.alloc);
    wanted.add_set(lock.head.requires_python())?;
    wanted.add_marker(marker, weight)?;
    wanted.add_sought(sought)?;
    Ok(wanted)
}

impl<'a> Wanted<'a> {
    /// Nothing is.
    fn new(alloc: Global) -> Wanted<'a>
        ensures { (environment : EnvironmentValue) → AreWanted environment result }
    {
        Wanted {
            pythons: Vec::new(alloc),
            markers: Vec::new(alloc),
            weight: Weight::of_specifiers(0),
        }
    }

    /// Adds what is wanted where what is sought is so.
    fn add_sought(&mut self, sought: &'a Sought<'a, '_>) -> Result<(), AllocError>
        ensures { OnOk result ((environment : EnvironmentValue) → AreWanted environment self.old
            → IsSoughtIn environment sought.now → AreWanted environment self.new) }
    {
        match sought {
            Sought::Standing(weighed) => self.add_entry(weighed),
            Sought::Together(first, second) => {
                self.add_entry(first)?;
                self.add_entry(second)
            }
            Sought::Refused(weighed, specifier) => {
                self.add_marker(weighed.entry.marker(), weighed.weight)?;
                self.add_specifier(specifier, false)
            }
        }
    }

    /// Adds what is wanted where the entry stands.
    fn add_entry(&mut self, weighed: &'a WeighedEntry<'_>) -> Result<(), AllocError>
        ensures { OnOk result ((environment : EnvironmentValue) → AreWanted environment self.old
            → Stands weighed.now.entry.now environment → AreWanted environment self.new) }
    {
        self.add_marker(weighed.entry.marker(), weighed.weight)?;
        self.add_set(weighed.entry.requires_python())
    }

    /// Adds that the marker, which has this weight, is absent or true.
    fn add_marker(&mut self, marker: Option<&'a Marker>, weight: Weight) -> Result<(), AllocError>
        ensures { OnOk result ((environment : EnvironmentValue) → AreWanted environment self.old
            → IsMarked (option_copied marker.entry) environment
            → AreWanted environment self.new) }
    {
        let Some(marker) = marker else {
            return Ok(());
        };
        self.weight = self.weight.with(weight);
        self.markers.push(Condition {
            marker,
            wanted: true,
        })?;
        Ok(())
    }

    /// Adds that the Python check of the set has no fault.
    fn add_set(&mut self, set: Option<&'a SpecifierSet>) -> Result<(), AllocError>
        ensures { OnOk result ((environment : EnvironmentValue) → AreWanted environment self.old
            → python_check (option_copied set.entry) environment ≡ None
            → AreWanted environment self.new) }
    {
        match set {
            Some(set) => self.add_specifiers(set.items()),
            None => Ok(()),
        }
    }

    /// Adds that each of the specifiers admits the Python.
    fn add_specifiers(&mut self, specifiers: &'a [Specifier]) -> Result<(), AllocError>
        ensures { OnOk result ((environment : EnvironmentValue) → AreWanted environment self.old
            → All (λ specifier. PythonSays environment specifier true) specifiers.now
            → AreWanted environment self.new) }
    {
        for specifier in specifiers {
            self.add_specifier(specifier, true)?;
        }
        Ok(())
    }

    /// Adds that the specifier admits the Python, or doesn't.
    fn add_specifier(&mut self, specifier: &'a Specifier, wanted: bool) -> Result<(), AllocError>
        ensures { OnOk result ((environment : EnvironmentValue) → AreWanted environment self.old
            → PythonSays environment specifier.now wanted → AreWanted environment self.new) }
    {
        self.weight = self.weight.with(Weight::of_specifiers(1));
        self.pythons.push(PythonCondition { specifier, wanted })?;
        Ok(())
    }
}
