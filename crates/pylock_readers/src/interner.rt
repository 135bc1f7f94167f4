//! What entries have in common: markers, specifier sets, and the halves of the names of wheels.
//! Most entries of a lock have one of a few texts, so each text is read once, and entries share
//! what was read.
ghost use Rattle.std.specs.Prelude.{◌≡◌, ℕ, List, Result, string_bytes};
ghost use Rattle.pytext.specs.Agreement.{Gives};
ghost use Rattle.pyver_core.specs.Parsed.{parsed_set};
ghost use Rattle.pymark_core.specs.Marker.Reading.{marker_of};
ghost use Rattle.pylock_readers.specs.Entry.Fields.{or_refused};
ghost use Rattle.pywheel_core.specs.ReadTable.{AllRead};
ghost use Rattle.pylock_readers.specs.declared.field.FieldError.TheVariants as field;

use crate::field::FieldError;
use pymark_core::{Marker, MarkerError};
use pyver_core::{SpecifierError, SpecifierSet};
use pywheel_core::WheelReader;
use std::alloc::Global;
use std::collections::BTreeMap;
use std::marker::Model;
use std::rc::Rc;

/// A condition whose copies share what was read.
pub(crate) trait Condition: Clone + Drop {
    ghost use Rattle.pylock_readers.specs.declared.field.FieldError.{FieldError};

    /// What it is to contracts.
    ghost Meaning: { Type 0 };

    ghost meaning: { Self → Meaning };

    /// What a text says as such a condition.
    ghost form: { List ℕ → Result Meaning FieldError };

    fn read(alloc: Global, text: &str) -> Result<Self, FieldError>
        ensures { Gives FieldError.Memory meaning result (form text.now) };

    ghost same_meaning: { (x copy : Self) → Self.is_clone x copy → meaning copy ≡ meaning x };
}

impl Condition for Marker {
    ghost use Rattle.pymark_core.specs.Marker.Reading.{MarkerValue};

    ghost Meaning = { MarkerValue };

    ghost meaning = { λ m. m };

    ghost form = { λ text. or_refused field.Wrong (marker_of text) };

    fn read(alloc: Global, text: &str) -> Result<Marker, FieldError> {
        match Marker::parse(alloc, text) {
            Ok(marker) => Ok(marker),
            Err(MarkerError::Memory) => Err(FieldError::Memory),
            Err(_) => Err(FieldError::Wrong),
        }
    }

    ghost same_meaning = { λ _ _ same. same };
}

impl Condition for Rc<SpecifierSet> {
    ghost use Rattle.pyver_core.specs.declared.set.specifier.Specifier.{Specifier};

    ghost Meaning = { List Specifier };

    ghost meaning = { λ s. s.value };

    ghost form = { λ text. or_refused field.Wrong (parsed_set text) };

    fn read(alloc: Global, text: &str) -> Result<Rc<SpecifierSet>, FieldError> {
        Ok(Rc::new(alloc, read_set(alloc, text)?)?)
    }

    ghost same_meaning = { λ _ _ same. same };
}

/// The set of the text.
pub(crate) fn read_set(alloc: Global, text: &str) -> Result<SpecifierSet, FieldError>
    ensures { Gives FieldError.Memory (λ s. s) result
        (or_refused field.Wrong (parsed_set text.now)) }
{
    match SpecifierSet::parse(alloc, text) {
        Ok(set) => Ok(set),
        Err(SpecifierError::Memory) => Err(FieldError::Memory),
        Err(_) => Err(FieldError::Wrong),
    }
}

/// The conditions that were read so far, by their texts; entries share them.
pub(crate) struct ConditionTable<T: Condition> {
    table: BTreeMap<String, T>,
}

impl<T: Condition> Model for ConditionTable<T> {
    ghost use Rattle.pywheel_core.specs.ReadTable.{AllRead};

    ghost Value = { Unit {0} };

    ghost view = { λ _. tt };

    ghost invariant = { λ s. AllRead T.form T.meaning s.table.entries };
}

impl<T: Condition> Drop for ConditionTable<T> {
    fn drop(self) {
        let ConditionTable { table: _ } = self;
    }
}

impl<T: Condition> ConditionTable<T> {
    /// None yet.
    pub(crate) fn new(alloc: Global) -> ConditionTable<T> {
        ConditionTable {
            table: BTreeMap::new(alloc),
        }
    }

    /// The condition of the text.
    pub(crate) fn read(&mut self, alloc: Global, text: String) -> Result<T, FieldError>
        ensures { Gives FieldError.Memory T.meaning result (T.form (string_bytes text)) }
    {
        if let Some(known) = self.table.get(text.as_str()) {
            return Ok(known.clone()?);
        }
        let fresh = T::read(alloc, text.as_str())?;
        self.table.insert(text, fresh.clone()?)?;
        Ok(fresh)
    }
}

/// What was read so far and entries have in common: markers, specifier sets, and the halves of the
/// names of wheels.
pub(crate) struct Interner {
    pub(crate) markers: ConditionTable<Marker>,
    pub(crate) sets: ConditionTable<Rc<SpecifierSet>>,
    pub(crate) wheels: WheelReader,
}

impl Drop for Interner {
    fn drop(self) {
        let Interner {
            markers: _,
            sets: _,
            wheels: _,
        } = self;
    }
}

impl Interner {
    /// None yet.
    pub(crate) fn new(alloc: Global) -> Interner {
        Interner {
            markers: ConditionTable::new(alloc),
            sets: ConditionTable::new(alloc),
            wheels: WheelReader::new(alloc),
        }
    }
}
