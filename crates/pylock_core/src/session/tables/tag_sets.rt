//! The compressed tag sets of a session's wheels. Equal ones have one number, so that a new list of
//! tags ranks each of them once, whatever wheels have it. Numbers are given by an ordered table
//! over the text in lower case, so that no lock makes it slow.

ghost use Rattle.std.specs.Prelude.{◌≡◌, ◌<◌, ◌++◌, ◌∷◌, [], Some, IfOk, OnOk, length, slice_set};
ghost use Rattle.std.specs.BTreeMap.{btree_map_len};
ghost use Rattle.pylock_core.specs.Inner.Tables.TagSets.{AreNumbers, AreSets, IsNumbered, SetsKept};
ghost use Rattle.pylock_core.specs.Inner.Tables.TagSets.{names_in, set_number, set_text};

use crate::session::tables::capacity::put_at;
use crate::session::tables::names::give_number;
use pylock_readers::Entry;
use pywheel_core::WheelName;
use std::alloc::{AllocError, Global};
use std::collections::BTreeMap;

/// So many sets that no wheel has any more are kept whatever stands.
const SPARE: usize = 256;

/// The tag sets of the wheels, and those of each entry's wheels. A set that no wheel has any more
/// keeps its number until there are many of them: before an entry comes in there are at most two
/// sets for each wheel of the entries that stand, one for each place of an entry, and `SPARE`.
pub(crate) struct TagSets {
    pub(crate) numbers: BTreeMap<String, usize>,
    /// The numbers of the sets of an entry's wheels, in their order, at the place of the entry.
    pub(crate) of_entries: Vec<Vec<usize>>,
    /// How many wheels the entries that stand have.
    wheels: usize,
}

impl Drop for TagSets {
    fn drop(self) {
        let TagSets {
            numbers: _,
            of_entries: _,
            wheels: _,
        } = self;
    }
}

impl TagSets {
    /// None yet, with room for the wheels of so many entries.
    pub(crate) fn with_capacity(alloc: Global, capacity: usize) -> Result<TagSets, AllocError>
        ensures numbers { IfOk result (λ sets. sets.numbers.entries ≡ []) }
        ensures of_entries { IfOk result (λ sets. sets.of_entries.items ≡ []) }
    {
        Ok(TagSets {
            numbers: BTreeMap::new(alloc),
            of_entries: Vec::with_capacity(alloc, capacity)?,
            wheels: 0,
        })
    }

    /// How many there are.
    pub(crate) fn len(&self) -> usize
        ensures { result ≡ btree_map_len self.now.numbers }
    {
        self.numbers.len()
    }

    /// Whether the sets that a wheel has are to get numbers anew, and they alone. That takes a step
    /// for each wheel and each place, and at least as many sets have come or wheels have gone since
    /// it was done last: so it makes an edit no dearer than what it brings.
    pub(crate) fn is_full(&self) -> bool {
        let alive = self.wheels.saturating_mul(2);
        let kept = alive.saturating_add(self.of_entries.len());
        self.numbers.len() > kept.saturating_add(SPARE)
    }

    /// Has these numbers at the place of an entry.
    pub(crate) fn put(&mut self, place: usize, numbers: Vec<usize>)
        requires { place < length self.old.of_entries.items }
        ensures of_entries { self.new.of_entries.items
            ≡ slice_set self.old.of_entries.items place numbers }
        ensures numbers { self.new.numbers ≡ self.old.numbers }
    {
        let others = self.wheels.saturating_sub(self.of_entries[place].len());
        self.wheels = others.saturating_add(numbers.len());
        put_at(&mut self.of_entries, place, numbers);
    }

    /// Adds the numbers of one more entry.
    fn push(&mut self, numbers: Vec<usize>) -> Result<(), AllocError>
        ensures of_entries { OnOk result
            (self.new.of_entries.items ≡ self.old.of_entries.items ++ numbers ∷ []) }
        ensures numbers { self.new.numbers ≡ self.old.numbers }
    {
        self.wheels = self.wheels.saturating_add(numbers.len());
        self.of_entries.push(numbers)?;
        Ok(())
    }
}

/// The compressed tag set that a file name says; empty, which is no tag set, where it says nothing.
fn set_text(name: &Option<WheelName>) -> &str
    ensures { result.now ≡ set_text name.now }
{
    match name {
        Some(wheel) => wheel.tag_set(),
        None => "",
    }
}

/// The number of the tag set, which gets one here where it has none. One that has a number takes no
/// memory.
fn number_of_set(alloc: Global, sets: &mut TagSets, set: &str) -> Result<usize, AllocError>
    requires { IsNumbered sets.old }
    ensures found { IfOk result (λ number. set_number sets.new set.now ≡ Some number) }
    ensures kept { SetsKept sets.old sets.new }
    ensures lists { sets.new.of_entries ≡ sets.old.of_entries }
{
    if let Some(known) = sets.numbers.get(set) {
        return Ok(*known);
    }
    let number = sets.numbers.len();
    let key = String::from_str(alloc, set)?;
    give_number(&mut sets.numbers, key, number)?;
    Ok(number)
}

/// The numbers of the tag sets of these wheels, of which each that has none gets one.
pub(crate) fn numbers_of(
    alloc: Global,
    sets: &mut TagSets,
    wheels: &[Option<WheelName>],
) -> Result<Vec<usize>, AllocError>
    requires { IsNumbered sets.old }
    ensures numbers { IfOk result (λ numbers.
        AreNumbers (set_number sets.new) wheels.now numbers.items) }
    ensures kept { SetsKept sets.old sets.new }
    ensures lists { sets.new.of_entries ≡ sets.old.of_entries }
{
    let mut numbers = Vec::with_capacity(alloc, wheels.len())?;
    for wheel in wheels {
        let number = number_of_set(alloc, sets, set_text(wheel))?;
        numbers.push(number)?;
    }
    Ok(numbers)
}

/// The numbers of the tag sets of the wheels of an entry, where one stands.
fn numbers_at(
    alloc: Global,
    sets: &mut TagSets,
    entry: &Option<Entry>,
) -> Result<Vec<usize>, AllocError>
    requires { IsNumbered sets.old }
    ensures numbers { IfOk result (λ numbers.
        AreNumbers (set_number sets.new) (names_in entry.now) numbers.items) }
    ensures kept { SetsKept sets.old sets.new }
    ensures lists { sets.new.of_entries ≡ sets.old.of_entries }
{
    match entry {
        Some(entry) => numbers_of(alloc, sets, entry.wheel_names()),
        None => Ok(Vec::new(alloc)),
    }
}

/// The tag sets of the wheels of these entries, and no others.
pub(crate) fn sets_of(alloc: Global, entries: &[Option<Entry>]) -> Result<TagSets, AllocError>
    ensures { IfOk result (λ sets. AreSets sets entries.now) }
{
    let mut sets = TagSets::with_capacity(alloc, entries.len())?;
    for entry in entries {
        let numbers = numbers_at(alloc, &mut sets, entry)?;
        sets.push(numbers)?;
    }
    Ok(sets)
}
