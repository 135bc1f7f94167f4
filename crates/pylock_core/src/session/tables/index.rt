//! The index of a session: for each key the numbers of what reads it. The keys are asked by calls
//! that are written out: array functions over 14 elements take over a hundred seconds to prove, and
//! a loop needs a table as long as the calls.

ghost use Rattle.std.specs.Prelude.{◌≡◌, ℕ, ◌<◌, false, [], IfOk, IsTrue, OnOk, length, map};
ghost use Rattle.std.specs.Prelude.{replicate, slice_index_or, vec_len, vec_capacity};
ghost use Rattle.pylock_core.specs.Session.Judgement.{and_head, entry_reads, head_reads, keys};
ghost use Rattle.pylock_core.specs.Inner.Tables.Index.{AllRise, HaveCapacity, any_reads, list_at};
ghost use Rattle.pylock_core.specs.Inner.Tables.Index.{moved, numbers_in, put_in, read_by};
ghost use Rattle.pylock_core.specs.Inner.Tables.Index.{take_out};
ghost use Rattle.pylock_core.specs.Session.State.{Rises};
ghost use Rattle.pylock_core.specs.Inner.Tables.Rows.{passes};

use pylock_readers::{Entry, Head};
use pymark_core::{Key, Marker, Var};
use std::alloc::{AllocError, Global};

/// How many keys there are.
const INDEX_KEYS: usize = 14;

/// The number of the tags among them.
pub(crate) const TAGS: usize = INDEX_KEYS - 1;

/// The numbers under each key, in increasing order.
pub(crate) type KeyLists = [Vec<u32>; INDEX_KEYS];

/// Which of the keys are read.
pub(crate) type KeySet = [bool; INDEX_KEYS];

/// Whether one of the markers reads the key.
fn any_reads(markers: &[Marker], key: Key) -> bool
    ensures { result ≡ any_reads key markers.now }
{
    markers.iter().any(|marker| marker.reads().has(key))
}

/// The keys that are read by what has these markers, a Python check or not, and wheels or not.
fn keys_read(markers: &[Marker], check: bool, wheels: bool) -> KeySet
    ensures { result ≡ map (read_by markers.now check wheels) keys }
{
    [
        any_reads(markers, Key::Of(Var::OsName)),
        any_reads(markers, Key::Of(Var::SysPlatform)),
        any_reads(markers, Key::Of(Var::PlatformMachine)),
        any_reads(markers, Key::Of(Var::PlatformPythonImplementation)),
        any_reads(markers, Key::Of(Var::PlatformRelease)),
        any_reads(markers, Key::Of(Var::PlatformSystem)),
        any_reads(markers, Key::Of(Var::PlatformVersion)),
        any_reads(markers, Key::Of(Var::PythonVersion)),
        check | any_reads(markers, Key::Of(Var::PythonFullVersion)),
        any_reads(markers, Key::Of(Var::ImplementationName)),
        any_reads(markers, Key::Of(Var::ImplementationVersion)),
        any_reads(markers, Key::Extras),
        any_reads(markers, Key::Groups),
        wheels,
    ]
}

/// The keys that the entry reads.
pub(crate) fn entry_keys(entry: &Entry) -> KeySet
    ensures { result ≡ map (λ key. entry_reads key entry.now) keys }
{
    let check = entry.requires_python().is_some();
    let wheels = !entry.wheels().is_empty();
    match entry.marker() {
        Some(marker) => keys_read(std::slice::from_ref(marker), check, wheels),
        None => keys_read(&[], check, wheels),
    }
}

/// The keys that what stands at a place reads: none where no entry does.
pub(crate) fn keys_at(entry: &Option<Entry>) -> KeySet
    ensures { result ≡ map (λ key. passes (entry_reads key) entry.now) keys }
{
    match entry {
        Some(entry) => entry_keys(entry),
        None => [false; INDEX_KEYS],
    }
}

/// The keys that the head reads.
fn head_keys(head: &Head) -> KeySet
    ensures { result ≡ map (λ key. head_reads key head.now) keys }
{
    keys_read(head.environments(), head.requires_python().is_some(), false)
}

/// Lists that are empty.
fn empty_lists(alloc: Global) -> KeyLists
    ensures { numbers_in result ≡ replicate 14 [] }
{
    [
        Vec::new(alloc),
        Vec::new(alloc),
        Vec::new(alloc),
        Vec::new(alloc),
        Vec::new(alloc),
        Vec::new(alloc),
        Vec::new(alloc),
        Vec::new(alloc),
        Vec::new(alloc),
        Vec::new(alloc),
        Vec::new(alloc),
        Vec::new(alloc),
        Vec::new(alloc),
        Vec::new(alloc),
    ]
}

/// The lists of a session that has no entry: the number of the head under each key that it reads.
pub(crate) fn head_index(alloc: Global, head: &Head) -> Result<KeyLists, AllocError>
    ensures { IfOk result (λ lists. numbers_in lists
        ≡ map (λ key. and_head (head_reads key head.now) []) keys) }
{
    let read = head_keys(head);
    let mut lists = empty_lists(alloc);
    reserve_in_lists(&mut lists, &read)?;
    move_in_lists(&mut lists, 0, &[false; INDEX_KEYS], &read);
    Ok(lists)
}

/// Reserves capacity for one more number under each of the keys.
pub(crate) fn reserve_in_lists(lists: &mut KeyLists, keys: &KeySet) -> Result<(), AllocError>
    ensures kept { numbers_in lists.new ≡ numbers_in lists.old }
    ensures capacity { OnOk result (HaveCapacity lists.new keys.now 0) }
{
    for key in 0..INDEX_KEYS {
        reserve_in_list(&mut lists[key], keys[key])?;
    }
    Ok(())
}

/// Reserves capacity for one more number, where one is to come.
pub(crate) fn reserve_in_list(numbers: &mut Vec<u32>, comes: bool) -> Result<(), AllocError>
    ensures kept { numbers.new.items ≡ numbers.old.items }
    ensures capacity { OnOk result (IsTrue comes → vec_len numbers.new < vec_capacity numbers.new) }
{
    if comes {
        numbers.reserve(1)?;
    }
    Ok(())
}

/// Has the number under the keys that it is to be under, where it was under others. There is
/// capacity.
pub(crate) fn move_in_lists(lists: &mut KeyLists, number: u32, was: &KeySet, is: &KeySet)
    requires capacity { HaveCapacity lists.old is.now 0 }
    requires rise { AllRise lists.old }
    ensures changed { (key : ℕ) → key < 14 → list_at lists.new key
        ≡ moved number (slice_index_or was.now key false) (slice_index_or is.now key false)
        (list_at lists.old key) }
    ensures long { length lists.new ≡ length lists.old }
{
    for key in 0..INDEX_KEYS {
        move_in_list(&mut lists[key], number, was[key], is[key]);
    }
}

/// Has the number in the list or not.
pub(crate) fn move_in_list(numbers: &mut Vec<u32>, number: u32, was: bool, is: bool)
    requires capacity { was ≡ false → IsTrue is → vec_len numbers.old < vec_capacity numbers.old }
    requires rises { Rises 0 numbers.old.items }
    ensures { numbers.new.items ≡ moved number was is numbers.old.items }
{
    match (was, is) {
        (false, true) => enter_number(numbers, number),
        (true, false) => remove_number(numbers, number),
        _ => {}
    }
}

/// Puts the number into the increasing list, which has room.
fn enter_number(numbers: &mut Vec<u32>, number: u32)
    requires capacity { vec_len numbers.old < vec_capacity numbers.old }
    requires rises { Rises 0 numbers.old.items }
    ensures { numbers.new.items ≡ put_in number numbers.old.items }
{
    if let Err(place) = numbers.binary_search(&number) {
        let _ = numbers.insert(place, number);
    }
}

/// Takes the number out of the increasing list.
fn remove_number(numbers: &mut Vec<u32>, number: u32)
    requires { Rises 0 numbers.old.items }
    ensures { numbers.new.items ≡ take_out number numbers.old.items }
{
    if let Ok(place) = numbers.binary_search(&number) {
        let _ = numbers.remove(place);
    }
}
