//! The names of a session: each has a number, and by the number its policy and its entries. Numbers
//! are found by an ordered table, so that no lock makes it slow. A name keeps its number when no
//! entry has it any more.

ghost use Rattle.std.specs.Prelude.{◌≡◌, ℕ, ◌+◌, ◌<◌, nat_eq, not, List, [], Some, None, IfOk};
ghost use Rattle.std.specs.Prelude.{IfSome, OnOk, OnErr, IsSome, IsTrue, length, slice_set};
ghost use Rattle.std.specs.Prelude.{◌||◌, false, slice_index_or, string_bytes, if◌then◌else◌};
ghost use Rattle.std.specs.BTreeMap.{Updates, btree_map_len, get_by_text};
ghost use Rattle.std.specs.String.{string_cmp};
ghost use Rattle.pylock_core.specs.Inner.Tables.Index.{list_at, moved};
ghost use Rattle.pylock_core.specs.Session.State.{Rises, with_policies, with_policy};
ghost use Rattle.pylock_core.specs.Inner.Tables.Names.{AreKnown, AreMarks, HasCapacity, IsNames};
ghost use Rattle.pylock_core.specs.Inner.Tables.Names.{Kept, Same, is_at};
ghost use Rattle.pylock_core.specs.Inner.Tables.Names.{members_named, number_named, policies_in};

use crate::edit::Policy;
use crate::session::tables::capacity::push_within;
use crate::session::tables::index::{move_in_list, reserve_in_list};
use pyver_core::NormalName;
use std::alloc::{AllocError, Global};
use std::collections::BTreeMap;

/// The names that an entry or a policy ever had. Equal names have one number.
pub(crate) struct Names {
    pub(crate) numbers: BTreeMap<String, usize>,
    /// The policy of each number.
    pub(crate) policies: Vec<Policy>,
    /// The numbers of the entries that have the name of each number, in increasing order.
    pub(crate) members: Vec<Vec<u32>>,
}

impl Drop for Names {
    fn drop(self) {
        let Names {
            numbers: _,
            policies: _,
            members: _,
        } = self;
    }
}

impl Names {
    /// None yet, with room for so many.
    pub(crate) fn with_capacity(alloc: Global, capacity: usize) -> Result<Names, AllocError>
        ensures numbers { IfOk result (λ names. names.numbers.entries ≡ []) }
        ensures policies { IfOk result (λ names. names.policies.items ≡ []) }
        ensures members { IfOk result (λ names. names.members.items ≡ []) }
    {
        Ok(Names {
            numbers: BTreeMap::new(alloc),
            policies: Vec::with_capacity(alloc, capacity)?,
            members: Vec::with_capacity(alloc, capacity)?,
        })
    }
}

/// Gives the name this number.
pub(crate) fn give_number(
    numbers: &mut BTreeMap<String, usize>,
    name: String,
    number: usize,
) -> Result<(), AllocError>
    ensures given { OnOk result (Updates string_cmp numbers.old numbers.new name (Some number)) }
    ensures err { OnErr result (numbers.new.entries ≡ numbers.old.entries) }
    ensures len { OnOk result (get_by_text numbers.old (string_bytes name) ≡ None
        → btree_map_len numbers.new ≡ btree_map_len numbers.old + 1) }
{
    numbers.insert(name, number)?;
    Ok(())
}

/// The number of the name, which gets one here where it has none. Where there is no memory for it,
/// all stays but for room. A name that has one takes no memory.
pub(crate) fn number_of(alloc: Global, names: &mut Names, name: &str) -> Result<usize, AllocError>
    requires { IsNames names.old }
    ensures found { IfOk result (λ number. number_named names.new name.now ≡ Some number) }
    ensures kept { Kept names.old names.new }
{
    if let Some(known) = names.numbers.get(name) {
        return Ok(*known);
    }
    let number = names.policies.len();
    names.policies.reserve(1)?;
    names.members.reserve(1)?;
    let key = String::from_str(alloc, name)?;
    give_number(&mut names.numbers, key, number)?;
    push_within(&mut names.policies, Policy::Any);
    push_within(&mut names.members, Vec::new(alloc));
    Ok(number)
}

/// Gives the name of this number the policy.
pub(crate) fn set_policy(names: &mut Names, number: usize, policy: Policy)
    requires is { IsNames names.old }
    requires within { number < length names.old.policies.items }
    ensures items { names.new.policies.items ≡ slice_set names.old.policies.items number policy }
    ensures policies { (name : List ℕ) → number_named names.old name ≡ Some number
        → policies_in names.new ≡ with_policy (policies_in names.old) name policy }
    ensures members { (q : List ℕ) → members_named names.new q ≡ members_named names.old q }
    ensures numbers { (q : List ℕ) → number_named names.new q ≡ number_named names.old q }
    ensures is { IsNames names.new }
{
    names.policies[number] = policy;
}

/// Gives each of these names a number, where it has none. Where there is no memory for it, all
/// stays but for room and for numbers that no entry has.
pub(crate) fn number_all(
    alloc: Global,
    names: &mut Names,
    list: &[NormalName],
) -> Result<(), AllocError>
    requires { IsNames names.old }
    ensures known { OnOk result (AreKnown names.new list.now) }
    ensures kept { Kept names.old names.new }
{
    for name in list {
        number_of(alloc, names, name.as_str())?;
    }
    Ok(())
}

/// Marks the place of this number.
fn mark(marks: &mut Vec<bool>, number: Option<usize>)
    requires { IfSome number (λ n. n < length marks.old.items) }
    ensures length { length marks.new.items ≡ length marks.old.items }
    ensures marks { (n : ℕ) → slice_index_or marks.new.items n false
        ≡ (is_at n number || slice_index_or marks.old.items n false) }
{
    if let Some(number) = number {
        marks[number] = true;
    }
}

/// The number of the name, if it has one.
fn known_number(names: &Names, name: &str) -> Option<usize>
    ensures { result ≡ number_named names.now name.now }
{
    names.numbers.get(name).copied()
}

/// For the number of each name, whether it is one of these.
pub(crate) fn marks_of(
    alloc: Global,
    names: &Names,
    list: &[NormalName],
) -> Result<Vec<bool>, AllocError>
    requires { IsNames names.now }
    ensures { IfOk result (λ marks. AreMarks names.now list.now marks.items) }
{
    let mut marks = vec![in alloc; false; names.policies.len()]?;
    for name in list {
        mark(&mut marks, known_number(names, name.as_str()));
    }
    Ok(marks)
}

/// Gives the name, which has a number, the policy.
fn set_policy_of(names: &mut Names, name: &str, policy: Policy)
    requires is { IsNames names.old }
    requires known { IsSome (number_named names.old name.now) }
    ensures policies { policies_in names.new ≡ with_policy (policies_in names.old) name.now policy }
    ensures members { (q : List ℕ) → members_named names.new q ≡ members_named names.old q }
    ensures numbers { (q : List ℕ) → number_named names.new q ≡ number_named names.old q }
    ensures is { IsNames names.new }
{
    if let Some(number) = known_number(names, name) {
        set_policy(names, number, policy);
    }
}

/// Gives each of these names the policy.
pub(crate) fn set_policies(names: &mut Names, list: &[NormalName], policy: Policy)
    requires is { IsNames names.old }
    requires known { AreKnown names.old list.now }
    ensures policies { policies_in names.new
        ≡ with_policies (policies_in names.old) list.now policy }
    ensures members { (q : List ℕ) → members_named names.new q ≡ members_named names.old q }
    ensures numbers { (q : List ℕ) → number_named names.new q ≡ number_named names.old q }
    ensures is { IsNames names.new }
{
    for name in list {
        set_policy_of(names, name.as_str(), policy);
    }
}

/// Reserves capacity for one more entry of the name of this number.
pub(crate) fn reserve_member(names: &mut Names, number: usize) -> Result<(), AllocError>
    requires is { IsNames names.old }
    requires within { number < length names.old.policies.items }
    ensures capacity { OnOk result (HasCapacity names.new number) }
    ensures members { (q : List ℕ) → members_named names.new q ≡ members_named names.old q }
    ensures same { Same names.old names.new }
{
    reserve_in_list(&mut names.members[number], true)
}

/// Has the entry of this number under the name of that number, or not.
fn change_member(names: &mut Names, number: usize, entry: u32, is: bool)
    requires is { IsNames names.old }
    requires within { number < length names.old.policies.items }
    requires capacity { IsTrue is → HasCapacity names.old number }
    requires rises { Rises 0 (list_at names.old.members.items number) }
    ensures members { (n : ℕ) → list_at names.new.members.items n ≡ (if nat_eq n number
        then moved entry (not is) is (list_at names.old.members.items n)
        else list_at names.old.members.items n) }
    ensures same { Same names.old names.new }
{
    move_in_list(&mut names.members[number], entry, !is, is);
}

/// Has the entry of this number under the name of the number `is`, where it was under that of
/// `was`.
fn move_between(names: &mut Names, entry: u32, was: usize, is: usize)
    requires names { IsNames names.old }
    requires was { was < length names.old.policies.items }
    requires is { is < length names.old.policies.items }
    requires capacity { HasCapacity names.old is }
    requires was_rises { Rises 0 (list_at names.old.members.items was) }
    requires is_rises { Rises 0 (list_at names.old.members.items is) }
    ensures members { (n : ℕ) → list_at names.new.members.items n
        ≡ moved entry (nat_eq n was) (nat_eq n is) (list_at names.old.members.items n) }
    ensures same { Same names.old names.new }
{
    if was == is {
        return;
    }
    change_member(names, is, entry, true);
    change_member(names, was, entry, false);
}

/// The same where the entry was under no name, or is to be under none.
pub(crate) fn move_member(names: &mut Names, entry: u32, was: Option<usize>, is: Option<usize>)
    requires names { IsNames names.old }
    requires was { IfSome was (λ n. n < length names.old.policies.items) }
    requires is { IfSome is (λ n. n < length names.old.policies.items) }
    requires capacity { IfSome is (λ n. HasCapacity names.old n) }
    requires was_rises { IfSome was (λ n. Rises 0 (list_at names.old.members.items n)) }
    requires is_rises { IfSome is (λ n. Rises 0 (list_at names.old.members.items n)) }
    ensures members { (n : ℕ) → list_at names.new.members.items n
        ≡ moved entry (is_at n was) (is_at n is) (list_at names.old.members.items n) }
    ensures same { Same names.old names.new }
{
    match (was, is) {
        (Some(was), Some(is)) => move_between(names, entry, was, is),
        (Some(was), None) => change_member(names, was, entry, false),
        (None, Some(is)) => change_member(names, is, entry, true),
        (None, None) => {}
    }
}
