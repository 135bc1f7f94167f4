//! Verdicts on entries and on the head, which a session keeps. They are made here alone. A verdict
//! has private fields and no copy, and each that is made puts its number on the list of what was
//! judged.

ghost use Rattle.std.specs.Prelude.{◌≡◌, ◌<◌, ◌-◌, ◌++◌, ◌∷◌, [], None, IfOk, OnOk, length, IsSome};
ghost use Rattle.std.specs.Prelude.{slice_index_or};
ghost use Rattle.std.specs.Option.{option_copied};
ghost use Rattle.pylock_core.specs.Inner.Judging.Judgement.{standing_of};
ghost use Rattle.pylock_core.specs.Inner.Judging.Standings.{AreFound, number_in};
ghost use Rattle.pylock_core.specs.Inner.Parts.{IsSession};
ghost use Rattle.pylock_core.specs.Inner.Judging.Ranks.{AreRanks, best_under};
ghost use Rattle.pylock_core.specs.Inner.Tables.TagSets.{names_in};
ghost use Rattle.pylock_core.specs.Session.Judgement.{verdict_of};
ghost use Rattle.pylock_core.specs.Session.Steps.{best_wheel, by_check, by_marker, by_standing};
ghost use Rattle.pylock_core.specs.Session.Steps.{environments_check, head_fault, python_check};
ghost use Rattle.pylock_core.specs.Session.Steps.{standing};
ghost use Rattle.pymark_core.specs.Marker.Value.{marker_value};
ghost use Rattle.pylock_core.specs.declared.answer.Standing.TheVariants.{Skipped, Faulty, Active};

use crate::answer::{FaultCode, Standing};
use crate::edit::Policy;
use crate::session::judging::ranks::{Ranks, chosen_wheel};
use crate::session::judging::standings::{FoundStanding, keep_standing, standing_under};
use crate::session::parts::Parts;
use crate::session::start_and_edit::Judged;
use crate::session::tables::rows::Row;
use pylock_readers::{Entry, Head};
use pymark_core::{Environment, EvalFault, Marker, Var};
use pyver_core::SpecifierSet;
use pywheel_core::{TagList, choose};
use std::alloc::{AllocError, Global};
use std::marker::Model;

/// The verdict on an entry: how it stands by its marker and its Python check, and which of its
/// wheels is the best under its name's policy.
#[derive(Drop)]
pub(crate) struct Verdict {
    standing: Standing,
    best: Option<usize>,
}

impl Model for Verdict {
    ghost use Rattle.pylock_core.specs.Session.Judgement.{VerdictValue};

    ghost Value = { VerdictValue };

    ghost view = { λ v. record { standing = v.standing; best = v.best } };
}

/// How an entry stands that was judged again.
///
/// Nothing else changes how an entry stands in a verdict that is kept, and it is used once.
#[derive(Drop)]
pub(crate) struct StandingAnew {
    standing: Standing,
}

impl Model for StandingAnew {
    ghost use Rattle.pylock_core.specs.declared.answer.Standing.{Standing};

    ghost Value = { Standing };

    ghost view = { λ s. s.standing };
}

/// The verdict on the head: its fault or none.
#[derive(Drop)]
pub(crate) struct HeadVerdict {
    fault: Option<FaultCode>,
}

impl Model for HeadVerdict {
    ghost use Rattle.std.specs.Prelude.{Option};
    ghost use Rattle.pylock_core.specs.declared.answer.FaultCode.{FaultCode};

    ghost Value = { Option FaultCode };

    ghost view = { λ v. v.fault };
}

impl Verdict {
    /// Judges the entry of this number, whose name has this policy. The number goes onto the list.
    pub(crate) fn new(
        parts: &Parts,
        number: u32,
        entry: &Entry,
        policy: Policy,
        judged: &mut Judged,
    ) -> Result<Verdict, AllocError>
        ensures verdict { IfOk result (λ verdict. verdict
            ≡ verdict_of entry.now parts.now.environment parts.now.tags policy) }
        ensures judged { OnOk result (judged.new ≡ judged.old ++ number ∷ []) }
    {
        judged.push(number)?;
        Ok(Verdict {
            standing: standing(parts.alloc, entry, parts.environment.current())?,
            best: best_wheel(entry, &parts.tags, policy),
        })
    }

    /// Has the entry stand so, and keeps its best wheel.
    pub(crate) fn stand(&mut self, anew: StandingAnew)
        ensures { self.new ≡ record { standing = anew; best = self.old.best } }
    {
        self.standing = anew.standing;
    }

    /// Judges again which wheel of the entry of this number is the best, and keeps how the entry
    /// stands. The number goes onto the list.
    pub(crate) fn wheel_anew(
        &self,
        number: u32,
        entry: &Entry,
        tags: &TagList,
        policy: Policy,
        judged: &mut Judged,
    ) -> Result<Verdict, AllocError>
        ensures verdict { IfOk result (λ verdict. verdict ≡ record {
          standing = self.now.standing;
          best = best_wheel entry.now tags.now policy;
        }) }
        ensures judged { OnOk result (judged.new ≡ judged.old ++ number ∷ []) }
    {
        judged.push(number)?;
        Ok(Verdict {
            standing: self.standing,
            best: best_wheel(entry, tags, policy),
        })
    }

    /// The same by a new list of tags, in which these ranks of tag sets were found. Those that
    /// weren't yet are found here.
    pub(crate) fn wheel_ranked(
        &self,
        parts: &Parts,
        number: u32,
        tags: &TagList,
        policy: Policy,
        ranks: &mut Ranks,
        judged: &mut Judged,
    ) -> Result<Verdict, AllocError>
        requires session { IsSession parts.now }
        requires above { 0 < number }
        requires within { number - 1 < length parts.now.entries.items }
        requires ranks { AreRanks parts.now.sets tags.now ranks.old }
        ensures verdict { IfOk result (λ verdict. verdict ≡ record {
          standing = self.now.standing;
          best = best_under policy
              (names_in (slice_index_or parts.now.entries.items (number - 1) None)) tags.now;
        }) }
        ensures judged { OnOk result (judged.new ≡ judged.old ++ number ∷ []) }
        ensures ranks { AreRanks parts.now.sets tags.now ranks.new }
    {
        judged.push(number)?;
        Ok(Verdict {
            standing: self.standing,
            best: chosen_wheel(parts, number as usize - 1, tags, policy, ranks),
        })
    }

    /// How the entry stands.
    pub(crate) fn standing(&self) -> Standing
        ensures { result ≡ self.now.standing }
    {
        self.standing
    }

    /// The place of the best wheel among those of the entry, from 0.
    pub(crate) fn best(&self) -> Option<usize>
        ensures { result ≡ self.now.best }
    {
        self.best
    }
}

impl StandingAnew {
    /// Judges again how the entry of this number stands, in this environment. Where it was found
    /// already how entries of its condition stand, that is taken; else it is found here. The number
    /// goes onto the list in either case.
    pub(crate) fn new(
        parts: &Parts,
        environment: &Environment,
        number: u32,
        found: &mut Vec<Option<FoundStanding>>,
        judged: &mut Judged,
    ) -> Result<StandingAnew, AllocError>
        requires session { IsSession parts.now }
        requires above { 0 < number }
        requires stands { IsSome (slice_index_or parts.now.entries.items (number - 1) None) }
        requires found { AreFound parts.now.entries.items parts.now.rows.items environment.now
            found.old.items }
        ensures standing { IfOk result (λ anew. anew ≡ standing_of environment.now
            (slice_index_or parts.now.entries.items (number - 1) None)) }
        ensures judged { OnOk result (judged.new ≡ judged.old ++ number ∷ []) }
        ensures found { AreFound parts.now.entries.items parts.now.rows.items environment.now
            found.new.items }
    {
        judged.push(number)?;
        let place = number as usize - 1;
        let entry = &parts.entries[place];
        let Some(condition) = number_in(&parts.rows[place]) else {
            let standing = standing_of(parts.alloc, entry, environment)?;
            return Ok(StandingAnew { standing });
        };
        if let Some(standing) = standing_under(found, condition) {
            return Ok(StandingAnew { standing });
        }
        let standing = standing_of(parts.alloc, entry, environment)?;
        keep_standing(found, condition, standing);
        Ok(StandingAnew { standing })
    }
}

/// The number of the condition of a row.
fn number_in(row: &Option<Row>) -> Option<u32>
    ensures { result ≡ number_in row.now }
{
    row.as_ref()?.condition
}

impl HeadVerdict {
    /// Judges the head, whose number is 0. The number goes onto the list.
    pub(crate) fn new(
        alloc: Global,
        head: &Head,
        environment: &Environment,
        judged: &mut Judged,
    ) -> Result<HeadVerdict, AllocError>
        ensures verdict { IfOk result (λ verdict. verdict ≡ head_fault head.now environment.now) }
        ensures judged { OnOk result (judged.new ≡ judged.old ++ 0 ∷ []) }
    {
        judged.push(0)?;
        let fault = head_fault(alloc, head, environment)?;
        Ok(HeadVerdict { fault })
    }

    /// The fault of the head.
    pub(crate) fn fault(&self) -> Option<FaultCode>
        ensures { result ≡ self.now }
    {
        self.fault
    }
}

/// The wheel that is chosen, unless the policy is to install from source.
fn best_wheel(entry: &Entry, tags: &TagList, policy: Policy) -> Option<usize>
    ensures { result ≡ best_wheel entry.now tags.now policy }
{
    match policy {
        Policy::Source => None,
        Policy::Any | Policy::Wheel => choose(entry.wheel_names(), tags),
    }
}

/// How the entry stands.
fn standing(alloc: Global, entry: &Entry, environment: &Environment) -> Result<Standing, AllocError>
    ensures { IfOk result (λ found. found ≡ standing entry.now environment.now) }
{
    let marked = match entry.marker() {
        Some(marker) => marker_standing(alloc, marker, environment)?,
        None => Standing::Active,
    };
    Ok(after_marker(marked, entry.requires_python(), environment))
}

/// How the entry at a place stands in the environment; where there is none it makes no difference.
fn standing_of(
    alloc: Global,
    entry: &Option<Entry>,
    environment: &Environment,
) -> Result<Standing, AllocError>
    ensures { IfOk result (λ found. found ≡ standing_of environment.now entry.now) }
{
    match entry {
        Some(entry) => standing(alloc, entry, environment),
        None => Ok(Standing::Active),
    }
}

/// How an entry stands that stands so by its marker and has this set to check or none. The check is
/// made only where the marker leaves the entry active.
fn after_marker(marked: Standing, set: Option<&SpecifierSet>, environment: &Environment) -> Standing
    ensures { result ≡ by_standing marked Skipped Faulty
        (by_check (python_check (option_copied set.entry) environment.now)) }
{
    match marked {
        Standing::Active => by_check(python_check(set, environment)),
        _ => marked,
    }
}

/// How an entry stands by the fault or none of its Python check.
fn by_check(fault: Option<FaultCode>) -> Standing
    ensures { result ≡ by_check fault }
{
    match fault {
        Some(code) => Standing::Faulty(code),
        None => Standing::Active,
    }
}

/// How an entry stands by its marker.
fn marker_standing(
    alloc: Global,
    marker: &Marker,
    environment: &Environment,
) -> Result<Standing, AllocError>
    ensures { IfOk result (λ found. found
        ≡ by_marker (marker_value environment.now marker.now.tree) Active) }
{
    match marker.evaluate(alloc, environment) {
        Ok(true) => Ok(Standing::Active),
        Ok(false) => Ok(Standing::Skipped),
        Err(EvalFault::Memory) => Err(AllocError),
        Err(fault) => Ok(Standing::Faulty(FaultCode::from(fault))),
    }
}

/// The fault of the Python check of a set, if the set stands.
fn python_check(set: Option<&SpecifierSet>, environment: &Environment) -> Option<FaultCode>
    ensures { result ≡ python_check (option_copied set.entry) environment.now }
{
    let set = set?;
    match environment.version(Var::PythonFullVersion) {
        Some(Ok(version)) if set.admits(version) => None,
        Some(Ok(_)) => Some(FaultCode::PythonNotMet),
        _ => Some(FaultCode::PythonUnknown),
    }
}

/// The fault of the head.
fn head_fault(
    alloc: Global,
    head: &Head,
    environment: &Environment,
) -> Result<Option<FaultCode>, AllocError>
    ensures { IfOk result (λ fault. fault ≡ head_fault head.now environment.now) }
{
    let check = python_check(head.requires_python(), environment);
    if check.is_some() {
        return Ok(check);
    }
    environments_check(alloc, head.environments(), environment)
}

/// The fault of the key `environments`: the first marker that is true or faulty decides.
fn environments_check(
    alloc: Global,
    markers: &[Marker],
    environment: &Environment,
) -> Result<Option<FaultCode>, AllocError>
    ensures { IfOk result (λ fault. fault ≡ environments_check markers.now environment.now) }
{
    if markers.is_empty() {
        return Ok(None);
    }
    for marker in markers {
        match marker_standing(alloc, marker, environment)? {
            Standing::Active => return Ok(None),
            Standing::Faulty(code) => return Ok(Some(code)),
            Standing::Skipped => {}
        }
    }
    Ok(Some(FaultCode::NoEnvironment))
}
