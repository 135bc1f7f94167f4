//! The parts of a session, and those of one that has no entry.

ghost use Rattle.std.specs.Prelude.{◌≡◌, ◌++◌, ◌∷◌, [], IfOk, map, string_bytes};
ghost use Rattle.std.specs.FinMap as map_of;
ghost use Rattle.pylock_core.specs.Inner.Parts.{IsSession, state_of};
ghost use Rattle.pylock_core.specs.Session.State.{asked_environment};

use crate::session::judging::verdict::HeadVerdict;
use crate::session::kept_environment::KeptEnvironment;
use crate::session::start_and_edit::Judged;
use crate::session::tables::conditions::Conditions;
use crate::session::tables::index::{KeyLists, head_index};
use crate::session::tables::names::Names;
use crate::session::tables::rows::Row;
use crate::session::tables::tag_sets::TagSets;
use pylock_readers::{Entry, Head};
use pymark_core::Environment;
use pywheel_core::TagList;
use std::alloc::{AllocError, Global};

/// What a session keeps.
pub(crate) struct Parts {
    pub(crate) alloc: Global,
    /// The numbers that the last accepted edit judged.
    pub(crate) judged: Judged,
    /// The numbers of the entries that stand, in increasing order.
    pub(crate) living: Vec<u32>,
    /// The numbers of what reads each key, 0 for the head.
    pub(crate) index: KeyLists,
    /// The row of the entry of number k stands at place k - 1.
    pub(crate) rows: Vec<Option<Row>>,
    pub(crate) names: Names,
    pub(crate) sets: TagSets,
    pub(crate) conditions: Conditions,
    pub(crate) head: Head,
    pub(crate) head_verdict: HeadVerdict,
    pub(crate) environment: KeptEnvironment,
    pub(crate) tags: TagList,
    /// The entry of number k stands at place k - 1. They are let go last: the allocator merges
    /// their many small pieces only when a large one is given back behind them.
    pub(crate) entries: Vec<Option<Entry>>,
}

impl Drop for Parts {
    fn drop(self) {
        let Parts {
            alloc: _,
            judged: _,
            living: _,
            index: _,
            rows: _,
            names: _,
            sets: _,
            conditions: _,
            head: _,
            head_verdict: _,
            environment: _,
            tags: _,
            entries: _,
        } = self;
    }
}

impl Parts {
    /// The parts of a session that has no entry, with room for so many. The head is judged, and its
    /// number goes onto the list.
    pub(crate) fn without_entries(
        alloc: Global,
        head: Head,
        environment: Environment,
        tags: TagList,
        capacity: usize,
        mut judged: Judged,
    ) -> Result<Parts, AllocError>
        ensures session { IfOk result (λ parts. IsSession parts) }
        ensures state { IfOk result (λ parts. state_of parts ≡ record {
          head = head;
          entries = [];
          last = 0;
          environment = asked_environment head.default_groups environment;
          tags = tags;
          policies = map_of.empty;
        }) }
        ensures judged { IfOk result (λ parts. parts.judged ≡ judged ++ 0 ∷ []) }
    {
        let environment = asked_environment(environment, head.default_groups().as_slice())?;
        let head_verdict = HeadVerdict::new(alloc, &head, &environment, &mut judged)?;
        let living = Vec::with_capacity(alloc, capacity)?;
        let rows = Vec::with_capacity(alloc, capacity)?;
        let names = Names::with_capacity(alloc, capacity)?;
        let sets = TagSets::with_capacity(alloc, capacity)?;
        let entries = Vec::with_capacity(alloc, capacity)?;
        let index = head_index(alloc, &head)?;
        let conditions = Conditions::none(alloc)?;
        Ok(Parts {
            alloc,
            judged,
            living,
            index,
            rows,
            names,
            sets,
            conditions,
            head,
            head_verdict,
            environment: KeptEnvironment::new(environment),
            tags,
            entries,
        })
    }
}

/// The environment with no extra asked for, and of the groups these.
fn asked_environment(
    mut environment: Environment,
    groups: &[String],
) -> Result<Environment, AllocError>
    ensures { IfOk result (λ asked.
        asked ≡ asked_environment (map string_bytes groups.now) environment) }
{
    environment.ask_nothing();
    for group in groups {
        environment.add_group(group.as_str())?;
    }
    Ok(environment)
}
