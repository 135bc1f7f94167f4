//! A session: the entries of a lock, edited and answered again.

pub(crate) mod answering;
pub(crate) mod editing;
pub(crate) mod judging;
pub(crate) mod kept_environment;
pub(crate) mod parts;
pub(crate) mod start_and_edit;
pub(crate) mod tables;

ghost use Rattle.std.specs.Prelude.{◌≡◌, Ok, Err, IfOk, IfErr, OnOk, IsTrue, length};
ghost use Rattle.std.specs.Option.{option_copied};
ghost use Rattle.pylock_core.specs.Session.Judgement.{all_numbers, index_of, touched, verdicts_of};
ghost use Rattle.pylock_core.specs.Session.State.{NumbersRise, apply, entry_at, first, in_rows};
ghost use Rattle.pylock_core.specs.Session.State.{takes_memory};
ghost use Rattle.pylock_core.specs.Session.Fates.{fate_at, fates};
ghost use Rattle.pylock_core.specs.Session.Steps.{answer, head_fault};
ghost use Rattle.pylock_core.specs.declared.edit.EditError.{EditError};
ghost use Rattle.pylock_core.specs.declared.edit.EditError.TheVariants.{Memory};

use crate::answer::{Answer, FaultCode};
use crate::edit::{Edit, EditError};
use crate::fate::Fate;
use crate::session::answering::fates::{fate_at, fates};
use crate::session::answering::steps::answer;
use crate::session::editing::entries::entry_in;
use crate::session::parts::Parts;
use crate::session::start_and_edit::{edit_parts, start_parts};
use pylock_readers::{Entry, Head, Lock};
use pymark_core::Environment;
use pywheel_core::TagList;
use std::alloc::{AllocError, Global};
use std::marker::Model;

/// The entries of a lock, each with its number, and what edits make of them. A number is never used
/// again.
pub struct Session {
    parts: Parts,
}

impl Model for Session {
    ghost use Rattle.pylock_core.specs.Session.Judgement.{SessionValue};
    ghost use Rattle.std.specs.Coded.{codes, coded_list, coded_ℕ};
    ghost use Rattle.std.specs.Cmp.Lexicographic.{slice_cmp};
    ghost use Rattle.std.specs.FinMap as map_of;
    ghost use Rattle.std.specs.Ordering.{nat_cmp};
    ghost use Rattle.pymark_core.specs.Environment.{environment_code};
    ghost use Rattle.pymark_core.specs.Marker.Coding.{marker_code};
    ghost use Rattle.pylock_core.specs.contracts.edit.Policy as policy;

    ghost Value = { SessionValue };

    ghost coded = { Prim.hlevel (
      codes,
      environment_code,
      marker_code,
      map_of.code {R = slice_cmp nat_cmp} (coded_list coded_ℕ) policy.the_row.coded,
    ) };

    ghost use Rattle.pylock_core.specs.Inner.Parts.{IsSession, shown};

    ghost view = { λ s. shown s.parts };

    ghost invariant = { λ s. IsSession s.parts };
}

impl Drop for Session {
    fn drop(self) {
        let Session { parts: _ } = self;
    }
}

impl Session {
    /// A session on the entries of the lock, with the numbers 1, 2, .. in their order. No extra is
    /// asked for, and of the groups the default ones, whatever sets the environment held. Where it
    /// is refused, its arguments are dropped.
    ///
    /// Takes memory for what it keeps of each entry: a row, its number under each key that it reads
    /// and under its name, and the name; and 4 kB, by which entries of one condition are found.
    pub fn start(
        alloc: Global,
        lock: Lock,
        environment: Environment,
        tags: TagList,
    ) -> Result<Session, AllocError>
        ensures state { IfOk result (λ session. session.state ≡ first lock environment tags) }
        ensures verdicts { IfOk result (λ session. session.verdicts ≡ verdicts_of session.state) }
        ensures index { IfOk result (λ session. session.index ≡ index_of session.state) }
        ensures judged { IfOk result (λ session. session.judged ≡ all_numbers session.state) }
        ensures rising { IfOk result (λ session. NumbersRise session.state) }
    {
        let parts = start_parts(alloc, lock, environment, tags)?;
        Ok(Session { parts })
    }

    /// Makes an edit, and answers how many judgements it made: one for what reads the variable, the
    /// extras, the groups or the tags that are edited, for the entry that is brought, or for each
    /// entry of the policy's name. Entries that share a condition, a marker and a Python set, may
    /// have it judged once: an entry that is counted may have taken what was found for another of
    /// the same condition. A refused edit is dropped and leaves the session as it was.
    ///
    /// Takes memory for the verdicts that it makes and the numbers of their entries, for a table of
    /// what was found of conditions where it judges many, and for what it brings: the text of a
    /// variable, names, the row and the places of an entry; with an entry that comes in now and
    /// then for the numbers of all tag sets, so that those that no wheel has any more are let go.
    /// `Del` takes none.
    pub fn edit(&mut self, edit: Edit) -> Result<u64, EditError>
        ensures accepted { OnOk result (apply edit self.old.state ≡ Ok self.new.state) }
        ensures refused { IfErr result (λ error. (error ≡ Memory → ⊥)
            → apply edit self.old.state ≡ Err error) }
        ensures kept { IfErr result (λ error. self.new ≡ self.old) }
        ensures judged { OnOk result (self.new.judged ≡ touched edit self.old.state) }
        ensures count { IfOk result (λ judgements. judgements ≡ length self.new.judged) }
        ensures verdicts { self.new.verdicts ≡ verdicts_of self.new.state }
        ensures index { self.new.index ≡ index_of self.new.state }
        ensures memory { IfErr result (λ error. error ≡ Memory → IsTrue (takes_memory edit)) }
        ensures rising { NumbersRise self.new.state }
    {
        Ok(edit_parts(&mut self.parts, edit)?)
    }

    /// The answer of the installation steps (PEP 751) on the state as it stands. Changes nothing.
    ///
    /// Takes memory for the names that are slated and, where step 5 has no fault, for a pick of
    /// each entry that stands; no time for a number whose entry is gone.
    pub fn answer(&self) -> Result<Answer, AllocError>
        ensures { IfOk result (λ found. found ≡ answer self.now.state) }
    {
        answer(&self.parts)
    }

    /// What becomes of each entry, judged for itself, with its number. Changes nothing.
    ///
    /// Takes memory for what it answers, and for a number for each name that the session has met.
    pub fn fates(&self) -> Result<Vec<(u32, Fate)>, AllocError>
        ensures { IfOk result (λ found. found.items ≡ fates self.now.state) }
    {
        fates(&self.parts)
    }

    /// What becomes of the entry of the number, judged for itself. Changes nothing. It takes no
    /// memory, and time for each entry that stands.
    pub fn fate(&self, number: u32) -> Option<Fate>
        ensures { result ≡ fate_at number self.now.state }
    {
        fate_at(&self.parts, number)
    }

    /// The fault of the head, if it has one. It takes no memory.
    pub fn head_fault(&self) -> Option<FaultCode>
        ensures { result ≡ head_fault self.now.state.head self.now.state.environment }
    {
        self.parts.head_verdict.fault()
    }

    /// The entry of the number.
    pub fn entry(&self, number: u32) -> Option<&Entry>
        ensures { option_copied result ≡ entry_at number self.now.state.entries }
    {
        entry_in(self.parts.entries.as_slice(), number)
    }

    /// The environment that the entries are judged in. It takes no memory.
    pub fn environment(&self) -> &Environment
        ensures { result.now ≡ self.now.state.environment }
    {
        self.parts.environment.current()
    }

    /// The tags that wheels are judged by, the best first. It takes no memory.
    pub fn tags(&self) -> &TagList
        ensures { result.now ≡ self.now.state.tags }
    {
        &self.parts.tags
    }

    /// The head of the lock. It takes no memory.
    pub fn head(&self) -> &Head
        ensures { result.now ≡ self.now.state.head }
    {
        &self.parts.head
    }

    /// The entries by their numbers, that of number 1 first; none where the entry is gone. It takes
    /// no memory.
    pub fn entries(&self) -> &[Option<Entry>]
        ensures { in_rows 1 result.now ≡ self.now.state.entries }
    {
        self.parts.entries.as_slice()
    }

    /// The numbers judged by the last accepted edit, or by the start where there was none. An entry
    /// among them may have taken what was found for another of the same condition, a marker and a
    /// Python set.
    pub fn judged(&self) -> &[u32]
        ensures { result.now ≡ self.now.judged }
    {
        self.parts.judged.as_slice()
    }
}
