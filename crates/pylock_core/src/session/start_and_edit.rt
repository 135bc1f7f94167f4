//! What starts a session and what edits it, with the list of what each judges. They alone make such
//! a list, and nothing takes from one, so no judgement goes untold.

ghost use Rattle.std.specs.Prelude.{◌≡◌, ◌++◌, ◌∷◌, [], IfOk, OnOk, length};
ghost use Rattle.pylock_core.specs.Inner.Editing.{Leaves};
ghost use Rattle.pylock_core.specs.Inner.Parts.{IsSession, state_of};
ghost use Rattle.pylock_core.specs.Session.Judgement.{all_numbers};
ghost use Rattle.pylock_core.specs.Session.State.{first};

use crate::edit::{Edit, EditError};
use crate::session::editing::entries::{add_entry, append_entry, delete_entry, put_entry};
use crate::session::editing::environment::{edit_environment, edit_names};
use crate::session::editing::policies::{give_policies, give_policy, set_tags};
use crate::session::parts::Parts;
use pylock_readers::Lock;
use pymark_core::Environment;
use pywheel_core::TagList;
use std::alloc::{AllocError, Global};
use std::marker::Model;
use std::mem;

/// The numbers that were judged, in turn: 0 for the head.
pub(crate) struct Judged {
    numbers: Vec<u32>,
}

impl Model for Judged {
    ghost use Rattle.std.specs.Prelude.{List, ℕ};

    ghost Value = { List ℕ };

    ghost view = { λ j. j.numbers.items };
}

impl Drop for Judged {
    fn drop(self) {
        let Judged { numbers: _ } = self;
    }
}

impl Judged {
    /// Nothing yet.
    fn nothing(alloc: Global) -> Judged
        ensures { result ≡ [] }
    {
        Judged {
            numbers: Vec::new(alloc),
        }
    }

    /// Reserves capacity for so many more numbers.
    pub(crate) fn reserve(&mut self, more: usize) -> Result<(), AllocError>
        ensures { self.new ≡ self.old }
    {
        self.numbers.reserve(more)?;
        Ok(())
    }

    /// Tells one more number.
    pub(crate) fn push(&mut self, number: u32) -> Result<(), AllocError>
        ensures { OnOk result (self.new ≡ self.old ++ number ∷ []) }
    {
        self.numbers.push(number)?;
        Ok(())
    }

    /// The numbers.
    pub(crate) fn as_slice(&self) -> &[u32]
        ensures { result.now ≡ self.now }
    {
        self.numbers.as_slice()
    }
}

/// The parts of a session on the lock.
pub(crate) fn start_parts(
    alloc: Global,
    lock: Lock,
    environment: Environment,
    tags: TagList,
) -> Result<Parts, AllocError>
    ensures session { IfOk result (λ parts. IsSession parts) }
    ensures state { IfOk result (λ parts. state_of parts ≡ first lock environment tags) }
    ensures judged { IfOk result (λ parts. parts.judged ≡ all_numbers (state_of parts)) }
{
    let (head, entries) = lock.into_parts();
    let judged = Judged::nothing(alloc);
    let mut parts = Parts::without_entries(alloc, head, environment, tags, entries.len(), judged)?;
    let mut judged = mem::replace(&mut parts.judged, Judged::nothing(alloc));
    for entry in entries {
        append_entry(&mut parts, entry, &mut judged)?;
    }
    parts.judged = judged;
    Ok(parts)
}

/// Makes an edit, and answers how many judgements it made.
pub(crate) fn edit_parts(parts: &mut Parts, edit: Edit) -> Result<u64, EditError>
    requires { IsSession parts.old }
    ensures session { IsSession parts.new }
    ensures left { Leaves edit parts.old parts.new [] parts.new.judged result }
    ensures count { IfOk result (λ judgements. judgements ≡ length parts.new.judged) }
{
    let mut judged = Judged::nothing(parts.alloc);
    make_edit(parts, edit, &mut judged)?;
    parts.judged = judged;
    Ok(parts.judged.as_slice().len() as u64)
}

/// Makes an edit, of whichever kind.
fn make_edit(parts: &mut Parts, edit: Edit, judged: &mut Judged) -> Result<(), EditError>
    requires { IsSession parts.old }
    ensures session { IsSession parts.new }
    ensures left { Leaves edit parts.old parts.new judged.old judged.new result }
{
    match edit {
        Edit::Environment(change) => edit_environment(parts, change, judged),
        Edit::Names(change, names) => edit_names(parts, change, names, judged),
        Edit::Tags(tags) => set_tags(parts, tags, judged),
        Edit::Add(entry) => add_entry(parts, entry, judged),
        Edit::Put(number, entry) => put_entry(parts, number, entry, judged),
        Edit::Del(number) => delete_entry(parts, number),
        Edit::Policy(name, policy) => give_policy(parts, name, policy, judged),
        Edit::Policies(names, policy) => give_policies(parts, names, policy, judged),
    }
}
