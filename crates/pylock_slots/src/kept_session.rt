//! A session that is kept for C.

ghost use Rattle.std.specs.Prelude.{◌≡◌, IfOk, OnErr};
ghost use Rattle.pytext.specs.Agreement.{Gives};
ghost use Rattle.pylock_run.specs.declared.line.refusal.LineRefusal.TheVariants as line;
ghost use Rattle.pylock_slots.specs.Sessions.{session_after, session_after_names};

use pylock_core::{Edit, NameChange, Policy, Session};
use pylock_run::{Command, LineRefusal};
use pyver_core::NormalName;
use std::alloc::{AllocError, Global};
use std::marker::Model;

/// What an edit does with several names.
#[derive(Clone, Copy)]
pub enum NamesEdit {
    /// It changes the extras or the groups that are asked for.
    Change(NameChange),
    /// It gives each the policy.
    Policy(Policy),
}

/// A session in memory of its own. It is some times as large as any other object, each of which
/// would be kept in as much memory. Contracts see the session.
pub struct KeptSession {
    session: Box<Session>,
}

impl Model for KeptSession {
    ghost use Rattle.std.specs.Coded.{codes};
    ghost use Rattle.pylock_core.specs.Session.Judgement.{SessionValue};
    ghost use Rattle.pylock_core.specs.contracts.session.Session as session_contracts;

    ghost Value = { SessionValue };

    ghost coded = { Prim.hlevel (codes, session_contracts.the_row.coded) };

    ghost view = { λ kept. kept.session.value };
}

impl Drop for KeptSession {
    fn drop(self) {
        let KeptSession { session: _ } = self;
    }
}

impl KeptSession {
    /// This session. It takes memory for it.
    pub fn new(alloc: Global, session: Session) -> Result<KeptSession, AllocError>
        ensures { IfOk result (λ kept. kept ≡ session) }
    {
        let session = Box::new(alloc, session)?;
        Ok(KeptSession { session })
    }

    /// The session.
    pub fn get(&self) -> &Session
        ensures { result.now ≡ self.now }
    {
        &self.session
    }

    /// Obeys the command, and answers how many judgements that made.
    pub fn obey_command(&mut self, command: Command) -> Result<u64, LineRefusal>
        ensures ok { Gives line.Memory (λ judgements. (self.new, judgements)) result
            (session_after self.old command) }
        ensures err { OnErr result (self.new ≡ self.old) }
    {
        match command {
            Command::Show => Ok(0),
            Command::Edit(edit) => Ok(self.session.edit(edit)?),
        }
    }

    /// Edits these names, and answers how many judgements that made.
    pub fn edit_names(
        &mut self,
        edit: NamesEdit,
        names: Vec<NormalName>,
    ) -> Result<u64, LineRefusal>
        ensures ok { Gives line.Memory (λ judgements. (self.new, judgements)) result
            (session_after_names edit names.items self.old) }
        ensures err { OnErr result (self.new ≡ self.old) }
    {
        let edit = match edit {
            NamesEdit::Change(change) => Edit::Names(change, names),
            NamesEdit::Policy(policy) => Edit::Policies(names, policy),
        };
        Ok(self.session.edit(edit)?)
    }
}
