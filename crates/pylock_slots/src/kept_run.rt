//! A run of `select` that is kept for C.

ghost use Rattle.std.specs.Prelude.{◌≡◌, ◌⊎◌, ◌+◌, ◌≤◌, ◌&&◌, IfErr, IfOk, OnOk, length, not};
ghost use Rattle.std.specs.Prelude.{if◌then◌else◌};
ghost use Rattle.pylock_program.specs.Show.{run_shown};
ghost use Rattle.pylock_run.specs.Inner.Editing.{after_input, bytes_text, editing_after};
ghost use Rattle.pylock_run.specs.Inner.Editing.{input_end_text, start};
ghost use Rattle.pylock_run.specs.Report.Run.{most_bytes};
ghost use Rattle.pylock_slots.specs.Run.{PassesALimit, run_refusal};
ghost use Rattle.pylock_slots.specs.declared.refusal.Refusal.TheVariants.{Input, Memory};

use crate::refusal::Refusal;
use pylock_command::Form;
use pylock_core::Session;
use pylock_memory::Printed;
use pylock_program::InForm;
use pylock_run::{Editing, INPUT_BYTES, RunFault, begin_run, end_run, feed_run};
use std::alloc::Global;
use std::marker::Model;

/// What a run edits, in memory of its own, and how many bytes of input it took. Contracts see both.
pub struct KeptRun {
    editing: Box<Editing>,
    total: u64,
}

impl Model for KeptRun {
    ghost use Rattle.std.specs.Prelude.{◌≤◌};
    ghost use Rattle.std.specs.Coded.{codes};
    ghost use Rattle.pylock_run.specs.Report.Run.{most_bytes};
    ghost use Rattle.pylock_run.specs.contracts.report.editing.Editing as editing_contracts;
    ghost use Rattle.pylock_slots.specs.Run.{RunValue};

    ghost Value = { RunValue };

    ghost coded = { Prim.hlevel (codes, editing_contracts.the_row.coded) };

    ghost view = { λ run. record { editing = run.editing.value; total = run.total } };

    ghost invariant = { λ run. run.total ≤ most_bytes };
}

impl Drop for KeptRun {
    fn drop(self) {
        let KeptRun {
            editing: _,
            total: _,
        } = self;
    }
}

impl KeptRun {
    /// Begins a run on the session, and answers what it prints at first.
    pub fn begin(alloc: Global, form: Form, session: Session) -> Result<(KeptRun, Vec<u8>), Refusal>
        ensures run { IfOk result (λ begun. begun.0
            ≡ record { editing = start session.state; total = 0 }) }
        ensures text { IfOk result (λ begun. begun.1.items
            ≡ (run_shown form).answer session.state) }
        ensures refused { IfErr result (λ refusal. refusal ≡ Memory) }
    {
        let mut writer = Printed::new(alloc);
        let printing = InForm::new(alloc, form);
        let editing = match begin_run(alloc, &printing, session, &mut writer) {
            Ok(editing) => editing,
            Err(fault) => return Err(run_refusal(fault)),
        };
        let run = KeptRun {
            editing: Box::new(alloc, editing)?,
            total: 0,
        };
        Ok((run, writer.into_bytes()))
    }

    /// Edits by the next piece of the input, and answers what the lines print that end in it.
    pub fn feed(&mut self, alloc: Global, form: Form, piece: &[u8]) -> Result<Vec<u8>, Refusal>
        ensures run { OnOk result (self.new ≡ record {
          editing = editing_after self.old.editing piece.now;
          total = self.old.total + length piece.now;
        }) }
        ensures text { IfOk result (λ text. text.items
            ≡ bytes_text (run_shown form) self.old.editing piece.now) }
        ensures within { OnOk result (self.old.total + length piece.now ≤ most_bytes) }
        ensures refused { IfErr result (λ refusal. (refusal ≡ Memory) ⊎ ((refusal ≡ Input)
            × PassesALimit self.old piece.now)) }
    {
        if piece.len() as u64 > INPUT_BYTES - self.total {
            return Err(Refusal::Input);
        }
        let mut writer = Printed::new(alloc);
        let printing = InForm::new(alloc, form);
        if let Err(fault) = feed_run(alloc, &printing, &mut self.editing, piece, &mut writer) {
            return Err(run_refusal(fault));
        }
        self.total += piece.len() as u64;
        Ok(writer.into_bytes())
    }

    /// Ends the input, and answers what its last line prints, where it had no LF, and the status.
    pub fn end(&mut self, alloc: Global, form: Form) -> Result<(Vec<u8>, u8), Refusal>
        ensures text { IfOk result (λ ended. ended.0.items
            ≡ input_end_text (run_shown form) self.old.editing) }
        ensures status { IfOk result (λ ended. ended.1
            ≡ (if (after_input self.old.editing).plan
            && not (after_input self.old.editing).refused then 0 else 1)) }
        ensures refused { IfErr result (λ refusal. refusal ≡ Memory) }
    {
        let mut writer = Printed::new(alloc);
        let printing = InForm::new(alloc, form);
        match end_run(alloc, &printing, &mut self.editing, &mut writer) {
            Ok(status) => Ok((writer.into_bytes(), status)),
            Err(fault) => Err(run_refusal(fault)),
        }
    }
}

/// What a fault of a run in memory refuses: a write fails there only where memory is refused.
fn run_refusal(fault: RunFault) -> Refusal
    ensures { result ≡ run_refusal fault }
{
    match fault {
        RunFault::Input => Refusal::Input,
        _ => Refusal::Memory,
    }
}
