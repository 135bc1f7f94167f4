//! The editing of a session by the bytes of the input, in whatever pieces they come.

ghost use Rattle.std.specs.Prelude.{◌≡◌, ◌++◌, ◌<◌, ◌≤◌, ◌+◌, not, ◌&&◌, if◌then◌else◌, length};
ghost use Rattle.std.specs.Prelude.{take, OnOk, IfOk, IfErr, OnErr};
ghost use Rattle.pylock_core.specs.Session.Steps.{answer};
ghost use Rattle.pytext.specs.Agreement.{Gives};
ghost use Rattle.pylock_run.specs.Report.{is_plan, after_line};
ghost use Rattle.pylock_run.specs.Report.Run.{most_lines};
ghost use Rattle.pylock_run.specs.Inner.Editing.{start, kept_part, end_line, end_text};
ghost use Rattle.pylock_run.specs.Inner.Editing.{editing_after, bytes_text, after_input};
ghost use Rattle.pylock_run.specs.Inner.Editing.{input_end_text, lines_begun};
ghost use Rattle.pylock_run.specs.Inner.Faults.{IsTakeFault};

use crate::line::commands::Command;
use crate::line::refusal::LineRefusal;
use crate::line::{LINE_LIMIT, read_line};
use crate::report::fault::RunFault;
use crate::report::printing::Printing;
use memchr::memchr;
use pylock_core::{Answer, Session};
use std::alloc::{AllocError, Global};
use std::marker::Model;

/// The most lines that an input has.
pub const LINES: u64 = 1_000_000;

/// A session, and how far its editing has come.
pub struct Editing {
    alloc: Global,
    session: Session,
    /// Whether the last answer was a plan.
    plan: bool,
    /// How many lines are complete.
    complete: u64,
    /// Whether one of them was refused.
    refused: bool,
    /// What is kept of the line that is being read: of one that is too long, `LINE_LIMIT + 1`
    /// bytes.
    line: Vec<u8>,
}

impl Model for Editing {
    ghost use Rattle.std.specs.Prelude.{◌≤◌, ◌+◌, min, vec_len};
    ghost use Rattle.std.specs.Cmp.Lexicographic.{slice_cmp};
    ghost use Rattle.std.specs.Coded.{codes, coded_list, coded_ℕ};
    ghost use Rattle.std.specs.FinMap as map_of;
    ghost use Rattle.std.specs.Ordering.{nat_cmp};
    ghost use Rattle.pymark_core.specs.Environment.{environment_code};
    ghost use Rattle.pymark_core.specs.Marker.Coding.{marker_code};
    ghost use Rattle.pylock_core.specs.contracts.edit.Policy as policy;
    ghost use Rattle.pylock_run.specs.Inner.Editing.{EditingValue};
    ghost use Rattle.pylock_run.specs.Line.{line_limit};
    ghost use Rattle.pylock_run.specs.Report.Run.{most_lines};

    ghost Value = { EditingValue };

    ghost coded = { Prim.hlevel (
      codes,
      marker_code,
      environment_code,
      map_of.code {R = slice_cmp nat_cmp} (coded_list coded_ℕ) policy.the_row.coded,
    ) };

    ghost view = { λ e. record {
      state = e.session.state;
      plan = e.plan;
      complete = e.complete;
      refused = e.refused;
      line = e.line.items;
    } };

    ghost invariant = { λ e. (vec_len e.line ≤ line_limit + 1)
        × (e.complete + min 1 (vec_len e.line) ≤ most_lines) };
}

impl Drop for Editing {
    fn drop(self) {
        let Editing {
            alloc: _,
            session: _,
            plan: _,
            complete: _,
            refused: _,
            line: _,
        } = self;
    }
}

impl Editing {
    /// Pushes the first answer.
    pub fn start<P: Printing>(
        alloc: Global,
        printing: &P,
        session: Session,
        out: &mut Vec<u8>,
    ) -> Result<Editing, AllocError>
        ensures editing { IfOk result (λ editing. editing ≡ start session.state) }
        ensures text { OnOk result (out.new.items
            ≡ out.old.items ++ (P.shown printing.now).answer session.state) }
    {
        let plan = push_standing_answer(printing, &session, out)?;
        Ok(Editing {
            alloc,
            session,
            plan,
            complete: 0,
            refused: false,
            line: Vec::new(alloc),
        })
    }

    /// Takes the bytes up to the first LF and that LF, or all bytes where there is none, and
    /// answers how many. Where a line ends, what it prints is pushed.
    pub fn take_bytes<P: Printing>(
        &mut self,
        printing: &P,
        bytes: &[u8],
        out: &mut Vec<u8>,
    ) -> Result<usize, RunFault>
        requires { 0 < length bytes.now }
        ensures some { IfOk result (λ count. (0 < count) × (count ≤ length bytes.now)) }
        ensures editing { IfOk result (λ count. self.new
            ≡ editing_after self.old (take count bytes.now)) }
        ensures text { IfOk result (λ count. out.new.items
            ≡ out.old.items
            ++ bytes_text (P.shown printing.now) self.old (take count bytes.now)) }
        ensures fault { IfErr result (IsTakeFault self.old.complete) }
    {
        if self.complete == LINES {
            return Err(RunFault::Input);
        }
        match memchr(b'\n', bytes) {
            Some(position) => {
                self.keep_bytes(&bytes[..position])?;
                self.end_line(printing, out)?;
                Ok(position + 1)
            }
            None => {
                self.keep_bytes(bytes)?;
                Ok(bytes.len())
            }
        }
    }

    /// The end of the input, where a line without LF counts if it is not empty.
    pub fn finish_input<P: Printing>(
        &mut self,
        printing: &P,
        out: &mut Vec<u8>,
    ) -> Result<(), AllocError>
        ensures editing { OnOk result (self.new ≡ after_input self.old) }
        ensures text { OnOk result (out.new.items
            ≡ out.old.items ++ input_end_text (P.shown printing.now) self.old) }
        ensures within { lines_begun self.old ≤ most_lines }
    {
        if self.line.is_empty() {
            return Ok(());
        }
        self.end_line(printing, out)
    }

    /// The status of the run: 0 where the last answer was a plan and no line was refused.
    pub fn status(&self) -> u8
        ensures { result ≡ (if self.now.plan && not self.now.refused then 0 else 1) }
    {
        if self.plan && !self.refused { 0 } else { 1 }
    }

    /// Keeps more bytes of the line, as far as they are needed to tell that it is too long.
    #[tactic(auto, using(crate::proofs::EditingLemmas::kept_part_capacity))]
    fn keep_bytes(&mut self, bytes: &[u8]) -> Result<(), AllocError>
        requires { self.old.complete < most_lines }
        ensures { OnOk result (self.new
            ≡ record self.old { line = kept_part (self.old.line ++ bytes.now) }) }
    {
        let capacity = LINE_LIMIT + 1 - self.line.len();
        let count = bytes.len().min(capacity);
        self.line.extend_from_slice(&bytes[..count])
    }

    /// Ends the line, and pushes the answer after it or its refusal.
    #[tactic(auto, unfolding(crate::specs::Inner::Editing::end_line))]
    fn end_line<P: Printing>(&mut self, printing: &P, out: &mut Vec<u8>) -> Result<(), AllocError>
        requires { self.old.complete < most_lines }
        ensures editing { OnOk result (self.new ≡ end_line self.old) }
        ensures text { OnOk result (out.new.items
            ≡ out.old.items ++ end_text (P.shown printing.now) self.old) }
    {
        let outcome = obey_line(self.alloc, &mut self.session, &self.line);
        self.complete += 1;
        self.line.clear();
        match outcome {
            Ok(()) => self.plan = push_standing_answer(printing, &self.session, out)?,
            Err(LineRefusal::Memory) => return Err(AllocError),
            Err(refusal) => {
                self.refused = true;
                printing.push_line_refusal(out, self.complete, refusal)?;
            }
        }
        Ok(())
    }
}

/// Does what the line says.
#[tactic(auto, unfolding(crate::specs::Report::after_line))]
fn obey_line(alloc: Global, session: &mut Session, line: &[u8]) -> Result<(), LineRefusal>
    ensures obeyed { Gives LineRefusal.Memory (λ _. session.new.state) result
        (after_line session.old.state line.now) }
    ensures unchanged { OnErr result (session.new ≡ session.old) }
{
    match read_line(alloc, line)? {
        Command::Show => {}
        Command::Edit(edit) => {
            session.edit(edit)?;
        }
    }
    Ok(())
}

/// Pushes the answer as it stands, and answers whether it is a plan.
fn push_standing_answer<P: Printing>(
    printing: &P,
    session: &Session,
    out: &mut Vec<u8>,
) -> Result<bool, AllocError>
    ensures plan { IfOk result (λ plan. plan ≡ is_plan (answer session.now.state)) }
    ensures text { OnOk result (out.new.items
        ≡ out.old.items ++ (P.shown printing.now).answer session.now.state) }
{
    let answer = session.answer()?;
    printing.push_answer(out, session, &answer)?;
    Ok(matches!(answer, Answer::Plan(_)))
}
