//! How a run prints.

ghost use Rattle.std.specs.Prelude.{◌≡◌, ◌++◌, OnOk};
ghost use Rattle.pylock_core.specs.Session.Steps.{answer as answer_of};
ghost use Rattle.pylock_run.specs.Report.{Shown, as_lines};

use crate::line::refusal::LineRefusal;
use crate::report::opening::OpenError;
use crate::text::plan::push_answer;
use crate::text::refusal::{push_line_refusal, push_refusal};
use pylock_core::{Answer, Session};
use std::alloc::AllocError;

/// How a run prints its answers and refusals: each is pushed behind what stands in `out`.
pub trait Printing {
    ghost shown: { Self → Shown };

    /// Pushes the answer on the state of its session.
    fn push_answer(
        &self,
        out: &mut Vec<u8>,
        session: &Session,
        answer: &Answer,
    ) -> Result<(), AllocError>
        requires { answer.now ≡ answer_of session.now.state }
        ensures { OnOk result (out.new.items
            ≡ out.old.items ++ (shown self.now).answer session.now.state) };

    /// Pushes the refusal of a line, whose number counts from 1.
    fn push_line_refusal(
        &self,
        out: &mut Vec<u8>,
        number: u64,
        refusal: LineRefusal,
    ) -> Result<(), AllocError>
        ensures { OnOk result (out.new.items
            ≡ out.old.items ++ (shown self.now).line number refusal) };

    /// Pushes the refusal of a lock or of an environment. Out of memory is never asked for.
    fn push_refusal(&self, out: &mut Vec<u8>, refusal: &OpenError) -> Result<(), AllocError>
        ensures { OnOk result (out.new.items
            ≡ out.old.items ++ (shown self.now).unopened refusal.now) };
}

/// Lines of fields.
#[derive(Clone, Copy, Debug, PartialEq, Eq)]
pub struct Lines;

impl Printing for Lines {
    ghost shown = { λ _. as_lines };

    fn push_answer(
        &self,
        out: &mut Vec<u8>,
        session: &Session,
        answer: &Answer,
    ) -> Result<(), AllocError> {
        push_answer(out, session, answer)
    }

    fn push_line_refusal(
        &self,
        out: &mut Vec<u8>,
        number: u64,
        refusal: LineRefusal,
    ) -> Result<(), AllocError> {
        push_line_refusal(out, number, refusal)
    }

    fn push_refusal(&self, out: &mut Vec<u8>, refusal: &OpenError) -> Result<(), AllocError> {
        push_refusal(out, refusal)
    }
}
