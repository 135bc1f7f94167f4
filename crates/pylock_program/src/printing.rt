//! How a run prints: lines, or JSON documents.

ghost use Rattle.std.specs.Prelude.{◌≡◌};
ghost use Rattle.pylock_program.specs.Show.{as_documents};

use crate::text::json::{push_line_refusal_json, push_refusal_json};
use pylock_command::Form;
use pylock_core::{Answer, Session};
use pylock_documents::{plan_document, push_document};
use pylock_run::{LineRefusal, Lines, OpenError, Printing};
use std::alloc::{AllocError, Global};

/// Documents, each on a line, which take memory from `alloc`.
#[derive(Clone, Copy)]
pub(crate) struct Documents {
    pub(crate) alloc: Global,
}

impl Printing for Documents {
    ghost shown = { λ _. as_documents };

    fn push_answer(
        &self,
        out: &mut Vec<u8>,
        session: &Session,
        answer: &Answer,
    ) -> Result<(), AllocError> {
        let document = plan_document(self.alloc, session, answer)?;
        push_document(self.alloc, out, document)
    }

    fn push_line_refusal(
        &self,
        out: &mut Vec<u8>,
        number: u64,
        refusal: LineRefusal,
    ) -> Result<(), AllocError> {
        push_line_refusal_json(self.alloc, out, number, refusal)
    }

    fn push_refusal(&self, out: &mut Vec<u8>, refusal: &OpenError) -> Result<(), AllocError> {
        push_refusal_json(self.alloc, out, refusal, None)
    }
}

/// Either, as a form says.
#[derive(Clone, Copy)]
pub struct InForm {
    alloc: Global,
    form: Form,
}

impl InForm {
    /// Printing in this form; what is printed takes memory from `alloc`.
    pub fn new(alloc: Global, form: Form) -> InForm
        ensures { result.form ≡ form }
    {
        InForm { alloc, form }
    }
}

impl Printing for InForm {
    ghost use Rattle.pylock_program.specs.Show.{run_shown};

    ghost shown = { λ printing. run_shown printing.form };

    fn push_answer(
        &self,
        out: &mut Vec<u8>,
        session: &Session,
        answer: &Answer,
    ) -> Result<(), AllocError> {
        match self.form {
            Form::Lines => Lines.push_answer(out, session, answer),
            Form::Json => Documents { alloc: self.alloc }.push_answer(out, session, answer),
        }
    }

    fn push_line_refusal(
        &self,
        out: &mut Vec<u8>,
        number: u64,
        refusal: LineRefusal,
    ) -> Result<(), AllocError> {
        match self.form {
            Form::Lines => Lines.push_line_refusal(out, number, refusal),
            Form::Json => Documents { alloc: self.alloc }.push_line_refusal(out, number, refusal),
        }
    }

    fn push_refusal(&self, out: &mut Vec<u8>, refusal: &OpenError) -> Result<(), AllocError> {
        match self.form {
            Form::Lines => Lines.push_refusal(out, refusal),
            Form::Json => Documents { alloc: self.alloc }.push_refusal(out, refusal),
        }
    }
}
