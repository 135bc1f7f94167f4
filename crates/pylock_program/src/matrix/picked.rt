//! The files that the targets of a matrix take, in each form that `files` has.

ghost use Rattle.std.specs.Prelude.{◌≡◌, ◌++◌, OnOk};
ghost use Rattle.pylock_program.specs.Matrix.{picked_report, picked_shown};
ghost use Rattle.pylock_run.specs.Report.Print.{Prints};

use crate::export::write_picks_export;
use crate::host::Outputs;
use crate::text::files::push_picked;
use pylock_command::{FilesOutput, Form};
use pylock_core::{Pick, Plan, Session};
use pylock_documents::{picked_document, push_document};
use pylock_run::{RunFault, Sink, print};
use std::alloc::{AllocError, Global};

/// Writes the files that picks name, and answers this status, or 1 where a form can't hold them.
pub(crate) fn write_picked<W: Sink, N: Sink>(
    alloc: Global,
    output: FilesOutput<'_>,
    session: &Session,
    picks: Vec<Pick>,
    status: u8,
    outputs: &mut Outputs<W, N>,
) -> Result<u8, RunFault>
    ensures { Prints (picked_report output.entry status session.now.state picks.items)
        (W.value outputs.old.writer) (W.value outputs.new.writer) result }
{
    match output {
        FilesOutput::Shown(form) => {
            let mut out = Vec::new(alloc);
            push_picked_in(alloc, &mut out, form, session, &picks)?;
            print(&out, status, &mut outputs.writer)
        }
        FilesOutput::Tool(format, base) => {
            let plan = Plan::new(picks);
            write_picks_export(alloc, (format, base), session, &plan, status, outputs)
        }
    }
}

/// Pushes the files that picks name in a form.
fn push_picked_in(
    alloc: Global,
    out: &mut Vec<u8>,
    form: Form,
    session: &Session,
    picks: &[Pick],
) -> Result<(), AllocError>
    ensures { OnOk result (out.new.items
        ≡ out.old.items ++ picked_shown form session.now.state picks.now) }
{
    match form {
        Form::Lines => push_picked(out, session, picks),
        Form::Json => push_document(alloc, out, picked_document(alloc, session, picks)?),
    }
}
