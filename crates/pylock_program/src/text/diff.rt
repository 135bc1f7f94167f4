//! What changed from one lock to another, a line for each change or a document.

ghost use Rattle.pylock_program.specs.Diff.{changes_report};
ghost use Rattle.pylock_run.specs.Report.Print.{Prints};

use crate::lines::{Line, list_status, print_lines, push_count};
use crate::text::safe::{push_next_labelled, push_next_safe};
use pylock_command::Form;
use pylock_diff::{Change, diff_document};
use pylock_documents::push_document;
use pylock_run::{RunFault, Sink, print};
use std::alloc::{AllocError, Global};

/// Writes changes, `changes K` and a line for each or a document, and answers whether there are
/// any. A line is written as it is made.
pub(crate) fn write_changes<W: Sink>(
    alloc: Global,
    form: Form,
    changes: &[Change],
    writer: &mut W,
) -> Result<u8, RunFault>
    ensures { Prints (changes_report form changes.now)
        (W.value writer.old) (W.value writer.new) result }
{
    let status = list_status(changes);
    let mut out = Vec::new(alloc);
    if matches!(form, Form::Json) {
        push_document(alloc, &mut out, diff_document(alloc, changes)?)?;
        return print(&out, status, writer);
    }
    push_count(&mut out, "changes", changes.len())?;
    print_lines(out, changes, status, writer)
}

impl Line for Change {
    ghost use Rattle.pylock_program.specs.Text.Diff.{change_line};

    ghost line = { change_line };

    fn push(&self, out: &mut Vec<u8>) -> Result<(), AllocError> {
        out.extend_from_slice(self.kind().word().as_bytes())?;
        push_next_safe(out, self.name())?;
        push_next_labelled(out, self.from())?;
        push_next_labelled(out, self.to())?;
        out.push(b'\n')?;
        Ok(())
    }
}
