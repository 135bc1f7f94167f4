//! `plan` as a bill of materials: standard output has one JSON document of another standard, or
//! nothing; then the fault is told on standard error.

ghost use Rattle.std.specs.Prelude.{◌≡◌, IfOk};
ghost use Rattle.serde_json.specs.View.{members_view};
ghost use Rattle.pylock_core.specs.declared.answer.Answer.TheVariants as answers;
ghost use Rattle.pylock_json.specs.Json.{members_of};
ghost use Rattle.pylock_program.specs.Bill.{answer_billed, bill_rows};
ghost use Rattle.pylock_run.specs.Report.Print.{Prints};

use crate::export::write_fault;
use crate::host::Outputs;
use pylock_bill::{cyclonedx_document, namespace_of, spdx_document};
use pylock_command::BillFormat;
use pylock_core::{Answer, Plan, Session};
use pylock_documents::push_object;
use pylock_json::Object;
use pylock_metadata::dependencies;
use pylock_run::{RunFault, Sink, print, push_answer};
use std::alloc::{AllocError, Global};

/// Writes the bill of materials of an answer, if it is a plan, and answers the status: 1 where it
/// is a fault. `lock` is the text of the lock. It takes memory for the document.
pub(crate) fn write_bill<W: Sink, N: Sink>(
    alloc: Global,
    format: BillFormat<'_>,
    lock: &[u8],
    session: &Session,
    answer: &Answer,
    outputs: &mut Outputs<W, N>,
) -> Result<u8, RunFault>
    ensures { Prints (answer_billed format.entry lock.now session.now.state answer.now)
        (W.value outputs.old.writer) (W.value outputs.new.writer) result }
{
    match answer {
        Answer::Plan(plan) => {
            let document = bill_document(alloc, format, lock, session, (answer, plan))?;
            let mut out = Vec::new(alloc);
            push_object(alloc, &mut out, document)?;
            print(&out, 0, &mut outputs.writer)
        }
        Answer::Fault { .. } => write_fault(alloc, session, answer, outputs),
    }
}

/// The bill of materials of a plan, which is the answer too.
fn bill_document(
    alloc: Global,
    format: BillFormat<'_>,
    lock: &[u8],
    session: &Session,
    answered: (&Answer, &Plan),
) -> Result<Object, AllocError>
    requires { answered.0.now ≡ answers.Plan answered.1.now }
    ensures { IfOk result (λ object. members_view object
        ≡ members_of (bill_rows format.entry lock.now session.now.state answered.entry.1.now)) }
{
    let (answer, plan) = answered;
    let dependencies = dependencies(alloc, lock, session, plan)?;
    match format {
        BillFormat::CycloneDx => cyclonedx_document(alloc, session, plan, &dependencies),
        BillFormat::Spdx(created) => {
            let mut shown = Vec::new(alloc);
            push_answer(&mut shown, session, answer)?;
            let namespace = namespace_of(alloc, created, &shown, lock)?;
            let namespace = namespace.as_str();
            spdx_document(alloc, session, plan, &dependencies, created, namespace)
        }
    }
}
