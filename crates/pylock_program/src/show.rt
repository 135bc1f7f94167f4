//! What `plan` and `explain` show of a lock on a machine.

ghost use Rattle.std.specs.Prelude.{◌≡◌, ◌++◌, IfOk, OnOk};
ghost use Rattle.pylock_core.specs.Session.Steps.{answer as answer_of};
ghost use Rattle.pylock_program.specs.Inner.Machine.{machine_read};
ghost use Rattle.pylock_program.specs.Program.{Opens, OpensMachine, RepliesTelling};
ghost use Rattle.pylock_program.specs.Refusal.{PrintsTelling};
ghost use Rattle.pylock_program.specs.Show.{answer_report, output_form, output_report};
ghost use Rattle.pylock_program.specs.Show.{question_report, shown as shown_in, shown_report};
ghost use Rattle.pylock_program.specs.Show.{view_report, view_shown};
ghost use Rattle.pylock_run.specs.Report.{is_plan};
ghost use Rattle.pylock_run.specs.Report.Print.{Prints};

use crate::bill::write_bill;
use crate::diagnostics::fault::tell_fault;
use crate::diagnostics::left::tell_left_out;
use crate::diagnostics::options::tell_options;
use crate::export::write_plan_export;
use crate::failure::{Failure, program_end};
use crate::file::{Inputs, read_bytes, read_machine};
use crate::host::{Host, Outputs};
use crate::left::left_answer;
use crate::opening::open_question;
use crate::refusal::write_refusal;
use crate::text::explain::push_explanation;
use pylock_command::{Form, Output, Question, View};
use pylock_core::{Answer, Session};
use pylock_documents::{explain_document, plan_document, push_document};
use pylock_run::{Files, RunFault, Sink, Source, print, push_answer};
use std::alloc::{AllocError, Global};
use std::mem;

/// Answers `plan` or `explain` on the lock and the environment of a question.
pub(crate) fn answer_question<F: Files, R: Source, W: Sink, N: Sink>(
    alloc: Global,
    question: &Question<'_>,
    host: &mut Host<F, R, W, N>,
) -> Result<u8, Failure>
    ensures { Opens (F.read_gives host.old.files) question.now.opening.lock.now
        (λ lock. OpensMachine (F.read_gives host.old.files) question.now.opening.machine
        (λ read. RepliesTelling (λ diagnostic. question_report question.now diagnostic lock read)))
        (R.value host.old.reader) (R.value host.new.reader)
        (W.value host.old.outputs.writer) (W.value host.new.outputs.writer) result }
{
    let lock = read_bytes(alloc, host, question.opening.lock)?;
    let machine = read_machine(alloc, host, question.opening.machine)?;
    let inputs = Inputs {
        lock: &lock,
        machine: &machine,
    };
    program_end(write_answer(alloc, question, inputs, &mut host.outputs))
}

/// Writes what is asked for of the lock on the machine after the options, and answers the status: 0
/// where the answer is a plan, 1 where it is a fault or an option is refused, 2 where the lock or
/// the environment is refused, or of a strict question findings stand in the lock, which are
/// written then.
///
/// To the notes it writes a line for a person on each option that may not do what it seems to, on
/// what is refused and, of `plan`, on the fault. A document tells the line on a refusal too, and
/// where that points, which no clause pins.
///
/// It takes memory for the session, for the edits of one option at a time, and for what it writes:
/// of `explain` for what becomes of each entry, and for one reason at a time.
#[tactic(auto, using(crate::proofs::OpeningLemmas::refused))]
fn write_answer<W: Sink, N: Sink>(
    alloc: Global,
    question: &Question<'_>,
    inputs: Inputs<'_>,
    outputs: &mut Outputs<W, N>,
) -> Result<u8, RunFault>
    ensures { PrintsTelling (λ diagnostic. question_report question.now diagnostic
        inputs.entry.lock.now.bytes.items (machine_read inputs.entry.machine.now))
        (W.value outputs.old.writer) (W.value outputs.new.writer) result }
{
    match open_question(alloc, question, inputs) {
        Ok(session) => {
            let end = write_output(alloc, question, &inputs.lock.bytes, &session, outputs);
            if outputs.ends_process {
                mem::forget(session);
            }
            end
        }
        Err(refusal) => write_refusal(alloc, output_form(question.output), refusal, outputs),
    }
}

/// The form in which a refusal is printed; none where the answer would be for another tool.
fn output_form(output: Output<'_>) -> Option<Form>
    ensures { result ≡ output_form output.entry }
{
    match output {
        Output::View(_, form) => Some(form),
        Output::Tool(_, _) | Output::Bill(_) => None,
    }
}

/// Writes what is asked for of the session after the options. `lock` is the text of the lock.
fn write_output<W: Sink, N: Sink>(
    alloc: Global,
    question: &Question<'_>,
    lock: &[u8],
    session: &Session,
    outputs: &mut Outputs<W, N>,
) -> Result<u8, RunFault>
    ensures { Prints (output_report question.now.options.items question.now.output lock.now
        session.now.state)
        (W.value outputs.old.writer) (W.value outputs.new.writer) result }
{
    let answer = session.answer()?;
    let (answer, left_out) = left_answer(&question.options, session, answer);
    let end = write_left(alloc, question.output, lock, session, &answer, outputs);
    if end.is_ok() {
        tell_answer(alloc, &mut outputs.diagnostics, question, session, &answer);
        tell_left_out(alloc, &mut outputs.diagnostics, "plan", left_out);
    }
    end
}

/// Writes an answer, as it is asked for.
fn write_left<W: Sink, N: Sink>(
    alloc: Global,
    output: Output<'_>,
    lock: &[u8],
    session: &Session,
    answer: &Answer,
    outputs: &mut Outputs<W, N>,
) -> Result<u8, RunFault>
    ensures { Prints (answer_report output.entry lock.now session.now.state answer.now)
        (W.value outputs.old.writer) (W.value outputs.new.writer) result }
{
    match output {
        Output::View(view, form) => write_shown(
            alloc,
            (view, form),
            session,
            answer,
            &mut outputs.writer,
        ),
        Output::Tool(format, base) => {
            write_plan_export(alloc, format, base, session, answer, outputs)
        }
        Output::Bill(format) => write_bill(alloc, format, lock, session, answer, outputs),
    }
}

/// Tells what the options may not do as they seem to, and of `plan` where a fault is, and why.
fn tell_answer<N: Sink>(
    alloc: Global,
    diagnostics: &mut N,
    question: &Question<'_>,
    session: &Session,
    answer: &Answer,
) {
    tell_options(alloc, diagnostics, session, &question.options);
    if matches!(question.output, Output::View(View::Explain, _)) {
        return;
    }
    if let Answer::Fault { id, code } = answer {
        tell_fault(
            alloc,
            diagnostics,
            question.opening.machine,
            session,
            (*id, *code),
        );
    }
}

/// Writes the view of the session in the form, with the answer as it stands.
pub(crate) fn write_view<W: Sink>(
    alloc: Global,
    shown: (View, Form),
    session: &Session,
    answer: &Answer,
    writer: &mut W,
) -> Result<u8, RunFault>
    requires { answer.now ≡ answer_of session.now.state }
    ensures { Prints (view_report shown.0 shown.1 session.now.state)
        (W.value writer.old) (W.value writer.new) result }
{
    write_shown(alloc, shown, session, answer, writer)
}

/// Writes an answer, or what becomes of each entry of the session, in the form.
fn write_shown<W: Sink>(
    alloc: Global,
    shown: (View, Form),
    session: &Session,
    answer: &Answer,
    writer: &mut W,
) -> Result<u8, RunFault>
    ensures { Prints (shown_report shown.0 shown.1 session.now.state answer.now)
        (W.value writer.old) (W.value writer.new) result }
{
    let mut out = Vec::new(alloc);
    push_answered(alloc, &mut out, shown, session, answer)?;
    let status = if matches!(answer, Answer::Plan(_)) {
        0
    } else {
        1
    };
    print(&out, status, writer)
}

/// Pushes what `plan` or `explain` prints of the session as it stands, and answers whether its
/// answer is a plan. It changes nothing, and takes memory for the answer, for what becomes of each
/// entry where that is asked for, and for a document.
pub fn push_view(
    alloc: Global,
    out: &mut Vec<u8>,
    view: View,
    form: Form,
    session: &Session,
) -> Result<bool, AllocError>
    ensures plan { IfOk result (λ plan. plan ≡ is_plan (answer_of session.now.state)) }
    ensures text { OnOk result (out.new.items
        ≡ out.old.items ++ view_shown view form session.now.state) }
{
    let answer = session.answer()?;
    push_answered(alloc, out, (view, form), session, &answer)?;
    Ok(matches!(answer, Answer::Plan(_)))
}

/// Pushes an answer, or what becomes of each entry of the session, in the form.
fn push_answered(
    alloc: Global,
    out: &mut Vec<u8>,
    shown: (View, Form),
    session: &Session,
    answer: &Answer,
) -> Result<(), AllocError>
    ensures { OnOk result (out.new.items
        ≡ out.old.items ++ shown_in shown.0 shown.1 session.now.state answer.now) }
{
    match shown {
        (View::Plan, Form::Lines) => push_answer(out, session, answer),
        (View::Explain, Form::Lines) => push_explanation(alloc, out, session),
        (View::Plan, Form::Json) => {
            push_document(alloc, out, plan_document(alloc, session, answer)?)
        }
        (View::Explain, Form::Json) => {
            push_document(alloc, out, explain_document(alloc, session)?)
        }
    }
}
