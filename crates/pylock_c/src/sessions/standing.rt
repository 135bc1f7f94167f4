//! What is told of a session as it stands.

ghost use Rattle.std.specs.Prelude.{◌≡◌, ◌++◌, IfOk, OnOk, Some, decimal, map};
ghost use Rattle.pytext.specs.Agreement.{Gives};
ghost use Rattle.pylock_core.specs.Session.Steps.{answer as answer_of};
ghost use Rattle.pylock_run.specs.Report.{is_plan};
ghost use Rattle.pylock_run.specs.Text.Field.{fields_text};
ghost use Rattle.pylock_command.specs.declared.task.View.TheVariants.{Explain, Plan};
ghost use Rattle.pylock_slots.specs.Answer.{Tells};
ghost use Rattle.pylock_c.specs.Sessions.{answer_lines, judged_in, numbers_text, picks_in};
ghost use Rattle.pylock_slots.specs.Sessions.{form_of, shown_in};
ghost use Rattle.pylock_slots.specs.Slot.{kept_object, object};
ghost use Rattle.pylock_slots.specs.declared.refusal.Refusal.TheVariants.{Memory};

use pylock_core::{Answer, Session};
use pylock_documents::fault_detail;
use pylock_program::View;
use pylock_run::push_decimal;
use pylock_slots::{
    Bytes, Object, Refusal, Slot, form_of, keep_object, keep_with, session_in, show_session,
};
use pylock_values::{push_fault, push_picks};
use std::alloc::{AllocError, Global};

/// The answer of a session as it stands.
#[unsafe(no_mangle)]
pub extern "C" fn pylock_session_answer(
    alloc: Global,
    session: &mut Slot,
    json: bool,
    out: &mut Slot,
    is_plan: &mut bool,
) -> i32
    ensures kept { object session.new ≡ object session.old }
    ensures told { Tells (shown_in Plan (form_of json) (object session.old))
        (object out.old, is_plan.old) (object out.new, is_plan.new) result }
{
    show_session(alloc, View::Plan, form_of(json), session, out, is_plan)
}

/// What becomes of the head and of each entry of a session.
#[unsafe(no_mangle)]
pub extern "C" fn pylock_session_explain(
    alloc: Global,
    session: &mut Slot,
    json: bool,
    out: &mut Slot,
    is_plan: &mut bool,
) -> i32
    ensures kept { object session.new ≡ object session.old }
    ensures told { Tells (shown_in Explain (form_of json) (object session.old))
        (object out.old, is_plan.old) (object out.new, is_plan.new) result }
{
    show_session(alloc, View::Explain, form_of(json), session, out, is_plan)
}

/// Pushes a line for each pick of the answer, or the line of its fault, and answers whether it is a
/// plan.
fn push_answer(alloc: Global, out: &mut Vec<u8>, session: &Session) -> Result<bool, AllocError>
    ensures plan { IfOk result (λ plan. plan ≡ is_plan (answer_of session.now.state)) }
    ensures text { OnOk result (out.new.items ≡ out.old.items
        ++ answer_lines session.now.state (answer_of session.now.state)) }
{
    match session.answer()? {
        Answer::Plan(plan) => {
            push_picks(out, session, plan.picks())?;
            Ok(true)
        }
        Answer::Fault { id, code } => {
            let detail = fault_detail(alloc, session, id, code)?;
            push_fault(out, session, id, code, detail.as_deref())?;
            Ok(false)
        }
    }
}

/// The lines of a session's answer, and whether it is a plan.
fn picks_in(alloc: Global, kept: &Option<Box<Object>>) -> Result<(Object, bool), Refusal>
    ensures { Gives Memory (λ told. (Some told.0, told.1)) result
        (picks_in (kept_object kept.now)) }
{
    let session = session_in(kept)?;
    let mut text = Vec::new(alloc);
    let is_plan = push_answer(alloc, &mut text, session)?;
    Ok((Object::Text(Bytes::new(text)), is_plan))
}

/// The picks of a session's answer as it stands, or its fault, for a program.
#[unsafe(no_mangle)]
pub extern "C" fn pylock_session_picks(
    alloc: Global,
    session: &mut Slot,
    out: &mut Slot,
    is_plan: &mut bool,
) -> i32
    ensures kept { object session.new ≡ object session.old }
    ensures told { Tells (picks_in (object session.old))
        (object out.old, is_plan.old) (object out.new, is_plan.new) result }
{
    let kept = session.take(alloc);
    let told = picks_in(alloc, &kept);
    session.put(alloc, kept);
    keep_with(alloc, told, out, is_plan)
}

fn judged_in(alloc: Global, kept: &Option<Box<Object>>) -> Result<Object, Refusal>
    ensures { Gives Memory (λ kept. Some kept) result (judged_in (kept_object kept.now)) }
{
    let session = session_in(kept)?;
    let mut text = Vec::new(alloc);
    push_numbers(&mut text, session.judged())?;
    Ok(Object::Text(Bytes::new(text)))
}

/// The numbers that the last edit judged, or the start.
#[unsafe(no_mangle)]
pub extern "C" fn pylock_session_judged(
    alloc: Global,
    session: &mut Slot,
    numbers: &mut Slot,
) -> i32
    ensures kept { object session.new ≡ object session.old }
    ensures told { Tells (judged_in (object session.old)) (object numbers.old) (object numbers.new)
        result }
{
    let kept = session.take(alloc);
    let judged = judged_in(alloc, &kept);
    session.put(alloc, kept);
    keep_object(alloc, judged, numbers)
}

/// Pushes a record of numbers.
fn push_numbers(out: &mut Vec<u8>, numbers: &[u32]) -> Result<(), AllocError>
    ensures { OnOk result (out.new.items ≡ out.old.items ++ numbers_text numbers.now) }
{
    let Some((first, rest)) = numbers.split_first() else {
        return Ok(());
    };
    push_decimal(out, u64::from(*first))?;
    push_more(out, rest)
}

/// Pushes the numbers behind the first.
fn push_more(out: &mut Vec<u8>, numbers: &[u32]) -> Result<(), AllocError>
    ensures { OnOk result (out.new.items ≡ out.old.items ++ fields_text (map decimal numbers.now)) }
{
    for number in numbers {
        out.push(b'\t')?;
        push_decimal(out, u64::from(*number))?;
    }
    Ok(())
}
