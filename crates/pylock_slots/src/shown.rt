//! What is printed of a session in a slot.

ghost use Rattle.std.specs.Prelude.{◌≡◌, Some};
ghost use Rattle.pytext.specs.Agreement.{Gives};
ghost use Rattle.pylock_slots.specs.Answer.{Tells};
ghost use Rattle.pylock_slots.specs.Sessions.{form_of, session_in, shown_in};
ghost use Rattle.pylock_slots.specs.Slot.{kept_object, object};
ghost use Rattle.pylock_slots.specs.declared.refusal.Refusal.TheVariants.{Memory};

use crate::answer::keep_with;
use crate::object::{Bytes, Object};
use crate::refusal::Refusal;
use crate::slot::Slot;
use pylock_command::Form;
use pylock_core::Session;
use pylock_program::{View, push_view};
use std::alloc::Global;

/// The form of what is printed, as C asks for it.
pub fn form_of(json: bool) -> Form
    ensures { result ≡ form_of json }
{
    if json { Form::Json } else { Form::Lines }
}

/// The session that is kept.
pub fn session_in(kept: &Option<Box<Object>>) -> Result<&Session, Refusal>
    ensures { Gives Memory (λ session. session.now) result (session_in (kept_object kept.now)) }
{
    match kept.as_deref() {
        Some(Object::Session(session)) => Ok(session.get()),
        _ => Err(Refusal::Empty),
    }
}

/// What is printed of a session, and whether its answer is a plan.
fn shown_in(
    alloc: Global,
    view: View,
    form: Form,
    kept: &Option<Box<Object>>,
) -> Result<(Object, bool), Refusal>
    ensures { Gives Memory (λ told. (Some told.0, told.1)) result
        (shown_in view form (kept_object kept.now)) }
{
    let session = session_in(kept)?;
    let mut text = Vec::new(alloc);
    let is_plan = push_view(alloc, &mut text, view, form, session)?;
    Ok((Object::Text(Bytes::new(text)), is_plan))
}

/// Leaves what is printed of a session in a slot, and whether its answer is a plan.
pub fn show_session(
    alloc: Global,
    view: View,
    form: Form,
    session: &mut Slot,
    out: &mut Slot,
    is_plan: &mut bool,
) -> i32
    ensures kept { object session.new ≡ object session.old }
    ensures told { Tells (shown_in view form (object session.old))
        (object out.old, is_plan.old) (object out.new, is_plan.new) result }
{
    let kept = session.take(alloc);
    let shown = shown_in(alloc, view, form, &kept);
    session.put(alloc, kept);
    keep_with(alloc, shown, out, is_plan)
}
