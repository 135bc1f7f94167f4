//! Steps as a JSON document.

ghost use Rattle.std.specs.Prelude.{◌≡◌, IfOk, map};
ghost use Rattle.serde_json.specs.View.{members_view, view as data_of};
ghost use Rattle.pylock_json.specs.Json.{members_of, object_of};
ghost use Rattle.pylock_installed.specs.Steps.{lent_step};
ghost use Rattle.pylock_installed.specs.Written.{step_rows, steps_rows};

use crate::step::{Step, is_done};
use pylock_core::Session;
use pylock_json::{Json, List, Object};
use std::alloc::{AllocError, Global};

/// The document of steps: `done`, whether nothing is left to do, and `steps`, their list in order,
/// each with `step`, `id`, `name`, `version` and `from`. A field that is absent is left out. It
/// takes memory for the object.
pub fn steps_document(
    alloc: Global,
    session: &Session,
    steps: &[Step<'_>],
) -> Result<Object, AllocError>
    ensures { IfOk result (λ object. members_view object
        ≡ members_of (steps_rows session.now.state (map lent_step steps.now))) }
{
    let list = steps_list(alloc, session, steps)?;
    let mut object = Object::new(alloc);
    object.put_boolean(alloc, "done", is_done(steps))?;
    object.put(alloc, "steps", list.into_json())?;
    Ok(object)
}

fn steps_list(alloc: Global, session: &Session, steps: &[Step<'_>]) -> Result<List, AllocError>
    ensures { IfOk result (λ list. map data_of list
        ≡ map (λ step. object_of (step_rows session.now.state step)) (map lent_step steps.now)) }
{
    let mut list = List::new(alloc);
    for step in steps {
        list.push(step_json(alloc, session, *step)?)?;
    }
    Ok(list)
}

fn step_json<'a>(alloc: Global, session: &'a Session, step: Step<'a>) -> Result<Json, AllocError>
    ensures { IfOk result (λ json. data_of json
        ≡ object_of (step_rows session.now.state (lent_step step.entry))) }
{
    let mut object = Object::new(alloc);
    object.put_text(alloc, "step", step.word())?;
    object.put_maybe_number(alloc, "id", step.id().map(u64::from))?;
    object.put_maybe(alloc, "name", step.name(session))?;
    object.put_maybe(alloc, "version", step.version(session))?;
    object.put_maybe(alloc, "from", step.from())?;
    Ok(object.into_json())
}
