//! Steps as lines.

ghost use Rattle.std.specs.Prelude.{◌≡◌, ◌++◌, OnOk, map};
ghost use Rattle.pylock_installed.specs.Steps.{lent_step};
ghost use Rattle.pylock_installed.specs.Written.{step_line, steps_text};

use crate::step::Step;
use pylock_core::Session;
use pylock_run::push_next_field;
use std::alloc::AllocError;

/// Pushes a line for each step: its word, its name, its version, and the version that is replaced,
/// with a TAB between two of them. A field that is absent is `-`; TAB, LF, CR and the backslash
/// have a backslash in it.
pub fn push_steps(
    out: &mut Vec<u8>,
    session: &Session,
    steps: &[Step<'_>],
) -> Result<(), AllocError>
    ensures { OnOk result (out.new.items
        ≡ out.old.items ++ steps_text session.now.state (map lent_step steps.now)) }
{
    for step in steps {
        push_step(out, session, *step)?;
    }
    Ok(())
}

fn push_step<'a>(out: &mut Vec<u8>, session: &'a Session, step: Step<'a>) -> Result<(), AllocError>
    ensures { OnOk result (out.new.items
        ≡ out.old.items ++ step_line session.now.state (lent_step step.entry)) }
{
    out.extend_from_slice(step.word().as_bytes())?;
    push_next_field(out, step.name(session))?;
    push_next_field(out, step.version(session))?;
    push_next_field(out, step.from())?;
    out.push(b'\n')?;
    Ok(())
}
