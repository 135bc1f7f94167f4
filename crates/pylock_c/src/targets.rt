//! The environment of a target, as a text (PEP 425, PEP 508).

ghost use Rattle.pytext.specs.Agreement.{Gives};
ghost use Rattle.pylock_slots.specs.Answer.{Tells};
ghost use Rattle.pylock_slots.specs.Slot.{object};
ghost use Rattle.pylock_c.specs.Targets.{environment_of_target};
ghost use Rattle.pylock_slots.specs.Text.{kept_text};
ghost use Rattle.pylock_slots.specs.declared.refusal.Refusal.TheVariants.{Memory};

use pylock_documents::environment_text;
use pylock_slots::{Refusal, Slot, keep_text, text};
use pywheel_core::Target;
use std::alloc::Global;

fn environment_of_target(alloc: Global, python: &[u8], platform: &[u8]) -> Result<Vec<u8>, Refusal>
    ensures { Gives Memory (λ made. made.items) result
        (environment_of_target python.now platform.now) }
{
    let python = text(python)?;
    let platform = text(platform)?;
    let target = Target::parse(python, platform)?;
    Ok(environment_text(alloc, &target)?.into_bytes())
}

/// The environment and the tags of a target, as the text of an environment file.
#[unsafe(no_mangle)]
pub extern "C" fn pylock_environment_target(
    alloc: Global,
    python: &[u8],
    platform: &[u8],
    text: &mut Slot,
) -> i32
    ensures { Tells (kept_text (environment_of_target python.now platform.now)) (object text.old)
        (object text.new) result }
{
    keep_text(alloc, environment_of_target(alloc, python, platform), text)
}
