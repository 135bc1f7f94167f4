//! What a form has no line of.

ghost use Rattle.std.specs.Prelude.{[], ◌≡◌, ◌++◌, ◌-◌, ◌∷◌, IfOk, OnOk, length, map, take};
ghost use Rattle.pylock_exports.specs.Inner.{all_lent, lent, written};
ghost use Rattle.pylock_exports.specs.Texts.{entry_of, first_left, is_left_out, left_out};
ghost use Rattle.pylock_exports.specs.Texts.{shown_left};

use crate::listed::Listed;
use crate::lists::is_left;
use crate::source::Source;
use pylock_command::PlanFormat;
use std::alloc::{AllocError, Global};

/// How many of the sources without a line are named.
const MOST_NAMED: usize = 5;

/// A source of which a form has no line, by its entry.
#[derive(Debug)]
pub struct LeftSource {
    /// The number of the entry.
    pub number: u64,
    /// The entry's name, as the lock has it in normal form.
    pub name: String,
}

impl Drop for LeftSource {
    fn drop(self) {
        let LeftSource { number: _, name: _ } = self;
    }
}

/// Whether the form has no line of a source.
pub(crate) fn is_left_out(
    alloc: Global,
    form: PlanFormat,
    source: Source<'_>,
) -> Result<bool, AllocError>
    ensures { IfOk result (λ left. left ≡ is_left_out form (written source.entry)) }
{
    match form {
        PlanFormat::Requirements => Ok(source.is_unhashed()),
        PlanFormat::RequirementsLocal => Ok(!source.is_unhashed()),
        PlanFormat::Files(form) => is_left(alloc, form, source),
    }
}

/// How many of the sources the form has no line of, and the first of these.
pub(crate) fn left_of(
    alloc: Global,
    form: PlanFormat,
    list: &[Listed<'_>],
) -> Result<(usize, Vec<LeftSource>), AllocError>
    ensures count { IfOk result (λ left. left.0 ≡ left_out form (all_lent list.now)) }
    ensures first { IfOk result (λ left. map shown_left left.1.items
        ≡ first_left form (all_lent list.now)) }
{
    let mut count = 0;
    let mut first = Vec::new(alloc);
    for listed in list {
        if is_left_out(alloc, form, listed.source)? {
            push_left(alloc, &mut first, listed)?;
            count += 1;
        }
    }
    Ok((count, first))
}

/// Adds a source, where fewer are there than are named.
fn push_left(
    alloc: Global,
    first: &mut Vec<LeftSource>,
    listed: &Listed<'_>,
) -> Result<(), AllocError>
    ensures { OnOk result (map shown_left first.new.items ≡ map shown_left first.old.items
        ++ take (5 - length first.old.items) (entry_of (lent listed.now) ∷ [])) }
{
    if first.len() < MOST_NAMED {
        first.push(LeftSource {
            number: listed.number,
            name: String::from_str(alloc, listed.entry.name())?,
        })?;
    }
    Ok(())
}
