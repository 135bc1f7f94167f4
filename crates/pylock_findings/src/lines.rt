//! What is found of an entry of a lock by itself.

ghost use Rattle.std.specs.Prelude.{◌≡◌, ◌++◌, OnOk, Some};
ghost use Rattle.pylock_audit.specs.Finding.{findings_at, findings_each};

use pylock_audit::{FindingKind, LockFinding};
use pylock_shared::{LabelledText, SharedText};
use std::alloc::{AllocError, Global};

/// Adds a finding of this kind for each of these details, which are moved, of the entry of this
/// number and this name. They share a copy of the name.
pub(crate) fn push_lines(
    alloc: Global,
    found: &mut Vec<LockFinding>,
    number: usize,
    name: &str,
    kind: FindingKind,
    details: Vec<LabelledText>,
) -> Result<(), AllocError>
    ensures { OnOk result (found.new.items ≡ found.old.items
        ++ findings_at number (Some name.now) (findings_each kind details.items)) }
{
    if details.is_empty() {
        return Ok(());
    }
    push_named(
        found,
        number,
        &SharedText::copy_of(alloc, name)?,
        kind,
        details,
    )
}

/// The same under a name that they share.
fn push_named(
    found: &mut Vec<LockFinding>,
    number: usize,
    name: &SharedText,
    kind: FindingKind,
    details: Vec<LabelledText>,
) -> Result<(), AllocError>
    ensures { OnOk result (found.new.items ≡ found.old.items
        ++ findings_at number (Some name.now) (findings_each kind details.items)) }
{
    for detail in details {
        let name = Some(name.clone()?);
        found.push(LockFinding::new(number, name, kind, Some(detail)))?;
    }
    Ok(())
}
