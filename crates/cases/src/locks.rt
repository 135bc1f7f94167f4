//! Locks: why one is refused, and what one tells.

use crate::entries::push_conditions;
use crate::files;
use pylock_core::Lock;
use pyver_core::SpecifierSet;
use std::alloc::{AllocError, Global};
use toml::Table;

/// `ok`, or why the lock is refused.
pub(crate) fn judge(alloc: Global, case: &Table) -> anyhow::Result<String> {
    let lock = files::lock(alloc, case)?;
    Ok(judge_bytes(alloc, &lock)?)
}

pub(crate) fn judge_bytes(alloc: Global, bytes: &[u8]) -> Result<String, AllocError> {
    match Lock::read(alloc, bytes) {
        Ok(_) => String::from_str(alloc, "ok"),
        Err(refusal) => format!(in alloc; "{refusal:?}"),
    }
}

/// What the readers of the lock tell.
pub(crate) fn answer_case(alloc: Global, case: &Table) -> anyhow::Result<String> {
    let lock = files::lock(alloc, case)?;
    let lock = files::accepted(Lock::read(alloc, &lock))?;
    let mut told = String::new(alloc);
    for marker in lock.environments() {
        writeln!(told, "environment {marker}")?;
    }
    let set = lock.requires_python().map(SpecifierSet::text);
    let (extras, groups, default) = (lock.extras(), lock.groups(), lock.default_groups());
    writeln!(told, "requires-python {set:?}, extras {extras:?}")?;
    writeln!(
        told,
        "dependency-groups {groups:?}, default-groups {default:?}"
    )?;
    for entry in lock.entries() {
        push_conditions(&mut told, entry)?;
    }
    Ok(told)
}
