//! The lock and the environment that a case is given, and what they are read as.

use case_files::bytes;
use pylock_core::{Lock, read_environment};
use pymark_core::Environment;
use pywheel_core::TagList;
use std::alloc::Global;
use std::fmt::Debug;
use toml::Table;

/// The two lines that most locks begin with.
const HEAD: &[u8] = b"lock-version = \"1.0\"\ncreated-by = \"t\"\n";

/// The environment where nothing is set and no tag is supported.
const NOTHING: &[u8] = b"{\"environment\":{},\"tags\":[]}";

/// The bytes of `lock`, or else `HEAD` and those of `lines`.
pub(crate) fn lock(alloc: Global, case: &Table) -> anyhow::Result<Vec<u8>> {
    if case.contains_key("lock") {
        return bytes(alloc, case, "lock");
    }
    let mut lock = Vec::from_slice(alloc, HEAD)?;
    lock.extend_from_slice(&bytes(alloc, case, "lines")?)?;
    Ok(lock)
}

/// The bytes of `environment`, or else `NOTHING`.
pub(crate) fn environment(alloc: Global, case: &Table) -> anyhow::Result<Vec<u8>> {
    if case.contains_key("environment") {
        return bytes(alloc, case, "environment");
    }
    Ok(Vec::from_slice(alloc, NOTHING)?)
}

/// The lock and the environment that the bytes are.
pub(crate) fn read(
    alloc: Global,
    lock: &[u8],
    environment: &[u8],
) -> anyhow::Result<(Lock, Environment, TagList)> {
    let lock = accepted(Lock::read(alloc, lock))?;
    let (environment, tags) = accepted(read_environment(alloc, environment))?;
    Ok((lock, environment, tags))
}

/// What was read, which a case takes for granted.
pub(crate) fn accepted<T: Drop, E: Debug + Drop>(read: Result<T, E>) -> anyhow::Result<T> {
    match read {
        Ok(read) => Ok(read),
        Err(refusal) => Err(anyhow::anyhow!("a text is refused: {refusal:?}")),
    }
}
