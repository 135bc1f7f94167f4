//! What is found.

use pymark_core::Environment;

/// What is found of one entry of a lock.
#[derive(Drop)]
pub struct EnvironmentFinding {
    /// The number of the entry, from 1.
    pub entry: usize,
    /// What is found of it.
    pub found: Found,
}

/// A finding, of one of three rows: an entry that stands with another of its name, or may; one that
/// never stands, or may not; one whose `requires-python` is narrower, or may be.
#[derive(Drop)]
pub enum Found {
    /// An earlier entry of the same name and this one both stand in an environment of the lock.
    Clash {
        /// The number of the earlier entry, from 1.
        other: usize,
        /// The environment.
        environment: Environment,
    },
    /// They weren't shown to exclude each other.
    MayClash {
        /// The number of the earlier entry, from 1.
        other: usize,
    },
    /// The entry stands in no environment of the lock.
    Never,
    /// It wasn't shown to stand in one.
    MayNever,
    /// In an environment of the lock the entry's marker is absent or true, and its
    /// `requires-python` doesn't admit the Python.
    NarrowerPython {
        /// The environment.
        environment: Environment,
    },
    /// It wasn't shown that there is none.
    MayBeNarrower,
}
