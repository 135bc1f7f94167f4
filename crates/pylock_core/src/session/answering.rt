//! The answer of a session, and what becomes of each entry.

pub(crate) mod fates;
pub(crate) mod slated_names;
pub(crate) mod steps;
