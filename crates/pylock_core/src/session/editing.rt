//! The edits of a session.

pub(crate) mod entries;
pub(crate) mod environment;
pub(crate) mod policies;
