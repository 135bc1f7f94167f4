//! What a session judges, and judges again.

pub(crate) mod judgement;
pub(crate) mod ranks;
pub(crate) mod standings;
pub(crate) mod verdict;
