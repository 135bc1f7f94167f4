//! The printed text, beside the lines of an answer and of a refusal.

pub(crate) mod advisories;
pub(crate) mod audit;
pub(crate) mod diff;
pub(crate) mod explain;
pub(crate) mod files;
pub(crate) mod installed;
pub(crate) mod json;
pub(crate) mod placed;
mod safe;
pub(crate) mod summary;
