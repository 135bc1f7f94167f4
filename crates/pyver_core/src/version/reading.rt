//! Reading versions from the left, without memory. What is kept of a number is where its digits
//! stand. Numbers are made once the whole text is known to be a version: so a refusal as syntax
//! takes no memory, and a number past the limit is judged last.

mod base;
mod digits;
mod draft;
mod local;
mod normal_version;
mod scan;
mod segment;
mod tagged;

pub(crate) use base::{Base, read_base};
pub(crate) use draft::{VersionDraft, read_version};
pub(crate) use normal_version::{NormalVersion, read_normal, read_release};
