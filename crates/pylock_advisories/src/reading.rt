//! Advisories from JSON (the OSV schema).

mod advisory;
mod affected;
mod file;
mod member;
mod range;

pub(crate) use file::read_file;
