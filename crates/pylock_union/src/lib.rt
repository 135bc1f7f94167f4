//! The files of several locks, each once, for whoever mirrors them.
//!
//! From `crates/pylock_program/src/files.rt`:
//!
//! ```rust
//! match union_of(alloc, &list) {
//!     Ok(list) => Ok(list),
//!     Err(UnionError::Memory) => Err(Refusal::of_memory()),
//!     Err(UnionError::Differ(clash)) => Err(Refusal::of_clash(alloc, clash)),
//! }
//! ```
#![tactic(auto)]

mod claims;
mod document;
mod key;
mod lines;
mod listed;
mod refusal;
mod union;

pub use document::listed_document;
pub use lines::push_lines;
pub use listed::{LockSource, push_sources};
pub use refusal::{clash_words, push_clash};
pub use union::{Clash, UnionError, union_of};
