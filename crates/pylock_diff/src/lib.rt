//! What a change of a lock means (PEP 751): what the entries of each name say in one lock and in
//! another, or what is picked of them on one machine. A [`Change`] has its kind, the name that it
//! is of, and what was and is there.
//!
//! What the program prints of two locks, from `crates/pylock_program/src/diff.rt`:
//!
//! ```rust
//! let changes = lock_changes(alloc, old, new)?;
//! write_changes(alloc, form, &changes, writer)
//! ```
#![tactic(auto)]

mod change;
mod changes;
mod codes;
mod compared;
mod conditions;
mod document;
mod files;
mod hashes;
mod head;
mod inner;
mod item;
mod keys;
pub mod laws;
mod names;
mod partners;
mod picks;
mod places;
mod sources;
mod texts;
mod versions;

pub use change::{Change, ChangeKind};
pub use changes::{lock_changes, plan_changes};
pub use compared::{Compared, read_compared};
pub use document::diff_document;
