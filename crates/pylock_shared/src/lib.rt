//! Texts that stand in memory once, however many hold them.
//!
//! What each hash of a file is called, from `crates/pylock_diff/src/hashes.rt`:
//!
//! ```rust
//! let from = hash_text(alloc, labels.0, algorithm, olds.as_slice())?;
//! ```
#![tactic(auto)]

mod labelled;
mod shared;

pub use labelled::{LabelledText, plain_text, whole_text};
pub use shared::SharedText;
