//! What is compared of two documents: rows under names, lists of texts, and partners, which are
//! alike in both.
//!
//! From `crates/pylock_diff/src/keys.rt`:
//!
//! ```rust
//! for key in &sides.names {
//!     let values = (sides.old(key), sides.new_values(key));
//! ```
#![tactic(auto)]

mod key;
pub mod laws;
mod partners;
mod rows;

pub use key::Key;
pub use partners::are_alone;
pub use rows::{Sides, in_order};
