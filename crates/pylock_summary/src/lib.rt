//! What a lock says of itself: what made it, which Pythons and environments it is for, its extras
//! and groups, how many entries it has, and how many of them have sources of each kind (PEP 751).
//!
//! The README beside `src/` says where to begin and what is proved.
//!
//! The facts of a lock, from `crates/pylock_summary/src/reading.rt`:
//!
//! ```rust
//! let creator = copy_at(alloc, &document, "created-by")?;
//! with_facts(alloc, creator, packages.into_lock(alloc, document))
//! ```
#![tactic(auto)]

mod document;
mod fact;
mod facts;
mod kind;
mod reading;

pub use document::summary_document;
pub use fact::{Fact, Told};
pub use kind::SourceKind;
pub use reading::read_facts;
