//! Whether a lock is still a project's: whether what it plans is what `pyproject.toml` asks for,
//! and whether it is for the project's Python, extras and dependency groups.
//!
//! The README beside `src/` says where to begin and what is proved.
//!
//! The differences for a session, from `crates/pylock_check/src/judging.rt`:
//!
//! ```rust
//! let picks = plan.picks();
//! let mut list = Vec::new(alloc);
//! push_dynamic(alloc, &mut list, project)?;
//! ```
#![tactic(auto)]

mod difference;
mod document;
mod error;
mod groups;
mod head;
mod judging;
pub mod laws;
mod line;
mod project;
mod reading;
mod requirements;
mod sections;
mod targets;

pub use difference::{Difference, DifferenceKind};
pub use document::{differences_document, target_checks_document};
pub use error::ProjectError;
pub use head::head_differences;
pub use judging::differences;
pub use line::{push_differences, push_target_checks};
pub use project::Project;
pub use requirements::{Declaration, Include, Requirements};
pub use sections::Section;
pub use targets::{DifferenceList, TargetCheck, TargetOutcome, is_clean, target_checks};
