//! What an audit finds besides what the lock alone tells, which findings count, and all findings
//! as one list.
//!
//! The README beside `src/` says where to begin and what is proved.
//!
//! What is found in a lock and in its environments, from `crates/pylock_program/src/audit.rt`:
//!
//! ```rust
//! let environments = asked.environments || settings.environments();
//! all_found(alloc, lock, found, environments, &index, &hosts)
//! ```
//!
//! A [`Policy`] says which of all findings count, and which fail.
#![tactic(auto)]

mod all;
mod environments;
mod host;
mod lines;
mod merging;
mod policy;
mod vulnerable;

pub use all::all_found;
pub use environments::environment_lines;
pub use host::host_lines;
pub use merging::merged;
pub use policy::{Ignored, Policy, PolicyError};
pub use vulnerable::vulnerable_lines;
