//! What is to be done so that an environment has what a plan says: which entries are installed,
//! which installed projects they replace, and which stay or go. What is installed is read from what
//! `pip list --format json` or `pip inspect` prints.
//!
//! The README beside `src/` says where to begin and what is proved.
//!
//! The steps of a plan, from `crates/pylock_installed/src/step.rt`:
//!
//! ```rust
//! let mut steps = Vec::new(alloc);
//! push_pick_steps(alloc, &mut steps, session, plan.picks(), &projects)?;
//! push_other_steps(&mut steps, &planned, installed.projects(), is_exact)?;
//! Ok(steps)
//! ```
#![tactic(auto)]

mod document;
mod error;
mod installed;
pub mod laws;
mod line;
mod origin;
mod picked;
mod project;
mod reading;
mod step;
mod tables;

pub use document::steps_document;
pub use error::InstalledError;
pub use installed::Installed;
pub use line::push_steps;
pub use origin::Origin;
pub use project::Project;
pub use step::{Step, is_done, steps};
