//! Which packages an advisory in OSV's format affects, and at which version they are safe again.
//!
//! It is for whoever looks up the packages of a lock in a database of advisories. The files are
//! read, then each package is asked for, as in `crates/pylock_advisories/README.md`:
//!
//! ```rust
//! let mut advisories = Advisories::new(alloc);
//! advisories.read(alloc, bytes)?;
//! let index = advisories.index(alloc)?;
//! let affecting = index.affecting(alloc, "jinja2", "2.11.2")?;
//! ```
#![tactic(auto)]

mod advisories;
mod advisory;
mod error;
mod index;
pub mod laws;
mod package;
mod range;
mod reading;
mod versions;

pub use advisories::Advisories;
pub use advisory::{Advisory, Affecting};
pub use error::{AdvisoriesError, AdvisoryError, Member};
pub use index::AdvisoryIndex;
