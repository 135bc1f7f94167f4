//! What is true of a whole lock in every environment that its head admits: entries of one name that
//! stand together, entries that never stand, and entries whose `requires-python` is narrower than
//! their markers (PEP 751).
//!
//! It is for whoever reviews a lock before any machine is at hand. `README.md` says what is proved;
//! of which environments it is, `specs/Environments.antt` says.
//!
//! What a person is told of some findings, from `crates/pylock_environments/src/words.rt`:
//!
//! ```rust
//! Found::MayClash { other } => Ok(Some(number_text(alloc, *other)?)),
//! Found::NarrowerPython { environment } => python_text(alloc, environment),
//! Found::Never | Found::MayNever | Found::MayBeNarrower => Ok(None),
//! ```
#![tactic(auto)]

mod asking;
mod budget;
mod finding;
mod findings;
pub mod laws;
mod lock;
mod names;
mod releases;
mod rows;
mod shell;
mod sought;
mod standing;
mod wanted;
mod words;

pub use finding::{EnvironmentFinding, Found};
pub use findings::environment_findings;
pub use words::detail;
