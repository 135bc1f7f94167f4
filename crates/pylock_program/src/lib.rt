//! The commands of the program `pylock`. A [`Host`] gives it files ([`pylock_run::Files`]) and, for
//! standard input and each output, a source or a sink of bytes of `pylock_run`.
//!
//! A whole task over texts in memory, from `crates/cases/src/plans.rt`:
//!
//! ```rust
//! let end = perform(alloc, task, &mut host);
//! ```
#![tactic(auto)]

mod audit;
mod bill;
mod check;
mod diagnostics;
mod diff;
mod export;
mod failure;
mod file;
mod files;
mod host;
pub mod laws;
mod left;
mod lines;
mod located;
mod matrix;
mod opening;
mod options;
mod printing;
mod program;
mod refusal;
mod reply;
mod sarif;
mod select;
mod show;
mod status;
mod summary;
mod text;

pub use failure::{Failure, words_failure};
pub use files::push_files;
pub use host::{Host, Outputs};
pub use opening::{Unopened, open_strictly};
pub use printing::InForm;
pub use program::{perform, terminal_note};
pub use pylock_command::View;
pub use refusal::{push_open_error, push_unopened};
pub use reply::push_audit;
pub use show::push_view;
