//! Where a refused lock or environment is wrong: the line that tells a person, and what it points
//! at.
//!
//! The line on a refused lock, or `none`, from `crates/cases/src/messages.rt`:
//!
//! ```rust
//! let lock = files::lock(alloc, case)?;
//! let name = name(alloc, case, "LOCK")?;
//! Ok(message_or_none(alloc, lock_message(alloc, name.as_str(), &lock)?)?)
//! ```
#![tactic(auto)]

mod diagnostic;
mod entry;
mod environment;
mod lock;
mod one_line;
mod one_line_json;
mod other_file;
mod platform;
mod shown_value;
mod syntax;
mod wrong_part;

pub use diagnostic::Diagnostic;
pub use environment::{
    environment_diagnostic, environment_message, target_diagnostic, target_message,
};
pub use lock::{lock_diagnostic, lock_message};
pub use other_file::begins_like_json;
