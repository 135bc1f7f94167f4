//! Plans and lists of files in the forms that other tools take: two requirements files for pip and
//! uv, and lists for `sha256sum`, `aria2c` and `wget`.
//!
//! These tools read options, other files, variables and encodings out of lines, and whoever wrote a
//! lock may know that. So each part of a line is made of a few characters of ASCII, and where a
//! lock has anything else, [`export_plan`] and [`export_files`] give no text but the
//! [`FormatRefusal`] of the first source in the order of the lines.
//!
//! The README beside `src/` says where to begin and what is proved.
//!
//! The text of each form, from `crates/pylock_exports/src/export.rt`:
//!
//! ```rust
//! match form {
//!     PlanFormat::Requirements => requirements_text(alloc, PlanPart::Hashed, list),
//!     PlanFormat::RequirementsLocal => requirements_text(alloc, PlanPart::Local, list),
//!     PlanFormat::Files(form) => list_text(alloc, form, list),
//! }
//! ```
#![tactic(auto)]

mod base;
mod class;
mod export;
mod file_names;
mod hashes;
pub mod laws;
mod left;
mod listed;
mod lists;
mod message;
mod parts;
mod refusal;
mod requirements;
mod source;

pub use export::{Exported, export_files, export_given, export_plan};
pub use left::LeftSource;
pub use listed::GivenSource;
pub use message::{explain_exported, explain_refusal};
pub use refusal::{ExportError, Field, FieldFault, FormatRefusal, Reason};
