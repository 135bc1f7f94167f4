//! The answers of pylock as JSON documents: a plan or its fault, what becomes of each entry, the
//! files of a lock, its head, the parts of a requirement and of a file name, and the words of a
//! refusal. They have what the printed lines have, each field under a name of its own, and of a
//! fault its reason too. A field that is absent is left out. The document of findings is
//! `pylock_audit`'s. The text of a target's environment is JSON of another form: that of an
//! environment file.
//!
//! A plan, as a document, from `crates/pylock_program/src/show.rt`:
//!
//! ```rust
//! push_document(alloc, out, plan_document(alloc, session, answer)?)
//! ```
#![tactic(auto)]

mod environment;
mod explain;
mod files;
mod head;
pub mod laws;
mod plan;
mod reasons;
mod refused;
mod safe;
mod source;
mod texts;
mod written;

pub use environment::environment_text;
pub use explain::explain_document;
pub use files::files_document;
pub use head::head_document;
pub use plan::{fault_detail, picked_document, plan_document};
pub use reasons::{detail, head_detail, shown_version};
pub use refused::{refused_document, refused_line_document};
pub use source::source_members;
pub use texts::{requirement_document, sdist_document, specifiers_text, wheel_document};
pub use written::{document, push_document, push_object};
