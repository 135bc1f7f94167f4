//! How places and file names of a lock are shown: with `***` for what opens them, the user and each
//! value of the query. And whether a URL has such, and is of HTTPS.
//!
//! What a source is called in a finding, from `crates/pylock_audit/src/source.rt`:
//!
//! ```rust
//! SharedText::new(alloc, source_text(alloc, source)?)
//! ```
#![tactic(auto)]

mod file_name;
mod query;
mod shown;
mod text;
mod url;

pub use file_name::shown_file_name;
pub use query::has_secret;
pub use shown::{file_label, shown_place, source_label, source_text};
pub use text::{hidden_text, joined};
pub use url::{has_credentials, is_https, is_safe_remote};
