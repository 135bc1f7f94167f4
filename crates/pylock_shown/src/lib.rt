//! What is shown to a person of a text that someone else wrote: no control character, and nothing
//! that opens a URL.
//!
//! How a file name is shown, from `crates/pylock_places/src/file_name.rt`:
//!
//! ```rust
//! match file_name_of(alloc, name.as_deref(), path.as_deref(), url.as_deref())? {
//!     Some(found) => Ok(Some(hidden_name(alloc, found.as_str())?)),
//!     None => Ok(None),
//! }
//! ```
#![tactic(auto)]

mod hiding;
pub mod laws;
mod text;
mod visible;

pub use hiding::{Shown, hidden, hidden_name, push_hidden};
pub use text::around;
pub use visible::{
    has_control, is_control, is_printable, push_character, push_control, push_visible, visible_text,
};
