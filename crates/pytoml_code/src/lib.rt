//! Codes of TOML values: the value as inline TOML, with marks by which one value can't be taken for
//! another. So values are compared, ordered and kept as bytes, in about the size of their text, and
//! shown when they have to be.
//!
//! From `crates/pylock_diff/src/codes.rt`:
//!
//! ```rust
//! let mut code = Vec::new(alloc);
//! push_code(&mut code, value)?;
//! ```
#![tactic(auto)]

mod code;
pub mod laws;
mod scalar;
mod shown;
mod text;

pub use code::push_code;
pub use shown::shown_code;
pub use text::push_text_code;
