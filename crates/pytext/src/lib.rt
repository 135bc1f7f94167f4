//! What the readers of Python's packaging formats look for in texts: classes of bytes, white space,
//! and digits with their number.
//!
//! It stands on `std` alone, and the crates that read texts stand on it. [`digits_value`] needs
//! digits alone, which [`digits_len`] finds. So `pywheel_core` reads the number of a build, in
//! `crates/pywheel_core/src/build.rt`:
//!
//! ```rust
//! let digits = digits_len(text.as_bytes());
//! let Some(number) = digits_value(&text.as_bytes()[..digits]) else {
//!     return Err(WheelError::Build);
//! };
//! ```
#![tactic(auto)]

mod any_text;
mod bytes;
mod digits;
pub mod laws;
mod white;

pub use any_text::Text;
pub use bytes::{is_name_byte, is_separator, is_white, is_word_byte};
pub use digits::{are_digits, digits_len, digits_value, is_number};
pub use white::{after_white, after_white_bytes, is_blank, trim_white};
