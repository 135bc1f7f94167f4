//! The lines with which a refused text is shown to a person: the text, and below it the place that
//! is wrong.
//!
//! It is for whoever writes a message of what `pymark_expected` tells; the sentence stands before
//! the lines. `README.md` says what is proved of them. From `crates/grammar_cases/src/expected.rt`:
//!
//! ```rust
//! let lines = pointed_lines(alloc, text.as_str(), &fault)?;
//! let sentence = fault.expected;
//! Ok(format!(in alloc; "{sentence}\n{lines}")?)
//! ```
#![tactic(auto)]

mod lines;
mod place;

pub use lines::pointed_lines;
