//! The program as one call: its words, its files and its standard input are in memory, and so is
//! what it prints.
//!
//! It is for whoever has no files or streams to give: a browser, or a caller in another language.
//! From `crates/cases/src/memory.rt`:
//!
//! ```rust
//! let ran = run_bytes(alloc, &words, &files, &input);
//! let status = ran.status();
//! ```
#![tactic(auto)]

mod files;
pub mod laws;
mod parts;
mod printed;
mod run;

pub use files::{MemoryFile, MemoryFiles};
pub use parts::cut_parts;
pub use printed::Printed;
pub use run::{Ran, perform_in_memory, run_bytes, run_words, texts_of};
