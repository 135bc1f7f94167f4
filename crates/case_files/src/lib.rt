//! Files of cases: TOML documents in which each case says what a call is given. A program prints
//! what it then gives, and what it has to print stands beside the program.
//!
//! It is for the programs `cases` and `grammar_cases`, whose cases are the tests of the libraries:
//! a row of a file costs the gate no proof. It stands on `toml` and `anyhow`.
//!
//! Implement [`Answers`], which says what a case of a kind gives, and call [`print_files`]. A
//! case's values are read by [`text`], [`bytes`], [`list`] and [`texts`]; long texts are written in
//! pieces. From `crates/grammar_cases/src/main.rt`:
//!
//! ```rust
//! fn main(rt: HostRuntime) -> anyhow::Result<()> {
//!     let paths: Vec<String> = env::args(&rt)?.skip(1).collect(rt.alloc())?;
//!     print_files(&rt, &Cases, &paths)
//! }
//! ```
#![tactic(auto)]

mod print;
mod title;
mod value;

pub use print::{Answers, print_files};
pub use value::{bytes, list, text, texts};
