//! What is true of every version: whether a specifier set is empty, whether two have nothing in
//! common, and whether one lies in another (PEP 440, "Version specifiers").
//!
//! It is for whoever asks before any version is at hand. `README.md` says what is proved. From
//! `crates/grammar_cases/src/algebra.rt`:
//!
//! ```rust
//! let left = read(alloc, case, "left", SpecifierSet::parse)?;
//! let right = read(alloc, case, "right", SpecifierSet::parse)?;
//! answer_text(alloc, &is_disjoint(alloc, &left, &right)?)
//! ```
#![tactic(auto)]

mod alike;
mod bounds;
mod first;
mod first_two;
mod limit;
mod lowest;
mod near;
mod sets;
mod specifier;
mod spelled;
mod step;
mod witness;

pub use bounds::Bounds;
pub use sets::{Answer, is_disjoint, is_subset, is_unsatisfiable};
