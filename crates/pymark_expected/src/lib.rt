//! What was expected of a text that is no requirement, no marker or no specifier set, and where.
//!
//! It is for whoever shows a refusal to a person: `pymark_core` and `pyver_core` say in one word
//! why a text is refused, and here stand the place in it and a sentence. `README.md` says what is
//! proved of them. From `crates/grammar_cases/src/expected.rt`:
//!
//! ```rust
//! "marker" => marker_fault(alloc, text),
//! "requirement" => requirement_fault(alloc, text),
//! "set" => set_fault(alloc, text),
//! ```
#![tactic(auto)]

mod cut;
mod depth;
mod expected;
mod extras;
mod fault;
mod marker;
mod requirement;
mod set;

pub use expected::Expected;
pub use fault::Fault;
pub use marker::marker_fault;
pub use requirement::requirement_fault;
pub use set::{set_fault, specifier_fault};
