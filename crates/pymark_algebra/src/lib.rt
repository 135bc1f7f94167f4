//! What is true of markers, and of specifiers of Python's version, in every environment that an
//! interpreter of Python may have: two are never true together, one implies another, one is never
//! true or never false.
//!
//! It is for whoever reviews markers before any machine is at hand. `README.md` says what is
//! proved; of which environments it is, `specs/Coherent.antt` says. From
//! `crates/grammar_cases/src/questions.rt`:
//!
//! ```rust
//! "never true" => is_never_true(alloc, &marker)?,
//! "never false" => is_never_false(alloc, &marker)?,
//! ```
#![tactic(auto)]

mod answer;
mod coherent;
mod names;
mod open;
mod opposites;
mod platform;
mod platforms;
mod python;
mod questions;
mod text;
mod texts;
mod valueless;
mod witness;

pub use answer::{Answer, Condition, PythonCondition};
pub use coherent::is_coherent;
pub use platform::Platform;
pub use questions::{
    are_disjoint, are_never, are_never_of, implies, is_never_false, is_never_true,
};
