//! A marker's value as lists of comparisons that all have theirs: its disjunctive form (PEP 508).
//!
//! It is for whoever asks what has to hold wherever a marker is true, or false: two markers that
//! exclude one another, for example. `README.md` says what is proved, and `specs/Clauses.antt` what
//! it is that a clause holds.
//!
//! The clauses for the value that a case asks for, of at most as many as it says, from
//! `crates/grammar_cases/src/clauses.rt`:
//!
//! ```rust
//! let wanted = case.get("wanted").and_then(Value::as_bool).unwrap_or(true);
//! clauses_of(alloc, marker, wanted, most(case))
//! ```
#![tactic(auto)]

mod clauses;
mod groups;
mod marker;
mod products;

pub use clauses::{Clause, Literal};
pub use marker::clauses_of;
pub use products::both;
