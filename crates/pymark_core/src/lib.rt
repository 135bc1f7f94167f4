//! Markers, the environments that they are judged in, and requirements of Python packages (PEP
//! 508).
//!
//! It is for whoever asks whether `python_version >= "3.8"` holds, or reads `requests[security] >=
//! 2` into its parts. `README.md` says where to begin and what is proved; of what is defined,
//! `specs/Marker/Grammar.antt` and `specs/Marker/Value.antt` say most.
//!
//! What a marker is worth, where `extra` has a text or none, from
//! `crates/grammar_cases/src/markers.rt`:
//!
//! ```rust
//! let value = match extra {
//!     Some(extra) => marker.evaluate_with_extra(alloc, environment, extra),
//!     None => marker.evaluate(alloc, environment),
//! };
//! ```
//!
//! The variables of an environment, from `crates/grammar_cases/src/environments.rt`:
//!
//! ```rust
//! for name in variables.keys() {
//!     let variable = variable(name.as_str())?;
//!     let text = text(alloc, variables, name.as_str())?;
//!     environment.set(variable, text.as_str())?;
//! }
//! ```
#![tactic(auto)]

mod change;
mod compared_text;
mod comparison;
mod environment;
mod fault;
pub mod laws;
mod marker;
mod names;
mod operand;
mod requirement;
mod substring;
mod variable;

pub use change::Change;
pub use comparison::Comparison;
pub use environment::Environment;
pub use fault::EvalFault;
pub use marker::{Key, Marker, MarkerError, Piece, Reads, Token, next_token};
pub use names::Names;
pub use operand::{Comparator, Operand};
pub use requirement::{Requirement, RequirementError};
pub use variable::Var;
