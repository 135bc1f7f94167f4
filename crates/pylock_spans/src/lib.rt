//! Where an entry of a lock and a key of it stand in the text, for those who are told a finding.
//!
//! From `crates/report_cases/src/places.rt`:
//!
//! ```rust
//! let Some(places) = Places::read(alloc, lock.as_str())? else {
//!     answer.push_str("no TOML")?;
//!     return Ok(answer);
//! };
//! ```
#![tactic(auto)]

mod path;
mod place;
mod places;
mod reading;
mod search;
mod start;
mod step;

pub use path::steps_of;
pub use place::Place;
pub use places::Places;
pub use step::Step;
