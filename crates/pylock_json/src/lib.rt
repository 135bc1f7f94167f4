//! JSON documents that are built member by member. From `crates/cases/src/json.rt`:
//!
//! ```rust
//! let mut object = Object::new(alloc);
//! object.put_number(alloc, "b", 1)?;
//! object.put(alloc, "a", Json::text(alloc, "x")?)?;
//! object.put(alloc, "b", Json::number(2))?;
//! object.into_json().to_text(alloc)
//! ```
#![tactic(auto)]

mod json;
pub mod laws;
mod list;
mod object;

pub use json::Json;
pub use list::List;
pub use object::Object;
