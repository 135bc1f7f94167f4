//! What versions, sets of specifiers, markers, environments, tags, names of wheels and plans say,
//! as plain values: numbers, offsets and records of fields. So a caller in another language has
//! them without a grammar of its own. The numbers of a version, from
//! `crates/pylock_c/src/versions.rt`:
//!
//! ```rust
//! let version = Version::parse(alloc, text)?;
//! let release = words_of(alloc, version.release())?;
//! Ok((release, VersionNumbers::of(&version)))
//! ```
#![tactic(auto)]

mod environments;
pub mod laws;
mod markers;
mod picks;
mod record;
mod sets;
mod tags;
mod versions;
mod wheels;

pub use environments::environment_record;
pub use markers::marker_record;
pub use picks::{push_fault, push_picks};
pub use sets::set_spans;
pub use tags::tags_record;
pub use versions::{
    VersionKind, VersionNumbers, base_of, kind_of, normal_form, plain_kind, words_of,
};
pub use wheels::wheel_parts_record;
