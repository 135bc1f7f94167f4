//! Versions, specifier sets and names of Python packages: PEP 440 and PEP 503.
//!
//! It is for whoever compares versions, asks whether a set such as `>=1.0,<2` admits one, or needs
//! the normal form of a version or a name. The newest version that a set admits, from
//! `crates/newest/src/main.rt`:
//!
//! ```rust
//! let set = SpecifierSet::parse(rt.alloc(), set.as_str())?;
//! let mut versions = Vec::new(rt.alloc());
//! for text in texts {
//!     versions.push(Version::parse(rt.alloc(), text.as_str())?)?;
//! }
//! match newest(&versions, &set) {
//!     Some(version) => println!(rt; "{version}")?,
//!     None => println!(rt; "none")?,
//! }
//! ```
#![tactic(auto)]

pub mod laws;
mod name;
mod set;
mod version;

pub use name::{NormalForm, NormalName, is_name, is_same_name, normal_name, write_normal_name};
pub use set::{Operator, ReleasePrefix, Specifier, SpecifierError, SpecifierSet};
pub use version::{
    LocalPart, PartsError, PlainVersion, PreKind, Version, VersionError, VersionParts,
};
