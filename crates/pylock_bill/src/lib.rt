//! The bill of materials of a plan, as a CycloneDX 1.6 and as an SPDX 2.3 document.
//!
//! The package URL of a project, from `crates/pylock_bill/src/purl.rt`:
//!
//! ```rust
//! let name = normal_name(alloc, name)?;
//! let mut text = String::from_str(alloc, "pkg:pypi/")?;
//! push_escaped(&mut text, name.as_str())?;
//! push_version(alloc, &mut text, version)?;
//! Ok(text)
//! ```
#![tactic(auto)]

mod cyclonedx;
mod hash;
mod namespace;
mod purl;
mod source;
mod spdx;

pub use cyclonedx::cyclonedx_document;
pub use namespace::namespace_of;
pub use purl::purl_of;
pub use spdx::spdx_document;
