//! What a lock says besides what installation takes: of its files their sizes and when they were
//! uploaded, and of its entries on which others they depend (PEP 751).
//!
//! A lock with what it says besides, from `crates/pylock_program/src/files.rt`:
//!
//! ```rust
//! let (lock, metadata) = read_with_metadata(alloc, bytes)?;
//! return Ok(ReadLock {
//!     lock,
//!     metadata: Some(metadata),
//! });
//! ```
#![tactic(auto)]

mod depends;
mod entry;
mod file;
mod meets;
mod named;
mod reading;
mod table;

pub use depends::dependencies;
pub use entry::{EntryMetadata, Metadata};
pub use file::FileMetadata;
pub use named::Dependent;
pub use reading::read_with_metadata;
