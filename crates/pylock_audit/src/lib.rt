//! What a careful reader of a lock would want to be told, though the lock is valid and the
//! installation steps pass over it (PEP 751): each [`LockFinding`] has the number of its entry, a
//! [`FindingKind`] and a detail.
//!
//! What the program does with them, from `crates/pylock_program/src/reply.rt`:
//!
//! ```rust
//! match read_audited(alloc, lock) {
//!     Ok((_, found)) => {
//!         push_found(alloc, out, form, found.as_slice())?;
//!         Ok(list_status(found.as_slice()))
//!     }
//!     Err(LockError::Memory) => Err(AllocError),
//!     Err(error) => push_refused_lock(alloc, out, form, error),
//! }
//! ```
#![tactic(auto)]

mod control;
mod document;
mod entry;
mod entry_keys;
mod files;
mod finding;
mod findings;
mod hash;
mod keys;
mod kinds;
pub mod laws;
mod marker;
mod scope;
mod source;
mod strict;
mod tables;
mod types;
mod unsafe_text;

pub use document::{finding_object, findings_document};
pub use finding::{Finding, FindingKind, LockFinding};
pub use findings::{audit, read_audited};
pub use strict::{Findings, StrictError, read_strict};
