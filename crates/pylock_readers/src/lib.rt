//! The readers of the lock file of the Python packaging specifications (`pylock.toml`, PEP 751):
//! its head, its entries and their sources; and of the environment that they are installed in.
//!
//! The README beside `src/` says where to begin and what is proved.
//!
//! The lock of some bytes, or its refusal, from `crates/cases/src/locks.rt`:
//!
//! ```rust
//! match Lock::read(alloc, bytes) {
//!     Ok(_) => String::from_str(alloc, "ok"),
//!     Err(refusal) => format!(in alloc; "{refusal:?}"),
//! }
//! ```
#![tactic(auto)]

mod entry;
mod environment;
mod error;
mod field;
mod interner;
pub mod laws;
mod lock;
mod target;
mod text;

pub use entry::{
    Archive, Directory, DistributionFile, Entry, Sdist, Vcs, WheelFile, file_name_of,
    path_file_name, url_file_name,
};
pub use environment::{EnvironmentInput, read_environment};
pub use error::{EntryError, EntryKey, EnvError, HeadKey, LockError};
pub use lock::{Head, HeadNames, Lock, MOST_ENTRIES, Packages, read_document_without};
pub use target::{read_target, target_environment};
