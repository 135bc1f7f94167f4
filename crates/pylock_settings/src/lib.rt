//! What a project says of how its lock is audited: the table `tool.pylock.audit` of its
//! `pyproject.toml`.
//!
//! The README beside `src/` says where to begin and what is proved. The settings of a project, as
//! in `crates/pylock_settings/README.md`:
//!
//! ```rust
//! let settings = AuditSettings::read(alloc, bytes)?;
//! for host in settings.hosts() {
//!     names.push(host.as_str())?;
//! }
//! ```
#![tactic(auto)]

mod error;
mod key;
pub mod laws;
mod reading;
mod settings;

pub use error::SettingsError;
pub use key::SettingsKey;
pub use settings::AuditSettings;
