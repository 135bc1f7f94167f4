//! What is installed from the lock file of the Python packaging specifications (`pylock.toml`, PEP
//! 751): the session on a lock, its edits, and the answer of the installation steps.
//!
//! The README beside `src/` says where to begin and what is proved. It gives the items of
//! `pylock_readers` too.
//!
//! A session, from `crates/pylock_run/src/report/opening.rt`:
//!
//! ```rust
//! match Lock::read(alloc, lock) {
//!     Ok(lock) => open_on(alloc, lock, environment),
//! ..
//! match environment.read(alloc) {
//!     Ok((environment, tags)) => Ok(Session::start(alloc, lock, environment, tags)?),
//! ..
//! ```
//!
//! Its answer as text, from `crates/cases/src/sessions.rt`:
//!
//! ```rust
//! match session.answer()? {
//!     Answer::Fault { id, code } => format!(in alloc; "fault {id} {code:?}"),
//!     Answer::Plan(plan) => plan_text(alloc, plan),
//! }
//! ```
#![tactic(auto)]

mod answer;
mod edit;
mod fate;
pub mod laws;
mod picked;
mod session;
mod words;

pub use answer::{Answer, FaultCode, Pick, PickSource, Plan, Standing};
pub use edit::{Edit, EditError, NameChange, Policy};
pub use fate::Fate;
pub use picked::{NamedSource, PickedSource, sources};
pub use pylock_readers::{
    Archive, Directory, DistributionFile, Entry, EntryError, EntryKey, EnvError, EnvironmentInput,
    Head, HeadKey, HeadNames, Lock, LockError, Sdist, Vcs, WheelFile, read_environment,
};
pub use session::Session;
pub use words::{directory_word, fault_word, policy_word, verdict_word};
