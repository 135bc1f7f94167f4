//! The program and its sessions for a machine without files or streams: the few exports of
//! `include/pylock.h` of which the module for WebAssembly is made.
//!
//! Each is the export of `pylock_c` with its name, and its contract is the same. The answer of a
//! session, from `crates/pylock_main/src/sessions.rt`:
//!
//! ```rust
//! show_session(alloc, View::Plan, form_of(json), session, out, is_plan)
//! ```
#![tactic(auto)]

mod program;
mod sessions;
mod text;
