//! The plan of one lock on many targets: for each a row, with how many entries the plan has and
//! which of them are built from source, or the fault. One session is moved from target to target.
//!
//! The README beside `src/` says where to begin and what is proved.
//!
//! A row, from `crates/pylock_matrix/src/row.rt`:
//!
//! ```rust
//! move_to(alloc, session, target, settings)?;
//! let answer = session.answer()?;
//! outcome_of(alloc, &answer)
//! ```
#![tactic(auto)]

mod cell;
mod defaults;
mod document;
mod files;
pub mod laws;
mod moving;
mod outcome;
mod row;
mod setting;
mod taken;
mod text;

pub use cell::{Cell, CellError, cells, words};
pub use defaults::{default_platforms, default_pythons};
pub use document::{matrix_document, put_cell, put_fault};
pub use files::rows_and_files;
pub use moving::move_to;
pub use outcome::{Built, Outcome, outcome_of};
pub use row::{Row, rows};
pub use setting::Setting;
pub use text::{push_cell, push_fault, push_row, push_rows};
