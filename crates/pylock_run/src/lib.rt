//! Runs of pylock: edit lines, the lines of an answer and of a refusal, and the edits of a session
//! by all of an input. The host gives a [`Source`] of bytes and a [`Sink`]; over memory
//! ([`Pieces`], [`Room`]) the contracts say each byte. The commands are in `pylock_program`.
//!
//! A run over an input in memory, from `crates/cases/src/runs.rt`:
//!
//! ```rust
//! let mut text = Vec::new(alloc);
//! let mut reader = Pieces::new(input, PIECE, None);
//! let mut writer = ToWrite::new(&mut text);
//! let end = run(
//!     alloc,
//!     &inputs.lock,
//!     &inputs.environment,
//!     &mut reader,
//!     &mut writer,
//! );
//! ```
#![tactic(auto)]

mod files;
pub mod laws;
mod line;
mod report;
mod stream;
mod text;

pub use files::{FILE_BYTES, Files, open_fault, read_file};
pub use line::commands::{Command, policy_argument, variable_argument};
pub use line::refusal::LineRefusal;
pub use line::{LINE_LIMIT, read_line};
pub use report::editing::Editing;
pub use report::fault::RunFault;
pub use report::opening::{OpenError, open, open_in, open_on};
pub use report::pieces::{begin_run, end_run, feed_run};
pub use report::print::print;
pub use report::printing::{Lines, Printing};
pub use report::run::{INPUT_BYTES, run, run_opened};
pub use stream::memory::{Pieces, Room};
pub use stream::output::Output;
pub use stream::terminal::ToTerminal;
pub use stream::whole::{FileFault, read_whole};
pub use stream::wrapper::{FromRead, ToWrite};
pub use stream::{IoFault, Sink, Source, write_all};
pub use text::field::{push_decimal, push_field, push_last_word, push_next_field, push_word};
pub use text::plan::{push_answer, push_source_line};
pub use text::refusal::{
    RefusalWords, environment_words, line_word, lock_words, push_environment_error,
    push_lock_error, push_refusal, push_side_error,
};
