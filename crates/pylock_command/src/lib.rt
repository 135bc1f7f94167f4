//! The command line of `pylock`, read by `clap`: from words, of which the first is the program's
//! name, to a [`Task`]. Where clap refuses the words, or they ask for help or the version, its
//! error has the text, the stream and the status.
//!
//! The task of some words, from `crates/cases/src/words.rt`:
//!
//! ```rust
//! match command(alloc, words) {
//!     Ok(Task::Show(question)) => question_text(alloc, &question),
//!     Ok(task) => format!(in alloc; "{:?}", task),
//!     Err(CommandError::Refused(error)) => format!(in alloc; "refused {}", error.exit_code()),
//!     Err(CommandError::Memory) => String::from_str(alloc, "memory"),
//! }
//! ```
#![tactic(auto)]

mod argument;
mod asked;
mod base;
mod command_line;
mod created;
mod form;
mod help;
mod machine;
mod misuse;
mod option;
mod options;
mod subcommand;
mod task;
mod texts;

pub use base::Base;
pub use command_line::{CommandError, command, release};
pub use created::is_created;
pub use form::{BillFormat, FileFormat, Form, PlanFormat};
pub use machine::{Machine, TargetWords};
pub use option::PlanOption;
pub use task::{
    AuditOutput, AuditQuestion, CheckMatrixQuestion, CheckQuestion, Comparison, FilesOutput,
    FilesQuestion, Installation, MatrixOutput, MatrixQuestion, Opening, Output, Question,
    StatusQuestion, Task, TextQuestion, View,
};
