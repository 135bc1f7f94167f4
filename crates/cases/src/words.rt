//! The task of the words of a command line.

use case_files::texts;
use pylock_command::{CommandError, Opening, Output, Question, Task, command};
use std::alloc::{AllocError, Global};
use toml::Table;

/// The task that the words `line` ask for, of which the first is the program's name; or the status
/// of a refusal, which is 0 where help or the version is asked for.
pub(crate) fn answer_case(alloc: Global, case: &Table) -> anyhow::Result<String> {
    let words = texts(alloc, case, "line")?;
    Ok(task_text(alloc, &words)?)
}

fn task_text(alloc: Global, words: &[&str]) -> Result<String, AllocError> {
    match command(alloc, words) {
        Ok(Task::Show(question)) => question_text(alloc, &question),
        Ok(task) => format!(in alloc; "{:?}", task),
        Err(CommandError::Refused(error)) => format!(in alloc; "refused {}", error.exit_code()),
        Err(CommandError::Memory) => String::from_str(alloc, "memory"),
    }
}

/// The task of `plan` or `explain`.
fn question_text(alloc: Global, question: &Question<'_>) -> Result<String, AllocError> {
    let Output::View(view, form) = question.output else {
        return format!(in alloc; "{question:?}");
    };
    let Opening {
        lock,
        machine,
        strict,
    } = question.opening;
    let options = &question.options;
    let strict = if strict { "strict " } else { "" };
    format!(in alloc; "{strict}{view:?}({lock:?}, {machine:?}, {options:?}, {form:?})")
}
