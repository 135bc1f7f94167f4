//! Sessions: what each edit judges again, and the answers.

use crate::files;
use case_files::text;
use pylock_core::{Answer, Edit, Entry, Plan, Session};
use pylock_run::{Command, read_line};
use std::alloc::{AllocError, Global};
use toml::Table;

/// What the lines of `edits` tell, one after the other, of a session on the lock in the
/// environment. Before them stand the numbers that the start judged, and the first answer.
pub(crate) fn answer_case(alloc: Global, case: &Table) -> anyhow::Result<String> {
    let edits = text(alloc, case, "edits")?;
    let mut session = start_case(alloc, case)?;
    steps_text(alloc, &mut session, edits.as_str())
}

fn start_case(alloc: Global, case: &Table) -> anyhow::Result<Session> {
    let lock = files::lock(alloc, case)?;
    let environment = files::environment(alloc, case)?;
    start_on(alloc, &lock, &environment)
}

/// A session asks for nothing at its start, whatever its environment asked for before.
fn start_on(alloc: Global, lock: &[u8], environment: &[u8]) -> anyhow::Result<Session> {
    let (lock, mut environment, tags) = files::read(alloc, lock, environment)?;
    environment.add_extra("x")?;
    environment.add_group("dev")?;
    Ok(Session::start(alloc, lock, environment, tags)?)
}

fn steps_text(alloc: Global, session: &mut Session, edits: &str) -> anyhow::Result<String> {
    let mut told = format!(in alloc; "{:?}\n", session.judged())?;
    for line in edits.lines() {
        let step = step(alloc, session, line)?;
        writeln!(told, "{step}")?;
    }
    Ok(told)
}

/// What one line tells: `answer`, `entry` with a number, or an edit.
fn step(alloc: Global, session: &mut Session, line: &str) -> anyhow::Result<String> {
    match line.split_once(' ') {
        None if line == "answer" => Ok(answer(alloc, session)?),
        Some(("entry", number)) => Ok(entry_name(alloc, session, number.parse()?)?),
        _ => {
            let edit = read_edit(alloc, line)?;
            Ok(edit_text(alloc, session, edit)?)
        }
    }
}

/// The name of the entry of the number, or `none`.
fn entry_name(alloc: Global, session: &Session, number: u32) -> Result<String, AllocError> {
    String::from_str(alloc, session.entry(number).map_or("none", Entry::name))
}

/// How many judgements the edit makes, or why it is refused; and the numbers that the session then
/// says were judged last.
fn edit_text(alloc: Global, session: &mut Session, edit: Edit) -> Result<String, AllocError> {
    match session.edit(edit) {
        Ok(count) => format!(in alloc; "{count} {:?}", session.judged()),
        Err(refusal) => format!(in alloc; "{refusal:?} {:?}", session.judged()),
    }
}

/// The answer as `plan` with the number and source of each pick, or `fault` with its number and
/// code.
fn answer(alloc: Global, session: &Session) -> Result<String, AllocError> {
    match session.answer()? {
        Answer::Fault { id, code } => format!(in alloc; "fault {id} {code:?}"),
        Answer::Plan(plan) => plan_text(alloc, plan),
    }
}

/// The text of the plan, made anew of its picks.
fn plan_text(alloc: Global, plan: Plan) -> Result<String, AllocError> {
    let plan = Plan::new(plan.into_vec());
    let mut text = String::from_str(alloc, "plan")?;
    for pick in plan.picks() {
        write!(text, " {} {:?}", pick.id, pick.source)?;
    }
    Ok(text)
}

/// The edit of a line, written as those of a run; but `del` takes any number.
pub(crate) fn read_edit(alloc: Global, line: &str) -> anyhow::Result<Edit> {
    if let Some(number) = line.strip_prefix("del ") {
        return Ok(Edit::Del(number.parse()?));
    }
    match read_line(alloc, line.as_bytes()) {
        Ok(Command::Edit(edit)) => Ok(edit),
        _ => Err(anyhow::anyhow!("no edit: {line}")),
    }
}
