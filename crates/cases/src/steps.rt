//! A lock that is read, values of its first marker, and a session with its edits and answers, a
//! step after the other: `tools/check/allocations/run` counts the allocations of each step, and
//! `tools/measure/speed` takes the time of the reading and of the start.

use crate::files::read;
use crate::sessions::read_edit;
use pylock_core::{Entry, Lock, Session};
use pymark_core::{Environment, Marker};
use std::alloc::Global;
use std::fs;

/// Takes the steps on the lock and the environment of these files, and prints nothing. The steps
/// are lines: the first is `read`, and `evaluate` may follow it any number of times; or `start`,
/// and then edit lines and `answer`.
pub(crate) fn take_steps(
    rt: &HostRuntime,
    lock: &str,
    environment: &str,
    steps: &str,
) -> anyhow::Result<()> {
    let lock = fs::read(rt, lock)?;
    let environment = fs::read(rt, environment)?;
    take_steps_on(rt.alloc(), &lock, &environment, steps)
}

fn take_steps_on(
    alloc: Global,
    lock: &[u8],
    environment: &[u8],
    steps: &str,
) -> anyhow::Result<()> {
    let (lock, environment, tags) = read(alloc, lock, environment)?;
    match steps.strip_prefix("read\nstart") {
        Some(steps) => take_edits(
            alloc,
            Session::start(alloc, lock, environment, tags)?,
            steps,
        ),
        None => evaluate_each(alloc, &lock, &environment, steps),
    }
}

/// Takes the value of the lock's first marker once for each step after the first.
fn evaluate_each(
    alloc: Global,
    lock: &Lock,
    environment: &Environment,
    steps: &str,
) -> anyhow::Result<()> {
    for step in steps.lines().skip(1) {
        match lock.entries().first().and_then(Entry::marker) {
            Some(marker) => evaluate(alloc, marker, environment, step)?,
            None => return Err(anyhow::anyhow!("the lock has no marker")),
        }
    }
    Ok(())
}

fn evaluate(
    alloc: Global,
    marker: &Marker,
    environment: &Environment,
    step: &str,
) -> anyhow::Result<()> {
    match marker.evaluate(alloc, environment) {
        Ok(true) if step == "evaluate" => Ok(()),
        _ => Err(anyhow::anyhow!("the step is not made: {step}")),
    }
}

fn take_edits(alloc: Global, mut session: Session, steps: &str) -> anyhow::Result<()> {
    for step in steps.lines().skip(1) {
        take_step(alloc, &mut session, step)?;
    }
    Ok(())
}

fn take_step(alloc: Global, session: &mut Session, step: &str) -> anyhow::Result<()> {
    let is_made = match step {
        "answer" => session.answer().is_ok(),
        _ => session.edit(read_edit(alloc, step)?).is_ok(),
    };
    if is_made {
        Ok(())
    } else {
        Err(anyhow::anyhow!("the step is not made: {step}"))
    }
}
