//! Cases of locks, of entries, of environments, of the messages on them, of sessions, of runs, of
//! commands, of the program in memory, of command lines, of JSON documents, and of sources and
//! sinks, some of which fail: what each reader, session and command gives for the texts in `data/`.
//! Or, with the word `steps`, a session that prints nothing, whose allocations and time are
//! measured from outside.
#![tactic(auto)]

mod entries;
mod environments;
mod files;
mod json;
mod keys;
mod locks;
mod memory;
mod messages;
mod plans;
mod runs;
mod sessions;
mod sources;
mod steps;
mod streams;
mod words;

use case_files::{Answers, print_files};
use std::alloc::Global;
use std::env;
use toml::Table;

/// The kinds of cases that this program knows.
struct Cases;

impl Answers for Cases {
    fn answer(&self, alloc: Global, kind: &str, case: &Table) -> anyhow::Result<String> {
        match kind {
            "command" => words::answer_case(alloc, case),
            "document" | "strict" => plans::answer_case(alloc, case),
            "entry" => entries::judge(alloc, case),
            "entry_keys" => entries::answer_case(alloc, case),
            "environment" => environments::judge(alloc, case),
            "environment_keys" => environments::answer_case(alloc, case),
            "environment_message" => messages::of_environment(alloc, case),
            "json" => json::answer_case(alloc, case),
            "keys" => keys::answer_case(alloc, case),
            "lock" => locks::judge(alloc, case),
            "lock_keys" => locks::answer_case(alloc, case),
            "lock_message" => messages::of_lock(alloc, case),
            "parts" => memory::cut_case(alloc, case),
            "program" => memory::answer_case(alloc, case),
            "run" => runs::answer_case(alloc, case),
            "session" => sessions::answer_case(alloc, case),
            "sink" => streams::write_case(alloc, case),
            "source" => streams::read_case(alloc, case),
            "unopened" => streams::tell_faults(alloc),
            _ => Err(anyhow::anyhow!("no kind of case")),
        }
    }
}

fn main(rt: HostRuntime) -> anyhow::Result<()> {
    let words: Vec<String> = env::args(&rt)?.skip(1).collect(rt.alloc())?;
    match words.as_slice() {
        [word, lock, environment, lines] if word.as_str() == "steps" => {
            steps::take_steps(&rt, lock.as_str(), environment.as_str(), lines.as_str())
        }
        paths => print_files(&rt, &Cases, paths),
    }
}
