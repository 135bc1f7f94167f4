//! Cases of places in a lock, of SARIF documents and of a project's settings: where an entry and a
//! key stand, what a document has, and what a project file says of an audit.
#![tactic(auto)]

mod places;
mod sarif;
mod settings;

use case_files::{Answers, print_files};
use std::alloc::Global;
use std::env;
use toml::Table;

/// The kinds of cases that this program knows.
struct Cases;

impl Answers for Cases {
    fn answer(&self, alloc: Global, kind: &str, case: &Table) -> anyhow::Result<String> {
        match kind {
            "places" => places::answer_case(alloc, case),
            "rules" => sarif::tell_rules(alloc),
            "sarif" => sarif::answer_case(alloc, case),
            "settings" => settings::answer_case(alloc, case),
            "steps" => places::tell_steps(alloc, case),
            _ => Err(anyhow::anyhow!("no kind of case")),
        }
    }
}

fn main(rt: HostRuntime) -> anyhow::Result<()> {
    let paths: Vec<String> = env::args(&rt)?.skip(1).collect(rt.alloc())?;
    print_files(&rt, &Cases, &paths)
}
