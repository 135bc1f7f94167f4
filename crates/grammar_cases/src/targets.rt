//! Targets, and the tags that they take.

use crate::tags::push_ranks;
use crate::told::refused;
use case_files::{text, texts};
use pywheel_core::{TagList, Target};
use std::alloc::{AllocError, Global};
use toml::Table;

/// The release of `python` and what the variables are on `platform`; how many tags the target
/// takes, the first and the last of them, and the rank of each of `ranks`. Or why it is refused.
pub(crate) fn answer_case(alloc: Global, case: &Table) -> anyhow::Result<String> {
    let (python, platform) = (text(alloc, case, "python")?, text(alloc, case, "platform")?);
    let ranks = texts(alloc, case, "ranks")?;
    match Target::parse(python.as_str(), platform.as_str()) {
        Ok(target) => target_text(alloc, &target, &ranks),
        Err(refusal) => refused(alloc, &refusal),
    }
}

fn target_text(alloc: Global, target: &Target, ranks: &[&str]) -> anyhow::Result<String> {
    let mut told = machine_text(alloc, target)?;
    let tags = TagList::of_target(alloc, target)?;
    push_ends(&mut told, &tags)?;
    push_ranks(&mut told, alloc, &tags, ranks)?;
    Ok(told)
}

fn machine_text(alloc: Global, target: &Target) -> Result<String, AllocError> {
    let (python, platform) = (target.python(), target.platform());
    format!(in alloc;
        "3.{}.{} {}, {} {} {} {}\n",
        python.minor,
        python.micro,
        python.is_free_threaded,
        platform.os_name(),
        platform.sys_platform(),
        platform.platform_system(),
        platform.platform_machine()
    )
}

fn push_ends(told: &mut String, tags: &TagList) -> Result<(), AllocError> {
    match tags.tags() {
        [first, .., last] => writeln!(told, "{} tags, {first} to {last}", tags.len()),
        _ => writeln!(told, "{} tags", tags.len()),
    }
}
