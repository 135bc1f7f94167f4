//! `newest SET VERSION..` prints the newest of the versions that a specifier set admits, or `none`.
#![tactic(auto)]

ghost use Rattle.std.specs.Prelude.{◌≡◌};
ghost use Rattle.std.specs.Option.{option_copied};
ghost use Rattle.newest.specs.Newest.{PicksNewest, newer};

use pyver_core::{SpecifierSet, Version};
use std::env;

const USAGE: &str =
    "newest SET VERSION..    the newest of the versions that the set admits, or `none`\n";

/// The newest of the versions that the set admits, or `None` where it admits none.
fn newest<'a>(versions: &'a [Version], set: &SpecifierSet) -> Option<&'a Version>
    ensures { PicksNewest set.now versions.now (option_copied result) }
{
    let mut newest = None;
    for version in versions {
        newest = newer(newest, version, set);
    }
    newest
}

/// The newest so far, or the version where the set admits it and it is newer.
fn newer<'a>(
    newest: Option<&'a Version>,
    version: &'a Version,
    set: &SpecifierSet,
) -> Option<&'a Version>
    ensures { option_copied result ≡ newer set.now (option_copied newest.entry) version.now }
{
    if !set.admits(version) {
        return newest;
    }
    match newest {
        Some(newest) if !(newest < version) => Some(newest),
        _ => Some(version),
    }
}

fn main(rt: HostRuntime) -> anyhow::Result<()> {
    let words: Vec<String> = env::args(&rt)?.skip(1).collect(rt.alloc())?;
    let Some((set, texts)) = words.split_first() else {
        return Ok(rt.print(USAGE)?);
    };
    let set = SpecifierSet::parse(rt.alloc(), set.as_str())?;
    let mut versions = Vec::new(rt.alloc());
    for text in texts {
        versions.push(Version::parse(rt.alloc(), text.as_str())?)?;
    }
    match newest(&versions, &set) {
        Some(version) => println!(rt; "{version}")?,
        None => println!(rt; "none")?,
    }
    Ok(())
}
