//! The machine for which a lock is read: the arguments that name it, and what clap found of them.
ghost use Rattle.std.specs.Prelude.{◌≡◌, IfOk, codes};
ghost use Rattle.clap.specs.Words.{found_of, rows_of};
ghost use Rattle.pylock_command.specs.Machine.{IsMachine, IsPlace, IsTarget};
ghost use Rattle.pylock_command.specs.Machine.{machine_misuse, place_misuse, target_misuse};
ghost use Rattle.pylock_command.specs.Misuse.{Refuses};

use crate::argument::{Argument, Kind};
use crate::misuse::Misuse;
use crate::texts::{text_at, text_of};
use clap::ArgMatches;

/// The words of a target, which nothing has judged yet.
#[derive(Clone, Copy, Debug, PartialEq, Eq)]
pub struct TargetWords<'a> {
    /// The word of its Python, such as `3.12`.
    pub python: &'a str,
    /// The word of its platform, such as `manylinux_2_28_x86_64`.
    pub platform: &'a str,
}

/// The machine for which a lock is read.
#[derive(Clone, Copy, Debug, PartialEq, Eq)]
pub enum Machine<'a> {
    /// That of the environment in the file at this path, of which `-` is standard input.
    File(&'a str),
    /// One of this target.
    Target(TargetWords<'a>),
}

const ABOUT_PYTHON: &str = "The Python of a target: 3.12, 3.12.4 or 3.13t";

const ABOUT_PLATFORM: &str = "Its platform: linux or manylinux_2_28_x86_64";

/// The path of an environment.
pub(crate) const ENV: Argument = Argument {
    name: "ENV",
    kind: Kind::OptionalText,
    help: "The path of an environment, JSON with marker variables and tags, or -",
};

/// The same of `select`, which reads its edits from standard input.
pub(crate) const SELECT_ENV: Argument = Argument {
    name: "ENV",
    kind: Kind::OptionalText,
    help: "The path of an environment, JSON with marker variables and tags",
};

/// The same, where no machine may be asked for.
pub(crate) const IN: Argument = Argument {
    name: "in",
    kind: Kind::Single("ENV"),
    help: "Compare the plans for this environment",
};

/// A target in the place of an environment.
pub(crate) const TARGET: [Argument; 2] = [
    Argument {
        name: "python",
        kind: Kind::Single("PYTHON"),
        help: ABOUT_PYTHON,
    },
    Argument {
        name: "platform",
        kind: Kind::Single("PLATFORM"),
        help: ABOUT_PLATFORM,
    },
];

/// The targets of `matrix`.
pub(crate) const TARGETS: [Argument; 2] = [
    Argument {
        name: "python",
        kind: Kind::Single("PYTHONS"),
        help: "The Pythons, joined by commas: 3.11,3.12",
    },
    Argument {
        name: "platform",
        kind: Kind::Single("PLATFORMS"),
        help: "The platforms, joined by commas: linux,macos",
    },
];

/// A target that has to be there.
pub(crate) const NEEDED_TARGET: [Argument; 2] = [
    Argument {
        name: "python",
        kind: Kind::Needed("PYTHON"),
        help: ABOUT_PYTHON,
    },
    Argument {
        name: "platform",
        kind: Kind::Needed("PLATFORM"),
        help: ABOUT_PLATFORM,
    },
];

/// The target that the words have to name.
pub(crate) fn target_of<'a>(found: &ArgMatches<'a>) -> Result<TargetWords<'a>, Misuse>
    ensures target { IfOk result (IsTarget (rows_of (found_of found.now))) }
    ensures refused { Refuses (target_misuse (rows_of (found_of found.now))) result }
{
    Ok(TargetWords {
        python: text_of(found, "python")?,
        platform: text_of(found, "platform")?,
    })
}

/// The machine that the words may name, where an environment's file is the argument `file`.
pub(crate) fn place_of<'a>(
    found: &ArgMatches<'a>,
    file: &str,
) -> Result<Option<Machine<'a>>, Misuse>
    ensures place { IfOk result (IsPlace file.now (rows_of (found_of found.now))) }
    ensures refused { Refuses (place_misuse file.now (rows_of (found_of found.now))) result }
{
    let python = text_at(found, "python");
    let platform = text_at(found, "platform");
    match (text_at(found, file), python, platform) {
        (Some(path), None, None) => Ok(Some(Machine::File(path))),
        (None, Some(python), Some(platform)) => {
            Ok(Some(Machine::Target(TargetWords { python, platform })))
        }
        (None, None, None) => Ok(None),
        (Some(_), _, _) => Err(Misuse::TwoMachines),
        (None, _, _) => Err(Misuse::HalfTarget),
    }
}

/// The machine that the words have to name.
pub(crate) fn machine_of<'a>(found: &ArgMatches<'a>) -> Result<Machine<'a>, Misuse>
    ensures machine { IfOk result (IsMachine (codes "ENV") (rows_of (found_of found.now))) }
    ensures refused { Refuses (machine_misuse (rows_of (found_of found.now))) result }
{
    match place_of(found, "ENV")? {
        Some(machine) => Ok(machine),
        None => Err(Misuse::NoMachine),
    }
}
