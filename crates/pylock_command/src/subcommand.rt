//! The subcommands, and what clap is told of each.
ghost use Rattle.std.specs.Prelude.{◌≡◌, false};
ghost use Rattle.clap.specs.Words.{app_of, new_app};
ghost use Rattle.clap.specs.declared.builder.command.Command.TheViews.{out-Command as fields_of};
ghost use Rattle.pylock_command.specs.Subcommand.{usage_app};
ghost use Rattle.pylock_command.specs.Commands.{IsCommand, IsLocal};

use crate::argument::{Argument, Kind, with_groups};
use crate::base::BASE;
use crate::form::{CREATED, FILES, FORMAT, JSON, JSON_LINES};
use crate::help;
use crate::machine::{ENV, IN, NEEDED_TARGET, SELECT_ENV, TARGET, TARGETS};
use crate::options::{CHOICES, LEFT, LEFT_OF_FILES};
use clap::Command;
use std::alloc::{AllocError, Global};

/// A subcommand: its name, what it does, its arguments in groups, in the order of the help, and
/// what stands below them there.
#[derive(Clone, Copy)]
pub(crate) struct Usage {
    pub(crate) name: &'static str,
    about: &'static str,
    arguments: &'static [&'static [Argument]],
    reply: &'static str,
}

const LOCK: Argument = Argument {
    name: "LOCK",
    kind: Kind::Text,
    help: "The path of the lock, a pylock.toml, or - for standard input",
};

const LOCKS: Argument = Argument {
    name: "LOCK",
    kind: Kind::Texts,
    help: "The path of each lock, a pylock.toml, or - for standard input",
};

const SELECT_LOCK: Argument = Argument {
    name: "LOCK",
    kind: Kind::Text,
    help: "The path of the lock, a pylock.toml",
};

const OLD: Argument = Argument {
    name: "OLD",
    kind: Kind::Text,
    help: "The path of the old lock, or - for standard input",
};

const NEW: Argument = Argument {
    name: "NEW",
    kind: Kind::Text,
    help: "The path of the new lock, or - for standard input",
};

const SET: Argument = Argument {
    name: "SET",
    kind: Kind::Text,
    help: "A specifier set, such as '>=2.8.1, ==2.8.*'",
};

const VERSION: Argument = Argument {
    name: "VERSION",
    kind: Kind::Text,
    help: "A version, such as 1.0rc1",
};

const A_VERSION: Argument = Argument {
    name: "TEXT",
    kind: Kind::Text,
    help: "A version, such as 1.0rc1",
};

const A_NAME: Argument = Argument {
    name: "TEXT",
    kind: Kind::Text,
    help: "A package, an extra or a group; what begins with - goes after --",
};

const A_MARKER: Argument = Argument {
    name: "TEXT",
    kind: Kind::Text,
    help: "A marker, such as 'python_version >= \"3.8\"'",
};

const A_REQUIREMENT: Argument = Argument {
    name: "TEXT",
    kind: Kind::Text,
    help: "A requirement, such as 'requests[security] >= 2.8.1'",
};

const A_WHEEL: Argument = Argument {
    name: "TEXT",
    kind: Kind::Text,
    help: "A file name, such as numpy-2.2.1-cp312-cp312-win_amd64.whl",
};

const AN_SDIST: Argument = Argument {
    name: "TEXT",
    kind: Kind::Text,
    help: "A file name, such as numpy-2.2.1.tar.gz",
};

const STRICT: Argument = Argument {
    name: "strict",
    kind: Kind::Flag,
    help: "Refuse a lock with certain findings of audit",
};

const NO_BUILD: Argument = Argument {
    name: "no-build",
    kind: Kind::Flag,
    help: "End with 1 where something is built from source",
};

const ENVIRONMENTS: Argument = Argument {
    name: "environments",
    kind: Kind::Flag,
    help: "Look at every environment that the lock is for too",
};

const ADVISORIES: Argument = Argument {
    name: "advisories",
    kind: Kind::Repeated("FILE"),
    help: "Tell what these advisories affect, in OSV's format",
};

const HOST: Argument = Argument {
    name: "host",
    kind: Kind::Repeated("HOST"),
    help: "Tell each source that names another host than these",
};

const FAIL_ON: Argument = Argument {
    name: "fail-on",
    kind: Kind::Single("FINDING,.."),
    help: "End with 1 for these findings alone",
};

const IGNORE: Argument = Argument {
    name: "ignore",
    kind: Kind::Repeated("FINDING[:NAME]"),
    help: "Leave out a finding, of all packages or of one",
};

const CONFIG: Argument = Argument {
    name: "config",
    kind: Kind::Single("FILE"),
    help: "Read [tool.pylock.audit] of a pyproject.toml too",
};

const INSTALLED: Argument = Argument {
    name: "installed",
    kind: Kind::Needed("FILE"),
    help: "What pip inspect or pip list --format json prints",
};

const PROJECT: Argument = Argument {
    name: "PROJECT",
    kind: Kind::Text,
    help: "The path of the project, a pyproject.toml, or -",
};

const MATRIX: Argument = Argument {
    name: "matrix",
    kind: Kind::Flag,
    help: "Judge each target of matrix in place of ENV",
};

const EXACT: Argument = Argument {
    name: "exact",
    kind: Kind::Flag,
    help: "Remove pip, setuptools and wheel too",
};

/// The subcommands, in the order of the help.
pub(crate) const SUBCOMMANDS: [Usage; 18] = [
    Usage {
        name: "plan",
        about: "Print what a lock installs in an environment",
        arguments: &[
            &[LOCK, ENV],
            &TARGET,
            &CHOICES,
            &LEFT,
            &[STRICT, FORMAT, CREATED, BASE, JSON],
        ],
        reply: help::PLAN,
    },
    Usage {
        name: "explain",
        about: "Print what becomes of each entry of a lock, and why",
        arguments: &[&[LOCK, ENV], &TARGET, &CHOICES, &[STRICT, JSON]],
        reply: help::EXPLAIN,
    },
    Usage {
        name: "select",
        about: "Print what a lock installs, and print it again after each edit",
        arguments: &[&[SELECT_LOCK, SELECT_ENV], &TARGET, &[STRICT, JSON_LINES]],
        reply: help::SELECT,
    },
    Usage {
        name: "matrix",
        about: "Print what a lock installs on each of several machines",
        arguments: &[
            &[LOCK],
            &TARGETS,
            &CHOICES,
            &[NO_BUILD, STRICT, FILES, FORMAT, JSON],
        ],
        reply: help::MATRIX,
    },
    Usage {
        name: "status",
        about: "Print what is to be done so that an environment has the plan",
        arguments: &[
            &[LOCK, ENV],
            &TARGET,
            &[INSTALLED, EXACT],
            &CHOICES,
            &[STRICT, JSON],
        ],
        reply: help::STATUS,
    },
    Usage {
        name: "check",
        about: "Print whether a lock is still a project's",
        arguments: &[
            &[LOCK, PROJECT, ENV],
            &TARGET,
            &[MATRIX],
            &CHOICES,
            &[STRICT, JSON],
        ],
        reply: help::CHECK,
    },
    Usage {
        name: "show",
        about: "Print what a lock says of itself",
        arguments: &[&[LOCK, JSON]],
        reply: help::SHOW,
    },
    Usage {
        name: "files",
        about: "Print every source that a lock names, whatever machine it is for",
        arguments: &[&[LOCKS], &LEFT_OF_FILES, &[FORMAT, BASE, JSON]],
        reply: help::FILES,
    },
    Usage {
        name: "audit",
        about: "Print what a careful reader of a lock should know",
        arguments: &[&[
            LOCK,
            ENVIRONMENTS,
            ADVISORIES,
            HOST,
            FAIL_ON,
            IGNORE,
            CONFIG,
            FORMAT,
            JSON,
        ]],
        reply: help::AUDIT,
    },
    Usage {
        name: "diff",
        about: "Print what a change of a lock means",
        arguments: &[&[OLD, NEW, IN], &TARGET, &CHOICES, &[JSON]],
        reply: help::DIFF,
    },
    Usage {
        name: "environment",
        about: "Print the environment of a Python and a platform",
        arguments: &[&NEEDED_TARGET],
        reply: help::ENVIRONMENT,
    },
    Usage {
        name: "version",
        about: "Print the normal form of a version (PEP 440)",
        arguments: &[&[A_VERSION, JSON]],
        reply: help::VERSION,
    },
    Usage {
        name: "match",
        about: "Print whether a specifier set admits a version (PEP 440)",
        arguments: &[&[SET, VERSION, JSON]],
        reply: help::MATCH,
    },
    Usage {
        name: "name",
        about: "Print the normal form of a name (PEP 503)",
        arguments: &[&[A_NAME, JSON]],
        reply: help::NAME,
    },
    Usage {
        name: "marker",
        about: "Print whether a marker holds in an environment (PEP 508)",
        arguments: &[&[A_MARKER, ENV], &TARGET, &[JSON]],
        reply: help::MARKER,
    },
    Usage {
        name: "requirement",
        about: "Print the parts of a requirement (PEP 508)",
        arguments: &[&[A_REQUIREMENT, JSON]],
        reply: help::REQUIREMENT,
    },
    Usage {
        name: "wheel",
        about: "Print the parts of a wheel's file name (PEP 427)",
        arguments: &[&[A_WHEEL, JSON]],
        reply: help::WHEEL,
    },
    Usage {
        name: "sdist",
        about: "Print the parts of an sdist's file name (PEP 625)",
        arguments: &[&[AN_SDIST, JSON]],
        reply: help::SDIST,
    },
];

/// The subcommand, which takes its arguments.
pub(crate) fn subcommand<'a>(alloc: Global, usage: Usage) -> Result<Command<'a>, AllocError>
    ensures app { IsCommand (usage_app usage) result }
    ensures local { IsLocal result }
{
    with_groups(alloc, Ok(without_arguments(alloc, usage)), usage.arguments)
}

/// The subcommand, named as it is called.
pub(crate) fn called<'a>(alloc: Global, usage: Usage) -> Result<Command<'a>, AllocError> {
    let words = format!(in alloc; "pylock {}", usage.name)?;
    subcommand(alloc, usage)?.bin_name(&words)
}

/// A subcommand without its arguments.
fn without_arguments<'a>(alloc: Global, usage: Usage) -> Command<'a>
    ensures app { app_of result ≡ new_app usage.name.now }
    ensures local { (fields_of result).has_globals ≡ false }
{
    Command::new(alloc, usage.name)
        .about(usage.about)
        .after_help(usage.reply)
}
