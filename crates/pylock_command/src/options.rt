//! The options of `plan` and `explain`: what clap is told of them, and what it found.
ghost use Rattle.std.specs.Prelude.{◌≡◌, ◌++◌, List, map, IfOk, OnOk, Some, None};
ghost use Rattle.clap.specs.Words.{found_of, rows_of};
ghost use Rattle.pylock_command.specs.PlanOptions.{AreLeft, AreOptions, AreOnFiles, OptionWords};
ghost use Rattle.pylock_command.specs.PlanOptions.{flag_of, on_extras, on_groups, on_left, on_plan};
ghost use Rattle.pylock_command.specs.PlanOptions.{option_words, texts_at, texts_of};

use crate::argument::{Argument, Kind};
use crate::option::PlanOption;
use crate::texts::has_flag;
use clap::ArgMatches;
use std::alloc::{AllocError, Global};

/// The options, in the order of the help.
pub(crate) const CHOICES: [Argument; 9] = [
    Argument {
        name: "all-extras",
        kind: Kind::Flag,
        help: "Ask for each extra of the lock",
    },
    Argument {
        name: "extra",
        kind: Kind::Repeated("NAME"),
        help: "Ask for an extra of the lock: --extra test",
    },
    Argument {
        name: "no-default-groups",
        kind: Kind::Flag,
        help: "Leave out the default groups",
    },
    Argument {
        name: "all-groups",
        kind: Kind::Flag,
        help: "Ask for each group of the lock",
    },
    Argument {
        name: "group",
        kind: Kind::Repeated("NAME"),
        help: "Ask for a group of the lock: --group test",
    },
    Argument {
        name: "no-group",
        kind: Kind::Repeated("NAME"),
        help: "Leave out a group of the lock: --no-group dev",
    },
    Argument {
        name: "only-binary",
        kind: Kind::Repeated("NAME"),
        help: "Take wheels alone: --only-binary numpy, or :all:",
    },
    Argument {
        name: "no-binary",
        kind: Kind::Repeated("NAME"),
        help: "Take no wheels: --no-binary numpy, or :all:",
    },
    Argument {
        name: "set",
        kind: Kind::Repeated("VARIABLE=VALUE"),
        help: "Give a marker variable a text: --set os_name=nt",
    },
];

/// Leaves out the project itself.
const NO_PROJECT: Argument = Argument {
    name: "no-project",
    kind: Kind::Flag,
    help: "Leave out what is editable, and the lock's folder",
};

/// What is left of a plan, in the order of the help.
pub(crate) const LEFT: [Argument; 3] = [
    Argument {
        name: "only",
        kind: Kind::Repeated("NAME"),
        help: "Print of the plan this package alone, or these",
    },
    Argument {
        name: "except",
        kind: Kind::Repeated("NAME"),
        help: "Leave this package out of the plan",
    },
    NO_PROJECT,
];

/// What is left of the sources of locks, in the order of the help.
pub(crate) const LEFT_OF_FILES: [Argument; 3] = [
    Argument {
        name: "only",
        kind: Kind::Repeated("NAME"),
        help: "Print the sources of this package alone, or these",
    },
    Argument {
        name: "except",
        kind: Kind::Repeated("NAME"),
        help: "Leave out the sources of this package",
    },
    NO_PROJECT,
];

/// The options that the words have, in the order in which `PlanOption` names them.
pub(crate) fn options_of<'a>(
    alloc: Global,
    found: &ArgMatches<'a>,
) -> Result<Vec<PlanOption<'a>>, AllocError>
    ensures { IfOk result (λ options. AreOptions (rows_of (found_of found.now)) options.items) }
{
    let mut options = Vec::new(alloc);
    push_on_extras(&mut options, found)?;
    push_on_groups(&mut options, found)?;
    push_on_files(&mut options, found)?;
    push_on_plan(&mut options, found)?;
    Ok(options)
}

/// The options that say what is left, and no others, in the order in which `PlanOption` names them.
pub(crate) fn left_of<'a>(
    alloc: Global,
    found: &ArgMatches<'a>,
) -> Result<Vec<PlanOption<'a>>, AllocError>
    ensures { IfOk result (λ options. AreLeft (rows_of (found_of found.now)) options.items) }
{
    let mut options = Vec::new(alloc);
    push_left(&mut options, found)?;
    Ok(options)
}

/// Pushes what the words say of extras.
fn push_on_extras<'a>(
    list: &mut Vec<PlanOption<'a>>,
    found: &ArgMatches<'a>,
) -> Result<(), AllocError>
    ensures { OnOk result (map option_words list.new.items
        ≡ map option_words list.old.items ++ on_extras (rows_of (found_of found.now))) }
{
    push_flag(list, found, "all-extras", PlanOption::AllExtras)?;
    push_texts(list, found, "extra", |name| PlanOption::Extra(name))
}

/// Pushes what the words say of dependency groups.
fn push_on_groups<'a>(
    list: &mut Vec<PlanOption<'a>>,
    found: &ArgMatches<'a>,
) -> Result<(), AllocError>
    ensures { OnOk result (map option_words list.new.items
        ≡ map option_words list.old.items ++ on_groups (rows_of (found_of found.now))) }
{
    push_flag(
        list,
        found,
        "no-default-groups",
        PlanOption::NoDefaultGroups,
    )?;
    push_flag(list, found, "all-groups", PlanOption::AllGroups)?;
    push_texts(list, found, "group", |name| PlanOption::Group(name))?;
    push_texts(list, found, "no-group", |name| PlanOption::NoGroup(name))
}

/// Pushes what the words say of variables, and of which packages of a plan are left.
fn push_on_plan<'a>(
    list: &mut Vec<PlanOption<'a>>,
    found: &ArgMatches<'a>,
) -> Result<(), AllocError>
    ensures { OnOk result (map option_words list.new.items
        ≡ map option_words list.old.items ++ on_plan (rows_of (found_of found.now))) }
{
    push_texts(list, found, "set", |text| PlanOption::Set(text))?;
    push_left(list, found)
}

/// Pushes what the words say of which packages are left.
fn push_left<'a>(list: &mut Vec<PlanOption<'a>>, found: &ArgMatches<'a>) -> Result<(), AllocError>
    ensures { OnOk result (map option_words list.new.items
        ≡ map option_words list.old.items ++ on_left (rows_of (found_of found.now))) }
{
    push_texts(list, found, "only", |name| PlanOption::Only(name))?;
    push_texts(list, found, "except", |name| PlanOption::Except(name))?;
    push_flag(list, found, "no-project", PlanOption::NoProject)
}

/// Pushes what the words say of files, in their order.
fn push_on_files<'a>(
    list: &mut Vec<PlanOption<'a>>,
    found: &ArgMatches<'a>,
) -> Result<(), AllocError>
    ensures { OnOk result ((on_files : List OptionWords)
        × AreOnFiles (rows_of (found_of found.now)) on_files
        × (map option_words list.new.items ≡ map option_words list.old.items ++ on_files)) }
{
    let wheels = texts(found, "only-binary");
    let sources = texts(found, "no-binary");
    let wheel_positions = positions(found, "only-binary");
    let source_positions = positions(found, "no-binary");
    let (mut wheel, mut source) = (0, 0);
    while wheel < wheels.len() || source < sources.len() {
        let is_first = wheel_positions.get(wheel) < source_positions.get(source);
        if source == sources.len() || (wheel < wheels.len() && is_first) {
            list.push(PlanOption::OnlyBinary(wheels[wheel]))?;
            wheel += 1;
        } else {
            list.push(PlanOption::NoBinary(sources[source]))?;
            source += 1;
        }
    }
    Ok(())
}

/// Pushes an option without a text, if the words have it.
fn push_flag<'a>(
    list: &mut Vec<PlanOption<'a>>,
    found: &ArgMatches<'a>,
    name: &str,
    option: PlanOption<'a>,
) -> Result<(), AllocError>
    requires { option_words option ≡ (name.now, None) }
    ensures { OnOk result (map option_words list.new.items
        ≡ map option_words list.old.items ++ flag_of name.now (rows_of (found_of found.now))) }
{
    if has_flag(found, name) {
        list.push(option)?;
    }
    Ok(())
}

/// Pushes an option with each text that the words give it.
fn push_texts<'a, F: Fn(&'a str) -> PlanOption<'a>>(
    list: &mut Vec<PlanOption<'a>>,
    found: &ArgMatches<'a>,
    name: &str,
    option: F,
) -> Result<(), AllocError>
    requires called { F.IsAlwaysCallable option }
    requires named { (text : _) (chosen : PlanOption) → F.post option text chosen
        → option_words chosen ≡ (name.now, Some text.now) }
    ensures { OnOk result (map option_words list.new.items
        ≡ map option_words list.old.items ++ texts_of name.now (rows_of (found_of found.now))) }
{
    for text in texts(found, name) {
        list.push(option(*text))?;
    }
    Ok(())
}

/// The texts that the words give an option.
pub(crate) fn texts<'b, 'a>(found: &'b ArgMatches<'a>, name: &str) -> &'b [&'a str]
    ensures { map (λ text. text.now) result.now ≡ texts_at name.now (rows_of (found_of found.now)) }
{
    found.get_strs(name).unwrap_or_default()
}

/// The positions of an option's texts among the words.
fn positions<'b>(found: &'b ArgMatches<'_>, name: &str) -> &'b [usize] {
    found.indices_of(name).unwrap_or_default()
}
