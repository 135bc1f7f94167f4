//! An argument of a subcommand, and what clap is told of it.
ghost use Rattle.std.specs.Prelude.{◌≡◌, false, fold};
ghost use Rattle.clap.specs.Words.{rule_of, with_rule};
ghost use Rattle.pylock_command.specs.Argument.{argument_rule, with_argument, with_arguments};
ghost use Rattle.pylock_command.specs.Commands.{Adds, IsLocal};

use clap::{Arg, ArgAction, Command};
use std::alloc::{AllocError, Global};

/// An argument: its name, what it is, and its help.
#[derive(Clone, Copy)]
pub(crate) struct Argument {
    pub(crate) name: &'static str,
    pub(crate) kind: Kind,
    pub(crate) help: &'static str,
}

/// What an argument is. Of an option with a text it has what stands for the text in the help.
#[derive(Clone, Copy)]
pub(crate) enum Kind {
    /// A text that is known by its place, and has to be there.
    Text,
    /// A text that is known by its place, and may be left out.
    OptionalText,
    /// Texts that are known by their place, of which one has to be there.
    Texts,
    /// An option without a text, which stands once at most.
    Flag,
    /// An option with a text, which stands once at most.
    Single(&'static str),
    /// An option with a text, which has to be there once.
    Needed(&'static str),
    /// An option with a text, which may stand again with another one.
    Repeated(&'static str),
}

/// The command, which takes the arguments of these groups too.
pub(crate) fn with_groups<'a>(
    alloc: Global,
    command: Result<Command<'a>, AllocError>,
    groups: &[&'static [Argument]],
) -> Result<Command<'a>, AllocError>
    requires local { IsLocal command }
    ensures app { Adds (λ app. fold (λ app group. with_arguments app group.now) app groups.now)
        command.entry result }
    ensures local { IsLocal result }
{
    let mut command = command;
    for group in groups {
        command = with_arguments(alloc, command, *group);
    }
    command
}

/// The command, which takes these arguments too.
fn with_arguments<'a>(
    alloc: Global,
    command: Result<Command<'a>, AllocError>,
    arguments: &[Argument],
) -> Result<Command<'a>, AllocError>
    requires local { IsLocal command }
    ensures app { Adds (λ app. with_arguments app arguments.now) command.entry result }
    ensures local { IsLocal result }
{
    let mut command = command;
    for argument in arguments {
        command = with_argument(command, described(alloc, *argument));
    }
    command
}

/// The command with one more argument, unless memory ran out. Each step on the way to a command
/// takes what the one before it gave, and this function alone looks into it: a `?` at each step
/// would have the command's drop in every proof.
fn with_argument<'a>(
    command: Result<Command<'a>, AllocError>,
    argument: Arg<'a>,
) -> Result<Command<'a>, AllocError>
    requires local { IsLocal command }
    requires plain { argument.global ≡ false }
    ensures app { Adds (λ app. with_rule app (rule_of argument.entry)) command.entry result }
    ensures local { IsLocal result }
{
    command?.arg(argument)
}

/// The argument, as clap is told of it.
fn described<'a>(alloc: Global, argument: Argument) -> Arg<'a>
    ensures rule { rule_of result ≡ argument_rule argument }
    ensures local { result.global ≡ false }
{
    let described = Arg::new(alloc, argument.name).help(argument.help);
    match argument.kind {
        Kind::Text => described.required(true),
        Kind::OptionalText => described,
        Kind::Texts => described.required(true).action(ArgAction::Append),
        Kind::Flag => described.long(argument.name).action(ArgAction::SetTrue),
        Kind::Single(value) => single(described, argument.name, value),
        Kind::Needed(value) => single(described, argument.name, value).required(true),
        Kind::Repeated(value) => described
            .long(argument.name)
            .action(ArgAction::Append)
            .value_name(value),
    }
}

/// The argument as an option with a text, which stands once at most.
fn single<'a>(argument: Arg<'a>, name: &'static str, value: &'static str) -> Arg<'a>
    ensures rule { rule_of result ≡ record (rule_of argument.entry) {
      long = Some name.now;
      action = Some ArgAction.Set;
      value_names = 1;
    } }
    ensures local { result.global ≡ argument.entry.global }
{
    argument.long(name).action(ArgAction::Set).value_name(value)
}
