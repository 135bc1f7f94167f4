//! The commands of an input.

ghost use Rattle.std.specs.Option.{option_copied};
ghost use Rattle.pytext.specs.Agreement.{Gives};
ghost use Rattle.pylock_run.specs.Line.Commands.{add_after, change_after, command_after, del_after};
ghost use Rattle.pylock_run.specs.Line.Commands.{edit_after, name_after, policy_after};
ghost use Rattle.pylock_run.specs.Line.Commands.{policy_argument, put_after, set_after, show_after};
ghost use Rattle.pylock_run.specs.Line.Commands.{tags_after, unset_after, variable_argument};

use crate::line::argument::{nonempty_text, number_argument, pieces, split_at_space};
use crate::line::refusal::LineRefusal;
use pylock_core::{Edit, Entry, Policy};
use pymark_core::{Change, Var};
use pytext::Text;
use pyver_core::{NormalName, is_name};
use pywheel_core::TagList;
use std::alloc::Global;

/// What a line asks for.
#[derive(Drop)]
pub enum Command {
    /// The answer as it stands.
    Show,
    /// An edit of the session.
    Edit(Edit),
}

/// What a command's word and its argument ask for; an edit takes an absent argument as an empty
/// one. It takes memory for what the edit holds.
#[tactic(auto, unfolding(crate::specs::Line::Commands::command_after))]
pub fn read_command(
    alloc: Global,
    word: &str,
    argument: Option<&str>,
) -> Result<Command, LineRefusal>
    ensures { Gives LineRefusal.Memory (λ c. c) result
        (command_after word.now (option_copied argument.entry)) }
{
    if word == "show" {
        return read_show(argument);
    }
    let edit = read_edit(alloc, word, argument.unwrap_or(""))?;
    Ok(Command::Edit(edit))
}

fn read_show(argument: Option<&str>) -> Result<Command, LineRefusal>
    ensures { Gives LineRefusal.Memory (λ c. c) result (show_after (option_copied argument.entry)) }
{
    match argument {
        None => Ok(Command::Show),
        Some(_) => Err(LineRefusal::Argument),
    }
}

#[tactic(auto, unfolding(crate::specs::Line::Commands::edit_after))]
fn read_edit(alloc: Global, word: &str, argument: &str) -> Result<Edit, LineRefusal>
    ensures { Gives LineRefusal.Memory (λ e. e) result (edit_after word.now argument.now) }
{
    match word {
        "tags" => read_tags(alloc, argument),
        "add" => read_add(alloc, argument),
        "put" => read_put(alloc, argument),
        "del" => read_del(argument),
        "policy" => read_policy(alloc, argument),
        _ => Ok(Edit::Environment(read_change(alloc, word, argument)?)),
    }
}

#[tactic(auto, unfolding(crate::specs::Line::Commands::change_after))]
fn read_change(alloc: Global, word: &str, argument: &str) -> Result<Change, LineRefusal>
    ensures { Gives LineRefusal.Memory (λ c. c) result (change_after word.now argument.now) }
{
    match word {
        "set" => read_set(alloc, argument),
        "unset" => read_unset(argument),
        "extra+" => Ok(Change::AddExtra(read_name(alloc, LineRefusal::Extra, argument)?)),
        "extra-" => Ok(Change::DropExtra(read_name(alloc, LineRefusal::Extra, argument)?)),
        "group+" => Ok(Change::AddGroup(read_name(alloc, LineRefusal::Group, argument)?)),
        "group-" => Ok(Change::DropGroup(read_name(alloc, LineRefusal::Group, argument)?)),
        _ => Err(LineRefusal::Command),
    }
}

#[tactic(auto, unfolding(crate::specs::Line::Commands::set_after))]
fn read_set(alloc: Global, argument: &str) -> Result<Change, LineRefusal>
    ensures { Gives LineRefusal.Memory (λ c. c) result (set_after argument.now) }
{
    let (name, value) = split_at_space(argument)?;
    let variable = variable_argument(name)?;
    Ok(Change::Set(variable, Text::copy_of(alloc, value)?))
}

#[tactic(auto, unfolding(crate::specs::Line::Commands::unset_after))]
fn read_unset(argument: &str) -> Result<Change, LineRefusal>
    ensures { Gives LineRefusal.Memory (λ c. c) result (unset_after argument.now) }
{
    let variable = variable_argument(nonempty_text(argument)?)?;
    Ok(Change::Unset(variable))
}

/// The argument, which has to be a name.
#[tactic(auto, unfolding(crate::specs::Line::Commands::name_after))]
fn read_name(alloc: Global, unknown: LineRefusal, argument: &str) -> Result<NormalName, LineRefusal>
    ensures { Gives LineRefusal.Memory (λ name. name) result (name_after unknown argument.now) }
{
    let text = nonempty_text(argument)?;
    if !is_name(text) {
        return Err(unknown);
    }
    Ok(NormalName::new(alloc, text)?)
}

#[tactic(auto, unfolding(crate::specs::Line::Commands::tags_after))]
fn read_tags(alloc: Global, argument: &str) -> Result<Edit, LineRefusal>
    ensures { Gives LineRefusal.Memory (λ e. e) result (tags_after argument.now) }
{
    let texts = pieces(alloc, argument)?;
    Ok(Edit::Tags(TagList::parse(alloc, &texts)?))
}

#[tactic(auto, unfolding(crate::specs::Line::Commands::add_after))]
fn read_add(alloc: Global, argument: &str) -> Result<Edit, LineRefusal>
    ensures { Gives LineRefusal.Memory (λ e. e) result (add_after argument.now) }
{
    let text = nonempty_text(argument)?;
    Ok(Edit::Add(Entry::read_text(alloc, text)?))
}

#[tactic(auto, unfolding(crate::specs::Line::Commands::put_after))]
fn read_put(alloc: Global, argument: &str) -> Result<Edit, LineRefusal>
    ensures { Gives LineRefusal.Memory (λ e. e) result (put_after argument.now) }
{
    let (id, text) = split_at_space(argument)?;
    let number = number_argument(id)?;
    let text = nonempty_text(text)?;
    Ok(Edit::Put(number, Entry::read_text(alloc, text)?))
}

#[tactic(auto, unfolding(crate::specs::Line::Commands::del_after))]
fn read_del(argument: &str) -> Result<Edit, LineRefusal>
    ensures { Gives LineRefusal.Memory (λ e. e) result (del_after argument.now) }
{
    let number = number_argument(argument)?;
    Ok(Edit::Del(number))
}

#[tactic(auto, unfolding(crate::specs::Line::Commands::policy_after))]
fn read_policy(alloc: Global, argument: &str) -> Result<Edit, LineRefusal>
    ensures { Gives LineRefusal.Memory (λ e. e) result (policy_after argument.now) }
{
    let (name, word) = split_at_space(argument)?;
    let policy = policy_argument(word)?;
    if !is_name(name) {
        return Err(LineRefusal::Name);
    }
    Ok(Edit::Policy(NormalName::new(alloc, name)?, policy))
}

/// The variable of markers that has this name; another name is refused as `Variable`.
pub fn variable_argument(name: &str) -> Result<Var, LineRefusal>
    ensures { Gives LineRefusal.Memory (λ v. v) result (variable_argument name.now) }
{
    Var::of(name).ok_or(LineRefusal::Variable)
}

/// The policy of a word, `any`, `wheel` or `source`; another word is refused as `Argument`.
pub fn policy_argument(word: &str) -> Result<Policy, LineRefusal>
    ensures { Gives LineRefusal.Memory (λ p. p) result (policy_argument word.now) }
{
    match word {
        "any" => Ok(Policy::Any),
        "wheel" => Ok(Policy::Wheel),
        "source" => Ok(Policy::Source),
        _ => Err(LineRefusal::Argument),
    }
}
