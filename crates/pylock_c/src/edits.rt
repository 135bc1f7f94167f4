//! The changes and the commands that C gives, by their texts.

ghost use Rattle.std.specs.Prelude.{◌≡◌, IfOk, Result, map};
ghost use Rattle.std.specs.List.{list_all, slice_split};
ghost use Rattle.pytext.specs.Agreement.{Gives};
ghost use Rattle.pyver_core.specs.Name.{is_name, normal_name};
ghost use Rattle.pymark_core.specs.declared.change.Change.{Change as ChangeValue};
ghost use Rattle.pymark_core.specs.declared.change.Change.TheVariants as change;
ghost use Rattle.pylock_core.specs.declared.edit.Edit.TheVariants as edit;
ghost use Rattle.pylock_run.specs.Line.{is_lf};
ghost use Rattle.pylock_run.specs.declared.line.refusal.LineRefusal.{LineRefusal as RefusalValue};
ghost use Rattle.pylock_run.specs.declared.line.refusal.LineRefusal.TheVariants.{Memory};
ghost use Rattle.pylock_c.specs.Edits.{change_command, entry_command, named_change, policy_command};
ghost use Rattle.pylock_c.specs.Edits.{listed_texts, names_argument, names_change, names_policy};
ghost use Rattle.pylock_c.specs.Edits.{set_change, tags_command};
ghost use Rattle.pylock_c.specs.Edits.{target_argument, target_command, unset_change};
ghost use Rattle.pywheel_core.specs.Target.Reading.{target_of};

use pylock_core::{Edit, Entry, NameChange, Policy};
use pylock_run::{Command, LineRefusal, policy_argument, variable_argument};
use pylock_slots::{NamesEdit, text};
use pymark_core::Change;
use pytext::Text;
use pyver_core::{NormalName, is_name};
use pywheel_core::{TagList, Target};
use std::alloc::{AllocError, Global};

pub(crate) fn set_change(alloc: Global, name: &[u8], value: &[u8]) -> Result<Change, LineRefusal>
    ensures { Gives Memory (λ change. change) result (set_change name.now value.now) }
{
    let name = text(name)?;
    let value = text(value)?;
    let variable = variable_argument(name)?;
    Ok(Change::Set(variable, Text::copy_of(alloc, value)?))
}

pub(crate) fn unset_change(name: &[u8]) -> Result<Change, LineRefusal>
    ensures { Gives Memory (λ change. change) result (unset_change name.now) }
{
    Ok(Change::Unset(variable_argument(text(name)?)?))
}

pub(crate) fn add_extra_change(alloc: Global, name: &[u8]) -> Result<Change, LineRefusal>
    ensures { Gives Memory (λ change. change) result (named_change change.AddExtra name.now) }
{
    Ok(Change::AddExtra(NormalName::new(alloc, text(name)?)?))
}

pub(crate) fn drop_extra_change(alloc: Global, name: &[u8]) -> Result<Change, LineRefusal>
    ensures { Gives Memory (λ change. change) result (named_change change.DropExtra name.now) }
{
    Ok(Change::DropExtra(NormalName::new(alloc, text(name)?)?))
}

pub(crate) fn add_group_change(alloc: Global, name: &[u8]) -> Result<Change, LineRefusal>
    ensures { Gives Memory (λ change. change) result (named_change change.AddGroup name.now) }
{
    Ok(Change::AddGroup(NormalName::new(alloc, text(name)?)?))
}

pub(crate) fn drop_group_change(alloc: Global, name: &[u8]) -> Result<Change, LineRefusal>
    ensures { Gives Memory (λ change. change) result (named_change change.DropGroup name.now) }
{
    Ok(Change::DropGroup(NormalName::new(alloc, text(name)?)?))
}

/// The normal forms of the names of a list.
fn names_argument(alloc: Global, bytes: &[u8]) -> Result<Vec<NormalName>, LineRefusal>
    ensures { Gives Memory (λ names. names.items) result (names_argument bytes.now) }
{
    let texts = listed_texts(alloc, text(bytes)?)?;
    Ok(normal_names(alloc, &texts)?)
}

/// The change for each of the names of a list.
pub(crate) fn names_change(
    alloc: Global,
    change: NameChange,
    bytes: &[u8],
) -> Result<(NamesEdit, Vec<NormalName>), LineRefusal>
    ensures { Gives Memory (λ read. (read.0, read.1.items)) result
        (names_change change bytes.now) }
{
    Ok((NamesEdit::Change(change), names_argument(alloc, bytes)?))
}

/// The policy of each of the names of a list.
pub(crate) fn names_policy(
    alloc: Global,
    bytes: &[u8],
    word: &[u8],
) -> Result<(NamesEdit, Vec<NormalName>), LineRefusal>
    ensures { Gives Memory (λ read. (read.0, read.1.items)) result
        (names_policy bytes.now word.now) }
{
    let names = text(bytes)?;
    let policy = policy_argument(text(word)?)?;
    let texts = listed_texts(alloc, names)?;
    if !are_names(&texts) {
        return Err(LineRefusal::Name);
    }
    Ok((NamesEdit::Policy(policy), normal_names(alloc, &texts)?))
}

fn are_names(texts: &[&str]) -> bool
    ensures { result ≡ list_all is_name (map (λ text. text.now) texts.now) }
{
    for text in texts {
        if !is_name(text) {
            return false;
        }
    }
    true
}

fn normal_names(alloc: Global, texts: &[&str]) -> Result<Vec<NormalName>, AllocError>
    ensures { IfOk result (λ names. names.items
        ≡ map normal_name (map (λ text. text.now) texts.now)) }
{
    let mut names = Vec::with_capacity(alloc, texts.len())?;
    for text in texts {
        names.push(NormalName::new(alloc, text)?)?;
    }
    Ok(names)
}

/// The command that changes the environment.
pub(crate) fn change_command(change: Result<Change, LineRefusal>) -> Result<Command, LineRefusal>
    ensures { (definition : Result ChangeValue RefusalValue)
        → Gives Memory (λ c. c) change definition
        → Gives Memory (λ c. c) result (change_command definition) }
{
    Ok(Command::Edit(Edit::Environment(change?)))
}

/// The texts of a list, with an LF between two.
fn listed_texts(alloc: Global, text: &str) -> Result<Vec<&str>, AllocError>
    ensures { IfOk result (λ texts. map (λ text. text.now) texts.items ≡ listed_texts text.now) }
{
    if text.is_empty() {
        return Ok(Vec::new(alloc));
    }
    lines(alloc, text)
}

fn lines(alloc: Global, text: &str) -> Result<Vec<&str>, AllocError>
    ensures { IfOk result (λ lines. map (λ line. line.now) lines.items
        ≡ slice_split is_lf text.now) }
{
    text.split('\n').collect(alloc)
}

pub(crate) fn tags_command(alloc: Global, bytes: &[u8]) -> Result<Command, LineRefusal>
    ensures { Gives Memory (λ command. command) result (tags_command bytes.now) }
{
    let texts = listed_texts(alloc, text(bytes)?)?;
    Ok(Command::Edit(Edit::Tags(TagList::parse(alloc, &texts)?)))
}

/// The target of these texts.
fn target_of(python: &str, platform: &str) -> Result<Target, LineRefusal>
    ensures { result ≡ target_argument (target_of python.now platform.now) }
{
    match Target::parse(python, platform) {
        Ok(target) => Ok(target),
        Err(_) => Err(LineRefusal::Argument),
    }
}

pub(crate) fn target_command(
    alloc: Global,
    python: &[u8],
    platform: &[u8],
) -> Result<Command, LineRefusal>
    ensures { Gives Memory (λ command. command) result
        (target_command python.now platform.now) }
{
    let python = text(python)?;
    let platform = text(platform)?;
    let target = target_of(python, platform)?;
    Ok(Command::Edit(Edit::Tags(TagList::of_target(alloc, &target)?)))
}

pub(crate) fn add_command(alloc: Global, bytes: &[u8]) -> Result<Command, LineRefusal>
    ensures { Gives Memory (λ command. command) result (entry_command edit.Add bytes.now) }
{
    let entry = Entry::read_text(alloc, text(bytes)?)?;
    Ok(Command::Edit(Edit::Add(entry)))
}

pub(crate) fn put_command(alloc: Global, number: u32, bytes: &[u8]) -> Result<Command, LineRefusal>
    ensures { Gives Memory (λ command. command) result (entry_command (edit.Put number) bytes.now) }
{
    let entry = Entry::read_text(alloc, text(bytes)?)?;
    Ok(Command::Edit(Edit::Put(number, entry)))
}

pub(crate) fn policy_command(
    alloc: Global,
    name: &[u8],
    word: &[u8],
) -> Result<Command, LineRefusal>
    ensures { Gives Memory (λ command. command) result (policy_command name.now word.now) }
{
    let name = text(name)?;
    let policy = policy_argument(text(word)?)?;
    if !is_name(name) {
        return Err(LineRefusal::Name);
    }
    Ok(Command::Edit(Edit::Policy(NormalName::new(alloc, name)?, policy)))
}
