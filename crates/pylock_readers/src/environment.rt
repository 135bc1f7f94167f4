//! Environments from their texts.
ghost use Rattle.std.specs.Prelude.{◌≡◌, IfOk, map, option_map};
ghost use Rattle.std.specs.Option.{option_copied};
ghost use Rattle.serde_json.specs.Find.{get_member};
ghost use Rattle.serde_json.specs.View.{view, items_view, members_view};
ghost use Rattle.pytext.specs.Agreement.{Gives};
ghost use Rattle.pymark_core.specs.Environment.{empty_environment};
ghost use Rattle.pymark_core.specs.Variables.{variable_name, variables};
ghost use Rattle.pylock_readers.specs.Environment.{members_in, tag_items, member_text_in};
ghost use Rattle.pylock_readers.specs.Environment.{with_members, texts_in, tag_refusal};
ghost use Rattle.pylock_readers.specs.Environment.{tag_list_of, env_in, value_of, env_of};
ghost use Rattle.pylock_readers.specs.Input.{input_env_of};

use crate::error::EnvError;
use crate::target::read_target;
use crate::text::as_text;
use pymark_core::{Environment, Var};
use pywheel_core::{TagList, TagListError};
use serde_json::{Map, Value};
use std::alloc::{AllocError, Global};

/// What an environment is made from.
#[derive(Clone, Copy, Debug)]
pub enum EnvironmentInput<'a> {
    /// Its JSON text.
    Text(&'a [u8]),
    /// A target in its place.
    Target {
        /// The word of its Python, such as `3.12`.
        python: &'a str,
        /// The word of its platform, such as `manylinux_2_28_x86_64`.
        platform: &'a str,
    },
}

impl EnvironmentInput<'_> {
    /// Reads the environment and its tags, as [`read_environment`] or [`read_target`] does.
    pub fn read(self, alloc: Global) -> Result<(Environment, TagList), EnvError>
        ensures { Gives EnvError.Memory (λ e. e) result (input_env_of self.entry) }
    {
        match self {
            EnvironmentInput::Text(bytes) => read_environment(alloc, bytes),
            EnvironmentInput::Target { python, platform } => read_target(alloc, python, platform),
        }
    }
}

/// Reads the text of an environment: a JSON object with `environment`, an object whose members
/// named like a variable of markers are texts, and `tags`, a list of texts, each a tag (PEP 425).
/// Other members are ignored. The refusals come in the order of `EnvError`.
///
/// Gives the environment with these variables set and nothing asked for, and the list of the tags.
/// Takes memory for the JSON value and for both of them.
#[tactic(auto, unfolding(crate::specs::Environment::env_of))]
pub fn read_environment(alloc: Global, bytes: &[u8]) -> Result<(Environment, TagList), EnvError>
    ensures { Gives EnvError.Memory (λ e. e) result (env_of bytes.now) }
{
    let text = as_text(bytes).ok_or(EnvError::Json)?;
    let value = json(alloc, text)?;
    read_value(alloc, &value)
}

fn json(alloc: Global, text: &str) -> Result<Value, EnvError>
    ensures { Gives EnvError.Memory view result (value_of text.now) }
{
    match Value::from_str(alloc, text) {
        Ok(value) => Ok(value),
        Err(fault) if fault.is_memory() => Err(EnvError::Memory),
        Err(_) => Err(EnvError::Json),
    }
}

#[tactic(auto, unfolding(crate::specs::Environment::env_in))]
fn read_value(alloc: Global, value: &Value) -> Result<(Environment, TagList), EnvError>
    ensures { Gives EnvError.Memory (λ e. e) result (env_in (view value.now)) }
{
    let members = members(value)?;
    let environment = read_variables(alloc, members)?;
    let items = tags(value)?;
    let texts = texts(alloc, items)?;
    let tags = tag_list(alloc, &texts)?;
    Ok((environment, tags))
}

fn members(value: &Value) -> Result<&Map<String, Value>, EnvError>
    ensures { Gives EnvError.Memory (λ m. members_view m.now.entries) result
        (members_in (view value.now)) }
{
    let value = value.get("environment").ok_or(EnvError::Shape)?;
    value.as_object().ok_or(EnvError::Shape)
}

fn tags(value: &Value) -> Result<&[Value], EnvError>
    ensures { Gives EnvError.Memory (λ v. items_view v.now) result (tag_items (view value.now)) }
{
    let value = value.get("tags").ok_or(EnvError::Shape)?;
    Ok(value.as_array().ok_or(EnvError::Shape)?.as_slice())
}

/// The environment where each variable has the text of the member of its name.
fn read_variables(alloc: Global, members: &Map<String, Value>) -> Result<Environment, EnvError>
    ensures { Gives EnvError.Memory (λ e. e) result
        (with_members variables (members_view members.now.entries) empty_environment) }
{
    let mut environment = Environment::new(alloc);
    set_members(&mut environment, members, &Var::all())?;
    Ok(environment)
}

/// Gives each of these variables the text of the member of its name.
#[tactic(auto, unfolding(crate::specs::Environment::with_members))]
fn set_members(
    environment: &mut Environment,
    members: &Map<String, Value>,
    variables: &[Var],
) -> Result<(), EnvError>
    ensures { Gives EnvError.Memory (λ _. environment.new) result
        (with_members variables.now (members_view members.now.entries) environment.old) }
{
    for variable in variables {
        if let Some(text) = member_text(members, *variable)? {
            environment.set(*variable, text)?;
        }
    }
    Ok(())
}

/// The text of the member that is named like the variable.
fn member_text(members: &Map<String, Value>, variable: Var) -> Result<Option<&str>, EnvError>
    ensures { Gives EnvError.Memory option_copied result
        (member_text_in (get_member (variable_name variable) (members_view members.now.entries))) }
{
    match member(members, variable.name()) {
        None => Ok(None),
        Some(value) => match value.as_str() {
            Some(text) => Ok(Some(text)),
            None => Err(EnvError::Shape),
        },
    }
}

fn member<'a>(members: &'a Map<String, Value>, name: &str) -> Option<&'a Value>
    ensures { option_map (λ value. view value.now) result
        ≡ get_member name.now (members_view members.now.entries) }
{
    members.get(name)
}

/// The texts of a list of texts.
fn texts(alloc: Global, items: &[Value]) -> Result<Vec<&str>, EnvError>
    ensures { Gives EnvError.Memory (λ v. map (λ text. text.now) v.items) result
        (texts_in (items_view items.now)) }
{
    let mut texts = Vec::with_capacity(alloc, items.len())?;
    for item in items {
        texts.push(item.as_str().ok_or(EnvError::Shape)?)?;
    }
    Ok(texts)
}

fn tag_list(alloc: Global, texts: &[&str]) -> Result<TagList, EnvError>
    ensures { Gives EnvError.Memory (λ l. l) result
        (tag_list_of (map (λ text. text.now) texts.now)) }
{
    match TagList::parse(alloc, texts) {
        Ok(tags) => Ok(tags),
        Err(TagListError::Tag(place)) => Err(EnvError::Tag(place)),
        Err(TagListError::Memory) => Err(EnvError::Memory),
    }
}
