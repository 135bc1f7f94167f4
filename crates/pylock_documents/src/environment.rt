//! The environment of a target as a text.

ghost use Rattle.std.specs.Prelude.{◌≡◌, IfOk, map, string_bytes};
ghost use Rattle.serde_json.specs.View.{members_view};
ghost use Rattle.pylock_json.specs.Json.{members_of};
ghost use Rattle.pylock_documents.specs.Environment.{target_text, variable_row};

use crate::texts::tags_list;
use pylock_json::Object;
use pylock_readers::target_environment;
use pymark_core::{Environment, Var};
use pywheel_core::Target;
use std::alloc::{AllocError, Global};

/// The environment of a target and its list of tags, as a text that
/// [`read_environment`](pylock_readers::read_environment) takes: JSON without white space, and LF.
/// It takes memory for the text and, while it is made, for the environment, the tags and their
/// object.
pub fn environment_text(alloc: Global, target: &Target) -> Result<String, AllocError>
    ensures { IfOk result (λ text. string_bytes text ≡ target_text target.now) }
{
    let (environment, tags) = target_environment(alloc, target)?;
    let variables = variables_object(alloc, &environment, &Var::all())?;
    let tags = tags_list(alloc, tags.tags())?;
    let mut object = Object::new(alloc);
    object.put(alloc, "environment", variables.into_json())?;
    object.put(alloc, "tags", tags.into_json())?;
    let mut text = object.into_json().to_text(alloc)?;
    text.push_str("\n")?;
    Ok(text)
}

/// The texts of the variables that have one.
fn variables_object(
    alloc: Global,
    environment: &Environment,
    variables: &[Var],
) -> Result<Object, AllocError>
    ensures { IfOk result (λ object. members_view object
        ≡ members_of (map (variable_row environment.now) variables.now)) }
{
    let mut object = Object::new(alloc);
    for variable in variables {
        object.put_maybe(alloc, variable.name(), environment.get(*variable))?;
    }
    Ok(object)
}
