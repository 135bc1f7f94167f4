//! What an environment says, as a record (PEP 508, "Environment Markers"; PEP 751, "Installation").

ghost use Rattle.std.specs.Prelude.{◌≡◌, ◌++◌, IfOk, OnOk};
ghost use Rattle.std.specs.List.{flat_map};
ghost use Rattle.pylock_values.specs.Environments.{IsRecordOf, name_parts, pair, variable_parts};
ghost use Rattle.pylock_values.specs.Record.{next_field};

use crate::record::without_first;
use pylock_run::push_next_field;
use pymark_core::{Environment, Names, Var};
use std::alloc::{AllocError, Global};

/// The record of an environment, in pairs of fields: the name of each variable that is set, and its
/// text; the word `extras` and the name of each extra that is asked for; the word
/// `dependency_groups` and the name of each group. Names are in normal form and in the order of
/// their bytes. It takes memory for the record.
pub fn environment_record(alloc: Global, environment: &Environment) -> Result<Vec<u8>, AllocError>
    ensures { IfOk result (λ made. IsRecordOf environment.now made.items) }
{
    let mut fields = Vec::new(alloc);
    push_variables(&mut fields, environment, &Var::all())?;
    push_names(&mut fields, "extras", environment.extras())?;
    push_names(&mut fields, "dependency_groups", environment.groups())?;
    without_first(alloc, &fields)
}

/// Pushes the fields of these variables, each behind a TAB.
fn push_variables(
    out: &mut Vec<u8>,
    environment: &Environment,
    variables: &[Var],
) -> Result<(), AllocError>
    ensures { OnOk result (out.new.items ≡ out.old.items
        ++ flat_map next_field (flat_map (variable_parts environment.now) variables.now)) }
{
    for variable in variables {
        push_variable(out, environment, *variable)?;
    }
    Ok(())
}

/// Pushes both fields of a variable, if it is set.
fn push_variable(
    out: &mut Vec<u8>,
    environment: &Environment,
    variable: Var,
) -> Result<(), AllocError>
    ensures { OnOk result (out.new.items ≡ out.old.items
        ++ flat_map next_field (variable_parts environment.now variable)) }
{
    match environment.get(variable) {
        Some(text) => push_pair(out, variable.name(), text),
        None => Ok(()),
    }
}

/// Pushes the fields of the names of a set.
fn push_names(out: &mut Vec<u8>, word: &str, names: Names<'_>) -> Result<(), AllocError>
    ensures { OnOk result (out.new.items ≡ out.old.items
        ++ flat_map next_field (name_parts word.now names.entry)) }
{
    for name in names {
        push_pair(out, word, name)?;
    }
    Ok(())
}

/// Pushes two fields.
fn push_pair(out: &mut Vec<u8>, word: &str, text: &str) -> Result<(), AllocError>
    ensures { OnOk result (out.new.items ≡ out.old.items
        ++ flat_map next_field (pair word.now text.now)) }
{
    push_next_field(out, Some(word))?;
    push_next_field(out, Some(text))
}
