//! A project from the bytes of its file.

ghost use Rattle.std.specs.Prelude.{◌≡◌, [], option_map};
ghost use Rattle.std.specs.Option.{option_copied};
ghost use Rattle.toml.specs.View.{items_view, view};
ghost use Rattle.pytext.specs.Agreement.{Gives};
ghost use Rattle.pylock_readers.specs.Text.{utf8_text};
ghost use Rattle.pylock_check.specs.Reading.{document_of, dynamic_in, project_in, project_of};
ghost use Rattle.pylock_check.specs.Reading.{project_table, python_of, requires_python_in};
ghost use Rattle.pylock_check.specs.Reading.{value_at, with_texts};

use crate::error::ProjectError;
use crate::groups::require_proper;
use crate::project::Project;
use crate::requirements::{ListKind, dependencies_in, wrong_type};
use crate::sections::sections_in;
use pytext::Text;
use pytoml::{TomlError, read_table_by_toml};
use pyver_core::{SpecifierError, SpecifierSet};
use std::alloc::Global;
use toml::Value;

/// The project that the bytes describe.
#[tactic(auto, unfolding(crate::specs::Reading::project_of))]
pub(crate) fn read_project(alloc: Global, bytes: &[u8]) -> Result<Project, ProjectError>
    ensures { Gives ProjectError.Memory (λ p. p) result (project_of bytes.now) }
{
    let text = as_text(bytes).ok_or(ProjectError::NotText)?;
    let document = document_of(alloc, text)?;
    project_in(alloc, &document)
}

/// The bytes as text, where they are UTF-8.
#[tactic(auto, using(crate::proofs::TextLemmas::utf8_tests))]
fn as_text(bytes: &[u8]) -> Option<&str>
    ensures { option_copied result ≡ utf8_text bytes.now }
{
    std::str::from_utf8(bytes).ok()
}

/// The text as a TOML document.
#[tactic(auto, using(crate::proofs::TableLemmas::tables))]
fn document_of(alloc: Global, text: &str) -> Result<Value, ProjectError>
    ensures { Gives ProjectError.Memory view result (document_of text.now) }
{
    match read_table_by_toml(alloc, text) {
        Ok(table) => Ok(Value::Table(table)),
        Err(TomlError::Memory) => Err(ProjectError::Memory),
        Err(_) => Err(ProjectError::Toml),
    }
}

/// The project that a document describes.
#[tactic(auto, unfolding(crate::specs::Reading::project_in))]
fn project_in(alloc: Global, document: &Value) -> Result<Project, ProjectError>
    ensures { Gives ProjectError.Memory (λ p. p) result (project_in (view document.now)) }
{
    let project = project_table(alloc, document.get("project"))?;
    let requires_python = requires_python_in(alloc, value_at("requires-python", project))?;
    let dynamic = dynamic_in(alloc, value_at("dynamic", project))?;
    let dependencies = dependencies_in(alloc, value_at("dependencies", project))?;
    let extras = value_at("optional-dependencies", project);
    let extras = sections_in(alloc, ListKind::Requirements, extras)?;
    let groups = sections_in(alloc, ListKind::Group, document.get("dependency-groups"))?;
    require_proper(alloc, &groups)?;
    Ok(Project {
        requires_python,
        dynamic,
        dependencies,
        extras,
        groups,
    })
}

/// The table `project`, which may be absent.
fn project_table<'a>(
    alloc: Global,
    field: Option<&'a Value>,
) -> Result<Option<&'a Value>, ProjectError>
    ensures { Gives ProjectError.Memory (λ d. option_map (λ d. view d.now) d) result
        (project_table (option_map (λ d. view d.now) field.entry)) }
{
    match field {
        Some(value) if value.as_table().is_none() => Err(wrong_type(alloc, "project")?),
        _ => Ok(field),
    }
}

/// The value of a key of the table, where both are there.
fn value_at<'a>(key: &str, table: Option<&'a Value>) -> Option<&'a Value>
    ensures { option_map (λ d. view d.now) result
        ≡ value_at key.now (option_map (λ d. view d.now) table.entry) }
{
    table?.get(key)
}

fn requires_python_in(
    alloc: Global,
    field: Option<&Value>,
) -> Result<Option<SpecifierSet>, ProjectError>
    ensures { Gives ProjectError.Memory (λ s. s) result
        (requires_python_in (option_map (λ d. view d.now) field.entry)) }
{
    match field {
        None => Ok(None),
        Some(value) => Ok(Some(python_of(alloc, value)?)),
    }
}

/// The set that a text writes.
#[tactic(auto, unfolding(crate::specs::Reading::python_of))]
fn python_of(alloc: Global, value: &Value) -> Result<SpecifierSet, ProjectError>
    ensures { Gives ProjectError.Memory (λ s. s) result (python_of (view value.now)) }
{
    let Some(text) = value.as_str() else {
        return Err(wrong_type(alloc, "project.requires-python")?);
    };
    match SpecifierSet::parse(alloc, text) {
        Ok(set) => Ok(set),
        Err(SpecifierError::Memory) => Err(ProjectError::Memory),
        Err(_) => Err(ProjectError::Specifiers),
    }
}

fn dynamic_in(alloc: Global, field: Option<&Value>) -> Result<Vec<Text>, ProjectError>
    ensures { Gives ProjectError.Memory (λ v. v.items) result
        (dynamic_in (option_map (λ d. view d.now) field.entry)) }
{
    let Some(value) = field else {
        return Ok(Vec::new(alloc));
    };
    let Some(elements) = value.as_array() else {
        return Err(wrong_type(alloc, "project.dynamic")?);
    };
    read_texts(alloc, elements.as_slice())
}

/// The texts of `project.dynamic`.
fn read_texts(alloc: Global, elements: &[Value]) -> Result<Vec<Text>, ProjectError>
    ensures { Gives ProjectError.Memory (λ v. v.items) result
        (with_texts [] (items_view elements.now)) }
{
    let mut texts = Vec::with_capacity(alloc, elements.len())?;
    for element in elements {
        let Some(text) = element.as_str() else {
            return Err(wrong_type(alloc, "project.dynamic")?);
        };
        texts.push(Text::copy_of(alloc, text)?)?;
    }
    Ok(texts)
}
