//! The list of what is installed, from its text.

ghost use Rattle.std.specs.Prelude.{◌≡◌, ◌||◌, ℕ, [], IfOk, List, OnOk, Some, not, string_bytes};
ghost use Rattle.std.specs.BTreeSet.{contains_text};
ghost use Rattle.std.specs.Option.{option_copied};
ghost use Rattle.std.specs.Str.{bytes_eq};
ghost use Rattle.serde_json.specs.View.{items_view, view as data_of};
ghost use Rattle.pytext.specs.Agreement.{Gives};
ghost use Rattle.pylock_readers.specs.Text.{utf8_text};
ghost use Rattle.pylock_installed.specs.Inner.Tables.{AreNames};
ghost use Rattle.pylock_installed.specs.Reading.{elements_in, installed_of, projects_in};
ghost use Rattle.pylock_installed.specs.Reading.{value_of, with_element, with_elements};

use crate::error::InstalledError;
use crate::project::{Project, project_in};
use serde_json::Value;
use std::alloc::{AllocError, Global};
use std::collections::BTreeSet;

/// The forms that a list of what is installed may have.
#[derive(Clone, Copy)]
pub(crate) enum Form {
    /// What `pip list --format json` prints.
    List,
    /// What `pip inspect` prints.
    Inspect,
}

/// What is read so far: the projects, and their names, by which one that stands twice is found.
#[derive(Drop)]
struct Listed {
    projects: Vec<Project>,
    names: BTreeSet<String>,
}

/// The projects that the bytes list.
#[tactic(auto, unfolding(crate::specs::Reading::installed_of))]
pub(crate) fn read_installed(alloc: Global, bytes: &[u8]) -> Result<Vec<Project>, InstalledError>
    ensures { Gives InstalledError.Memory (λ v. v.items) result (installed_of bytes.now) }
{
    let text = as_text(bytes).ok_or(InstalledError::Json)?;
    let value = json(alloc, text)?;
    projects_in(alloc, &value)
}

/// The bytes as text, where they are UTF-8.
#[tactic(auto, using(crate::proofs::TextLemmas::utf8_tests))]
fn as_text(bytes: &[u8]) -> Option<&str>
    ensures { option_copied result ≡ utf8_text bytes.now }
{
    std::str::from_utf8(bytes).ok()
}

fn json(alloc: Global, text: &str) -> Result<Value, InstalledError>
    ensures { Gives InstalledError.Memory data_of result (value_of text.now) }
{
    match Value::from_str(alloc, text) {
        Ok(value) => Ok(value),
        Err(fault) if fault.is_memory() => Err(InstalledError::Memory),
        Err(_) => Err(InstalledError::Json),
    }
}

#[tactic(auto, unfolding(crate::specs::Reading::projects_in))]
fn projects_in(alloc: Global, value: &Value) -> Result<Vec<Project>, InstalledError>
    ensures { Gives InstalledError.Memory (λ v. v.items) result (projects_in (data_of value.now)) }
{
    let (form, elements) = elements_in(value)?;
    read_elements(alloc, form, elements)
}

/// The elements, and the form that they have.
fn elements_in(value: &Value) -> Result<(Form, &[Value]), InstalledError>
    ensures { Gives InstalledError.Memory (λ list. (list.0, items_view list.1.now)) result
        (elements_in (data_of value.now)) }
{
    if let Some(elements) = value.as_array() {
        return Ok((Form::List, elements.as_slice()));
    }
    let list = value.get("installed").ok_or(InstalledError::Shape)?;
    let elements = list.as_array().ok_or(InstalledError::Shape)?;
    Ok((Form::Inspect, elements.as_slice()))
}

/// The projects of elements in this form.
fn read_elements(
    alloc: Global,
    form: Form,
    elements: &[Value],
) -> Result<Vec<Project>, InstalledError>
    ensures { Gives InstalledError.Memory (λ v. v.items) result
        (with_elements form 1 [] (items_view elements.now)) }
{
    let mut listed = Listed {
        projects: Vec::with_capacity(alloc, elements.len())?,
        names: BTreeSet::new(alloc),
    };
    for (place, element) in elements.iter().enumerate() {
        push_element(alloc, &mut listed, form, place + 1, element)?;
    }
    let Listed { projects, names: _ } = listed;
    Ok(projects)
}

/// Adds the project of an element, which stands at this place.
#[tactic(auto, unfolding(crate::specs::Reading::with_element))]
fn push_element(
    alloc: Global,
    listed: &mut Listed,
    form: Form,
    place: usize,
    element: &Value,
) -> Result<(), InstalledError>
    requires { AreNames listed.old.names listed.old.projects.items }
    ensures pushed { Gives InstalledError.Memory (λ _. listed.new.projects.items) result
        (with_element form place listed.old.projects.items (data_of element.now)) }
    ensures names { OnOk result (AreNames listed.new.names listed.new.projects.items) }
{
    let project = project_in(alloc, form, element)?.ok_or(InstalledError::Element(place))?;
    let name = String::from_str(alloc, project.name())?;
    if !add_text(&mut listed.names, name)? {
        return Err(InstalledError::Twice(place));
    }
    listed.projects.push(project)?;
    Ok(())
}

/// Adds the name to the set, and tells whether it is new there.
fn add_text(names: &mut BTreeSet<String>, name: String) -> Result<bool, AllocError>
    ensures new { IfOk result (λ new. new ≡ not (contains_text names.old (string_bytes name))) }
    ensures added { OnOk result ((other : List ℕ) → contains_text names.new other
        ≡ (bytes_eq (string_bytes name) other || contains_text names.old other)) }
{
    Ok(names.insert(name)?)
}
