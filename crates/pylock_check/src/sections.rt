//! The tables of extras (PEP 621, `optional-dependencies`) and of dependency groups (PEP 735).

ghost use Rattle.std.specs.Prelude.{◌≡◌, [], IfOk, option_map};
ghost use Rattle.std.specs.List.{list_any};
ghost use Rattle.toml.specs.View.{table_view, view};
ghost use Rattle.pytext.specs.Agreement.{Gives};
ghost use Rattle.pylock_check.specs.Project.{is_named};
ghost use Rattle.pylock_check.specs.Sections.{new_name, section_place, sections_in, table_place};
ghost use Rattle.pylock_check.specs.Sections.{with_section, with_sections};

use crate::error::ProjectError;
use crate::requirements::{ListKind, Requirements, requirements_of, wrong_type};
use pytext::Text;
use pyver_core::{NormalName, is_name};
use std::alloc::{AllocError, Global};
use std::marker::Model;
use toml::{Table, Value};

/// An extra or a dependency group of a project.
pub struct Section {
    place: Text,
    name: NormalName,
    requirements: Requirements,
}

impl Model for Section {
    ghost use Rattle.std.specs.Coded.{codes};
    ghost use Rattle.pymark_core.specs.Marker.Coding.{marker_code};
    ghost use Rattle.pylock_check.specs.Project.{SectionValue};

    ghost Value = { SectionValue };

    ghost coded = { Prim.hlevel (codes, marker_code) };

    ghost view = { λ s. record {
      place = s.place;
      name = s.name;
      requirements = s.requirements;
    } };
}

impl Drop for Section {
    fn drop(self) {
        let Section {
            place: _,
            name: _,
            requirements: _,
        } = self;
    }
}

impl Section {
    /// Where it stands, as `dependency-groups.dev`.
    pub fn place(&self) -> &str
        ensures { result.now ≡ self.now.place }
    {
        self.place.as_str()
    }

    pub(crate) fn copy_of_place(&self) -> Result<Text, AllocError>
        ensures { IfOk result (λ place. place ≡ self.now.place) }
    {
        self.place.clone()
    }

    /// Its name in normal form (PEP 503).
    pub fn name(&self) -> &str
        ensures { result.now ≡ self.now.name }
    {
        self.name.as_str()
    }

    /// What it asks for.
    pub fn requirements(&self) -> &Requirements
        ensures { result.now ≡ self.now.requirements }
    {
        &self.requirements
    }
}

/// Whether one of the sections has the name, which is in normal form.
pub(crate) fn has_section(sections: &[Section], name: &str) -> bool
    ensures { result ≡ list_any (is_named name.now) sections.now }
{
    sections.iter().any(|section| name == section.name())
}

/// Where the table of lists of this kind stands.
pub(crate) fn table_place(kind: ListKind) -> &'static str
    ensures { result.now ≡ table_place kind }
{
    match kind {
        ListKind::Requirements => "project.optional-dependencies",
        ListKind::Group => "dependency-groups",
    }
}

/// The sections of a table, in the order of their keys.
#[tactic(auto, unfolding(crate::specs::Sections::sections_in))]
pub(crate) fn sections_in(
    alloc: Global,
    kind: ListKind,
    field: Option<&Value>,
) -> Result<Vec<Section>, ProjectError>
    ensures { Gives ProjectError.Memory (λ v. v.items) result
        (sections_in kind (option_map (λ d. view d.now) field.entry)) }
{
    let Some(value) = field else {
        return Ok(Vec::new(alloc));
    };
    let Some(table) = value.as_table() else {
        return Err(wrong_type(alloc, table_place(kind))?);
    };
    read_sections(alloc, kind, table)
}

fn read_sections(alloc: Global, kind: ListKind, table: &Table) -> Result<Vec<Section>, ProjectError>
    ensures { Gives ProjectError.Memory (λ v. v.items) result
        (with_sections kind [] (table_view table.now)) }
{
    let mut sections = Vec::with_capacity(alloc, table.len())?;
    for (key, value) in table.iter() {
        push_section(alloc, &mut sections, kind, key.as_str(), value)?;
    }
    Ok(sections)
}

/// Adds the section under a key.
#[tactic(auto, unfolding(crate::specs::Sections::with_section))]
fn push_section(
    alloc: Global,
    sections: &mut Vec<Section>,
    kind: ListKind,
    key: &str,
    value: &Value,
) -> Result<(), ProjectError>
    ensures { Gives ProjectError.Memory (λ _. sections.new.items) result
        (with_section kind sections.old.items key.now (view value.now)) }
{
    let place = section_place(alloc, kind, key)?;
    let name = new_name(alloc, &place, sections, key)?;
    let requirements = requirements_of(alloc, kind, place.as_str(), value)?;
    sections.push(Section {
        place,
        name,
        requirements,
    })?;
    Ok(())
}

/// Where the list under the key stands.
fn section_place(alloc: Global, kind: ListKind, key: &str) -> Result<Text, AllocError>
    ensures { IfOk result (λ place. place ≡ section_place kind key.now) }
{
    let table = table_place(kind);
    Ok(Text::new(format!(in alloc; "{table}.{key}")?))
}

/// The name of a key that stands there, which none of the sections has.
fn new_name(
    alloc: Global,
    place: &Text,
    sections: &[Section],
    key: &str,
) -> Result<NormalName, ProjectError>
    ensures { Gives ProjectError.Memory (λ name. name) result
        (new_name place.now sections.now key.now) }
{
    if !is_name(key) {
        return Err(ProjectError::Name(place.clone()?));
    }
    let name = NormalName::new(alloc, key)?;
    if has_section(sections, name.as_str()) {
        return Err(ProjectError::Twice(place.clone()?));
    }
    Ok(name)
}
