//! Lists of requirements (PEP 621, `dependencies`), in which groups may be included (PEP 735).

ghost use Rattle.std.specs.Prelude.{◌≡◌, IfOk, OnOk, codes, option_and_then, option_map};
ghost use Rattle.std.specs.Option.{option_copied};
ghost use Rattle.toml.specs.Data.{as_str, get_member};
ghost use Rattle.toml.specs.View.{items_view, table_view, view};
ghost use Rattle.pytext.specs.Agreement.{Gives};
ghost use Rattle.pymark_core.specs.Requirement.Reading.{requirement_of};
ghost use Rattle.pylock_readers.specs.Entry.Fields.{or_refused};
ghost use Rattle.pylock_check.specs.Project.{no_requirements};
ghost use Rattle.pylock_check.specs.Requirements.{declaration_of, dependencies_in, element_place};
ghost use Rattle.pylock_check.specs.Requirements.{include_named, include_of, included_text};
ghost use Rattle.pylock_check.specs.Requirements.{is_single, requirements_of, with_element};
ghost use Rattle.pylock_check.specs.Requirements.{with_declaration, with_elements, with_include};
ghost use Rattle.pylock_check.specs.Requirements.{with_other};
ghost use Rattle.pylock_check.specs.declared.error.ProjectError.TheVariants as error;

use crate::error::ProjectError;
use pymark_core::{Requirement, RequirementError};
use pytext::Text;
use pyver_core::{NormalName, is_name};
use std::alloc::{AllocError, Global};
use std::marker::Model;
use toml::{Table, Value};

/// What a list may have.
#[derive(Clone, Copy)]
pub(crate) enum ListKind {
    /// Requirements alone, as of an extra.
    Requirements,
    /// Requirements and includes of other groups, as of a dependency group.
    Group,
}

/// A requirement, and where it stands in the file.
pub struct Declaration {
    place: Text,
    name: NormalName,
    requirement: Requirement,
}

impl Model for Declaration {
    ghost use Rattle.std.specs.Coded.{codes};
    ghost use Rattle.pymark_core.specs.Marker.Coding.{marker_code};
    ghost use Rattle.pylock_check.specs.Project.{DeclarationValue};

    ghost Value = { DeclarationValue };

    ghost coded = { Prim.hlevel (codes, marker_code) };

    ghost view = { λ d. record {
      place = d.place;
      name = d.name;
      requirement = d.requirement;
    } };
}

impl Drop for Declaration {
    fn drop(self) {
        let Declaration {
            place: _,
            name: _,
            requirement: _,
        } = self;
    }
}

impl Declaration {
    /// Where it stands, as `project.dependencies 3`.
    pub fn place(&self) -> &str
        ensures { result.now ≡ self.now.place }
    {
        self.place.as_str()
    }

    /// The name that it asks for, in normal form (PEP 503).
    pub fn name(&self) -> &str
        ensures { result.now ≡ self.now.name }
    {
        self.name.as_str()
    }

    /// The requirement itself.
    pub fn requirement(&self) -> &Requirement
        ensures { result.now ≡ self.now.requirement }
    {
        &self.requirement
    }
}

/// A dependency group that another one includes (PEP 735), and where it does.
pub struct Include {
    place: Text,
    name: NormalName,
}

impl Model for Include {
    ghost use Rattle.std.specs.Coded.{codes};
    ghost use Rattle.pylock_check.specs.Project.{IncludeValue};

    ghost Value = { IncludeValue };

    ghost coded = { Prim.hlevel codes };

    ghost view = { λ i. record { place = i.place; name = i.name } };
}

impl Drop for Include {
    fn drop(self) {
        let Include { place: _, name: _ } = self;
    }
}

impl Include {
    /// Where it stands, as `dependency-groups.dev 2`.
    pub fn place(&self) -> &str
        ensures { result.now ≡ self.now.place }
    {
        self.place.as_str()
    }

    pub(crate) fn copy_of_place(&self) -> Result<Text, AllocError>
        ensures { IfOk result (λ place. place ≡ self.now.place) }
    {
        self.place.clone()
    }

    /// The name of the group, in normal form (PEP 503).
    pub fn name(&self) -> &str
        ensures { result.now ≡ self.now.name }
    {
        self.name.as_str()
    }
}

/// What a list has: requirements, and the groups that it includes, each in its order.
pub struct Requirements {
    declarations: Vec<Declaration>,
    includes: Vec<Include>,
}

impl Model for Requirements {
    ghost use Rattle.std.specs.Coded.{codes};
    ghost use Rattle.pymark_core.specs.Marker.Coding.{marker_code};
    ghost use Rattle.pylock_check.specs.Project.{RequirementsValue};

    ghost Value = { RequirementsValue };

    ghost coded = { Prim.hlevel (codes, marker_code) };

    ghost view = { λ r. record {
      declarations = r.declarations.items;
      includes = r.includes.items;
    } };
}

impl Drop for Requirements {
    fn drop(self) {
        let Requirements {
            declarations: _,
            includes: _,
        } = self;
    }
}

impl Requirements {
    /// None. It takes no memory.
    pub(crate) fn new(alloc: Global) -> Requirements
        ensures { result ≡ no_requirements }
    {
        Requirements {
            declarations: Vec::new(alloc),
            includes: Vec::new(alloc),
        }
    }

    /// The requirements.
    pub fn declarations(&self) -> &[Declaration]
        ensures { result.now ≡ self.now.declarations }
    {
        self.declarations.as_slice()
    }

    /// The groups that are included, none in the list of an extra.
    pub fn includes(&self) -> &[Include]
        ensures { result.now ≡ self.now.includes }
    {
        self.includes.as_slice()
    }

    fn push_declaration(&mut self, declaration: Declaration) -> Result<(), AllocError>
        ensures { OnOk result (self.new ≡ with_declaration self.old declaration) }
    {
        self.declarations.push(declaration)?;
        Ok(())
    }

    fn push_include(&mut self, include: Include) -> Result<(), AllocError>
        ensures { OnOk result (self.new ≡ with_include self.old include) }
    {
        self.includes.push(include)?;
        Ok(())
    }
}

/// The refusal of what is of another type there.
pub(crate) fn wrong_type(alloc: Global, place: &str) -> Result<ProjectError, AllocError>
    ensures { IfOk result (λ refusal. refusal ≡ error.WrongType place.now) }
{
    Ok(ProjectError::WrongType(Text::copy_of(alloc, place)?))
}

/// The requirements of `project.dependencies`.
pub(crate) fn dependencies_in(
    alloc: Global,
    field: Option<&Value>,
) -> Result<Requirements, ProjectError>
    ensures { Gives ProjectError.Memory (λ r. r) result
        (dependencies_in (option_map (λ d. view d.now) field.entry)) }
{
    match field {
        None => Ok(Requirements::new(alloc)),
        Some(value) => {
            requirements_of(alloc, ListKind::Requirements, "project.dependencies", value)
        }
    }
}

/// The list that a value is, which stands there.
#[tactic(auto, unfolding(crate::specs::Requirements::requirements_of))]
pub(crate) fn requirements_of(
    alloc: Global,
    kind: ListKind,
    place: &str,
    value: &Value,
) -> Result<Requirements, ProjectError>
    ensures { Gives ProjectError.Memory (λ r. r) result
        (requirements_of kind place.now (view value.now)) }
{
    let Some(elements) = value.as_array() else {
        return Err(wrong_type(alloc, place)?);
    };
    read_elements(alloc, kind, place, elements.as_slice())
}

fn read_elements(
    alloc: Global,
    kind: ListKind,
    place: &str,
    elements: &[Value],
) -> Result<Requirements, ProjectError>
    ensures { Gives ProjectError.Memory (λ r. r) result
        (with_elements kind place.now 1 no_requirements (items_view elements.now)) }
{
    let mut list = Requirements::new(alloc);
    for (index, element) in elements.iter().enumerate() {
        let here = element_place(alloc, place, index + 1)?;
        push_element(alloc, &mut list, kind, here, element)?;
    }
    Ok(list)
}

/// Where the element of this number stands.
fn element_place(alloc: Global, place: &str, number: usize) -> Result<Text, AllocError>
    ensures { IfOk result (λ text. text ≡ element_place place.now number) }
{
    Ok(Text::new(format!(in alloc; "{place} {number}")?))
}

/// Adds what an element says.
#[tactic(auto, unfolding(crate::specs::Requirements::with_element))]
fn push_element(
    alloc: Global,
    list: &mut Requirements,
    kind: ListKind,
    place: Text,
    element: &Value,
) -> Result<(), ProjectError>
    ensures { Gives ProjectError.Memory (λ _. list.new) result
        (with_element kind place list.old (view element.now)) }
{
    match element.as_str() {
        Some(text) => {
            let declaration = declaration_of(alloc, place, text)?;
            list.push_declaration(declaration)?;
            Ok(())
        }
        None => push_other(alloc, list, kind, place, element),
    }
}

/// Adds an element that is no text.
fn push_other(
    alloc: Global,
    list: &mut Requirements,
    kind: ListKind,
    place: Text,
    element: &Value,
) -> Result<(), ProjectError>
    ensures { Gives ProjectError.Memory (λ _. list.new) result
        (with_other kind place list.old (view element.now)) }
{
    match kind {
        ListKind::Requirements => Err(ProjectError::WrongType(place)),
        ListKind::Group => {
            let include = include_of(alloc, place, element)?;
            list.push_include(include)?;
            Ok(())
        }
    }
}

#[tactic(auto, unfolding(crate::specs::Requirements::declaration_of))]
fn declaration_of(alloc: Global, place: Text, text: &str) -> Result<Declaration, ProjectError>
    ensures { Gives ProjectError.Memory (λ d. d) result (declaration_of place text.now) }
{
    match Requirement::parse(alloc, text) {
        Ok(requirement) => Ok(Declaration {
            name: NormalName::new(alloc, requirement.name())?,
            place,
            requirement,
        }),
        Err(RequirementError::Memory) => Err(ProjectError::Memory),
        Err(_) => Err(ProjectError::Requirement(place)),
    }
}

/// The group that a table includes.
#[tactic(auto, unfolding(crate::specs::Requirements::include_of))]
fn include_of(alloc: Global, place: Text, value: &Value) -> Result<Include, ProjectError>
    ensures { Gives ProjectError.Memory (λ i. i) result (include_of place (view value.now)) }
{
    let Some(table) = value.as_table() else {
        return Err(ProjectError::WrongType(place));
    };
    match included_text(table) {
        Some(text) => include_named(alloc, place, text),
        None => Err(ProjectError::Include(place)),
    }
}

fn include_named(alloc: Global, place: Text, text: &str) -> Result<Include, ProjectError>
    ensures { Gives ProjectError.Memory (λ i. i) result (include_named place text.now) }
{
    if !is_name(text) {
        return Err(ProjectError::Name(place));
    }
    let name = NormalName::new(alloc, text)?;
    Ok(Include { place, name })
}

/// The text of `include-group`, where it is the only key.
fn included_text(table: &Table) -> Option<&str>
    ensures { option_copied result ≡ included_text (table_view table.now) }
{
    if !is_single(table) {
        return None;
    }
    text_at(table, "include-group")
}

/// Whether the table has one key.
fn is_single(table: &Table) -> bool
    ensures { result ≡ is_single (table_view table.now) }
{
    table.len() == 1
}

/// The text of a key, where that has one.
fn text_at<'a>(table: &'a Table, key: &str) -> Option<&'a str>
    ensures { option_copied result
        ≡ option_and_then as_str (get_member key.now (table_view table.now)) }
{
    field(table, key)?.as_str()
}

fn field<'a>(table: &'a Table, key: &str) -> Option<&'a Value>
    ensures { option_map (λ v. view v.now) result ≡ get_member key.now (table_view table.now) }
{
    table.get(key)
}
