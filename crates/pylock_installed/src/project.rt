//! Projects that are installed.

ghost use Rattle.std.specs.Prelude.{◌≡◌, IfOk};
ghost use Rattle.serde_json.specs.View.{view as data_of};
ghost use Rattle.pylock_installed.specs.Element.{project_in, project_of};

use crate::origin::{Origin, origin_of, text_at};
use crate::reading::Form;
use pytext::Text;
use pyver_core::NormalName;
use serde_json::Value;
use std::alloc::{AllocError, Global};
use std::marker::Model;

/// A project that is installed in an environment.
pub struct Project {
    name: NormalName,
    version: Text,
    origin: Origin,
}

impl Model for Project {
    ghost use Rattle.pylock_installed.specs.Project.{ProjectValue};

    ghost Value = { ProjectValue };

    ghost view = { λ p. record { name = p.name; version = p.version; origin = p.origin } };
}

impl Drop for Project {
    fn drop(self) {
        let Project {
            name: _,
            version: _,
            origin: _,
        } = self;
    }
}

impl Project {
    /// Its name in normal form (PEP 503).
    pub fn name(&self) -> &str
        ensures { result.now ≡ self.now.name }
    {
        self.name.as_str()
    }

    /// Its version, as written.
    pub fn version(&self) -> &str
        ensures { result.now ≡ self.now.version }
    {
        self.version.as_str()
    }

    /// Where it was installed from.
    pub fn origin(&self) -> &Origin
        ensures { result.now ≡ self.now.origin }
    {
        &self.origin
    }
}

/// The project of an element of a list in this form, where it has what it needs. It takes memory
/// for its texts.
pub(crate) fn project_in(
    alloc: Global,
    form: Form,
    element: &Value,
) -> Result<Option<Project>, AllocError>
    ensures { IfOk result (λ project. project ≡ project_in form (data_of element.now)) }
{
    match form {
        Form::List => project_of(alloc, element, Some(Origin::Untold)),
        Form::Inspect => inspected(alloc, element),
    }
}

fn inspected(alloc: Global, element: &Value) -> Result<Option<Project>, AllocError>
    ensures { IfOk result (λ project. project ≡ project_in Form.Inspect (data_of element.now)) }
{
    let Some(metadata) = element.get("metadata") else {
        return Ok(None);
    };
    let origin = origin_of(alloc, element.get("direct_url"))?;
    project_of(alloc, metadata, origin)
}

/// The project of this name and version that is from there.
#[tactic(auto, unfolding(crate::specs::Element::project_of))]
fn project_of(
    alloc: Global,
    metadata: &Value,
    origin: Option<Origin>,
) -> Result<Option<Project>, AllocError>
    ensures { IfOk result (λ project. project ≡ project_of (data_of metadata.now) origin) }
{
    let Some(name) = text_at(metadata, "name") else {
        return Ok(None);
    };
    let Some(version) = text_at(metadata, "version") else {
        return Ok(None);
    };
    let Some(origin) = origin else {
        return Ok(None);
    };
    let name = NormalName::new(alloc, name)?;
    let version = Text::copy_of(alloc, version)?;
    Ok(Some(Project {
        name,
        version,
        origin,
    }))
}
