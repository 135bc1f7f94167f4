//! What a project file says.

ghost use Rattle.std.specs.Prelude.{◌≡◌};
ghost use Rattle.std.specs.List.{list_any};
ghost use Rattle.std.specs.Option.{option_copied};
ghost use Rattle.std.specs.Str.{bytes_eq};
ghost use Rattle.pytext.specs.Agreement.{Gives};
ghost use Rattle.pylock_check.specs.Reading.{project_of};

use crate::error::ProjectError;
use crate::reading::read_project;
use crate::requirements::Requirements;
use crate::sections::Section;
use pytext::Text;
use pyver_core::SpecifierSet;
use std::alloc::Global;
use std::marker::Model;

/// What a project file (`pyproject.toml`) says of what a project needs: the keys of the table
/// `project` (PEP 621) and the dependency groups (PEP 735). Contracts see its parts.
pub struct Project {
    pub(crate) requires_python: Option<SpecifierSet>,
    pub(crate) dynamic: Vec<Text>,
    pub(crate) dependencies: Requirements,
    pub(crate) extras: Vec<Section>,
    pub(crate) groups: Vec<Section>,
}

impl Model for Project {
    ghost use Rattle.std.specs.Coded.{codes};
    ghost use Rattle.pymark_core.specs.Marker.Coding.{marker_code};
    ghost use Rattle.pylock_check.specs.Project.{ProjectValue};

    ghost Value = { ProjectValue };

    ghost coded = { Prim.hlevel (codes, marker_code) };

    ghost view = { λ p. record {
      requires_python = p.requires_python;
      dynamic = p.dynamic.items;
      dependencies = p.dependencies;
      extras = p.extras.items;
      groups = p.groups.items;
    } };
}

impl Drop for Project {
    fn drop(self) {
        let Project {
            requires_python: _,
            dynamic: _,
            dependencies: _,
            extras: _,
            groups: _,
        } = self;
    }
}

impl Project {
    /// Reads a project file. Keys that aren't named here are ignored. The refusals come in the
    /// order of the keys: the table `project`, its `requires-python`, `dynamic`, `dependencies` and
    /// `optional-dependencies`, then `dependency-groups`; of a table in the order of its keys, and
    /// of a list in that of its elements. Last come groups that include what doesn't exist, and
    /// those that include themselves.
    ///
    /// Takes memory for the TOML document and for the texts of each requirement. `README.md` says
    /// how long it takes.
    pub fn read(alloc: Global, bytes: &[u8]) -> Result<Project, ProjectError>
        ensures { Gives ProjectError.Memory (λ p. p) result (project_of bytes.now) }
    {
        read_project(alloc, bytes)
    }

    /// The key `requires-python`.
    pub fn requires_python(&self) -> Option<&SpecifierSet>
        ensures { option_copied result ≡ self.now.requires_python }
    {
        self.requires_python.as_ref()
    }

    /// The key `dynamic`, as written: the keys that a build gives in place of the file.
    pub fn dynamic(&self) -> &[Text]
        ensures { result.now ≡ self.now.dynamic }
    {
        self.dynamic.as_slice()
    }

    /// Whether this very text is one of the dynamic keys.
    pub(crate) fn is_dynamic(&self, key: &str) -> bool
        ensures { result ≡ list_any (bytes_eq key.now) self.now.dynamic }
    {
        is_among(self.dynamic(), key)
    }

    /// The key `dependencies`.
    pub fn dependencies(&self) -> &Requirements
        ensures { result.now ≡ self.now.dependencies }
    {
        &self.dependencies
    }

    /// The extras, in the order of the keys of `optional-dependencies`.
    pub fn extras(&self) -> &[Section]
        ensures { result.now ≡ self.now.extras }
    {
        self.extras.as_slice()
    }

    /// The dependency groups, in the order of the keys of `dependency-groups`.
    pub fn groups(&self) -> &[Section]
        ensures { result.now ≡ self.now.groups }
    {
        self.groups.as_slice()
    }
}

fn is_among(texts: &[Text], key: &str) -> bool
    ensures { result ≡ list_any (bytes_eq key.now) texts.now }
{
    texts.iter().any(|text| key == text.as_str())
}
