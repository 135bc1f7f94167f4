//! What is installed in an environment.

ghost use Rattle.std.specs.Prelude.{◌≡◌};
ghost use Rattle.pytext.specs.Agreement.{Gives};
ghost use Rattle.pylock_installed.specs.Reading.{installed_of};

use crate::error::InstalledError;
use crate::project::Project;
use crate::reading::read_installed;
use std::alloc::Global;
use std::marker::Model;

/// The projects that are installed in an environment, in the order in which they are listed.
/// Contracts see the list.
pub struct Installed {
    projects: Vec<Project>,
}

impl Model for Installed {
    ghost use Rattle.std.specs.Prelude.{List};
    ghost use Rattle.pylock_installed.specs.Project.{ProjectValue};

    ghost Value = { List ProjectValue };

    ghost view = { λ i. i.projects.items };
}

impl Drop for Installed {
    fn drop(self) {
        let Installed { projects: _ } = self;
    }
}

impl Installed {
    /// Reads what `pip list --format json` or `pip inspect` prints. Of a project its name, its
    /// version and, in the second, its direct URL (PEP 610) are read, and every other member is
    /// skipped. The refusals come in the order of `InstalledError`, those of elements in the order
    /// of the list.
    ///
    /// Takes memory for the JSON value, for the texts of each project and for a table of the names.
    /// The time is that of looking each name up in the table.
    pub fn read(alloc: Global, bytes: &[u8]) -> Result<Installed, InstalledError>
        ensures { Gives InstalledError.Memory (λ i. i) result (installed_of bytes.now) }
    {
        let projects = read_installed(alloc, bytes)?;
        Ok(Installed { projects })
    }

    /// The projects, in order. It takes no memory.
    pub fn projects(&self) -> &[Project]
        ensures { result.now ≡ self.now }
    {
        self.projects.as_slice()
    }
}
