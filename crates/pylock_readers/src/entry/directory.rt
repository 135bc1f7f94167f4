//! Local directories.
ghost use Rattle.std.specs.Prelude.{◌≡◌};
ghost use Rattle.std.specs.Option.{option_copied};
ghost use Rattle.pylock_readers.specs.Entry.Sources.{directory_of};

use crate::field::{FieldError, FromValue, flag, into_table, optional_text, take, text};
use std::alloc::Global;
use std::marker::Model;
use toml::Value;

/// A local directory to install from (PEP 751, `packages.directory`).
pub struct Directory {
    path: String,
    editable: bool,
    subdirectory: Option<String>,
}

impl Model for Directory {
    ghost use Rattle.std.specs.Prelude.{option_map, string_bytes};
    ghost use Rattle.pylock_readers.specs.Entry.{DirectoryValue};

    ghost Value = { DirectoryValue };

    ghost view = { λ d. record {
      path = string_bytes d.path;
      editable = d.editable;
      subdirectory = option_map string_bytes d.subdirectory;
    } };
}

impl Drop for Directory {
    fn drop(self) {
        let Directory {
            path: _,
            editable: _,
            subdirectory: _,
        } = self;
    }
}

impl Directory {
    /// The key `path`.
    pub fn path(&self) -> &str
        ensures { result.now ≡ self.now.path }
    {
        self.path.as_str()
    }

    /// Where the directory lies: its path.
    pub fn place(&self) -> &str
        ensures { result.now ≡ self.now.path }
    {
        self.path()
    }

    /// Whether the directory is installed in editable mode; an absent key `editable` is false.
    pub fn editable(&self) -> bool
        ensures { result ≡ self.now.editable }
    {
        self.editable
    }

    /// The key `subdirectory`.
    pub fn subdirectory(&self) -> Option<&str>
        ensures { option_copied result ≡ self.now.subdirectory }
    {
        self.subdirectory.as_deref()
    }
}

#[tactic(auto, using(crate::proofs::kept), unfolding(crate::specs::Entry::Sources::directory_of))]
impl FromValue for Directory {
    ghost form = { directory_of };

    fn from_value(_alloc: Global, value: Value) -> Result<Directory, FieldError> {
        let mut table = into_table(value)?;
        let path = text(take(&mut table, "path"))?;
        let editable = flag(take(&mut table, "editable"))?;
        let subdirectory = optional_text(take(&mut table, "subdirectory"))?;
        Ok(Directory {
            path,
            editable,
            subdirectory,
        })
    }
}
