//! Sources under version control.
ghost use Rattle.std.specs.Prelude.{◌≡◌};
ghost use Rattle.std.specs.Option.{option_copied};
ghost use Rattle.pylock_readers.specs.Entry.{place_of};
ghost use Rattle.pylock_readers.specs.Entry.Sources.{vcs_of};

use crate::entry::location::Location;
use crate::field::{FieldError, FromValue, into_table, optional_text, take, text};
use std::alloc::Global;
use std::marker::Model;
use toml::Value;

/// A checkout of a version control system to install from (PEP 751, `packages.vcs`).
pub struct Vcs {
    kind: String,
    commit_id: String,
    location: Location,
    subdirectory: Option<String>,
}

impl Model for Vcs {
    ghost use Rattle.std.specs.Prelude.{option_map, string_bytes};
    ghost use Rattle.pylock_readers.specs.Entry.{VcsValue};

    ghost Value = { VcsValue };

    ghost view = { λ v. record {
      kind = string_bytes v.kind;
      commit_id = string_bytes v.commit_id;
      location = v.location;
      subdirectory = option_map string_bytes v.subdirectory;
    } };
}

impl Drop for Vcs {
    fn drop(self) {
        let Vcs {
            kind: _,
            commit_id: _,
            location: _,
            subdirectory: _,
        } = self;
    }
}

impl Vcs {
    /// The key `type`: the name of the version control system.
    pub fn kind(&self) -> &str
        ensures { result.now ≡ self.now.kind }
    {
        self.kind.as_str()
    }

    /// The key `commit-id`.
    pub fn commit_id(&self) -> &str
        ensures { result.now ≡ self.now.commit_id }
    {
        self.commit_id.as_str()
    }

    /// The key `url`.
    pub fn url(&self) -> Option<&str>
        ensures { option_copied result ≡ self.now.location.url }
    {
        self.location.url()
    }

    /// The key `path`.
    pub fn path(&self) -> Option<&str>
        ensures { option_copied result ≡ self.now.location.path }
    {
        self.location.path()
    }

    /// Where the repository lies: its path, else its URL.
    pub fn place(&self) -> &str
        ensures { result.now ≡ place_of self.now.location }
    {
        self.location.place()
    }

    /// The key `subdirectory`.
    pub fn subdirectory(&self) -> Option<&str>
        ensures { option_copied result ≡ self.now.subdirectory }
    {
        self.subdirectory.as_deref()
    }
}

#[tactic(auto, using(crate::proofs::kept), unfolding(crate::specs::Entry::Sources::vcs_of))]
impl FromValue for Vcs {
    ghost form = { vcs_of };

    fn from_value(_alloc: Global, value: Value) -> Result<Vcs, FieldError> {
        let mut table = into_table(value)?;
        let kind = text(take(&mut table, "type"))?;
        let commit_id = text(take(&mut table, "commit-id"))?;
        let location = Location::read(take(&mut table, "url"), take(&mut table, "path"))?;
        let subdirectory = optional_text(take(&mut table, "subdirectory"))?;
        Ok(Vcs {
            kind,
            commit_id,
            location,
            subdirectory,
        })
    }
}
