//! Archives.
ghost use Rattle.std.specs.Prelude.{◌≡◌};
ghost use Rattle.std.specs.Option.{option_copied};
ghost use Rattle.pylock_readers.specs.Entry.{place_of};
ghost use Rattle.pylock_readers.specs.Entry.Sources.{archive_of};
ghost use Rattle.pylock_readers.specs.Text.{text_pairs};

use crate::entry::hashes::hashes;
use crate::entry::location::Location;
use crate::field::{FieldError, FromValue, into_table, optional_text, take};
use std::alloc::Global;
use std::marker::Model;
use toml::Value;

/// An archive to install from (PEP 751, `packages.archive`).
pub struct Archive {
    location: Location,
    hashes: Vec<(String, String)>,
    subdirectory: Option<String>,
}

impl Model for Archive {
    ghost use Rattle.std.specs.Prelude.{option_map, string_bytes};
    ghost use Rattle.pylock_readers.specs.Entry.{ArchiveValue};
    ghost use Rattle.pylock_readers.specs.Text.{text_pairs};

    ghost Value = { ArchiveValue };

    ghost view = { λ a. record {
      location = a.location;
      hashes = text_pairs a.hashes.items;
      subdirectory = option_map string_bytes a.subdirectory;
    } };
}

impl Drop for Archive {
    fn drop(self) {
        let Archive {
            location: _,
            hashes: _,
            subdirectory: _,
        } = self;
    }
}

impl Archive {
    /// The key `url`.
    pub fn url(&self) -> Option<&str>
        ensures { option_copied result ≡ self.now.location.url }
    {
        self.location.url()
    }

    /// The key `path`.
    pub fn path(&self) -> Option<&str>
        ensures { option_copied result ≡ self.now.location.path }
    {
        self.location.path()
    }

    /// Where the archive lies: its path, else its URL.
    pub fn place(&self) -> &str
        ensures { result.now ≡ place_of self.now.location }
    {
        self.location.place()
    }

    /// The pairs of algorithm and value of the key `hashes`, in byte order of the algorithm.
    pub fn hashes(&self) -> &[(String, String)]
        ensures { text_pairs result.now ≡ self.now.hashes }
    {
        self.hashes.as_slice()
    }

    /// The key `subdirectory`.
    pub fn subdirectory(&self) -> Option<&str>
        ensures { option_copied result ≡ self.now.subdirectory }
    {
        self.subdirectory.as_deref()
    }
}

#[tactic(auto, using(crate::proofs::kept), unfolding(crate::specs::Entry::Sources::archive_of))]
impl FromValue for Archive {
    ghost form = { archive_of };

    fn from_value(alloc: Global, value: Value) -> Result<Archive, FieldError> {
        let mut table = into_table(value)?;
        let location = Location::read(take(&mut table, "url"), take(&mut table, "path"))?;
        let hashes = hashes(alloc, take(&mut table, "hashes"))?;
        let subdirectory = optional_text(take(&mut table, "subdirectory"))?;
        Ok(Archive {
            location,
            hashes,
            subdirectory,
        })
    }
}
