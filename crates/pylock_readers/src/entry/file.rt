//! Sdists and wheels.
ghost use Rattle.std.specs.Prelude.{◌≡◌};
ghost use Rattle.std.specs.Option.{option_copied};
ghost use Rattle.pylock_readers.specs.Entry.{file_name, place_of};
ghost use Rattle.pylock_readers.specs.Entry.Sources.{file_of};
ghost use Rattle.pylock_readers.specs.Text.{text_pairs};

use crate::entry::file_name::file_name_of;
use crate::entry::hashes::hashes;
use crate::entry::location::Location;
use crate::field::{FieldError, FromValue, into_table, optional_text, take};
use std::alloc::Global;
use std::marker::Model;
use toml::Value;

/// An sdist or a wheel to install from (PEP 751, `packages.sdist` and `packages.wheels`).
pub struct DistributionFile {
    name: Option<String>,
    location: Location,
    hashes: Vec<(String, String)>,
    file_name: Option<String>,
}

/// A source distribution (PEP 751, `packages.sdist`).
pub type Sdist = DistributionFile;

/// A wheel (PEP 751, `packages.wheels`).
pub type WheelFile = DistributionFile;

impl Model for DistributionFile {
    ghost use Rattle.std.specs.Prelude.{◌≡◌, option_map, string_bytes};
    ghost use Rattle.pylock_readers.specs.Entry.{FileValue};
    ghost use Rattle.pylock_readers.specs.Entry.FileName.{file_name_of};
    ghost use Rattle.pylock_readers.specs.Text.{text_pairs};

    ghost Value = { FileValue };

    ghost view = { λ f. record {
      name = option_map string_bytes f.name;
      location = f.location;
      hashes = text_pairs f.hashes.items;
    } };

    ghost invariant = { λ f. option_map string_bytes f.file_name
        ≡ file_name_of (option_map string_bytes f.name) f.location.path f.location.url };
}

impl Drop for DistributionFile {
    fn drop(self) {
        let DistributionFile {
            name: _,
            location: _,
            hashes: _,
            file_name: _,
        } = self;
    }
}

impl DistributionFile {
    /// The key `name`.
    pub fn name(&self) -> Option<&str>
        ensures { option_copied result ≡ self.now.name }
    {
        self.name.as_deref()
    }

    /// The key `url`.
    pub fn url(&self) -> Option<&str>
        ensures { option_copied result ≡ self.now.location.url }
    {
        self.location.url()
    }

    /// The key `path`.
    pub fn path(&self) -> Option<&str>
        ensures { option_copied result ≡ self.now.location.path }
    {
        self.location.path()
    }

    /// Where the file lies: its path, else its URL.
    pub fn place(&self) -> &str
        ensures { result.now ≡ place_of self.now.location }
    {
        self.location.place()
    }

    /// The file name: the key `name`, else the last part of the path, else the last part of the URL
    /// with its escapes decoded. An empty file name counts as absent.
    pub fn file_name(&self) -> Option<&str>
        ensures { option_copied result ≡ file_name self.now }
    {
        self.file_name.as_deref()
    }

    /// The pairs of algorithm and value of the key `hashes`, in byte order of the algorithm.
    pub fn hashes(&self) -> &[(String, String)]
        ensures { text_pairs result.now ≡ self.now.hashes }
    {
        self.hashes.as_slice()
    }
}

#[tactic(auto, using(crate::proofs::kept), unfolding(crate::specs::Entry::Sources::file_of))]
impl FromValue for DistributionFile {
    ghost form = { file_of };

    fn from_value(alloc: Global, value: Value) -> Result<DistributionFile, FieldError> {
        let mut table = into_table(value)?;
        let name = optional_text(take(&mut table, "name"))?;
        let location = Location::read(take(&mut table, "url"), take(&mut table, "path"))?;
        let hashes = hashes(alloc, take(&mut table, "hashes"))?;
        let file_name = file_name_of(alloc, name.as_deref(), location.path(), location.url())?;
        Ok(DistributionFile {
            name,
            location,
            hashes,
            file_name,
        })
    }
}
