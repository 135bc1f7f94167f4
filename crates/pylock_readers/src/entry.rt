//! The entries of a lock and their sources (PEP 751, `packages`).
ghost use Rattle.std.specs.Prelude.{◌≡◌};
ghost use Rattle.std.specs.Option.{option_copied};
ghost use Rattle.pyver_core.specs.Name.{normal_name};
ghost use Rattle.pylock_readers.specs.Entry.{wheel_names};

mod archive;
mod directory;
mod file;
mod file_name;
mod hashes;
mod kinds;
mod location;
mod read;
mod sources;
mod vcs;
mod wheels;

pub use archive::Archive;
pub use directory::Directory;
pub use file::{DistributionFile, Sdist, WheelFile};
pub use file_name::{file_name_of, path_file_name, url_file_name};
use pymark_core::Marker;
use pyver_core::{NormalName, SpecifierSet};
use pywheel_core::WheelName;
pub(crate) use read::read_entry;
use sources::Sources;
use std::marker::Model;
use std::rc::Rc;
pub use vcs::Vcs;

/// A package of the lock (PEP 751, `packages`).
pub struct Entry {
    name: NormalName,
    version: Option<String>,
    sources: Sources,
    marker: Option<Marker>,
    requires_python: Option<Rc<SpecifierSet>>,
}

impl Model for Entry {
    ghost use Rattle.std.specs.Prelude.{option_map, string_bytes};
    ghost use Rattle.pylock_readers.specs.Entry.{EntryValue};
    ghost use Rattle.std.specs.Coded.{codes};
    ghost use Rattle.pymark_core.specs.Marker.Coding.{marker_code};

    ghost Value = { EntryValue };

    ghost coded = { Prim.hlevel (codes, marker_code) };

    ghost view = { λ e. record {
      name = e.name;
      version = option_map string_bytes e.version;
      vcs = e.sources.vcs;
      directory = e.sources.directory;
      archive = e.sources.archive;
      sdist = e.sources.sdist;
      wheels = e.sources.wheels;
      marker = e.marker;
      requires_python = option_map (λ s. s.value) e.requires_python;
    } };
}

impl Drop for Entry {
    fn drop(self) {
        let Entry {
            name: _,
            version: _,
            sources: _,
            marker: _,
            requires_python: _,
        } = self;
    }
}

impl Entry {
    /// The name of the package in normal form (PEP 503).
    pub fn name(&self) -> &str
        ensures { result.now ≡ self.now.name }
    {
        self.name.as_str()
    }

    /// The same name, whose type says that it is in normal form.
    pub fn normal_name(&self) -> &NormalName
        ensures name { result.now ≡ self.now.name }
        ensures normal { normal_name self.now.name ≡ self.now.name }
    {
        let _ = self.name.as_str();
        &self.name
    }

    /// The key `version`, as written.
    pub fn version(&self) -> Option<&str>
        ensures { option_copied result ≡ self.now.version }
    {
        self.version.as_deref()
    }

    /// The key `marker`.
    pub fn marker(&self) -> Option<&Marker>
        ensures { option_copied result ≡ self.now.marker }
    {
        self.marker.as_ref()
    }

    /// The key `requires-python`.
    pub fn requires_python(&self) -> Option<&SpecifierSet>
        ensures { option_copied result ≡ self.now.requires_python }
    {
        self.requires_python.as_deref()
    }

    /// The key `vcs`.
    pub fn vcs(&self) -> Option<&Vcs>
        ensures { option_copied result ≡ self.now.vcs }
    {
        self.sources.vcs.as_deref()
    }

    /// The key `directory`.
    pub fn directory(&self) -> Option<&Directory>
        ensures { option_copied result ≡ self.now.directory }
    {
        self.sources.directory.as_deref()
    }

    /// The key `archive`.
    pub fn archive(&self) -> Option<&Archive>
        ensures { option_copied result ≡ self.now.archive }
    {
        self.sources.archive.as_deref()
    }

    /// The key `sdist`.
    pub fn sdist(&self) -> Option<&Sdist>
        ensures { option_copied result ≡ self.now.sdist }
    {
        self.sources.sdist.as_deref()
    }

    /// The wheels of the key `wheels`, in their order.
    pub fn wheels(&self) -> &[WheelFile]
        ensures { result.now ≡ self.now.wheels }
    {
        self.sources.wheels.files()
    }

    /// What the file name of each wheel says, nothing where it is absent or refused.
    pub fn wheel_names(&self) -> &[Option<WheelName>]
        ensures { result.now ≡ wheel_names self.now }
    {
        self.sources.wheels.names()
    }
}
