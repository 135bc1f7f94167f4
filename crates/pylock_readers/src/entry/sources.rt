//! All sources of an entry.
ghost use Rattle.std.specs.Prelude.{◌≡◌, codes, option_map};
ghost use Rattle.toml.specs.Data.{get_member};
ghost use Rattle.toml.specs.View.{view, table_view};
ghost use Rattle.pytext.specs.Agreement.{Gives};
ghost use Rattle.pylock_readers.specs.Entry.Fields.{list_in, or_refused};
ghost use Rattle.pylock_readers.specs.Entry.Reading.{source_in, sources_in};
ghost use Rattle.pylock_readers.specs.Entry.Sources.{file_of};

use crate::entry::archive::Archive;
use crate::entry::directory::Directory;
use crate::entry::file::Sdist;
use crate::entry::vcs::Vcs;
use crate::entry::wheels::Wheels;
use crate::error::{EntryError, EntryKey};
use crate::field::{FromValue, optional_field, or_refused, take};
use pywheel_core::WheelReader;
use std::alloc::Global;
use std::marker::Model;
use toml::{Table, Value};

/// The sources of an entry. Nearly every entry has one or two, and the others take no memory.
pub(crate) struct Sources {
    pub(crate) vcs: Option<Box<Vcs>>,
    pub(crate) directory: Option<Box<Directory>>,
    pub(crate) archive: Option<Box<Archive>>,
    pub(crate) sdist: Option<Box<Sdist>>,
    pub(crate) wheels: Wheels,
}

impl Model for Sources {
    ghost use Rattle.std.specs.Prelude.{option_map};
    ghost use Rattle.pylock_readers.specs.Entry.Reading.{SourcesValue};

    ghost Value = { SourcesValue };

    ghost view = { λ s. record {
      vcs = option_map (λ b. b.value) s.vcs;
      directory = option_map (λ b. b.value) s.directory;
      archive = option_map (λ b. b.value) s.archive;
      sdist = option_map (λ b. b.value) s.sdist;
      wheels = s.wheels;
    } };
}

impl Drop for Sources {
    fn drop(self) {
        let Sources {
            vcs: _,
            directory: _,
            archive: _,
            sdist: _,
            wheels: _,
        } = self;
    }
}

#[tactic(auto, using(crate::proofs::kept), unfolding(crate::specs::Entry::Reading::sources_in))]
impl Sources {
    /// The sources of the table of an entry.
    pub(crate) fn read(
        alloc: Global,
        mut table: Table,
        names: &mut WheelReader,
    ) -> Result<Sources, EntryError>
        ensures { Gives EntryError.Memory (λ s. s) result (sources_in
            (get_member (codes "vcs") (table_view table))
            (get_member (codes "directory") (table_view table))
            (get_member (codes "archive") (table_view table))
            (get_member (codes "sdist") (table_view table))
            (get_member (codes "wheels") (table_view table))) }
    {
        let vcs = read_source(alloc, EntryKey::Vcs, take(&mut table, "vcs"))?;
        let directory = read_source(alloc, EntryKey::Directory, take(&mut table, "directory"))?;
        let archive = read_source(alloc, EntryKey::Archive, take(&mut table, "archive"))?;
        let sdist = read_source(alloc, EntryKey::Sdist, take(&mut table, "sdist"))?;
        let wheels = read_wheels(alloc, take(&mut table, "wheels"), names)?;
        Ok(Sources {
            vcs,
            directory,
            archive,
            sdist,
            wheels,
        })
    }
}

/// The source of a key, in memory of its own.
fn read_source<S: FromValue>(
    alloc: Global,
    key: EntryKey,
    field: Option<Value>,
) -> Result<Option<Box<S>>, EntryError>
    ensures { Gives EntryError.Memory (option_map (λ b. b.value)) result
        (source_in key S.form (option_map view field)) }
{
    let read = |value| Ok(Box::new(alloc, S::from_value(alloc, value)?)?);
    or_refused(EntryError::Key(key), optional_field(field, read))
}

fn read_wheels(
    alloc: Global,
    field: Option<Value>,
    names: &mut WheelReader,
) -> Result<Wheels, EntryError>
    ensures { Gives EntryError.Memory (λ w. w) result
        (or_refused (EntryError.Key EntryKey.Wheels) (list_in file_of (option_map view field))) }
{
    let wheels = Wheels::read(alloc, field, names);
    or_refused(EntryError::Key(EntryKey::Wheels), wheels)
}
