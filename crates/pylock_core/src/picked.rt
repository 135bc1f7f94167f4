//! The source that a pick names, and every source of an entry, lent by the entry.
ghost use Rattle.std.specs.Prelude.{◌≡◌, ◌++◌, IfOk, OnOk, map, option_map};
ghost use Rattle.std.specs.Option.{option_copied};
ghost use Rattle.pylock_readers.specs.Entry.{place_of};
ghost use Rattle.pylock_readers.specs.Text.{text_pairs};
ghost use Rattle.pylock_core.specs.Session.Picks.{is_unhashed, lent_named, lent_source};
ghost use Rattle.pylock_core.specs.Session.Picks.{source_commit_id, source_file, source_file_name};
ghost use Rattle.pylock_core.specs.Session.Picks.{source_hashes, source_in, source_location};
ghost use Rattle.pylock_core.specs.Session.Picks.{source_subdirectory, source_vcs, source_vcs_kind};
ghost use Rattle.pylock_core.specs.Session.Picks.{source_where, source_word, sources, wheels_from};

use crate::answer::PickSource;
use crate::words::directory_word;
use pylock_readers::{Archive, Directory, DistributionFile, Entry, Sdist, Vcs, WheelFile};
use std::alloc::{AllocError, Global};

/// The source that an entry is installed from, lent by the entry (PEP 751, installation step 6).
#[derive(Clone, Copy)]
pub enum PickedSource<'a> {
    /// The entry's `vcs`.
    Vcs(&'a Vcs),
    /// The entry's `directory`.
    Directory(&'a Directory),
    /// The entry's `archive`.
    Archive(&'a Archive),
    /// One of the entry's `wheels`.
    Wheel(&'a WheelFile),
    /// The entry's `sdist`.
    Sdist(&'a Sdist),
}

impl<'a> PickedSource<'a> {
    /// Its kind: `vcs`, `directory`, `archive`, `wheel` or `sdist`; of a directory that is
    /// installed in place `editable`. It takes no memory, as all that follow.
    pub fn word(self) -> &'static str
        ensures { result.now ≡ source_word (lent_source self.entry) }
    {
        match self {
            PickedSource::Vcs(_) => "vcs",
            PickedSource::Directory(directory) => directory_word(directory),
            PickedSource::Archive(_) => "archive",
            PickedSource::Wheel(_) => "wheel",
            PickedSource::Sdist(_) => "sdist",
        }
    }

    /// The checkout that it is (PEP 751, `packages.vcs`).
    pub fn vcs(self) -> Option<&'a Vcs>
        ensures { option_copied result ≡ source_vcs (lent_source self.entry) }
    {
        match self {
            PickedSource::Vcs(vcs) => Some(vcs),
            _ => None,
        }
    }

    /// The sdist or the wheel that it is (PEP 751, `packages.sdist` and `packages.wheels`).
    pub fn file(self) -> Option<&'a DistributionFile>
        ensures { option_copied result ≡ source_file (lent_source self.entry) }
    {
        match self {
            PickedSource::Wheel(file) | PickedSource::Sdist(file) => Some(file),
            _ => None,
        }
    }

    /// The file name of an sdist or a wheel.
    pub fn file_name(self) -> Option<&'a str>
        ensures { option_copied result ≡ source_file_name (lent_source self.entry) }
    {
        self.file()?.file_name()
    }

    /// The key `url`, which a directory has not.
    pub fn url(self) -> Option<&'a str>
        ensures { option_copied result ≡ (source_location (lent_source self.entry)).url }
    {
        match self {
            PickedSource::Vcs(vcs) => vcs.url(),
            PickedSource::Directory(_) => None,
            PickedSource::Archive(archive) => archive.url(),
            PickedSource::Wheel(file) | PickedSource::Sdist(file) => file.url(),
        }
    }

    /// The key `path`.
    pub fn path(self) -> Option<&'a str>
        ensures { option_copied result ≡ (source_location (lent_source self.entry)).path }
    {
        match self {
            PickedSource::Vcs(vcs) => vcs.path(),
            PickedSource::Directory(directory) => Some(directory.path()),
            PickedSource::Archive(archive) => archive.path(),
            PickedSource::Wheel(file) | PickedSource::Sdist(file) => file.path(),
        }
    }

    /// Where it lies: its path, else its URL.
    pub fn place(self) -> &'a str
        ensures { result.now ≡ place_of (source_location (lent_source self.entry)) }
    {
        self.path().or(self.url()).unwrap_or("")
    }

    /// Whether it is a checkout or a directory, which is no file and has no key `hashes`.
    pub fn is_unhashed(self) -> bool
        ensures { result ≡ is_unhashed (lent_source self.entry) }
    {
        matches!(self, PickedSource::Vcs(_) | PickedSource::Directory(_))
    }

    /// The pairs of algorithm and value of the key `hashes`, in byte order of the algorithm.
    pub fn hashes(self) -> &'a [(String, String)]
        ensures { text_pairs result.now ≡ source_hashes (lent_source self.entry) }
    {
        match self {
            PickedSource::Vcs(_) | PickedSource::Directory(_) => &[],
            PickedSource::Archive(archive) => archive.hashes(),
            PickedSource::Wheel(file) | PickedSource::Sdist(file) => file.hashes(),
        }
    }

    /// The name of the version control system of a checkout, its key `type`.
    pub fn vcs_kind(self) -> Option<&'a str>
        ensures { option_copied result ≡ source_vcs_kind (lent_source self.entry) }
    {
        Some(self.vcs()?.kind())
    }

    /// The key `commit-id` of a checkout.
    pub fn commit_id(self) -> Option<&'a str>
        ensures { option_copied result ≡ source_commit_id (lent_source self.entry) }
    {
        Some(self.vcs()?.commit_id())
    }

    /// The key `subdirectory`, which an sdist and a wheel have not.
    pub fn subdirectory(self) -> Option<&'a str>
        ensures { option_copied result ≡ source_subdirectory (lent_source self.entry) }
    {
        match self {
            PickedSource::Vcs(vcs) => vcs.subdirectory(),
            PickedSource::Directory(directory) => directory.subdirectory(),
            PickedSource::Archive(archive) => archive.subdirectory(),
            PickedSource::Wheel(_) | PickedSource::Sdist(_) => None,
        }
    }
}

impl PickSource {
    /// The source that this names in an entry. A pick's entry has it; an entry that hasn't gives
    /// none. It takes no memory.
    pub fn of(self, entry: &Entry) -> Option<PickedSource<'_>>
        ensures { option_map lent_source result ≡ source_in entry.now self }
    {
        Some(match self {
            PickSource::Vcs => PickedSource::Vcs(entry.vcs()?),
            PickSource::Directory => PickedSource::Directory(entry.directory()?),
            PickSource::Archive => PickedSource::Archive(entry.archive()?),
            PickSource::Wheel(place) => PickedSource::Wheel(entry.wheels().get(place)?),
            PickSource::Sdist => PickedSource::Sdist(entry.sdist()?),
        })
    }
}

/// A source of an entry, with what names it there.
#[derive(Clone, Copy)]
pub struct NamedSource<'a> {
    /// What names it: its key, and of a wheel its place.
    pub name: PickSource,
    /// The source, lent by the entry.
    pub source: PickedSource<'a>,
}

/// Every source that an entry has, whatever machine it is for: `vcs`, `directory`, `archive`, the
/// wheels in order, `sdist` (PEP 751, `packages`). It takes memory for the list.
pub fn sources(alloc: Global, entry: &Entry) -> Result<Vec<NamedSource<'_>>, AllocError>
    ensures { IfOk result (λ list. map lent_named list.items ≡ sources entry.now) }
{
    let mut list = Vec::new(alloc);
    push_source(&mut list, entry, PickSource::Vcs)?;
    push_source(&mut list, entry, PickSource::Directory)?;
    push_source(&mut list, entry, PickSource::Archive)?;
    push_wheels(&mut list, entry)?;
    push_source(&mut list, entry, PickSource::Sdist)?;
    Ok(list)
}

/// Adds the source that is named, where the entry has it.
fn push_source<'a>(
    list: &mut Vec<NamedSource<'a>>,
    entry: &'a Entry,
    name: PickSource,
) -> Result<(), AllocError>
    ensures { OnOk result (map lent_named list.new.items
        ≡ map lent_named list.old.items ++ source_where entry.now name) }
{
    if let Some(source) = name.of(entry) {
        list.push(NamedSource { name, source })?;
    }
    Ok(())
}

/// Adds the wheels.
fn push_wheels<'a>(list: &mut Vec<NamedSource<'a>>, entry: &'a Entry) -> Result<(), AllocError>
    ensures { OnOk result (map lent_named list.new.items
        ≡ map lent_named list.old.items ++ wheels_from 0 entry.now.wheels) }
{
    for (place, wheel) in entry.wheels().iter().enumerate() {
        list.push(NamedSource {
            name: PickSource::Wheel(place),
            source: PickedSource::Wheel(wheel),
        })?;
    }
    Ok(())
}
