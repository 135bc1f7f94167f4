//! The sources of several locks.

ghost use Rattle.std.specs.Prelude.{◌≡◌, ◌+◌, ◌++◌, OnOk, map, option_and_then, option_map};
ghost use Rattle.std.specs.Option.{option_copied};
ghost use Rattle.pylock_core.specs.Session.Picks.{lent_named, sources};
ghost use Rattle.pylock_metadata.specs.View.{entry_view, metadata_view};
ghost use Rattle.pylock_union.specs.Listed.{all_lent, entry_metadata, file_metadata, lent};
ghost use Rattle.pylock_union.specs.Listed.{lock_source, sources_from};

use pylock_core::{Entry, NamedSource, PickSource, PickedSource, sources};
use pylock_metadata::{EntryMetadata, FileMetadata, Metadata};
use std::alloc::{AllocError, Global};

/// A source of an entry of one of several locks.
#[derive(Clone, Copy)]
pub struct LockSource<'a> {
    /// The number of the lock, the first of which has 1.
    pub lock: u64,
    /// The number of the entry in its lock, the first of which has 1.
    pub number: u64,
    /// The entry.
    pub entry: &'a Entry,
    /// The source, lent by the entry.
    pub source: PickedSource<'a>,
    /// The size of its file in bytes, where it is known (PEP 751, `size`).
    pub size: Option<u64>,
    /// When its file was uploaded, where it is known (PEP 751, `upload-time`).
    pub upload_time: Option<&'a str>,
}

/// An entry of a lock, with what is known of its files.
#[derive(Clone, Copy)]
struct LockEntry<'a> {
    lock: u64,
    number: u64,
    entry: &'a Entry,
    metadata: Option<&'a EntryMetadata>,
}

/// Adds every source of these entries, which are those of the lock of this number, whatever machine
/// it is for: entry by entry, and of each `vcs`, `directory`, `archive`, the wheels in order,
/// `sdist`. Metadata tell the size and the time of the files that they have.
///
/// It takes memory for the list, and for that of an entry's sources at a time.
pub fn push_sources<'a>(
    alloc: Global,
    list: &mut Vec<LockSource<'a>>,
    lock: u64,
    entries: &'a [Entry],
    metadata: Option<&'a Metadata>,
) -> Result<(), AllocError>
    ensures { OnOk result (all_lent list.new.items ≡ all_lent list.old.items
        ++ sources_from lock (option_map metadata_view (option_copied metadata.entry)) 0
        entries.now) }
{
    for (place, entry) in entries.iter().enumerate() {
        let of_entry = LockEntry {
            lock,
            number: place as u64 + 1,
            entry,
            metadata: entry_metadata(metadata, place),
        };
        push_entry(alloc, list, of_entry)?;
    }
    Ok(())
}

/// What is known of the entry at this place.
#[tactic(auto, using(crate::proofs::ListedLemmas::entry_said))]
fn entry_metadata(metadata: Option<&Metadata>, place: usize) -> Option<&EntryMetadata>
    ensures { option_map entry_view (option_copied result)
        ≡ entry_metadata (option_map metadata_view (option_copied metadata.entry)) place }
{
    metadata?.entries.get(place)
}

/// Adds the sources of an entry.
fn push_entry<'a>(
    alloc: Global,
    list: &mut Vec<LockSource<'a>>,
    of_entry: LockEntry<'a>,
) -> Result<(), AllocError>
    ensures { OnOk result (all_lent list.new.items ≡ all_lent list.old.items
        ++ map (lock_source of_entry.entry.lock of_entry.entry.number of_entry.entry.entry.now
        (option_map entry_view (option_copied of_entry.entry.metadata)))
        (sources of_entry.entry.entry.now)) }
{
    let named = sources(alloc, of_entry.entry)?;
    push_named(list, &of_entry, named.as_slice())
}

fn push_named<'a>(
    list: &mut Vec<LockSource<'a>>,
    of_entry: &LockEntry<'a>,
    named: &[NamedSource<'a>],
) -> Result<(), AllocError>
    ensures { OnOk result (all_lent list.new.items ≡ all_lent list.old.items
        ++ map (lock_source of_entry.now.lock of_entry.now.number of_entry.now.entry.now
        (option_map entry_view (option_copied of_entry.now.metadata))) (map lent_named named.now)) }
{
    for one in named {
        list.push(of_entry.source(one))?;
    }
    Ok(())
}

impl<'a> LockEntry<'a> {
    /// A source of the entry.
    fn source(&self, named: &NamedSource<'a>) -> LockSource<'a>
        ensures { lent result ≡ lock_source self.now.lock self.now.number self.now.entry.now
            (option_map entry_view (option_copied self.now.metadata)) (lent_named named.now) }
    {
        let file = self.file(named.name);
        LockSource {
            lock: self.lock,
            number: self.number,
            entry: self.entry,
            source: named.source,
            size: size_of(file),
            upload_time: upload_time_of(file),
        }
    }

    /// What is known of the file that a source of the entry is.
    fn file(&self, name: PickSource) -> Option<&'a FileMetadata>
        ensures { option_copied result ≡ option_and_then (λ m. file_metadata m name)
            (option_map entry_view (option_copied self.now.metadata)) }
    {
        let metadata = self.metadata?;
        match name {
            PickSource::Vcs | PickSource::Directory => None,
            PickSource::Archive => Some(&metadata.archive),
            PickSource::Wheel(place) => metadata.wheels.get(place),
            PickSource::Sdist => Some(&metadata.sdist),
        }
    }
}

fn size_of(file: Option<&FileMetadata>) -> Option<u64>
    ensures { result ≡ option_and_then (λ m. m.size) (option_copied file.entry) }
{
    file?.size
}

fn upload_time_of(file: Option<&FileMetadata>) -> Option<&str>
    ensures { option_copied result
        ≡ option_and_then (λ m. m.upload_time) (option_copied file.entry) }
{
    match &file?.upload_time {
        Some(time) => Some(time.as_str()),
        None => None,
    }
}
