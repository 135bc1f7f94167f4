//! Files that the caller gives with their bytes.

ghost use Rattle.std.specs.Prelude.{◌≡◌, ◌++◌, IfOk, map};
ghost use Rattle.std.specs.Option.{option_copied};
ghost use Rattle.pylock_memory.specs.Files.{file_at, file_value, files_by_turns};

use pylock_run::{FILE_BYTES, FileFault, Files};
use std::alloc::{AllocError, Global};

/// A file in memory.
#[derive(Clone, Copy)]
pub struct MemoryFile<'a> {
    /// The path by which the words name it.
    pub path: &'a [u8],
    /// Its bytes.
    pub bytes: &'a [u8],
}

/// The files that there are. Of several with one path the first is read, and a path that none of
/// them has is that of a missing file.
#[derive(Drop)]
pub struct MemoryFiles<'a> {
    alloc: Global,
    files: &'a [MemoryFile<'a>],
}

impl<'a> MemoryFiles<'a> {
    /// These files. It takes no memory.
    pub fn new(alloc: Global, files: &'a [MemoryFile<'a>]) -> MemoryFiles<'a>
        ensures { result.files ≡ files.entry }
    {
        MemoryFiles { alloc, files }
    }
}

impl<'a> Files for MemoryFiles<'a> {
    ghost use Rattle.std.specs.Prelude.{map};
    ghost use Rattle.pylock_memory.specs.Files.{file_value, reads_of};

    ghost read_gives = { λ files. reads_of (map file_value files.files.now) };

    fn read(&self, path: &str) -> Result<Vec<u8>, FileFault> {
        let Some(bytes) = file_at(self.files, path) else {
            return Err(FileFault::Missing);
        };
        if bytes.len() as u64 > FILE_BYTES {
            return Err(FileFault::Limit);
        }
        Ok(Vec::from_slice(self.alloc, bytes)?)
    }
}

/// The bytes of the first file with this path.
fn file_at<'a>(files: &'a [MemoryFile<'a>], path: &str) -> Option<&'a [u8]>
    ensures { option_copied result ≡ file_at (map file_value files.now) path.now }
{
    for file in files {
        if file.path == path.as_bytes() {
            return Some(file.bytes);
        }
    }
    None
}

/// Files that are given as a path and its bytes by turns.
pub(crate) fn files_by_turns<'a>(
    alloc: Global,
    parts: &[&'a [u8]],
) -> Result<Vec<MemoryFile<'a>>, AllocError>
    ensures { IfOk result (λ files. map file_value files.items
        ≡ files_by_turns (map (λ part. part.now) parts.now)) }
{
    let mut files = Vec::with_capacity(alloc, parts.len() / 2)?;
    let mut left = parts;
    'files: while let [path, bytes, behind @ ..] = left {
        files.push(MemoryFile { path, bytes })?;
        left = behind;
    }
    Ok(files)
}
