//! Files, as the host gives them.

ghost use Rattle.std.specs.Prelude.{◌≡◌, ◌≢◌, IfErr, IfOk};
ghost use Rattle.std.specs.Result.{result_map_both};
ghost use Rattle.pylock_run.specs.Files.{Reads, most_file_bytes};
ghost use Rattle.pylock_run.specs.Stream.Whole.{GivesAll, IsCause};
ghost use Rattle.pylock_run.specs.declared.stream.whole.FileFault.TheVariants as file_fault;

use crate::stream::Source;
use crate::stream::whole::{FileFault, read_whole};
use std::alloc::Global;
use std::io::ErrorKind;

/// The most bytes that a file has.
pub const FILE_BYTES: u64 = 268_435_456;

/// Why a file can't be read that can't be opened.
pub fn open_fault(kind: ErrorKind) -> FileFault
    ensures missing { kind ≡ ErrorKind.NotFound → result ≡ file_fault.Missing }
    ensures permission { kind ≡ ErrorKind.PermissionDenied → result ≡ file_fault.Permission }
    ensures memory { kind ≡ ErrorKind.OutOfMemory → result ≡ file_fault.Memory }
    ensures other { kind ≢ ErrorKind.NotFound → kind ≢ ErrorKind.PermissionDenied
        → kind ≢ ErrorKind.OutOfMemory → result ≡ file_fault.Read }
{
    match kind {
        ErrorKind::NotFound => FileFault::Missing,
        ErrorKind::PermissionDenied => FileFault::Permission,
        ErrorKind::OutOfMemory => FileFault::Memory,
        _ => FileFault::Read,
    }
}

/// Where files are read.
pub trait Files {
    // What a read of the file at a path may give.
    ghost read_gives: { Self → Reads };

    /// All bytes of the file at this path.
    fn read(&self, path: &str) -> Result<Vec<u8>, FileFault>
        ensures { read_gives self.now path.now
            (result_map_both (λ bytes. bytes.items) (λ fault. fault) result) };
}

/// All bytes of a file, as `read_whole` says, of which there may be 268,435,456.
pub fn read_file<R: Source>(alloc: Global, file: &mut R) -> Result<Vec<u8>, FileFault>
    ensures all { IfOk result (λ bytes. GivesAll most_file_bytes
        (R.value file.old) (R.value file.new) bytes.items) }
    ensures fault { IfErr result (IsCause most_file_bytes (R.value file.old) (R.value file.new)) }
{
    read_whole(alloc, file, FILE_BYTES)
}
