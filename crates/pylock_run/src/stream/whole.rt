//! Reads a source to its end.
ghost use Rattle.std.specs.Prelude.{◌≡◌, ◌<◌, ◌≤◌, ◌-◌, length, vec_len, false, IsTrue};
ghost use Rattle.std.specs.Prelude.{IfOk, IfErr, OnOk};
ghost use Rattle.std.specs.Io.KnownBytes.{IsAtEnd};
ghost use Rattle.pylock_run.specs.Inner.Pieces.{GivesPiece};
ghost use Rattle.pylock_run.specs.Stream.Whole.{GivesAll, IsCause, most_piece_bytes};

use crate::stream::Source;
use std::alloc::{AllocError, Global};

/// How many bytes are asked for at once.
pub const PIECE_BYTES: usize = 65_536;

/// Why a file or a source was not read whole.
#[derive(Clone, Copy, Debug, PartialEq, Eq)]
pub enum FileFault {
    /// There is no such file.
    Missing,
    /// It is a directory.
    Directory,
    /// It may not be read.
    Permission,
    /// A read failed, or the file can't be opened for another reason.
    Read,
    /// The source gave more bytes than the limit.
    Limit,
    /// An allocation was refused.
    Memory,
}

impl From<AllocError> for FileFault {
    ghost use Rattle.pylock_run.specs.declared.stream.whole.FileFault.TheVariants.{Memory};

    ghost from_gives = { λ _ fault. fault ≡ Memory };

    fn from(_error: AllocError) -> FileFault {
        FileFault::Memory
    }
}

/// A buffer for one piece.
pub fn piece_buffer(alloc: Global) -> Result<Vec<u8>, AllocError>
    ensures { IfOk result (λ buffer. vec_len buffer ≡ most_piece_bytes) }
{
    vec![in alloc; 0u8; PIECE_BYTES]
}

/// Reads one more piece onto `bytes`, and answers whether there was one. `bytes` are those that
/// `reader` gave before.
fn read_piece<R: Source>(
    reader: &mut R,
    buffer: &mut [u8],
    bytes: &mut Vec<u8>,
    limit: u64,
) -> Result<bool, FileFault>
    requires capacity { 0 < length buffer.old }
    requires within { vec_len bytes.old ≤ limit }
    ensures gave { OnOk result (GivesPiece (R.value reader.old) (R.value reader.new)
        bytes.old.items bytes.new.items) }
    ensures within { OnOk result (vec_len bytes.new ≤ limit) }
    ensures grew { IfOk result (λ more. IsTrue more → vec_len bytes.old < vec_len bytes.new) }
    ensures end { IfOk result (λ more. more ≡ false → IsAtEnd (R.value reader.new).rest) }
    ensures fault { IfErr result (IsCause (limit - vec_len bytes.old)
        (R.value reader.old) (R.value reader.new)) }
{
    let Ok(count) = reader.read(buffer) else {
        return Err(FileFault::Read);
    };
    if count == 0 {
        return Ok(false);
    }
    if count as u64 > limit - bytes.len() as u64 {
        return Err(FileFault::Limit);
    }
    bytes.extend_from_slice(&buffer[..count])?;
    Ok(true)
}

/// All bytes up to the end of `input`, of which there may be `limit`. What is met first, a read
/// that fails or a byte past the limit, is the fault; what was given before it is lost.
///
/// It asks for at most 65,536 bytes at once, and takes memory for them and for what it answers.
pub fn read_whole<R: Source>(alloc: Global, input: &mut R, limit: u64) -> Result<Vec<u8>, FileFault>
    ensures all { IfOk result (λ bytes. GivesAll limit (R.value input.old) (R.value input.new)
        bytes.items) }
    ensures fault { IfErr result (IsCause limit (R.value input.old) (R.value input.new)) }
{
    let mut piece = piece_buffer(alloc)?;
    let buffer = piece.as_mut_slice();
    let mut bytes = Vec::new(alloc);
    'pieces: while read_piece(input, buffer, &mut bytes, limit)? {}
    Ok(bytes)
}
