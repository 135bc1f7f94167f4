//! Texts that stand behind one another, with their lengths beside them: how a caller in another
//! language hands over several.

ghost use Rattle.std.specs.Prelude.{◌≡◌, IfOk, map, option_map};
ghost use Rattle.pylock_memory.specs.Parts.{cut_by};

use std::alloc::{AllocError, Global};

/// The parts of the bytes that have these lengths, one behind another; `None` where the lengths
/// don't add up to the bytes. It takes memory for a slice of each.
pub fn cut_parts<'a>(
    alloc: Global,
    lengths: &[usize],
    bytes: &'a [u8],
) -> Result<Option<Vec<&'a [u8]>>, AllocError>
    ensures { IfOk result (λ parts. option_map
        (λ parts. map (λ part. part.now) parts.items) parts ≡ cut_by lengths.now bytes.entry.now) }
{
    let mut parts = Vec::with_capacity(alloc, lengths.len())?;
    let mut left = bytes;
    for length in lengths {
        if left.len() < *length {
            return Ok(None);
        }
        let (part, behind) = left.split_at(*length);
        parts.push(part)?;
        left = behind;
    }
    Ok(if left.is_empty() { Some(parts) } else { None })
}
