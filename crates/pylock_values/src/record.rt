//! Records: fields with a TAB between.

ghost use Rattle.std.specs.Prelude.{◌≡◌, IfOk, drop};

use std::alloc::{AllocError, Global};

/// The bytes behind the first: a record is its fields without the TAB before the first.
pub(crate) fn without_first(alloc: Global, bytes: &[u8]) -> Result<Vec<u8>, AllocError>
    ensures { IfOk result (λ made. made.items ≡ drop 1 bytes.now) }
{
    match bytes {
        [_first, rest @ ..] => Vec::from_slice(alloc, rest),
        [] => Ok(Vec::new(alloc)),
    }
}
