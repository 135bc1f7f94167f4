//! How the file name of an sdist or a wheel is shown. What is compared and tested is the file name
//! as the steps see it.

ghost use Rattle.std.specs.Prelude.{◌≡◌, IfOk, option_map, string_bytes};
ghost use Rattle.pylock_places.specs.FileName.{shown_file_name};

use crate::text::hidden_text;
use pylock_readers::{DistributionFile, file_name_of};
use pylock_shown::hidden_name;
use std::alloc::{AllocError, Global};

/// The file name of a file, as it is shown: the end of its path or URL as that is shown, where the
/// key `name` doesn't give it. It takes memory for the name, the path and the URL, each once more
/// while it grows.
pub fn shown_file_name(alloc: Global, file: &DistributionFile) -> Result<Option<String>, AllocError>
    ensures { IfOk result (λ name. option_map string_bytes name ≡ shown_file_name file.now) }
{
    let name = hidden_text(alloc, file.name())?;
    let path = hidden_text(alloc, file.path())?;
    let url = hidden_text(alloc, file.url())?;
    match file_name_of(alloc, name.as_deref(), path.as_deref(), url.as_deref())? {
        Some(found) => Ok(Some(hidden_name(alloc, found.as_str())?)),
        None => Ok(None),
    }
}
