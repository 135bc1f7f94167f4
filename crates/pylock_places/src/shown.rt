//! How the place of a source is shown, and what it is called where it is spoken of.

ghost use Rattle.std.specs.Prelude.{◌≡◌, IfOk, string_bytes};
ghost use Rattle.std.specs.Option.{option_copied};
ghost use Rattle.pylock_core.specs.Session.Picks.{lent_source};
ghost use Rattle.pylock_places.specs.Shown.{file_label, shown_place, source_label, source_text};

use crate::file_name::shown_file_name;
use pylock_core::PickedSource;
use pylock_readers::DistributionFile;
use pylock_shown::hidden;
use std::alloc::{AllocError, Global};

/// The place of a source as it is shown: its path, else its URL, with `***` for what opens it: the
/// user, and each value of the query. It takes memory for the text, once more while it grows.
pub fn shown_place(
    alloc: Global,
    path: Option<&str>,
    url: Option<&str>,
) -> Result<String, AllocError>
    ensures { IfOk result (λ text. string_bytes text ≡ shown_place (record {
      url = option_copied url.entry;
      path = option_copied path.entry;
    })) }
{
    match (path, url) {
        (Some(path), _) => hidden(alloc, path),
        (None, Some(url)) => hidden(alloc, url),
        (None, None) => Ok(String::new(alloc)),
    }
}

/// The file name as it is shown, or the place where the file has none. It takes memory for the
/// text, twice.
pub fn file_label(alloc: Global, file: &DistributionFile) -> Result<String, AllocError>
    ensures { IfOk result (λ text. string_bytes text ≡ file_label file.now) }
{
    match shown_file_name(alloc, file)? {
        Some(name) => Ok(name),
        None => shown_place(alloc, file.path(), file.url()),
    }
}

/// What a source is called: the label of a wheel or an sdist, and of another its place. It takes
/// memory for the text, twice.
pub fn source_label(alloc: Global, source: PickedSource<'_>) -> Result<String, AllocError>
    ensures { IfOk result (λ text. string_bytes text ≡ source_label (lent_source source.entry)) }
{
    match source.file() {
        Some(file) => file_label(alloc, file),
        None => shown_place(alloc, source.path(), source.url()),
    }
}

/// The kind of a source, a space and what it is called. It takes memory for the text, twice.
pub fn source_text(alloc: Global, source: PickedSource<'_>) -> Result<String, AllocError>
    ensures { IfOk result (λ text. string_bytes text ≡ source_text (lent_source source.entry)) }
{
    let word = source.word();
    let label = source_label(alloc, source)?;
    let text = format!(in alloc; "{word} {label}")?;
    Ok(text)
}
