//! Where a source lies.

ghost use Rattle.std.specs.Prelude.{◌≡◌, IfOk};
ghost use Rattle.std.specs.List.{list_all};
ghost use Rattle.std.specs.Option.{option_copied};
ghost use Rattle.pylock_core.specs.Session.Picks.{lent_source};
ghost use Rattle.pylock_bill.specs.Source.{bare_url, is_uri_character, source_url};

use pylock_core::PickedSource;
use pylock_shown::hidden;
use std::alloc::{AllocError, Global};

/// The URL of a source, where it has one in which nothing may be a secret and each character may
/// stand in a URI.
pub(crate) fn source_url<'a>(
    alloc: Global,
    source: PickedSource<'a>,
) -> Result<Option<&'a str>, AllocError>
    ensures { IfOk result (λ url. option_copied url ≡ source_url (lent_source source.entry)) }
{
    match source.url() {
        Some(url) => bare_url(alloc, url),
        None => Ok(None),
    }
}

/// The URL, where it is shown as it is and has the characters of a URI.
fn bare_url(alloc: Global, url: &str) -> Result<Option<&str>, AllocError>
    ensures { IfOk result (λ bare. option_copied bare ≡ bare_url url.now) }
{
    let shown = hidden(alloc, url)?;
    if !url.is_empty() && shown.as_str() == url && has_uri_characters(url) {
        Ok(Some(url))
    } else {
        Ok(None)
    }
}

/// Whether each character of a text is one that a URI may have.
pub(crate) fn has_uri_characters(text: &str) -> bool
    ensures { result ≡ list_all is_uri_character text.now }
{
    text.as_bytes().iter().all(|byte| is_uri_character(*byte))
}

fn is_uri_character(byte: u8) -> bool
    ensures { result ≡ is_uri_character byte }
{
    byte.is_ascii_alphanumeric()
        || matches!(
            byte,
            b'!' | b'#'..=b'/' | b':' | b';' | b'=' | b'?' | b'@' | b'[' | b']' | b'_' | b'~'
        )
}
