//! The path of a file as a URI reference (RFC 3986, section 4.1).

ghost use Rattle.std.specs.Prelude.{◌≡◌, IfOk, string_bytes};
ghost use Rattle.pylock_sarif.specs.Uri.{is_authority, uri_of};

use percent_encoding::{AsciiSet, NON_ALPHANUMERIC, ascii_set, percent_encode};
use std::alloc::{AllocError, Global};

/// The ASCII characters that don't stand as themselves: all but the unreserved ones (RFC 3986,
/// section 2.3) and the `/` between the segments of a path.
pub const ESCAPED: AsciiSet = ascii_set!(
    NON_ALPHANUMERIC
        .remove(b'-')
        .remove(b'.')
        .remove(b'_')
        .remove(b'~')
        .remove(b'/')
);

/// The URI reference of a path: relative as the path is, with each other byte as `%` and two hex
/// digits. It takes memory for the text.
pub(crate) fn uri_of(alloc: Global, path: &str) -> Result<String, AllocError>
    ensures { IfOk result (λ uri. string_bytes uri ≡ uri_of path.now) }
{
    let mut uri = String::new(alloc);
    if is_authority(path.as_bytes()) {
        uri.push_str("/.")?;
    }
    percent_encode(path.as_bytes(), ESCAPED).append_to(&mut uri)?;
    Ok(uri)
}

/// Whether the path begins with two slashes, which would begin an authority.
fn is_authority(path: &[u8]) -> bool
    ensures { result ≡ is_authority path.now }
{
    matches!(path, [b'/', b'/', ..])
}
