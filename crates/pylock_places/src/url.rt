//! What a URL names besides its place.

ghost use Rattle.std.specs.Prelude.{◌≡◌, false};
ghost use Rattle.std.specs.Option.{option_copied};
ghost use Rattle.pylock_places.specs.Inner.User.{user_after};
ghost use Rattle.pylock_places.specs.Url.{begins, behind_scheme, ends_authority, has_credentials};
ghost use Rattle.pylock_places.specs.Url.{is_https, is_remote_path, is_safe_remote, names_alone};

use crate::text::has_byte;
use pylock_shown::around;

/// Whether the text begins with the word, ASCII letter case ignored.
fn begins(word: &[u8], text: &str) -> bool
    ensures { result ≡ begins word.now text.now }
{
    match text.as_bytes().get(..word.len()) {
        Some(front) => front.eq_ignore_ascii_case(word),
        None => false,
    }
}

/// Whether the URL is of HTTPS, so that nobody on the way may change what it names.
pub fn is_https(url: &str) -> bool
    ensures { result ≡ is_https url.now }
{
    begins(b"https://", url)
}

/// The same of what a version control system encrypts besides.
pub fn is_safe_remote(url: &str) -> bool
    ensures { result ≡ is_safe_remote url.now }
{
    begins(b"ssh://", url)
        || begins(b"git+ssh://", url)
        || begins(b"git+https://", url)
        || (behind_scheme(url.as_bytes()).is_none() && is_remote_path(url))
}

/// Whether this is a path on another machine, `git@host:path`.
fn is_remote_path(text: &str) -> bool
    ensures { result ≡ is_remote_path text.now }
{
    match around(text, b':') {
        Some((machine, _)) => has_byte(machine, b'@') && !has_byte(machine, b'/'),
        None => false,
    }
}

/// What stands behind the first `://`.
fn behind_scheme(url: &[u8]) -> Option<&[u8]>
    ensures { option_copied result ≡ behind_scheme url.now }
{
    let mut left = url;
    while let [_, rest @ ..] = left {
        if let [b':', b'/', b'/', behind @ ..] = left {
            return Some(behind);
        }
        left = rest;
    }
    None
}

fn ends_authority(b: u8) -> bool
    ensures { result ≡ ends_authority b }
{
    matches!(b, b'/' | b'?' | b'#')
}

/// Whether the URL names a user; where a name alone tells nothing, whether it names a password.
#[tactic(auto, using(crate::proofs::UserLemmas::user_is))]
pub fn has_credentials(url: &str) -> bool
    ensures { result ≡ has_credentials url.now }
{
    match behind_scheme(url.as_bytes()) {
        Some(behind) => has_user(!names_alone(url), behind),
        None => false,
    }
}

/// Whether a name alone tells nothing behind this scheme.
fn names_alone(url: &str) -> bool
    ensures { result ≡ names_alone url.now }
{
    begins(b"ssh://", url) || begins(b"git+ssh://", url)
}

/// Whether a user stands before the name of the machine. Where not any user counts, a `:` has to
/// stand in it.
fn has_user(any: bool, behind: &[u8]) -> bool
    ensures { result ≡ user_after any false behind.now }
{
    let mut counts = any;
    let mut found = false;
    let mut left = behind;
    while let [b, rest @ ..] = left {
        if ends_authority(*b) {
            return found;
        }
        if *b == b'@' {
            found = counts;
        }
        counts = counts || *b == b':';
        left = rest;
    }
    found
}
