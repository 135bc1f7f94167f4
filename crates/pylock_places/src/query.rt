//! The query of a URL, and what it gives away (RFC 3986, section 3.4).

ghost use Rattle.std.specs.Prelude.{◌≡◌, map, option_map};
ghost use Rattle.std.specs.Char.{to_ascii_lowercase};
ghost use Rattle.std.specs.List.{list_any};
ghost use Rattle.std.specs.Option.{option_copied};
ghost use Rattle.std.specs.Str.{bytes_eq};
ghost use Rattle.pywheel_core.specs.Texts.{pieces_at};
ghost use Rattle.pylock_places.specs.Query.{around_mark, before_fragment, has_secret, is_secret};
ghost use Rattle.pylock_places.specs.Query.{is_secret_key, secret_key};

use crate::text::has_byte;
use pylock_shown::around;

// ---- where it stands

/// What stands before and behind the `?` of a query.
fn around_mark(url: &str) -> Option<(&str, &str)>
    ensures { option_map (λ cut. (cut.0.now, cut.1.now)) result ≡ around_mark url.now }
{
    match around(url, b'?') {
        Some((front, behind)) if !has_byte(front, b'#') => Some((front, behind)),
        _ => None,
    }
}

/// What stands before the first `#`.
fn before_fragment(text: &str) -> &str
    ensures { result.now ≡ before_fragment text.now }
{
    match around(text, b'#') {
        Some((front, _)) => front,
        None => text,
    }
}

// ---- its secrets

/// Whether the text is this word, ASCII letter case ignored.
fn is_word(text: &str, word: &[u8]) -> bool
    ensures { result
        ≡ bytes_eq (map to_ascii_lowercase text.now) (map to_ascii_lowercase word.now) }
{
    text.as_bytes().eq_ignore_ascii_case(word)
}

/// Whether the value of this key opens what a URL names.
fn is_secret_key(key: &str) -> bool
    ensures { result ≡ is_secret_key key.now }
{
    is_word(key, b"token")
        || is_word(key, b"access_token")
        || is_word(key, b"private_token")
        || is_word(key, b"api_key")
        || is_word(key, b"apikey")
        || is_word(key, b"key")
        || is_word(key, b"password")
        || is_word(key, b"secret")
        || is_word(key, b"sig")
        || is_word(key, b"signature")
        || is_word(key, b"x-amz-signature")
}

/// The key of a pair that has a secret.
fn secret_key(pair: &str) -> Option<&str>
    ensures { option_copied result ≡ secret_key pair.now }
{
    match around(pair, b'=') {
        Some((key, value)) if is_secret_key(key) && !value.is_empty() => Some(key),
        _ => None,
    }
}

fn is_secret(pair: &str) -> bool
    ensures { result ≡ is_secret pair.now }
{
    secret_key(pair).is_some()
}

/// Whether the query of the URL has a secret.
pub fn has_secret(url: &str) -> bool
    ensures { result ≡ has_secret url.now }
{
    match around_mark(url) {
        Some((_, behind)) => any_secret(before_fragment(behind)),
        None => false,
    }
}

fn any_secret(query: &str) -> bool
    ensures { result ≡ list_any is_secret (pieces_at 38 query.now) }
{
    query.split('&').any(|pair| is_secret(pair))
}
