//! The hashes of a source.

ghost use Rattle.std.specs.Prelude.{◌≡◌};
ghost use Rattle.std.specs.Option.{option_copied};
ghost use Rattle.pylock_readers.specs.Text.{text_pairs};
ghost use Rattle.pylock_exports.specs.Inner.{written};
ghost use Rattle.pylock_exports.specs.Listed.{hash_of, sha256_of};

use crate::source::Source;

/// An algorithm and its value.
pub(crate) type Hash = (String, String);

/// The value of an algorithm.
pub(crate) fn hash_of<'a>(algorithm: &str, hashes: &'a [Hash]) -> Option<&'a str>
    ensures { option_copied result ≡ hash_of algorithm.now (text_pairs hashes.now) }
{
    for (name, value) in hashes {
        if name.as_str() == algorithm {
            return Some(value.as_str());
        }
    }
    None
}

/// The SHA-256 of a source.
pub(crate) fn sha256_of(source: Source<'_>) -> Option<&str>
    ensures { option_copied result ≡ sha256_of (written source.entry) }
{
    hash_of("sha256", source.hashes())
}
