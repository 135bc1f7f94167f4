//! Hashes of files.

ghost use Rattle.std.specs.Prelude.{◌≡◌};
ghost use Rattle.std.specs.List.{list_all, list_any};
ghost use Rattle.pylock_readers.specs.Text.{text_pair, text_pairs};
ghost use Rattle.pylock_audit.specs.Hash.{hex_lengths, is_bad, is_bad_value, is_hex_digit, is_odd};
ghost use Rattle.pylock_audit.specs.Hash.{is_mark, is_strong, is_weak};

/// An algorithm and its value.
pub(crate) type Hash = (String, String);

/// Whether none of the hashes is of a strong algorithm.
pub(crate) fn is_weak(hashes: &[Hash]) -> bool
    ensures { result ≡ is_weak (text_pairs hashes.now) }
{
    for hash in hashes {
        if is_strong(hash.0.as_str()) {
            return false;
        }
    }
    true
}

fn is_strong(algorithm: &str) -> bool
    ensures { result ≡ is_strong algorithm.now }
{
    matches!(
        algorithm,
        "sha256"
            | "sha384"
            | "sha512"
            | "sha3_256"
            | "sha3_384"
            | "sha3_512"
            | "blake2b"
            | "blake2s"
    )
}

/// Whether the value is none of its algorithm.
pub(crate) fn is_bad(hash: &Hash) -> bool
    ensures { result ≡ is_bad (text_pair hash.now) }
{
    is_bad_value(hex_lengths(hash.0.as_str()), hash.1.as_str())
}

/// How many hex digits a value of the algorithm may have; of others it isn't known.
fn hex_lengths(algorithm: &str) -> &'static [usize]
    ensures { result.now ≡ hex_lengths algorithm.now }
{
    match algorithm {
        "md5" => &[32],
        "sha1" => &[40],
        "sha224" | "sha3_224" => &[56],
        "sha256" | "sha3_256" | "blake2s" => &[64],
        "sha384" | "sha3_384" => &[96],
        "sha512" | "sha3_512" => &[128],
        "blake2b" => &[64, 128],
        _ => &[],
    }
}

fn is_bad_value(lengths: &[usize], value: &str) -> bool
    ensures { result ≡ is_bad_value lengths.now value.now }
{
    !lengths.is_empty() && !(lengths.contains(&value.len()) && is_hex(value))
}

/// Each byte is looked at, so that many are at once.
fn is_hex(value: &str) -> bool
    ensures { result ≡ list_all is_hex_digit value.now }
{
    let mut hex = true;
    for byte in value.as_bytes() {
        hex &= is_hex_digit(*byte);
    }
    hex
}

fn is_hex_digit(byte: u8) -> bool
    ensures { result ≡ is_hex_digit byte }
{
    matches!(byte, b'0'..=b'9' | b'a'..=b'f')
}

/// Whether the hash has what stands between hashes where a line shows them.
pub(crate) fn is_odd(hash: &Hash) -> bool
    ensures { result ≡ is_odd (text_pair hash.now) }
{
    has_mark(hash.0.as_str()) || has_mark(hash.1.as_str())
}

/// Each byte is looked at, so that many are at once; by itself, since within its caller it isn't
/// compiled to that.
#[inline(never)]
fn has_mark(text: &str) -> bool
    ensures { result ≡ list_any is_mark text.now }
{
    let mut bare = true;
    for byte in text.as_bytes() {
        bare &= !is_mark(*byte);
    }
    !bare
}

fn is_mark(byte: u8) -> bool
    ensures { result ≡ is_mark byte }
{
    matches!(byte, b',' | b'=')
}
