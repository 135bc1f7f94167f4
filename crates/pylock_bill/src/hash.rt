//! Hashes of files, and the names of their algorithms.

ghost use Rattle.std.specs.Prelude.{◌≡◌};
ghost use Rattle.std.specs.List.{list_all};
ghost use Rattle.pylock_readers.specs.Text.{text_pair};
ghost use Rattle.pylock_bill.specs.Hash.{algorithm_of, blake2b_of, cyclonedx_word, hash_algorithm};
ghost use Rattle.pylock_bill.specs.Hash.{is_hex_digit, spdx_word, where_long};

/// An algorithm's name and a value, as the lock has them.
pub(crate) type Hash = (String, String);

/// An algorithm that both standards name.
#[derive(Clone, Copy, Debug, PartialEq, Eq)]
pub(crate) enum Algorithm {
    /// MD5 (RFC 1321).
    Md5,
    /// SHA-1 (FIPS 180-4), as the next three.
    Sha1,
    /// SHA-256.
    Sha256,
    /// SHA-384.
    Sha384,
    /// SHA-512.
    Sha512,
    /// SHA3-256 (FIPS 202), as the next two.
    Sha3With256,
    /// SHA3-384.
    Sha3With384,
    /// SHA3-512.
    Sha3With512,
    /// BLAKE2b (RFC 7693) with values of 256 bits.
    Blake2b256,
    /// BLAKE2b with values of 384 bits.
    Blake2b384,
    /// BLAKE2b with values of 512 bits.
    Blake2b512,
    /// BLAKE3 with values of 256 bits.
    Blake3,
}

impl Algorithm {
    /// Its name in CycloneDX (CycloneDX 1.6, `hash-alg`).
    pub(crate) fn cyclonedx_word(self) -> &'static str
        ensures { result.now ≡ cyclonedx_word self }
    {
        match self {
            Algorithm::Md5 => "MD5",
            Algorithm::Sha1 => "SHA-1",
            Algorithm::Sha256 => "SHA-256",
            Algorithm::Sha384 => "SHA-384",
            Algorithm::Sha512 => "SHA-512",
            Algorithm::Sha3With256 => "SHA3-256",
            Algorithm::Sha3With384 => "SHA3-384",
            Algorithm::Sha3With512 => "SHA3-512",
            Algorithm::Blake2b256 => "BLAKE2b-256",
            Algorithm::Blake2b384 => "BLAKE2b-384",
            Algorithm::Blake2b512 => "BLAKE2b-512",
            Algorithm::Blake3 => "BLAKE3",
        }
    }

    /// Its name in SPDX (SPDX 2.3, section 7.10).
    pub(crate) fn spdx_word(self) -> &'static str
        ensures { result.now ≡ spdx_word self }
    {
        match self {
            Algorithm::Md5 => "MD5",
            Algorithm::Sha1 => "SHA1",
            Algorithm::Sha256 => "SHA256",
            Algorithm::Sha384 => "SHA384",
            Algorithm::Sha512 => "SHA512",
            Algorithm::Sha3With256 => "SHA3-256",
            Algorithm::Sha3With384 => "SHA3-384",
            Algorithm::Sha3With512 => "SHA3-512",
            Algorithm::Blake2b256 => "BLAKE2b-256",
            Algorithm::Blake2b384 => "BLAKE2b-384",
            Algorithm::Blake2b512 => "BLAKE2b-512",
            Algorithm::Blake3 => "BLAKE3",
        }
    }
}

/// The algorithm of a hash, where both standards name it and the value is one of it.
pub(crate) fn hash_algorithm(hash: &Hash) -> Option<Algorithm>
    ensures { result ≡ hash_algorithm (text_pair hash.now) }
{
    let value = hash.1.as_str();
    if !is_hex(value) {
        return None;
    }
    algorithm_of(hash.0.as_str(), value.len())
}

/// The algorithm of this name, whose value has so many hex digits.
fn algorithm_of(name: &str, digits: usize) -> Option<Algorithm>
    ensures { result ≡ algorithm_of name.now digits }
{
    match name {
        "md5" => where_long(32, Algorithm::Md5, digits),
        "sha1" => where_long(40, Algorithm::Sha1, digits),
        "sha256" => where_long(64, Algorithm::Sha256, digits),
        "sha384" => where_long(96, Algorithm::Sha384, digits),
        "sha512" => where_long(128, Algorithm::Sha512, digits),
        "sha3_256" => where_long(64, Algorithm::Sha3With256, digits),
        "sha3_384" => where_long(96, Algorithm::Sha3With384, digits),
        "sha3_512" => where_long(128, Algorithm::Sha3With512, digits),
        "blake2b" => blake2b_of(digits),
        "blake3" => where_long(64, Algorithm::Blake3, digits),
        _ => None,
    }
}

/// The algorithm, where its values have as many hex digits.
fn where_long(wanted: usize, named: Algorithm, digits: usize) -> Option<Algorithm>
    ensures { result ≡ where_long wanted named digits }
{
    if digits == wanted { Some(named) } else { None }
}

fn blake2b_of(digits: usize) -> Option<Algorithm>
    ensures { result ≡ blake2b_of digits }
{
    match digits {
        64 => Some(Algorithm::Blake2b256),
        96 => Some(Algorithm::Blake2b384),
        128 => Some(Algorithm::Blake2b512),
        _ => None,
    }
}

fn is_hex(value: &str) -> bool
    ensures { result ≡ list_all is_hex_digit value.now }
{
    value.as_bytes().iter().all(|byte| is_hex_digit(*byte))
}

fn is_hex_digit(byte: u8) -> bool
    ensures { result ≡ is_hex_digit byte }
{
    matches!(byte, b'0'..=b'9' | b'a'..=b'f' | b'A'..=b'F')
}
