//! Package URLs of type `pypi` (purl specification, "purl-types: pypi").

ghost use Rattle.std.specs.Prelude.{◌≡◌, ◌++◌, ◌<◌, IfOk, OnOk, option_map, string_bytes};
ghost use Rattle.std.specs.List.{flat_map};
ghost use Rattle.std.specs.Option.{option_copied};
ghost use Rattle.pylock_bill.specs.Purl.{escaped, hex_digit, is_plain, normal_version, purl};
ghost use Rattle.pylock_bill.specs.Purl.{purl_version};

use pyver_core::{Version, VersionError, normal_name};
use std::alloc::{AllocError, Global};

/// The package URL of a project on the index: of the normal form of its name (PEP 503) and, where
/// there is one, that of its version (PEP 440). A version that is none is taken as it is written.
/// It takes memory for the text, three times while it grows.
pub fn purl_of(alloc: Global, name: &str, version: Option<&str>) -> Result<String, AllocError>
    ensures { IfOk result (λ text. string_bytes text
        ≡ purl name.now (option_copied version.entry)) }
{
    let name = normal_name(alloc, name)?;
    let mut text = String::from_str(alloc, "pkg:pypi/")?;
    push_escaped(&mut text, name.as_str())?;
    push_version(alloc, &mut text, version)?;
    Ok(text)
}

fn push_version(alloc: Global, out: &mut String, version: Option<&str>) -> Result<(), AllocError>
    ensures { OnOk result (string_bytes out.new
        ≡ string_bytes out.old ++ purl_version (option_copied version.entry)) }
{
    let Some(version) = version else {
        return Ok(());
    };
    let normal = normal_version(alloc, version)?;
    out.push('@')?;
    push_escaped(out, normal.as_str())
}

/// The normal form of a version; a text that is none stays.
pub(crate) fn normal_version(alloc: Global, text: &str) -> Result<String, AllocError>
    ensures { IfOk result (λ normal. string_bytes normal ≡ normal_version text.now) }
{
    match Version::parse(alloc, text) {
        Ok(version) => String::from_str(alloc, version.text()),
        Err(VersionError::Memory) => Err(AllocError),
        Err(_) => String::from_str(alloc, text),
    }
}

/// The same, where there is a version.
pub(crate) fn normal_version_of(
    alloc: Global,
    version: Option<&str>,
) -> Result<Option<String>, AllocError>
    ensures { IfOk result (λ normal. option_map string_bytes normal
        ≡ option_map normal_version (option_copied version.entry)) }
{
    match version {
        Some(text) => Ok(Some(normal_version(alloc, text)?)),
        None => Ok(None),
    }
}

// ---- percent-encoding

fn push_escaped(out: &mut String, text: &str) -> Result<(), AllocError>
    ensures { OnOk result (string_bytes out.new
        ≡ string_bytes out.old ++ flat_map escaped text.now) }
{
    for byte in text.as_bytes() {
        push_byte(out, *byte)?;
    }
    Ok(())
}

fn push_byte(out: &mut String, byte: u8) -> Result<(), AllocError>
    ensures { OnOk result (string_bytes out.new ≡ string_bytes out.old ++ escaped byte) }
{
    if is_plain(byte) {
        return out.push(char::from(byte));
    }
    out.push('%')?;
    out.push(char::from(hex_digit(byte / 16)))?;
    out.push(char::from(hex_digit(byte % 16)))
}

fn is_plain(byte: u8) -> bool
    ensures { result ≡ is_plain byte }
{
    byte.is_ascii_alphanumeric() || matches!(byte, b'.' | b'-' | b'_' | b'~' | b':')
}

fn hex_digit(number: u8) -> u8
    requires { number < 16 }
    ensures value { result ≡ hex_digit number }
    ensures ascii { result < 128 }
{
    if number < 10 {
        number + 48
    } else {
        number + 55
    }
}
