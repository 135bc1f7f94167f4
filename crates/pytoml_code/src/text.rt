//! Texts and keys.

ghost use Rattle.std.specs.Prelude.{◌≡◌, ◌+◌, ◌<◌, ◌++◌, OnOk};
ghost use Rattle.std.specs.List.{flat_map, list_all};
ghost use Rattle.toml_parser.specs.Lexical.{is_bare};
ghost use Rattle.toml.specs.Data.{string};
ghost use Rattle.pytoml_code.specs.Code.{code};
ghost use Rattle.pytoml_code.specs.Text.{escaped, hex_digit, is_bare_key, is_control, is_quoting};
ghost use Rattle.pytoml_code.specs.Text.{ended};
ghost use Rattle.pytoml_code.specs.Text.{key_code, quoted};

use std::alloc::AllocError;
use toml_parser::bytes::is_bare;

/// Adds the code of a text. Out of memory is the only refusal; what was added then is some of it.
pub fn push_text_code(out: &mut Vec<u8>, text: &str) -> Result<(), AllocError>
    ensures { OnOk result (out.new.items ≡ out.old.items ++ code (string text.now)) }
{
    push_quoted(out, text)
}

/// Adds a basic string.
pub(crate) fn push_quoted(out: &mut Vec<u8>, text: &str) -> Result<(), AllocError>
    ensures { OnOk result (out.new.items ≡ out.old.items ++ quoted text.now) }
{
    out.push(b'"')?;
    push_escaped(out, text.as_bytes())?;
    out.push(b'"')?;
    Ok(())
}

fn push_escaped(out: &mut Vec<u8>, bytes: &[u8]) -> Result<(), AllocError>
    ensures { OnOk result (out.new.items ≡ out.old.items ++ flat_map escaped bytes.now) }
{
    for byte in bytes {
        push_byte(out, *byte)?;
    }
    Ok(())
}

/// Adds a byte of a basic string.
fn push_byte(out: &mut Vec<u8>, byte: u8) -> Result<(), AllocError>
    ensures { OnOk result (out.new.items ≡ out.old.items ++ escaped byte) }
{
    if is_quoting(byte) {
        return out.extend_from_slice(&[b'\\', byte]);
    }
    if is_control(byte) {
        out.extend_from_slice(b"\\u00")?;
        return out.extend_from_slice(&[hex_digit(byte / 16), hex_digit(byte % 16)]);
    }
    out.push(byte)?;
    Ok(())
}

fn is_quoting(byte: u8) -> bool
    ensures { result ≡ is_quoting byte }
{
    byte == b'"' || byte == b'\\'
}

fn is_control(byte: u8) -> bool
    ensures { result ≡ is_control byte }
{
    byte < 32 || byte == 127
}

fn hex_digit(number: u8) -> u8
    requires { number < 16 }
    ensures { result ≡ hex_digit number }
{
    if number < 10 {
        number + 48
    } else {
        number + 55
    }
}

/// Adds a key, with its end.
pub(crate) fn push_key(out: &mut Vec<u8>, key: &str) -> Result<(), AllocError>
    ensures { OnOk result (out.new.items ≡ out.old.items ++ key_code key.now) }
{
    if !is_bare_key(key.as_bytes()) {
        return push_quoted(out, key);
    }
    push_ended(out, key)
}

fn is_bare_key(key: &[u8]) -> bool
    ensures { result ≡ is_bare_key key.now }
{
    !key.is_empty() && are_bare(key)
}

fn are_bare(key: &[u8]) -> bool
    ensures { result ≡ list_all is_bare key.now }
{
    key.iter().all(|byte| is_bare(*byte))
}

/// Adds a word and the mark of its end.
pub(crate) fn push_ended(out: &mut Vec<u8>, word: &str) -> Result<(), AllocError>
    ensures { OnOk result (out.new.items ≡ out.old.items ++ ended word.now) }
{
    out.extend_from_slice(word.as_bytes())?;
    out.push(0)?;
    Ok(())
}
