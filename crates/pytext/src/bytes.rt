//! Classes of bytes.

ghost use Rattle.std.specs.Prelude.{◌≡◌};
ghost use Rattle.pytext.specs.Bytes.{is_name_byte, is_separator, is_white, is_word_byte};

/// Whether the byte is TAB, LF, VT, FF, CR or space.
pub fn is_white(byte: u8) -> bool
    ensures { result ≡ is_white byte }
{
    matches!(byte, b' ' | b'\t'..=b'\r')
}

/// Whether the byte is an ASCII letter or digit, or `_`.
pub fn is_word_byte(byte: u8) -> bool
    ensures { result ≡ is_word_byte byte }
{
    byte.is_ascii_alphanumeric() || byte == b'_'
}

/// Whether the byte is `.`, `_` or `-`.
pub fn is_separator(byte: u8) -> bool
    ensures { result ≡ is_separator byte }
{
    matches!(byte, b'.' | b'_' | b'-')
}

/// Whether the byte may stand in a name: an ASCII letter or digit, `.`, `_` or `-`.
pub fn is_name_byte(byte: u8) -> bool
    ensures { result ≡ is_name_byte byte }
{
    byte.is_ascii_alphanumeric() || is_separator(byte)
}
