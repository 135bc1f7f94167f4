//! Lines and columns.

ghost use Rattle.std.specs.Prelude.{◌≡◌, ◌+◌, ◌<◌, ◌≤◌, ◌^◌, length, take};
ghost use Rattle.pylock_spans.specs.Place.{behind, continues, place_behind};

/// A line and a column of a text, both counted from 1. A line ends with a line feed, so one that
/// ends with a carriage return and a line feed counts once. A column counts characters (Unicode
/// scalar values), as `unicodeCodePoints` of SARIF 2.1.0 has it (section 3.14.17). A byte order
/// mark at the beginning of the text counts as none.
#[derive(Clone, Copy, Debug, PartialEq, Eq)]
pub struct Place {
    /// The line.
    pub line: u64,
    /// The column.
    pub column: u64,
}

/// Where a text begins.
pub(crate) const FIRST_PLACE: Place = Place { line: 1, column: 1 };

/// The place behind these bytes, where they begin at this one.
pub(crate) fn place_behind(from: Place, bytes: &[u8]) -> Place
    requires line { from.line + length bytes.now + 1 < 2 ^ 64 }
    requires column { from.column + length bytes.now + 1 < 2 ^ 64 }
    ensures { result ≡ place_behind from bytes.now }
{
    let mut place = from;
    for byte in bytes {
        place = behind(place, *byte);
    }
    place
}

/// The place behind a byte that begins at this one.
fn behind(place: Place, byte: u8) -> Place
    requires line { place.line + 1 < 2 ^ 64 }
    requires column { place.column + 1 < 2 ^ 64 }
    ensures { result ≡ behind place byte }
{
    if byte == b'\n' {
        Place {
            line: place.line + 1,
            column: 1,
        }
    } else if continues(byte) {
        place
    } else {
        Place {
            line: place.line,
            column: place.column + 1,
        }
    }
}

/// Whether a character began before this byte of it.
fn continues(byte: u8) -> bool
    ensures { result ≡ continues byte }
{
    (0x80..0xC0).contains(&byte)
}
