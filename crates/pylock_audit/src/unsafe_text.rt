//! Texts that do harm where they are used as they stand.

ghost use Rattle.std.specs.Prelude.{◌≡◌};
ghost use Rattle.std.specs.List.{list_any};
ghost use Rattle.pylock_readers.specs.Entry.FileName.{ends_segment};
ghost use Rattle.pylock_audit.specs.Unsafe.{begins_with_root, climbs_out, cuts_path, has_drive};
ghost use Rattle.pylock_audit.specs.Unsafe.{has_parent, is_folder_above, is_outside_path};
ghost use Rattle.pylock_audit.specs.Unsafe.{is_same_folder, is_unsafe_name, is_unsafe_path};
ghost use Rattle.pylock_shown.specs.Visible.{has_control};

use pylock_shown::has_control;

fn ends_segment(b: u8) -> bool
    ensures { result ≡ ends_segment b }
{
    matches!(b, b'/' | b'\\')
}

/// Whether a file name names no file of its folder, or has a control character.
pub(crate) fn is_unsafe_name(name: &str) -> bool
    ensures { result ≡ is_unsafe_name name.now }
{
    ends_a_segment(name) || has_control(name) || name == "." || name == ".."
}

/// Each byte is looked at, so that many are at once; by itself, since within its caller it isn't
/// compiled to that.
#[inline(never)]
fn ends_a_segment(text: &str) -> bool
    ensures { result ≡ list_any ends_segment text.now }
{
    let mut whole = true;
    for byte in text.as_bytes() {
        whole &= !ends_segment(*byte);
    }
    !whole
}

/// Whether a path within a source leaves the folder that it begins in, or goes up at all.
pub(crate) fn is_unsafe_path(text: &str) -> bool
    ensures { result ≡ is_unsafe_path text.now }
{
    begins_with_root(text.as_bytes()) || has_drive(text) || has_parent(text.as_bytes())
}

fn begins_with_root(text: &[u8]) -> bool
    ensures { result ≡ begins_with_root text.now }
{
    match text {
        [first, ..] => ends_segment(*first),
        [] => false,
    }
}

/// Whether the second character is `:`.
fn has_drive(text: &str) -> bool
    ensures { result ≡ has_drive text.now }
{
    text.chars().nth(1) == Some(':')
}

/// Whether a piece is `..`, on Windows or elsewhere.
fn has_parent(text: &[u8]) -> bool
    ensures { result ≡ has_parent text.now }
{
    text.split(|b| ends_segment(*b))
        .any(|piece| is_folder_above(piece))
}

fn is_folder_above(piece: &[u8]) -> bool
    ensures { result ≡ is_folder_above piece.now }
{
    matches!(piece, [b'.', b'.'])
}

// ---- outside of a folder

/// Whether a path names something outside of the folder that it begins in, on Windows or elsewhere.
pub(crate) fn is_outside_path(text: &str) -> bool
    ensures { result ≡ is_outside_path text.now }
{
    begins_with_root(text.as_bytes())
        || has_drive(text)
        || climbs_out(false, text)
        || climbs_out(true, text)
}

/// Whether a piece of a path ends here, on Windows or elsewhere.
fn cuts_path(windows: bool, b: u8) -> bool
    ensures { result ≡ cuts_path windows b }
{
    b == b'/' || (windows && b == b'\\')
}

fn is_same_folder(piece: &[u8]) -> bool
    ensures { result ≡ is_same_folder piece.now }
{
    matches!(piece, [] | [b'.'])
}

/// Whether a path climbs out of the folder that it begins in, as one system or the other cuts it.
fn climbs_out(windows: bool, text: &str) -> bool
    ensures { result ≡ climbs_out windows text.now }
{
    let mut depth = 0usize;
    for piece in text.as_bytes().split(|b| cuts_path(windows, *b)) {
        if is_folder_above(piece) {
            if depth == 0 {
                return true;
            }
            depth -= 1;
        } else if !is_same_folder(piece) {
            depth += 1;
        }
    }
    false
}
