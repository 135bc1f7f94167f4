//! Steps over a text. What stands between tokens is mostly nothing or one space, and a string or a
//! key mostly has no byte that means something else, so these are looked for first.
ghost use Rattle.std.specs.Prelude.{◌≡◌, ◌+◌, ◌≤◌, drop, false, length, map};
ghost use Rattle.std.specs.List.{prefix_len};
ghost use Rattle.std.specs.Simd.Lanes.{mask_l};
ghost use Rattle.toml_parser.specs.Lexical.{is_bare, skip_blank, skip_ws};
ghost use Rattle.toml_parser.specs.Strings.{is_plain};
ghost use Rattle.pytoml.specs.Text.{is_simple, is_stop};

use std::simd::prelude::*;
use toml_parser::bytes::{is_bare, is_non_eol};
use toml_parser::text as slow;
use toml_parser::text::{byte_at, first, skip};

/// After spaces and tabs.
#[inline]
pub(crate) fn past_ws(s: &str) -> &str
    ensures rest { result.now ≡ skip_ws s.now }
    ensures within { length result.now ≤ length s.now }
{
    if first(s) > b' ' {
        s
    } else if first(s) == b' ' && byte_at(s, 1) > b' ' {
        skip(s, 1)
    } else {
        slow::skip_ws(s)
    }
}

/// After white space, newlines and comments.
#[inline]
pub(crate) fn past_blank(s: &str) -> &str
    ensures rest { result.now ≡ skip_blank s.now }
    ensures within { length result.now ≤ length s.now }
{
    if first(s) > b'#' {
        s
    } else if first(s) == b' ' && byte_at(s, 1) > b'#' {
        skip(s, 1)
    } else {
        slow::skip_blank(s, true)
    }
}

/// How many bytes at the front can stand in a bare key.
#[inline]
pub(crate) fn bare_len(bytes: &[u8]) -> usize
    ensures len { result ≡ prefix_len is_bare bytes.now }
    ensures within { result ≤ length bytes.now }
{
    let mut len = 0;
    while len < bytes.len() && is_bare(bytes[len]) {
        len += 1;
    }
    len
}

#[inline(always)]
fn stops(lanes: u8x16) -> u64
    ensures { result ≡ mask_l (map is_stop lanes) }
{
    (lanes.simd_eq(u8x16::splat(b'"'))
        | lanes.simd_eq(u8x16::splat(b'\\'))
        | lanes.simd_eq(u8x16::splat(0x7F))
        | lanes.simd_lt(u8x16::splat(0x20))).to_bitmask()
}

/// Where the simple bytes from this place on end, which stand for themselves in a basic string.
#[inline]
pub(crate) fn simple_end(bytes: &[u8], from: usize) -> usize
    requires { from ≤ length bytes.now }
    ensures end { result ≡ from + prefix_len is_simple (drop from bytes.now) }
    ensures within { result ≤ length bytes.now }
{
    let mut at = from;
    while bytes.len() - at >= 16 {
        let found = stops(u8x16::from_slice(&bytes[at..]));
        if found != 0 {
            return at + found.trailing_zeros() as usize;
        }
        at += 16;
    }
    at + simple_len(&bytes[at..])
}

fn simple_len(bytes: &[u8]) -> usize
    ensures len { result ≡ prefix_len is_simple bytes.now }
    ensures within { result ≤ length bytes.now }
{
    bytes.iter().take_while(|byte| is_simple(**byte)).count()
}

fn is_simple(byte: u8) -> bool
    ensures { result ≡ is_simple byte }
{
    byte >= 0x20 && byte != b'"' && byte != b'\\' && byte != 0x7F
}

/// How many bytes at the front stand for themselves in a basic string, tabs among them.
pub(crate) fn plain_len(bytes: &[u8]) -> usize
    ensures { result ≡ prefix_len (is_plain 34 false) bytes.now }
{
    bytes.iter().take_while(|byte| is_plain(**byte)).count()
}

fn is_plain(byte: u8) -> bool
    ensures { result ≡ is_plain 34 false byte }
{
    byte != b'"' && byte != b'\\' && is_non_eol(byte)
}
