//! White space before texts and round them.

ghost use Rattle.std.specs.Prelude.{◌≡◌};
ghost use Rattle.std.specs.List.{list_all, prefix_len, suffix_len};
ghost use Rattle.pytext.specs.Bytes.{is_white};
ghost use Rattle.pytext.specs.White.{after_white, trim_white};

use crate::bytes::is_white;

fn white_len(bytes: &[u8]) -> usize
    ensures { result ≡ prefix_len is_white bytes.now }
{
    bytes.iter().take_while(|b| is_white(**b)).count()
}

fn white_len_at_end(bytes: &[u8]) -> usize
    ensures { result ≡ suffix_len is_white bytes.now }
{
    bytes.iter().rev().take_while(|b| is_white(**b)).count()
}

/// Whether the bytes are white space alone.
pub fn is_blank(bytes: &[u8]) -> bool
    ensures { result ≡ list_all is_white bytes.now }
{
    bytes.iter().all(|b| is_white(*b))
}

/// The bytes after the white space that they begin with.
#[tactic(auto, using(crate::proofs::BytesLemmas::prefixes))]
pub fn after_white_bytes(bytes: &[u8]) -> &[u8]
    ensures { result.now ≡ after_white bytes.now }
{
    bytes.split_at(white_len(bytes)).1
}

/// The text after the white space that it begins with.
#[tactic(auto, using(crate::proofs::BoundaryLemmas::boundary_behind_white))]
pub fn after_white(text: &str) -> &str
    ensures { result.now ≡ after_white text.now }
{
    text.split_at(white_len(text.as_bytes())).1
}

/// The text without the white space that it begins and ends with.
#[tactic(auto, using(crate::proofs::BoundaryLemmas::before_white))]
pub fn trim_white(text: &str) -> &str
    ensures { result.now ≡ trim_white text.now }
{
    let rest = after_white(text);
    rest.split_at(rest.len() - white_len_at_end(rest.as_bytes()))
        .0
}
