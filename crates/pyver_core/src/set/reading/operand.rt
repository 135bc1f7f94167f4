//! What stands after the operator of a specifier.

ghost use Rattle.std.specs.Prelude.{◌≡◌, option_map};
ghost use Rattle.std.specs.List.{prefix_len};
ghost use Rattle.pyver_core.specs.Inner.VersionDraft.{draft_parts};
ghost use Rattle.pyver_core.specs.Set.Grammar.{is_arbitrary_byte};
ghost use Rattle.pyver_core.specs.Set.Reading.{arbitrary_text_of, compatible_version_of, is_star};
ghost use Rattle.pyver_core.specs.Set.Reading.{prefix_of, public_version_of};
ghost use Rattle.pyver_core.specs.Inner.SpecifierDraft.{base_prefix};

use crate::version::reading::{Base, VersionDraft, read_base, read_version};
use pytext::{after_white, after_white_bytes, is_blank, is_white};

/// Whether `.*` is all that stands there, but for white space.
fn is_star(bytes: &[u8]) -> bool
    ensures { result ≡ is_star bytes.now }
{
    match bytes {
        [b'.', b'*', rest @ ..] => is_blank(rest),
        _ => false,
    }
}

/// The epoch and the release of `R.*`.
#[tactic(auto, unfolding(crate::specs::Set::Reading::prefix_of))]
pub(super) fn read_prefix(bytes: &[u8]) -> Option<Base<'_>>
    ensures { option_map base_prefix result ≡ prefix_of bytes.now }
{
    let (base, rest) = read_base(after_white_bytes(bytes))?;
    is_star(rest).then_some(base)
}

/// A version without a local part.
#[tactic(auto, unfolding(crate::specs::Set::Reading::public_version_of))]
pub(super) fn read_public_version(bytes: &[u8]) -> Option<VersionDraft<'_>>
    ensures { option_map draft_parts result ≡ public_version_of bytes.now }
{
    let draft = read_version(bytes)?;
    draft.local.is_empty().then_some(draft)
}

/// A version without a local part and with two numbers or more in its release.
#[tactic(auto, unfolding(crate::specs::Set::Reading::compatible_version_of))]
pub(super) fn read_compatible_version(bytes: &[u8]) -> Option<VersionDraft<'_>>
    ensures { option_map draft_parts result ≡ compatible_version_of bytes.now }
{
    let draft = read_public_version(bytes)?;
    draft.base.release.has_two_numbers().then_some(draft)
}

fn is_arbitrary_byte(byte: u8) -> bool
    ensures { result ≡ is_arbitrary_byte byte }
{
    !(is_white(byte) || matches!(byte, b';' | b')' | b','))
}

fn arbitrary_len(bytes: &[u8]) -> usize
    ensures { result ≡ prefix_len is_arbitrary_byte bytes.now }
{
    bytes.iter().take_while(|b| is_arbitrary_byte(**b)).count()
}

/// The text behind `===`, which has no white space, `;`, `)` or `,` in it.
#[tactic(auto, unfolding(crate::specs::Set::Reading::arbitrary_text_of))]
pub(super) fn read_arbitrary_text(text: &str) -> Option<&str>
    ensures { option_map (λ t. t.now) result ≡ arbitrary_text_of text.now }
{
    let text = after_white(text);
    let (run, rest) = text.split_at(arbitrary_len(text.as_bytes()));
    (!run.is_empty() && is_blank(rest.as_bytes())).then_some(run)
}
