//! Texts that are cut at a byte.

ghost use Rattle.std.specs.Prelude.{◌≡◌, ◌==◌, ◌||◌, ◌<◌, not, option_map};
ghost use Rattle.std.specs.List.{list_any, prefix_len};
ghost use Rattle.pywheel_core.specs.Texts.{cut_at, cut_at_last};
ghost use Rattle.pylock_shown.specs.Hidden.{is_slash};
ghost use Rattle.pylock_shown.specs.Inner.Parts.{front_len};

/// What stands before and behind the first such byte, which is one of ASCII; nothing where the text
/// has none. It takes no memory.
pub fn around(text: &str, mark: u8) -> Option<(&str, &str)>
    requires { mark < 128 }
    ensures { option_map (λ cut. (cut.0.now, cut.1.now)) result ≡ cut_at mark text.now }
{
    text.split_once(mark as char)
}

/// What stands before and behind the last `@`.
pub(crate) fn around_last_at(text: &str) -> Option<(&str, &str)>
    ensures { option_map (λ cut. (cut.0.now, cut.1.now)) result ≡ cut_at_last 64 text.now }
{
    text.rsplit_once('@')
}

fn is_slash(b: u8) -> bool
    ensures { result ≡ is_slash b }
{
    matches!(b, b'/' | b'\\')
}

/// How many bytes stand before the first slash: all where there is none.
fn slashless_len(text: &str) -> usize
    ensures { result ≡ prefix_len (λ b. not (is_slash b)) text.now }
{
    text.as_bytes()
        .iter()
        .take_while(|b| !is_slash(**b))
        .count()
}

/// How many bytes stand up to the first slash, with it: all where there is none.
#[tactic(auto, using(crate::proofs::SlashLemmas::front_is))]
pub(crate) fn front_len(text: &str) -> usize
    ensures { result ≡ front_len text.now }
{
    let before = slashless_len(text);
    if before < text.len() {
        before + 1
    } else {
        before
    }
}

/// Whether the text has a slash or an `@`.
pub(crate) fn has_slash_or_at(text: &str) -> bool
    ensures { result ≡ list_any (λ b. is_slash b || b == 64) text.now }
{
    text.bytes().any(|b| is_slash(b) || b == b'@')
}

/// Whether the text has a `?`.
pub(crate) fn has_mark(text: &str) -> bool
    ensures { result ≡ list_any (λ b. b == 63) text.now }
{
    text.bytes().any(|b| b == b'?')
}
