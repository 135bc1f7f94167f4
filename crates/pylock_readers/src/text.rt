//! Texts from bytes.
ghost use Rattle.std.specs.Prelude.{◌≡◌};
ghost use Rattle.std.specs.Option.{option_copied};
ghost use Rattle.pylock_readers.specs.Text.{utf8_text};

/// The bytes as text, where they are UTF-8.
#[tactic(auto, using(crate::proofs::TextLemmas::utf8_tests))]
pub(crate) fn as_text(bytes: &[u8]) -> Option<&str>
    ensures { option_copied result ≡ utf8_text bytes.now }
{
    std::str::from_utf8(bytes).ok()
}
