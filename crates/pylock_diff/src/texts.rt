//! Texts that are compared, and shown with a separator between them.

ghost use Rattle.std.specs.Prelude.{◌≡◌, IfOk, map, option_map, string_bytes};
ghost use Rattle.std.specs.Cmp.Lexicographic.{pointwise};
ghost use Rattle.std.specs.Option.{option_copied};
ghost use Rattle.std.specs.Str.{bytes_eq};
ghost use Rattle.pylock_compare.specs.Lent.{lent_texts};
ghost use Rattle.pylock_diff.specs.Change.{shown_texts};

use pylock_shown::{hidden, push_hidden};
use std::alloc::{AllocError, Global};

/// The texts as they are shown, with the separator between them, and `-` for one that is absent;
/// nothing of no text.
pub(crate) fn shown_texts(
    alloc: Global,
    separator: &str,
    texts: &[Option<&str>],
) -> Result<Option<String>, AllocError>
    ensures { IfOk result (λ text. option_map string_bytes text
        ≡ shown_texts separator.now (map option_copied texts.now)) }
{
    let [first, others @ ..] = texts else {
        return Ok(None);
    };
    let mut text = hidden(alloc, first.unwrap_or("-"))?;
    for other in others {
        text.push_str(separator)?;
        push_hidden(&mut text, other.unwrap_or("-"))?;
    }
    Ok(Some(text))
}

/// Whether the texts are the same.
pub(crate) fn are_same_texts<'x>(olds: &[&'x str], news: &[&'x str]) -> bool
    ensures { result ≡ pointwise bytes_eq (lent_texts olds.now) (lent_texts news.now) }
{
    olds == news
}
