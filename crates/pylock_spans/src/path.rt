//! The paths that findings and refusals write.

ghost use Rattle.std.specs.Prelude.{◌≡◌, [], ◌∷◌, IfOk, IfSome, MatchOption, codes};
ghost use Rattle.pylock_spans.specs.Path.{IsPathOf, IsWordOf, behind_word, first_word};

use crate::step::Step;
use std::alloc::{AllocError, Global};

/// The steps of a path as the findings of `audit` write it, in an entry: a key; `vcs`,
/// `directory`, `archive` or `sdist` and a key of its table; or `wheels`, a position from 1, and
/// perhaps a key of that wheel, as `wheels 2 url`. Any other text is one key. It takes memory for
/// at most three steps.
pub fn steps_of<'a>(alloc: Global, path: &'a str) -> Result<Vec<Step<'a>>, AllocError>
    ensures { IfOk result (λ steps. IsPathOf path.now steps.items) }
{
    match path.split_once(' ') {
        Some(("wheels", rest)) => wheel_steps(alloc, path, rest),
        Some((table, key)) if is_source(table) => {
            Ok(Vec::from_array(alloc, [Step::Key(table), Step::Key(key)])?)
        }
        _ => Ok(Vec::from_array(alloc, [Step::Key(path)])?),
    }
}

/// Whether the key has the table of a source (PEP 751).
fn is_source(key: &str) -> bool {
    matches!(key, "vcs" | "directory" | "archive" | "sdist")
}

/// The steps of a path that has this behind `wheels`.
fn wheel_steps<'a>(alloc: Global, path: &'a str, rest: &'a str) -> Result<Vec<Step<'a>>, AllocError>
    requires word { first_word path.now ≡ codes "wheels" }
    requires rest { behind_word path.now ≡ rest.now }
    ensures { IfOk result (λ steps. IsPathOf path.now steps.items) }
{
    let wheels = Step::Key("wheels");
    match wheel_and_key(rest) {
        Some((wheel, Some(key))) => Ok(Vec::from_array(alloc, [wheels, wheel, key])?),
        Some((wheel, None)) => Ok(Vec::from_array(alloc, [wheels, wheel])?),
        None => Ok(Vec::from_array(alloc, [Step::Key(path)])?),
    }
}

/// The wheel at the position that a text begins with, and the key that may stand behind it.
fn wheel_and_key(text: &str) -> Option<(Step<'_>, Option<Step<'_>>)>
    ensures { IfSome result (λ found. MatchOption found.1
        (IsPathOf text.now (found.0 ∷ []))
        (λ key. IsPathOf text.now (found.0 ∷ key ∷ []))) }
{
    match text.split_once(' ') {
        Some((word, key)) => Some((wheel_of(word)?, Some(Step::Key(key)))),
        None => Some((wheel_of(text)?, None)),
    }
}

/// The wheel at the position that a word writes.
fn wheel_of(word: &str) -> Option<Step<'_>>
    ensures { IfSome result (IsWordOf word.now) }
{
    let position = word.parse::<usize>().ok()?;
    Some(Step::Element(position))
}
