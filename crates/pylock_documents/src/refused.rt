//! What was refused.

ghost use Rattle.std.specs.Prelude.{◌≡◌, [], IfOk, OnOk, map};
ghost use Rattle.std.specs.Option.{option_copied, option_map_or};
ghost use Rattle.serde_json.specs.Data.{string};
ghost use Rattle.serde_json.specs.View.{members_view, view as data_of};
ghost use Rattle.pylock_json.specs.Json.{members_of, with_rows};
ghost use Rattle.pylock_documents.specs.Documents.{diagnostic_rows, refused_line_rows};
ghost use Rattle.pylock_documents.specs.Documents.{refused_rows};

use pylock_json::{List, Object};
use pylock_messages::Diagnostic;
use std::alloc::{AllocError, Global};

/// The document of a refusal: these words, and beside them where the file is wrong, or why
/// something else is refused, as far as that is known. It takes memory for the object.
pub fn refused_document(
    alloc: Global,
    words: &[&str],
    diagnostic: Option<&Diagnostic>,
) -> Result<Object, AllocError>
    ensures { IfOk result (λ object. members_view object
        ≡ members_of (refused_rows (map (λ w. w.now) words.now) (option_copied diagnostic.entry))) }
{
    let words = words_list(alloc, words)?;
    let mut object = Object::new(alloc);
    object.put(alloc, "refused", words.into_json())?;
    put_maybe_diagnostic(alloc, &mut object, diagnostic)?;
    Ok(object)
}

/// The document of a refused line of the input, of these words and the line's number. It takes
/// memory for the object.
pub fn refused_line_document(
    alloc: Global,
    number: u64,
    words: &[&str],
) -> Result<Object, AllocError>
    ensures { IfOk result (λ object. members_view object
        ≡ members_of (refused_line_rows number (map (λ w. w.now) words.now))) }
{
    let mut object = refused_document(alloc, words, None)?;
    object.put_number(alloc, "line", number)?;
    Ok(object)
}

fn words_list(alloc: Global, words: &[&str]) -> Result<List, AllocError>
    ensures { IfOk result (λ list. map data_of list ≡ map string (map (λ w. w.now) words.now)) }
{
    let mut list = List::new(alloc);
    for word in words {
        list.push_text(alloc, word)?;
    }
    Ok(list)
}

/// Puts what is told, where something is.
fn put_maybe_diagnostic(
    alloc: Global,
    object: &mut Object,
    diagnostic: Option<&Diagnostic>,
) -> Result<(), AllocError>
    ensures { OnOk result (members_view object.new
        ≡ with_rows (option_map_or diagnostic_rows (option_copied diagnostic.entry) [])
        (members_view object.old)) }
{
    match diagnostic {
        Some(diagnostic) => put_diagnostic(alloc, object, diagnostic),
        None => Ok(()),
    }
}

fn put_diagnostic(
    alloc: Global,
    object: &mut Object,
    diagnostic: &Diagnostic,
) -> Result<(), AllocError>
    ensures { OnOk result (members_view object.new
        ≡ with_rows (diagnostic_rows diagnostic.now) (members_view object.old)) }
{
    object.put_text(alloc, "message", diagnostic.message())?;
    object.put_maybe(alloc, "file", diagnostic.file())?;
    object.put_maybe_number(alloc, "line", diagnostic.line())?;
    object.put_maybe_number(alloc, "column", diagnostic.column())?;
    object.put_maybe_number(alloc, "entry", diagnostic.entry())?;
    object.put_maybe(alloc, "name", diagnostic.name())?;
    object.put_maybe(alloc, "key", diagnostic.key())
}
