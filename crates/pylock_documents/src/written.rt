//! The text of a document.

ghost use Rattle.std.specs.Prelude.{◌≡◌, ◌++◌, IfOk, OnErr, OnOk, string_bytes};
ghost use Rattle.serde_json.specs.View.{members_view};
ghost use Rattle.pylock_documents.specs.Written.{document_text, object_text};

use crate::safe::safe_json;
use pylock_json::Object;
use std::alloc::{AllocError, Global};

/// The text of an object, with the member `pylock`, the number of the form of documents, and LF.
/// It is safe to show at a terminal: each control character stands as `\u` and its four hex digits,
/// or as two such where it is past U+FFFF. It takes memory for the text, once more while it grows;
/// a text with control characters takes it twice.
pub fn document(alloc: Global, object: Object) -> Result<String, AllocError>
    ensures { IfOk result (λ text. string_bytes text ≡ document_text (members_view object)) }
{
    let mut object = object;
    object.put_number(alloc, "pylock", 1)?;
    object_text(alloc, object)
}

/// The text of an object, as safe as [`document`] makes it, and LF.
fn object_text(alloc: Global, object: Object) -> Result<String, AllocError>
    ensures { IfOk result (λ text. string_bytes text ≡ object_text (members_view object)) }
{
    let mut text = safe_json(alloc, object.into_json().to_text(alloc)?)?;
    text.push_str("\n")?;
    Ok(text)
}

/// Pushes the text of a document. It takes memory for that, and where the bytes have no room.
pub fn push_document(alloc: Global, out: &mut Vec<u8>, object: Object) -> Result<(), AllocError>
    ensures ok { OnOk result (out.new.items
        ≡ out.old.items ++ document_text (members_view object)) }
    ensures err { OnErr result (out.new.items ≡ out.old.items) }
{
    let text = document(alloc, object)?;
    out.extend_from_slice(text.as_bytes())?;
    Ok(())
}

/// Pushes the text of an object in the form of another standard, so without the member `pylock`, as
/// safe as [`document`] makes it. It takes memory as [`push_document`] does.
pub fn push_object(alloc: Global, out: &mut Vec<u8>, object: Object) -> Result<(), AllocError>
    ensures ok { OnOk result (out.new.items
        ≡ out.old.items ++ object_text (members_view object)) }
    ensures err { OnErr result (out.new.items ≡ out.old.items) }
{
    let text = object_text(alloc, object)?;
    out.extend_from_slice(text.as_bytes())?;
    Ok(())
}
