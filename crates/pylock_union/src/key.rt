//! What makes two sources one file.

ghost use Rattle.std.specs.Prelude.{◌≡◌, IfOk};
ghost use Rattle.std.specs.Option.{option_copied};
ghost use Rattle.pylock_core.specs.Session.Picks.{lent_source};
ghost use Rattle.pylock_union.specs.Union.{file_key};

use pylock_compare::Key;
use pylock_core::PickedSource;
use std::alloc::{AllocError, Global};

/// A text where it is there, as bytes.
fn bytes_of(text: Option<&str>) -> Option<&[u8]>
    ensures { option_copied result ≡ option_copied text.entry }
{
    Some(text?.as_bytes())
}

/// What makes two sources one file: the file name of a wheel or an sdist; of another source its
/// kind, its place, the type and the commit of its revision, and its subdirectory.
#[tactic(auto, unfolding(crate::specs::Union::file_key))]
pub(crate) fn file_key<'a>(alloc: Global, source: PickedSource<'a>) -> Result<Key<'a>, AllocError>
    ensures { IfOk result (λ key. key ≡ file_key (lent_source source.entry)) }
{
    let mut key = Key::new(alloc);
    if let Some(name) = source.file_name() {
        key.push(Some(name.as_bytes()))?;
        return Ok(key);
    }
    key.push(Some(source.word().as_bytes()))?;
    key.push(Some(source.place().as_bytes()))?;
    key.push(bytes_of(source.vcs_kind()))?;
    key.push(bytes_of(source.commit_id()))?;
    key.push(bytes_of(source.subdirectory()))?;
    Ok(key)
}
