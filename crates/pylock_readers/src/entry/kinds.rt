//! The kinds of an entry's sources.
ghost use Rattle.std.specs.Prelude.{◌≡◌, ◌++◌, IfOk, OnOk, map, string_bytes};
ghost use Rattle.pylock_readers.specs.Entry.Kinds.{has_conflict, is_any, kind_where, kinds};
ghost use Rattle.pylock_readers.specs.Entry.Kinds.{kinds_text};

use crate::entry::Entry;
use std::alloc::{AllocError, Global};

impl Entry {
    /// Whether a source stands. It takes no memory.
    pub fn has_source(&self) -> bool
        ensures { result ≡ is_any (kinds self.now) }
    {
        self.vcs().is_some()
            || self.directory().is_some()
            || self.archive().is_some()
            || !self.wheels().is_empty()
            || self.sdist().is_some()
    }

    /// Whether the sources are of more than one kind, an sdist and wheels being one. It takes no
    /// memory.
    pub fn has_conflict(&self) -> bool
        ensures { result ≡ has_conflict self.now }
    {
        let kinds = u8::from(self.vcs().is_some())
            + u8::from(self.directory().is_some())
            + u8::from(self.archive().is_some())
            + u8::from(self.sdist().is_some() || !self.wheels().is_empty());
        kinds > 1
    }

    /// The kinds of the sources that stand, joined by `,`: `vcs`, `directory`, `archive`, `wheel`,
    /// `sdist`. It takes memory for their words and for the text.
    pub fn kinds_text(&self, alloc: Global) -> Result<String, AllocError>
        ensures { IfOk result (λ text. string_bytes text ≡ kinds_text self.now) }
    {
        let words = kinds(alloc, self)?;
        words.join(alloc, ",")
    }
}

fn kinds(alloc: Global, entry: &Entry) -> Result<Vec<String>, AllocError>
    ensures { IfOk result (λ words. map string_bytes words.items ≡ kinds entry.now) }
{
    let mut words = Vec::new(alloc);
    push_kind(alloc, &mut words, entry.vcs().is_some(), "vcs")?;
    push_kind(alloc, &mut words, entry.directory().is_some(), "directory")?;
    push_kind(alloc, &mut words, entry.archive().is_some(), "archive")?;
    push_kind(alloc, &mut words, !entry.wheels().is_empty(), "wheel")?;
    push_kind(alloc, &mut words, entry.sdist().is_some(), "sdist")?;
    Ok(words)
}

fn push_kind(
    alloc: Global,
    words: &mut Vec<String>,
    stands: bool,
    word: &str,
) -> Result<(), AllocError>
    ensures { OnOk result (map string_bytes words.new.items
        ≡ map string_bytes words.old.items ++ kind_where stands word.now) }
{
    if stands {
        words.push(String::from_str(alloc, word)?)?;
    }
    Ok(())
}
