//! A source as a form has it, with the URL that it is given there.

ghost use Rattle.std.specs.Prelude.{◌≡◌, IfOk, is_some, option_map, string_bytes};
ghost use Rattle.std.specs.Option.{option_copied};
ghost use Rattle.pylock_readers.specs.Text.{text_pairs};
ghost use Rattle.pylock_core.specs.Session.Picks.{is_unhashed, lent_source, source_file};
ghost use Rattle.pylock_core.specs.Session.Picks.{source_file_name, source_hashes};
ghost use Rattle.pylock_core.specs.Session.Picks.{source_location, source_subdirectory};
ghost use Rattle.pylock_exports.specs.Inner.{written};

use crate::hashes::Hash;
use pylock_core::PickedSource;
use pylock_readers::file_name_of;
use std::alloc::{AllocError, Global};

/// A source of the lock, and of a file the URL that stands in the place of its own.
#[derive(Clone, Copy)]
pub(crate) struct Source<'a> {
    pub(crate) picked: PickedSource<'a>,
    pub(crate) moved: Option<&'a str>,
}

impl<'a> Source<'a> {
    /// A source as the lock has it.
    #[tactic(auto, using(crate::proofs::SourceLemmas::own))]
    pub(crate) fn own(picked: PickedSource<'a>) -> Source<'a>
        ensures { written result ≡ lent_source picked.entry }
    {
        Source {
            picked,
            moved: None,
        }
    }

    /// The key `url`, or the URL in its place.
    #[tactic(auto, using(crate::proofs::SourceLemmas::same_url))]
    pub(crate) fn url(self) -> Option<&'a str>
        ensures { option_copied result ≡ (source_location (written self.entry)).url }
    {
        if self.is_unhashed() {
            return self.picked.url();
        }
        match self.moved {
            Some(url) => Some(url),
            None => self.picked.url(),
        }
    }

    /// The key `path`.
    #[tactic(auto, using(crate::proofs::SourceLemmas::same_path))]
    pub(crate) fn path(self) -> Option<&'a str>
        ensures { option_copied result ≡ (source_location (written self.entry)).path }
    {
        self.picked.path()
    }

    /// The key `subdirectory`.
    #[tactic(auto, using(crate::proofs::SourceLemmas::same_subdirectory))]
    pub(crate) fn subdirectory(self) -> Option<&'a str>
        ensures { option_copied result ≡ source_subdirectory (written self.entry) }
    {
        self.picked.subdirectory()
    }

    /// The pairs of algorithm and value of the key `hashes`.
    #[tactic(auto, using(crate::proofs::SourceLemmas::same_hashes))]
    pub(crate) fn hashes(self) -> &'a [Hash]
        ensures { text_pairs result.now ≡ source_hashes (written self.entry) }
    {
        self.picked.hashes()
    }

    /// Whether it is a checkout or a directory.
    #[tactic(auto, using(crate::proofs::SourceLemmas::same_unhashed))]
    pub(crate) fn is_unhashed(self) -> bool
        ensures { result ≡ is_unhashed (written self.entry) }
    {
        self.picked.is_unhashed()
    }

    /// Whether it is a wheel or an sdist.
    #[tactic(auto, using(crate::proofs::SourceLemmas::same_kind))]
    pub(crate) fn is_file(self) -> bool
        ensures { result ≡ is_some (source_file (written self.entry)) }
    {
        self.picked.file().is_some()
    }

    /// The file name of a wheel or an sdist. It takes memory for the name.
    #[tactic(auto, using(crate::proofs::SourceLemmas::same_name))]
    pub(crate) fn file_name(self, alloc: Global) -> Result<Option<String>, AllocError>
        ensures { IfOk result (λ name. option_map string_bytes name
            ≡ source_file_name (written self.entry)) }
    {
        match self.picked.file() {
            Some(file) => file_name_of(alloc, file.name(), file.path(), self.url()),
            None => Ok(None),
        }
    }
}
