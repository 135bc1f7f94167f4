//! Where a source lies.
ghost use Rattle.std.specs.Prelude.{◌≡◌, option_map, string_bytes};
ghost use Rattle.std.specs.Option.{option_copied};
ghost use Rattle.toml.specs.View.{view};
ghost use Rattle.pytext.specs.Agreement.{Gives};
ghost use Rattle.pylock_readers.specs.Entry.{place_of};
ghost use Rattle.pylock_readers.specs.Entry.Sources.{location_in};

use crate::field::{FieldError, optional_text, require};
use std::marker::Model;
use toml::Value;

/// The URL of a source, its path, or both.
pub(crate) struct Location {
    url: Option<String>,
    path: Option<String>,
}

impl Model for Location {
    ghost use Rattle.std.specs.Prelude.{option_map, string_bytes};
    ghost use Rattle.pylock_readers.specs.Entry.{LocationValue};

    ghost Value = { LocationValue };

    ghost view = { λ l. record {
      url = option_map string_bytes l.url;
      path = option_map string_bytes l.path;
    } };
}

impl Drop for Location {
    fn drop(self) {
        let Location { url: _, path: _ } = self;
    }
}

impl Location {
    /// The location that the keys `url` and `path` give, at least one of which is there.
    #[tactic(auto, unfolding(crate::specs::Entry::Sources::location_in))]
    pub(crate) fn read(url: Option<Value>, path: Option<Value>) -> Result<Location, FieldError>
        ensures { Gives FieldError.Memory (λ l. l) result
            (location_in (option_map view url) (option_map view path)) }
    {
        let url = optional_text(url)?;
        let path = optional_text(path)?;
        require(url.is_some() || path.is_some())?;
        Ok(Location { url, path })
    }

    /// The key `url`.
    pub(crate) fn url(&self) -> Option<&str>
        ensures { option_copied result ≡ self.now.url }
    {
        self.url.as_deref()
    }

    /// The key `path`.
    pub(crate) fn path(&self) -> Option<&str>
        ensures { option_copied result ≡ self.now.path }
    {
        self.path.as_deref()
    }

    /// The path, else the URL.
    pub(crate) fn place(&self) -> &str
        ensures { result.now ≡ place_of self.now }
    {
        self.path().or(self.url()).unwrap_or("")
    }
}
