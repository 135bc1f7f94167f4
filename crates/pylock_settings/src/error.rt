//! Why a project's settings are refused.

ghost use Rattle.std.specs.Prelude.{◌≡◌};
ghost use Rattle.std.specs.Option.{option_copied};
ghost use Rattle.pylock_settings.specs.Words.{settings_place, settings_word};
ghost use Rattle.pylock_settings.specs.declared.error.SettingsError.TheVariants as error;

use crate::key::SettingsKey;
use pytext::Text;
use std::alloc::AllocError;

/// Why the settings of a project file are refused. Of several reasons it is the first: the bytes,
/// the document, the tables from the outside in, the first unknown key in the order of the keys'
/// bytes, then the settings in the order of [`SettingsKey`].
#[derive(Debug, Drop)]
pub enum SettingsError {
    /// The bytes are not UTF-8.
    NotUtf8,
    /// The text is no TOML document.
    Toml,
    /// The value of the key is of another type than the key's, or an element of its array is.
    WrongType(SettingsKey),
    /// The table `tool.pylock.audit` has this key, which is none of a setting.
    UnknownKey(Text),
    /// Memory was refused.
    Memory,
}

impl SettingsError {
    /// Its word: `not-utf8`, `toml`, `wrong-type` or `unknown-key`. It takes no memory.
    pub fn word(&self) -> &'static str
        ensures { result.now ≡ settings_word self.now }
    {
        match self {
            SettingsError::NotUtf8 => "not-utf8",
            SettingsError::Toml => "toml",
            SettingsError::WrongType(_) => "wrong-type",
            SettingsError::UnknownKey(_) => "unknown-key",
            SettingsError::Memory => "memory",
        }
    }

    /// The place in the file, where one is at fault: of a value that is of another type the key
    /// with its tables, as `tool.pylock.audit.ignore`; the unknown key alone, as it is there: a
    /// text of any characters. It takes no memory.
    pub fn place(&self) -> Option<&str>
        ensures { option_copied result ≡ settings_place self.now }
    {
        match self {
            SettingsError::WrongType(key) => Some(key.as_str()),
            SettingsError::UnknownKey(name) => Some(name.as_str()),
            SettingsError::NotUtf8 | SettingsError::Toml | SettingsError::Memory => None,
        }
    }
}

impl<E: Into<AllocError> + Drop> From<E> for SettingsError {
    ghost from_gives = { λ _ e. e ≡ error.Memory };

    fn from(_refused: E) -> SettingsError {
        SettingsError::Memory
    }
}
