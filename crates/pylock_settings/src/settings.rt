//! What a project says of how its lock is audited.

ghost use Rattle.std.specs.Prelude.{◌≡◌};
ghost use Rattle.std.specs.Option.{option_copied};
ghost use Rattle.pytext.specs.Agreement.{Gives};
ghost use Rattle.pylock_settings.specs.Reading.{settings_of};
ghost use Rattle.pylock_settings.specs.Settings.{no_settings};

use crate::error::SettingsError;
use crate::reading::read_settings;
use pytext::Text;
use std::alloc::Global;
use std::marker::Model;

/// What a project file (`pyproject.toml`) says of how the project's lock is audited: the table
/// `tool.pylock.audit`. Contracts see its parts.
pub struct AuditSettings {
    pub(crate) environments: bool,
    pub(crate) fail_on: Option<Text>,
    pub(crate) ignored: Vec<Text>,
    pub(crate) hosts: Vec<Text>,
}

impl Model for AuditSettings {
    ghost use Rattle.std.specs.Coded.{codes};
    ghost use Rattle.pylock_settings.specs.Settings.{SettingsValue};

    ghost Value = { SettingsValue };

    ghost coded = { Prim.hlevel codes };

    ghost view = { λ s. record {
      environments = s.environments;
      fail_on = s.fail_on;
      ignored = s.ignored.items;
      hosts = s.hosts.items;
    } };
}

impl Drop for AuditSettings {
    fn drop(self) {
        let AuditSettings {
            environments: _,
            fail_on: _,
            ignored: _,
            hosts: _,
        } = self;
    }
}

impl AuditSettings {
    /// Those of a project that says nothing. It takes no memory.
    pub fn new(alloc: Global) -> AuditSettings
        ensures { result ≡ no_settings }
    {
        AuditSettings {
            environments: false,
            fail_on: None,
            ignored: Vec::new(alloc),
            hosts: Vec::new(alloc),
        }
    }

    /// Reads the settings of a project file. Without the table `tool.pylock.audit` they are those
    /// of an empty one. [`SettingsError`] says which refusal comes first.
    ///
    /// Takes memory for the TOML document, which is freed, and for the texts.
    pub fn read(alloc: Global, bytes: &[u8]) -> Result<AuditSettings, SettingsError>
        ensures { Gives SettingsError.Memory (λ s. s) result (settings_of bytes.now) }
    {
        read_settings(alloc, bytes)
    }

    /// The key `environments`, false where it isn't there: whether what holds in every environment
    /// is asked for. It takes no memory.
    pub fn environments(&self) -> bool
        ensures { result ≡ self.now.environments }
    {
        self.environments
    }

    /// The key `fail-on`, as written: words of findings with `,` between them, which are not judged
    /// here. It takes no memory.
    pub fn fail_on(&self) -> Option<&str>
        ensures { option_copied result ≡ self.now.fail_on }
    {
        Some(self.fail_on.as_ref()?.as_str())
    }

    /// The elements of the key `ignore`, as written: `WORD` or `WORD:NAME`, which are not judged
    /// here. It takes no memory.
    pub fn ignored(&self) -> &[Text]
        ensures { result.now ≡ self.now.ignored }
    {
        self.ignored.as_slice()
    }

    /// The elements of the key `host`, as written, which are not judged here. It takes no memory.
    pub fn hosts(&self) -> &[Text]
        ensures { result.now ≡ self.now.hosts }
    {
        self.hosts.as_slice()
    }
}
