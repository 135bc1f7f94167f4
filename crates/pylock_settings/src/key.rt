//! The keys that the settings are under, and theirs.

ghost use Rattle.std.specs.Prelude.{◌≡◌};
ghost use Rattle.pylock_settings.specs.Key.{is_setting, key_name, key_path};

/// A key of a project file: of a table that the settings are in, or of a setting.
#[derive(Clone, Copy, Debug, PartialEq, Eq)]
pub enum SettingsKey {
    /// `tool`, a table.
    Tool,
    /// `pylock` of `tool`, a table.
    Pylock,
    /// `audit` of `tool.pylock`, the table of the settings.
    Audit,
    /// `environments`, a boolean.
    Environments,
    /// `fail-on`, a text.
    FailOn,
    /// `ignore`, an array of texts.
    Ignore,
    /// `host`, an array of texts.
    Host,
}

impl SettingsKey {
    /// The key behind those of the tables that it is in, as `tool.pylock.audit.ignore`. It takes no
    /// memory.
    pub fn as_str(self) -> &'static str
        ensures { result.now ≡ key_path self }
    {
        match self {
            SettingsKey::Tool => "tool",
            SettingsKey::Pylock => "tool.pylock",
            SettingsKey::Audit => "tool.pylock.audit",
            SettingsKey::Environments => "tool.pylock.audit.environments",
            SettingsKey::FailOn => "tool.pylock.audit.fail-on",
            SettingsKey::Ignore => "tool.pylock.audit.ignore",
            SettingsKey::Host => "tool.pylock.audit.host",
        }
    }

    /// The key as it is written in its table.
    pub(crate) fn name(self) -> &'static str
        ensures { result.now ≡ key_name self }
    {
        match self {
            SettingsKey::Tool => "tool",
            SettingsKey::Pylock => "pylock",
            SettingsKey::Audit => "audit",
            SettingsKey::Environments => "environments",
            SettingsKey::FailOn => "fail-on",
            SettingsKey::Ignore => "ignore",
            SettingsKey::Host => "host",
        }
    }
}

/// Whether the name is that of a setting.
pub(crate) fn is_setting(name: &str) -> bool
    ensures { result ≡ is_setting name.now }
{
    name == SettingsKey::Environments.name()
        || name == SettingsKey::FailOn.name()
        || name == SettingsKey::Ignore.name()
        || name == SettingsKey::Host.name()
}
