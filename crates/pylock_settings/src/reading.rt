//! The settings from the bytes of a project file.

ghost use Rattle.std.specs.Prelude.{◌≡◌, [], ok_or, option_map};
ghost use Rattle.std.specs.Option.{option_copied};
ghost use Rattle.toml.specs.Data.{get_member};
ghost use Rattle.toml.specs.Parse.{parse_document};
ghost use Rattle.toml.specs.View.{items_view, table_view, view};
ghost use Rattle.pytext.specs.Agreement.{Gives};
ghost use Rattle.pylock_settings.specs.Inner.{lent_members};
ghost use Rattle.pylock_settings.specs.Reading.{audit_table, flag_at, known_keys, settings_in};
ghost use Rattle.pylock_settings.specs.Reading.{settings_of, table_at, text_at, texts_at};
ghost use Rattle.pylock_settings.specs.Reading.{utf8_text, value_at, with_texts};

use crate::error::SettingsError;
use crate::key::{SettingsKey, is_setting};
use crate::settings::AuditSettings;
use pytext::Text;
use std::alloc::Global;
use toml::{Table, Value};

/// The settings that the bytes of a project file write.
#[tactic(auto, unfolding(crate::specs::Reading::settings_of))]
pub(crate) fn read_settings(alloc: Global, bytes: &[u8]) -> Result<AuditSettings, SettingsError>
    ensures { Gives SettingsError.Memory (λ s. s) result (settings_of bytes.now) }
{
    let text = as_text(bytes).ok_or(SettingsError::NotUtf8)?;
    let document = document_of(alloc, text)?;
    let table = audit_table(&document)?;
    settings_in(alloc, table)
}

/// The bytes as text, where they are UTF-8.
#[tactic(auto, using(crate::proofs::TextLemmas::utf8_tests))]
fn as_text(bytes: &[u8]) -> Option<&str>
    ensures { option_copied result ≡ utf8_text bytes.now }
{
    std::str::from_utf8(bytes).ok()
}

/// The text as a TOML document.
fn document_of(alloc: Global, text: &str) -> Result<Table, SettingsError>
    ensures { Gives SettingsError.Memory table_view result
        (ok_or (parse_document text.now) SettingsError.Toml) }
{
    match toml::table_from_str(alloc, text) {
        Ok(table) => Ok(table),
        Err(refusal) if refusal.is_memory() => Err(SettingsError::Memory),
        Err(_) => Err(SettingsError::Toml),
    }
}

// ---- the table

/// The table of the settings, where it is there.
#[tactic(auto, unfolding(crate::specs::Reading::audit_table))]
fn audit_table(document: &Table) -> Result<Option<&Table>, SettingsError>
    ensures { Gives SettingsError.Memory lent_members result
        (audit_table (table_view document.now)) }
{
    let tool = table_at(Some(document), SettingsKey::Tool)?;
    let pylock = table_at(tool, SettingsKey::Pylock)?;
    table_at(pylock, SettingsKey::Audit)
}

/// The table of a key, where both it and the table round it are there.
fn table_at<'a>(
    table: Option<&'a Table>,
    key: SettingsKey,
) -> Result<Option<&'a Table>, SettingsError>
    ensures { Gives SettingsError.Memory lent_members result
        (table_at key (lent_members table.entry)) }
{
    let Some(value) = value_at(table, key) else {
        return Ok(None);
    };
    let inner = value.as_table().ok_or(SettingsError::WrongType(key))?;
    Ok(Some(inner))
}

/// The value of a key of the table, where both are there.
fn value_at<'a>(table: Option<&'a Table>, key: SettingsKey) -> Option<&'a Value>
    ensures { option_map (λ d. view d.now) result ≡ value_at key (lent_members table.entry) }
{
    field(table?, key.name())
}

fn field<'a>(table: &'a Table, name: &str) -> Option<&'a Value>
    ensures { option_map (λ d. view d.now) result ≡ get_member name.now (table_view table.now) }
{
    table.get(name)
}

// ---- its keys

/// The settings of the table, which may be absent.
#[tactic(auto, unfolding(crate::specs::Reading::settings_in))]
fn settings_in(alloc: Global, table: Option<&Table>) -> Result<AuditSettings, SettingsError>
    ensures { Gives SettingsError.Memory (λ s. s) result
        (settings_in (lent_members table.entry)) }
{
    require_known_keys(alloc, table)?;
    let environments = flag_at(table, SettingsKey::Environments)?;
    let fail_on = text_at(alloc, table, SettingsKey::FailOn)?;
    let ignored = texts_at(alloc, table, SettingsKey::Ignore)?;
    let hosts = texts_at(alloc, table, SettingsKey::Host)?;
    Ok(AuditSettings {
        environments,
        fail_on,
        ignored,
        hosts,
    })
}

/// Refuses the first key that is none of a setting.
fn require_known_keys(alloc: Global, table: Option<&Table>) -> Result<(), SettingsError>
    ensures { Gives SettingsError.Memory (λ _. tt) result (known_keys (lent_members table.entry)) }
{
    match table {
        Some(table) => require_known(alloc, table),
        None => Ok(()),
    }
}

#[tactic(auto, using(crate::proofs::KeyLemmas::known_members))]
fn require_known(alloc: Global, table: &Table) -> Result<(), SettingsError>
    ensures { Gives SettingsError.Memory (λ _. tt) result (known_keys (table_view table.now)) }
{
    for name in table.keys() {
        if !is_setting(name.as_str()) {
            return Err(SettingsError::UnknownKey(Text::copy_of(alloc, name.as_str())?));
        }
    }
    Ok(())
}

/// A boolean under a key, false where it isn't there.
fn flag_at(table: Option<&Table>, key: SettingsKey) -> Result<bool, SettingsError>
    ensures { Gives SettingsError.Memory (λ b. b) result
        (flag_at key (lent_members table.entry)) }
{
    match value_at(table, key) {
        None => Ok(false),
        Some(value) => value.as_bool().ok_or(SettingsError::WrongType(key)),
    }
}

/// A text under a key, where it is there.
fn text_at(
    alloc: Global,
    table: Option<&Table>,
    key: SettingsKey,
) -> Result<Option<Text>, SettingsError>
    ensures { Gives SettingsError.Memory (λ t. t) result
        (text_at key (lent_members table.entry)) }
{
    let Some(value) = value_at(table, key) else {
        return Ok(None);
    };
    let text = value.as_str().ok_or(SettingsError::WrongType(key))?;
    Ok(Some(Text::copy_of(alloc, text)?))
}

/// A list of texts under a key, none where it isn't there.
fn texts_at(
    alloc: Global,
    table: Option<&Table>,
    key: SettingsKey,
) -> Result<Vec<Text>, SettingsError>
    ensures { Gives SettingsError.Memory (λ v. v.items) result
        (texts_at key (lent_members table.entry)) }
{
    let Some(value) = value_at(table, key) else {
        return Ok(Vec::new(alloc));
    };
    let elements = value.as_array().ok_or(SettingsError::WrongType(key))?;
    read_texts(alloc, elements.as_slice(), key)
}

/// The text of each element.
fn read_texts(
    alloc: Global,
    elements: &[Value],
    key: SettingsKey,
) -> Result<Vec<Text>, SettingsError>
    ensures { Gives SettingsError.Memory (λ v. v.items) result
        (with_texts key [] (items_view elements.now)) }
{
    let mut texts = Vec::with_capacity(alloc, elements.len())?;
    for element in elements {
        let text = element.as_str().ok_or(SettingsError::WrongType(key))?;
        texts.push(Text::copy_of(alloc, text)?)?;
    }
    Ok(texts)
}
