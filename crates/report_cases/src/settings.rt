//! What project files say of how their locks are audited.

use case_files::bytes;
use pylock_settings::{AuditSettings, SettingsError};
use pytext::Text;
use std::alloc::{AllocError, Global};
use toml::Table;

/// The settings of the project file `bytes`, a line each, or why they are refused: the word, and
/// the place where one is at fault.
pub(crate) fn answer_case(alloc: Global, case: &Table) -> anyhow::Result<String> {
    let file = bytes(alloc, case, "bytes")?;
    match AuditSettings::read(alloc, file.as_slice()) {
        Ok(settings) => Ok(settings_lines(alloc, &settings)?),
        Err(SettingsError::Memory) => Err(anyhow::anyhow!("memory")),
        Err(refusal) => Ok(refusal_line(alloc, &refusal)?),
    }
}

fn settings_lines(alloc: Global, settings: &AuditSettings) -> Result<String, AllocError> {
    let environments = settings.environments();
    let mut lines = format!(in alloc; "environments: {environments}\n")?;
    if let Some(words) = settings.fail_on() {
        push_line(alloc, &mut lines, "fail-on", words)?;
    }
    push_texts(alloc, &mut lines, "ignored", settings.ignored())?;
    push_texts(alloc, &mut lines, "host", settings.hosts())?;
    Ok(lines)
}

fn push_texts(
    alloc: Global,
    lines: &mut String,
    key: &str,
    texts: &[Text],
) -> Result<(), AllocError> {
    for text in texts {
        push_line(alloc, lines, key, text.as_str())?;
    }
    Ok(())
}

fn push_line(alloc: Global, lines: &mut String, key: &str, text: &str) -> Result<(), AllocError> {
    let line = format!(in alloc; "{key}: {text}\n")?;
    lines.push_str(line.as_str())
}

fn refusal_line(alloc: Global, refusal: &SettingsError) -> Result<String, AllocError> {
    let word = refusal.word();
    match refusal.place() {
        Some(place) => format!(in alloc; "refused: {word} at {place}"),
        None => format!(in alloc; "refused: {word}"),
    }
}
