//! SARIF documents.

use case_files::text;
use pylock_sarif::{Level, RULES, Rule, Run, SarifResult, TextPlace, rule_of, sarif_document};
use std::alloc::{AllocError, Global};
use toml::{Table, Value};

/// Each rule with its level.
pub(crate) fn tell_rules(alloc: Global) -> anyhow::Result<String> {
    let mut answer = String::new(alloc);
    for rule in RULES {
        let line = format!(in alloc; "{} {}\n", rule.word, rule.level.word())?;
        answer.push_str(line.as_str())?;
    }
    Ok(answer)
}

/// The document of the lock `lock` with this one result, `times` times, and its rule.
pub(crate) fn answer_case(alloc: Global, case: &Table) -> anyhow::Result<String> {
    let lock = text(alloc, case, "lock")?;
    let word = text(alloc, case, "rule")?;
    let description = text(alloc, case, "description")?;
    let name = text(alloc, case, "package")?;
    let detail = text(alloc, case, "detail")?;
    let mut rules: Vec<Rule> = Vec::new(alloc);
    if let Some(rule) = rule_of(word.as_str()) {
        rules.push(*rule)?;
    }
    let mut results = Vec::new(alloc);
    for _ in 0..number(case, "times") {
        results.push(SarifResult {
            rule: word.as_str(),
            level: rule_of(word.as_str()).map_or(Level::Warning, |rule| rule.level),
            description: description.as_str(),
            number: number(case, "number"),
            name: there(name.as_str()),
            detail: owned(alloc, detail.as_str())?,
            place: place(case),
        })?;
    }
    print(alloc, lock.as_str(), rules.as_slice(), results.as_slice())
}

/// The text of the document; of one with many results its length and its first part.
fn print(
    alloc: Global,
    lock: &str,
    rules: &[Rule],
    results: &[SarifResult<'_>],
) -> anyhow::Result<String> {
    let run = Run {
        version: "1.0",
        lock,
        rules,
        results,
    };
    let text = sarif_document(alloc, &run)?.into_json().to_text(alloc)?;
    if results.len() < 10 {
        return Ok(text);
    }
    let told = text.matches("\"ruleId\"").count();
    let notice = text.contains("results more than");
    Ok(format!(in alloc; "{told} results, notice: {notice}")?)
}

fn number(case: &Table, key: &str) -> u64 {
    match case.get(key) {
        Some(Value::Integer(number)) => u64::try_from(*number).unwrap_or(0),
        _ => 0,
    }
}

fn owned(alloc: Global, text: &str) -> Result<Option<String>, AllocError> {
    match there(text) {
        Some(text) => Ok(Some(String::from_str(alloc, text)?)),
        None => Ok(None),
    }
}

fn there(text: &str) -> Option<&str> {
    if text.is_empty() { None } else { Some(text) }
}

fn place(case: &Table) -> Option<TextPlace> {
    let (line, column) = (number(case, "line"), number(case, "column"));
    if line > 0 {
        Some(TextPlace { line, column })
    } else {
        None
    }
}
