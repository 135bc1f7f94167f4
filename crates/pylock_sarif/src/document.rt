//! A run as a SARIF document (SARIF 2.1.0).

ghost use Rattle.std.specs.Prelude.{◌≡◌, ◌++◌, IfOk, OnOk, codes, length, map, option_map};
ghost use Rattle.std.specs.Prelude.{string_bytes, take};
ghost use Rattle.std.specs.Option.{option_copied};
ghost use Rattle.serde_json.specs.View.{members_view, view as data_of};
ghost use Rattle.pylock_json.specs.Json.{members_of};
ghost use Rattle.pylock_sarif.specs.Document.{driver_data, file_data, fingerprint};
ghost use Rattle.pylock_sarif.specs.Document.{invocation_data, left_out, location_data};
ghost use Rattle.pylock_sarif.specs.Document.{most_results, notification_data, notifications};
ghost use Rattle.pylock_sarif.specs.Document.{behind_colon, between, message, region_data};
ghost use Rattle.pylock_sarif.specs.Document.{result_data, rule_data};
ghost use Rattle.pylock_sarif.specs.Document.{run_rows, sarif_rows, text_data};
ghost use Rattle.pylock_sarif.specs.Document.{tool_data};
ghost use Rattle.serde_json.specs.Data.{object};
ghost use Rattle.pylock_sarif.specs.Rule.{level_word};
ghost use Rattle.pylock_shown.specs.Visible.{visible, visible_character};

use crate::rule::{Level, Rule};
use crate::run::{Run, SarifResult, TextPlace};
use crate::uri::uri_of;
use pylock_json::{Json, List, Object};
use pylock_shown::is_control;
use std::alloc::{AllocError, Global};

/// The most results of a run that GitHub takes.
const MOST_RESULTS: usize = 25_000;

/// A run as a SARIF document (SARIF 2.1.0): the rules, and a result for each of the first 25,000
/// that the run has, in order. A notification of the tool tells how many are left out. It takes
/// memory for the object.
pub fn sarif_document(alloc: Global, run: &Run<'_>) -> Result<Object, AllocError>
    ensures { IfOk result (λ object. members_view object ≡ members_of (sarif_rows run.now)) }
{
    let mut runs = List::new(alloc);
    runs.push(run_object(alloc, run)?)?;
    let mut object = Object::new(alloc);
    object.put_text(
        alloc,
        "$schema",
        "https://json.schemastore.org/sarif-2.1.0.json",
    )?;
    object.put_text(alloc, "version", "2.1.0")?;
    object.put(alloc, "runs", runs.into_json())?;
    Ok(object)
}

#[tactic(auto, unfolding(crate::specs::Document::run_rows))]
fn run_object(alloc: Global, run: &Run<'_>) -> Result<Json, AllocError>
    ensures { IfOk result (λ json. data_of json ≡ object (members_of (run_rows run.now))) }
{
    let tool = tool_object(alloc, run)?;
    let left_out = run.results.len().saturating_sub(MOST_RESULTS);
    let mut invocations = List::new(alloc);
    invocations.push(invocation_object(alloc, left_out)?)?;
    let results = results_list(alloc, run.lock, told(run.results))?;
    let mut object = Object::new(alloc);
    object.put(alloc, "tool", tool)?;
    object.put(alloc, "invocations", invocations.into_json())?;
    object.put_text(alloc, "columnKind", "unicodeCodePoints")?;
    object.put(alloc, "results", results.into_json())?;
    Ok(object.into_json())
}

// ---- the tool and its rules

fn tool_object(alloc: Global, run: &Run<'_>) -> Result<Json, AllocError>
    ensures { IfOk result (λ json. data_of json ≡ tool_data run.now) }
{
    let rules = rules_list(alloc, run.rules)?;
    let mut driver = Object::new(alloc);
    driver.put_text(alloc, "name", "pylock")?;
    driver.put_text(alloc, "version", run.version)?;
    driver.put(alloc, "rules", rules.into_json())?;
    let mut object = Object::new(alloc);
    object.put(alloc, "driver", driver.into_json())?;
    Ok(object.into_json())
}

fn rules_list(alloc: Global, rules: &[Rule]) -> Result<List, AllocError>
    ensures { IfOk result (λ list. map data_of list ≡ map rule_data rules.now) }
{
    let mut list = List::new(alloc);
    for rule in rules {
        list.push(rule_object(alloc, rule)?)?;
    }
    Ok(list)
}

fn rule_object(alloc: Global, rule: &Rule) -> Result<Json, AllocError>
    ensures { IfOk result (λ json. data_of json ≡ rule_data rule.now) }
{
    let short = text_object(alloc, rule.description)?;
    let full = text_object(alloc, rule.description)?;
    let help = text_object(alloc, rule.help)?;
    let mut configuration = Object::new(alloc);
    configuration.put_text(alloc, "level", rule.level.word())?;
    let mut object = Object::new(alloc);
    object.put_text(alloc, "id", rule.word)?;
    object.put(alloc, "shortDescription", short)?;
    object.put(alloc, "fullDescription", full)?;
    object.put(alloc, "help", help)?;
    object.put(alloc, "defaultConfiguration", configuration.into_json())?;
    Ok(object.into_json())
}

/// A message.
fn text_object(alloc: Global, text: &str) -> Result<Json, AllocError>
    ensures { IfOk result (λ json. data_of json ≡ text_data text.now) }
{
    let mut object = Object::new(alloc);
    object.put_text(alloc, "text", text)?;
    Ok(object.into_json())
}

// ---- what was left out

fn invocation_object(alloc: Global, left_out: usize) -> Result<Json, AllocError>
    ensures { IfOk result (λ json. data_of json ≡ invocation_data left_out) }
{
    let notifications = notifications_list(alloc, left_out)?;
    let mut object = Object::new(alloc);
    object.put_boolean(alloc, "executionSuccessful", true)?;
    object.put(
        alloc,
        "toolExecutionNotifications",
        notifications.into_json(),
    )?;
    Ok(object.into_json())
}

fn notifications_list(alloc: Global, left_out: usize) -> Result<List, AllocError>
    ensures { IfOk result (λ list. map data_of list ≡ notifications left_out) }
{
    let mut list = List::new(alloc);
    if left_out > 0 {
        list.push(notification_object(alloc, left_out)?)?;
    }
    Ok(list)
}

fn notification_object(alloc: Global, left_out: usize) -> Result<Json, AllocError>
    ensures { IfOk result (λ json. data_of json ≡ notification_data left_out) }
{
    let notice = format!(in alloc; "{left_out} results more than the 25000 of a run are left out")?;
    let message = text_object(alloc, notice.as_str())?;
    let mut object = Object::new(alloc);
    object.put_text(alloc, "level", "warning")?;
    object.put(alloc, "message", message)?;
    Ok(object.into_json())
}

// ---- results

/// The results that are told: the first, at most as many as a run may have.
fn told<'a>(results: &'a [SarifResult<'a>]) -> &'a [SarifResult<'a>]
    ensures { result.now ≡ take most_results results.now }
{
    if results.len() > MOST_RESULTS {
        &results[..MOST_RESULTS]
    } else {
        results
    }
}

fn results_list(alloc: Global, lock: &str, results: &[SarifResult<'_>]) -> Result<List, AllocError>
    ensures { IfOk result (λ list. map data_of list ≡ map (result_data lock.now) results.now) }
{
    let mut list = List::new(alloc);
    for found in results {
        list.push(result_object(alloc, lock, found)?)?;
    }
    Ok(list)
}

#[tactic(auto, unfolding(crate::specs::Document::result_rows))]
fn result_object(alloc: Global, lock: &str, found: &SarifResult<'_>) -> Result<Json, AllocError>
    ensures { IfOk result (λ json. data_of json ≡ result_data lock.now found.now) }
{
    let message = message_of(alloc, found)?;
    let message = text_object(alloc, message.as_str())?;
    let mut locations = List::new(alloc);
    locations.push(location_object(alloc, lock, found.place)?)?;
    let fingerprint = fingerprint_of(alloc, found)?;
    let mut fingerprints = Object::new(alloc);
    fingerprints.put_text(alloc, "pylockFinding/v1", fingerprint.as_str())?;
    let mut properties = Object::new(alloc);
    properties.put_number(alloc, "entry", found.number)?;
    let mut object = Object::new(alloc);
    object.put_text(alloc, "ruleId", found.rule)?;
    object.put_text(alloc, "level", found.level.word())?;
    object.put(alloc, "message", message)?;
    object.put(alloc, "locations", locations.into_json())?;
    object.put(alloc, "partialFingerprints", fingerprints.into_json())?;
    object.put(alloc, "properties", properties.into_json())?;
    Ok(object.into_json())
}

/// What a person is told.
fn message_of(alloc: Global, found: &SarifResult<'_>) -> Result<String, AllocError>
    ensures { IfOk result (λ text. string_bytes text ≡ message found.now) }
{
    let mut text = String::from_str(alloc, found.description)?;
    push_between(&mut text, " ", found.name, "")?;
    push_detail(alloc, &mut text, found.detail.as_deref())?;
    Ok(text)
}

/// Adds the detail between parentheses, where it is there.
fn push_detail(alloc: Global, out: &mut String, detail: Option<&str>) -> Result<(), AllocError>
    ensures { OnOk result (string_bytes out.new ≡ string_bytes out.old
        ++ between (codes " (") (option_map visible (option_copied detail.entry)) (codes ")")) }
{
    let Some(detail) = detail else {
        return Ok(());
    };
    out.push_str(" (")?;
    push_visible(alloc, out, detail)?;
    out.push_str(")")
}

/// Adds a text, in which each control character stands as `\u{HEX}`.
fn push_visible(alloc: Global, out: &mut String, text: &str) -> Result<(), AllocError>
    ensures { OnOk result (string_bytes out.new ≡ string_bytes out.old ++ visible text.now) }
{
    for character in text.chars() {
        push_character(alloc, out, character)?;
    }
    Ok(())
}

fn push_character(alloc: Global, out: &mut String, character: char) -> Result<(), AllocError>
    ensures { OnOk result (string_bytes out.new
        ≡ string_bytes out.old ++ visible_character character) }
{
    if !is_control(character) {
        return out.push(character);
    }
    let number = format!(in alloc; "\\u{{{:x}}}", u32::from(character))?;
    out.push_str(number.as_str())
}

/// Adds a text, where it is there, between these two.
fn push_between(
    out: &mut String,
    before: &str,
    text: Option<&str>,
    behind: &str,
) -> Result<(), AllocError>
    ensures { OnOk result (string_bytes out.new ≡ string_bytes out.old
        ++ between before.now (option_copied text.entry) behind.now) }
{
    let Some(text) = text else {
        return Ok(());
    };
    out.push_str(before)?;
    out.push_str(text)?;
    out.push_str(behind)
}

/// What stays the same where the text of the lock moves.
fn fingerprint_of(alloc: Global, found: &SarifResult<'_>) -> Result<String, AllocError>
    ensures { IfOk result (λ text. string_bytes text ≡ fingerprint found.now) }
{
    let mut text = String::from_str(alloc, found.rule)?;
    push_part(&mut text, found.name)?;
    push_part(&mut text, found.detail.as_deref())?;
    Ok(text)
}

/// Adds a colon, and the text where it is there.
fn push_part(out: &mut String, text: Option<&str>) -> Result<(), AllocError>
    ensures { OnOk result (string_bytes out.new
        ≡ string_bytes out.old ++ behind_colon (option_copied text.entry)) }
{
    out.push(':')?;
    match text {
        Some(text) => out.push_str(text),
        None => Ok(()),
    }
}

// ---- the place of a result

fn location_object(alloc: Global, lock: &str, place: Option<TextPlace>) -> Result<Json, AllocError>
    ensures { IfOk result (λ json. data_of json ≡ location_data lock.now place) }
{
    let file = file_object(alloc, lock, place)?;
    let mut object = Object::new(alloc);
    object.put(alloc, "physicalLocation", file)?;
    Ok(object.into_json())
}

/// The file, and the place in it where that is known.
fn file_object(alloc: Global, lock: &str, place: Option<TextPlace>) -> Result<Json, AllocError>
    ensures { IfOk result (λ json. data_of json ≡ file_data lock.now place) }
{
    let uri = uri_of(alloc, lock)?;
    let mut artifact = Object::new(alloc);
    artifact.put_text(alloc, "uri", uri.as_str())?;
    let mut object = Object::new(alloc);
    object.put(alloc, "artifactLocation", artifact.into_json())?;
    if let Some(place) = place {
        object.put(alloc, "region", region_object(alloc, place)?)?;
    }
    Ok(object.into_json())
}

fn region_object(alloc: Global, place: TextPlace) -> Result<Json, AllocError>
    ensures { IfOk result (λ json. data_of json ≡ region_data place) }
{
    let mut object = Object::new(alloc);
    object.put_number(alloc, "startLine", place.line)?;
    object.put_number(alloc, "startColumn", place.column)?;
    Ok(object.into_json())
}
