//! The replies on texts that are read by themselves.

ghost use Rattle.std.specs.Prelude.{◌≡◌, ◌++◌, ◌∷◌, IfOk, OnOk, Ok};
ghost use Rattle.std.specs.Prelude.{map, string_bytes};
ghost use Rattle.pyver_core.specs.Name.{normal_name};
ghost use Rattle.pylock_program.specs.Reply.{admits_answer, answered, fault_report, match_answer};
ghost use Rattle.pylock_program.specs.Reply.{name_answer, names_text, refused_report, reply_of};
ghost use Rattle.pylock_program.specs.Reply.{requirement_answer, requirement_line};
ghost use Rattle.pylock_program.specs.Reply.{requirement_shown, sdist_answer, sdist_shown};
ghost use Rattle.pylock_program.specs.Reply.{text_shown, truth_shown};
ghost use Rattle.pylock_program.specs.Reply.{version_answer, wheel_answer, wheel_shown};
ghost use Rattle.pylock_run.specs.Report.Print.{Pushes};
ghost use Rattle.pylock_run.specs.Text.Field.{field};

use crate::text::json::{push_fault_json, push_refused};
use pylock_command::Form;
use pylock_core::{FaultCode, fault_word};
use pylock_documents::{
    push_document, requirement_document, sdist_document, specifiers_text, wheel_document,
};
use pylock_json::Object;
use pylock_run::{push_field, push_last_word, push_next_field};
use pymark_core::{Requirement, RequirementError};
use pyver_core::{SpecifierError, SpecifierSet, Version, VersionError, is_name, normal_name};
use pywheel_core::{SdistError, SdistName, WheelError, WheelName, tags_text};
use std::alloc::{AllocError, Global};

pub(crate) fn push_version(
    alloc: Global,
    out: &mut Vec<u8>,
    form: Form,
    text: &str,
) -> Result<u8, AllocError>
    ensures { Pushes out.old.items out.new.items
        (reply_of (version_answer form text.now)) result }
{
    match Version::parse(alloc, text) {
        Ok(version) => push_text(alloc, out, form, "version", version.text()),
        Err(VersionError::Syntax) => push_word_refused(alloc, out, form, "syntax"),
        Err(VersionError::NumberTooLarge) => push_word_refused(alloc, out, form, "number"),
        Err(VersionError::Memory) => Err(AllocError),
    }
}

pub(crate) fn push_match(
    alloc: Global,
    out: &mut Vec<u8>,
    form: Form,
    set: &str,
    version: &str,
) -> Result<u8, AllocError>
    ensures { Pushes out.old.items out.new.items
        (reply_of (match_answer form set.now version.now)) result }
{
    match SpecifierSet::parse(alloc, set) {
        Ok(set) => push_admits(alloc, out, form, &set, version),
        Err(SpecifierError::Syntax) => push_word_refused(alloc, out, form, "set-syntax"),
        Err(SpecifierError::NumberTooLarge) => push_word_refused(alloc, out, form, "set-number"),
        Err(SpecifierError::Memory) => Err(AllocError),
    }
}

/// Whether a set admits a version.
fn push_admits(
    alloc: Global,
    out: &mut Vec<u8>,
    form: Form,
    set: &SpecifierSet,
    version: &str,
) -> Result<u8, AllocError>
    ensures { Pushes out.old.items out.new.items
        (reply_of (admits_answer form set.now version.now)) result }
{
    match Version::parse(alloc, version) {
        Ok(version) => push_truth(alloc, out, form, "match", set.admits(&version)),
        Err(VersionError::Syntax) => push_word_refused(alloc, out, form, "version-syntax"),
        Err(VersionError::NumberTooLarge) => push_word_refused(alloc, out, form, "version-number"),
        Err(VersionError::Memory) => Err(AllocError),
    }
}

pub(crate) fn push_name(
    alloc: Global,
    out: &mut Vec<u8>,
    form: Form,
    text: &str,
) -> Result<u8, AllocError>
    ensures { Pushes out.old.items out.new.items (reply_of (name_answer form text.now)) result }
{
    if !is_name(text) {
        return push_word_refused(alloc, out, form, "name");
    }
    let name = normal_name(alloc, text)?;
    push_text(alloc, out, form, "name", name.as_str())
}

pub(crate) fn push_requirement(
    alloc: Global,
    out: &mut Vec<u8>,
    form: Form,
    text: &str,
) -> Result<u8, AllocError>
    ensures { Pushes out.old.items out.new.items
        (reply_of (requirement_answer form text.now)) result }
{
    match Requirement::parse(alloc, text) {
        Ok(requirement) => push_requirement_in(alloc, out, form, &requirement),
        Err(RequirementError::Name) => push_word_refused(alloc, out, form, "name"),
        Err(RequirementError::Extras) => push_word_refused(alloc, out, form, "extras"),
        Err(RequirementError::Specifier) => push_word_refused(alloc, out, form, "specifier"),
        Err(RequirementError::Url) => push_word_refused(alloc, out, form, "url"),
        Err(RequirementError::Marker) => push_word_refused(alloc, out, form, "marker"),
        Err(RequirementError::Trailing) => push_word_refused(alloc, out, form, "trailing"),
        Err(RequirementError::Memory) => Err(AllocError),
    }
}

fn push_requirement_in(
    alloc: Global,
    out: &mut Vec<u8>,
    form: Form,
    requirement: &Requirement,
) -> Result<u8, AllocError>
    ensures { Pushes out.old.items out.new.items
        (answered (requirement_shown form requirement.now)) result }
{
    match form {
        Form::Lines => push_requirement_line(alloc, out, requirement)?,
        Form::Json => push_document(alloc, out, requirement_document(alloc, requirement)?)?,
    }
    Ok(0)
}

fn push_requirement_line(
    alloc: Global,
    out: &mut Vec<u8>,
    requirement: &Requirement,
) -> Result<(), AllocError>
    ensures { OnOk result (out.new.items
        ≡ out.old.items ++ requirement_line requirement.now) }
{
    let name = normal_name(alloc, requirement.name())?;
    push_field(out, Some(name.as_str()))?;
    push_extras(alloc, out, requirement.extras())?;
    push_next_field(out, specifiers_text(requirement.set()))?;
    push_next_field(out, requirement.url())?;
    push_next_field(out, requirement.marker().map(|marker| marker.text()))?;
    out.push(b'\n')?;
    Ok(())
}

/// Pushes a TAB and the field of the extras.
fn push_extras(alloc: Global, out: &mut Vec<u8>, extras: &[String]) -> Result<(), AllocError>
    ensures { OnOk result (out.new.items
        ≡ out.old.items ++ 9 ∷ field (names_text (map string_bytes extras.now))) }
{
    if extras.is_empty() {
        return push_next_field(out, None);
    }
    let names = normal_names(alloc, extras)?;
    let text = names.join(alloc, ",")?;
    push_next_field(out, Some(text.as_str()))
}

fn normal_names(alloc: Global, names: &[String]) -> Result<Vec<String>, AllocError>
    ensures { IfOk result (λ normal. map string_bytes normal.items
        ≡ map normal_name (map string_bytes names.now)) }
{
    let mut normal = Vec::with_capacity(alloc, names.len())?;
    for name in names {
        normal.push(normal_name(alloc, name.as_str())?)?;
    }
    Ok(normal)
}

pub(crate) fn push_wheel(
    alloc: Global,
    out: &mut Vec<u8>,
    form: Form,
    text: &str,
) -> Result<u8, AllocError>
    ensures { Pushes out.old.items out.new.items (reply_of (wheel_answer form text.now)) result }
{
    match WheelName::parse(alloc, text) {
        Ok(wheel) => push_wheel_in(alloc, out, form, &wheel),
        Err(WheelError::Extension) => push_word_refused(alloc, out, form, "extension"),
        Err(WheelError::Parts) => push_word_refused(alloc, out, form, "parts"),
        Err(WheelError::Name) => push_word_refused(alloc, out, form, "name"),
        Err(WheelError::Version) => push_word_refused(alloc, out, form, "version"),
        Err(WheelError::Build) => push_word_refused(alloc, out, form, "build"),
        Err(WheelError::Tags) => push_word_refused(alloc, out, form, "tags"),
        Err(WheelError::Memory) => Err(AllocError),
    }
}

fn push_wheel_in(
    alloc: Global,
    out: &mut Vec<u8>,
    form: Form,
    wheel: &WheelName,
) -> Result<u8, AllocError>
    ensures { Pushes out.old.items out.new.items (answered (wheel_shown form wheel.now)) result }
{
    if matches!(form, Form::Json) {
        push_document(alloc, out, wheel_document(alloc, wheel)?)?;
        return Ok(0);
    }
    let name = normal_name(alloc, wheel.name())?;
    push_field(out, Some(name.as_str()))?;
    push_next_field(out, Some(wheel.version().text()))?;
    push_next_field(out, wheel.build_text())?;
    let tags = tags_text(alloc, wheel.tags())?;
    push_next_field(out, Some(tags.as_str()))?;
    out.push(b'\n')?;
    Ok(0)
}

pub(crate) fn push_sdist(
    alloc: Global,
    out: &mut Vec<u8>,
    form: Form,
    text: &str,
) -> Result<u8, AllocError>
    ensures { Pushes out.old.items out.new.items (reply_of (sdist_answer form text.now)) result }
{
    match SdistName::parse(alloc, text) {
        Ok(sdist) => push_sdist_in(alloc, out, form, &sdist),
        Err(SdistError::Extension) => push_word_refused(alloc, out, form, "extension"),
        Err(SdistError::Parts) => push_word_refused(alloc, out, form, "parts"),
        Err(SdistError::Name) => push_word_refused(alloc, out, form, "name"),
        Err(SdistError::Version) => push_word_refused(alloc, out, form, "version"),
        Err(SdistError::Memory) => Err(AllocError),
    }
}

fn push_sdist_in(
    alloc: Global,
    out: &mut Vec<u8>,
    form: Form,
    sdist: &SdistName,
) -> Result<u8, AllocError>
    ensures { Pushes out.old.items out.new.items (answered (sdist_shown form sdist.now)) result }
{
    if matches!(form, Form::Json) {
        push_document(alloc, out, sdist_document(alloc, sdist)?)?;
        return Ok(0);
    }
    push_field(out, Some(sdist.name()))?;
    push_next_field(out, Some(sdist.version().text()))?;
    out.push(b'\n')?;
    Ok(0)
}

/// An answer of one text: the one field of its line, or the member of this key.
fn push_text(
    alloc: Global,
    out: &mut Vec<u8>,
    form: Form,
    key: &str,
    text: &str,
) -> Result<u8, AllocError>
    ensures { Pushes out.old.items out.new.items
        (answered (text_shown form key.now text.now)) result }
{
    match form {
        Form::Lines => {
            push_field(out, Some(text))?;
            out.push(b'\n')?;
        }
        Form::Json => {
            let mut object = Object::new(alloc);
            object.put_text(alloc, key, text)?;
            push_document(alloc, out, object)?;
        }
    }
    Ok(0)
}

/// An answer that is true or false: the one word of its line, or the member of this key.
pub(crate) fn push_truth(
    alloc: Global,
    out: &mut Vec<u8>,
    form: Form,
    key: &str,
    truth: bool,
) -> Result<u8, AllocError>
    ensures { Pushes out.old.items out.new.items
        (answered (truth_shown form key.now truth)) result }
{
    match form {
        Form::Lines => {
            let line: &[u8] = if truth { b"true\n" } else { b"false\n" };
            out.extend_from_slice(line)?;
        }
        Form::Json => {
            let mut object = Object::new(alloc);
            object.put_boolean(alloc, key, truth)?;
            push_document(alloc, out, object)?;
        }
    }
    Ok(0)
}

/// The word of a text that is refused.
pub(crate) fn push_word_refused(
    alloc: Global,
    out: &mut Vec<u8>,
    form: Form,
    word: &str,
) -> Result<u8, AllocError>
    ensures { Pushes out.old.items out.new.items (refused_report form word.now) result }
{
    match form {
        Form::Lines => {
            out.extend_from_slice(b"refused")?;
            push_last_word(out, word.as_bytes())?;
        }
        Form::Json => push_refused(alloc, out, &[word], None)?,
    }
    Ok(1)
}

pub(crate) fn push_fault(
    alloc: Global,
    out: &mut Vec<u8>,
    form: Form,
    code: FaultCode,
) -> Result<u8, AllocError>
    ensures { Pushes out.old.items out.new.items (fault_report form code) result }
{
    let word = fault_word(code);
    match form {
        Form::Lines => {
            out.extend_from_slice(b"fault")?;
            push_last_word(out, word.as_bytes())?;
        }
        Form::Json => push_fault_json(alloc, out, word)?,
    }
    Ok(1)
}
