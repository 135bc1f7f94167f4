//! What a person is told of a refusal, and beside a text.

use crate::export::Exported;
use crate::refusal::{Field, FieldFault, FormatRefusal, Reason};
use pylock_command::{FileFormat, PlanFormat};
use std::alloc::{AllocError, Global};

/// The word of the form, as the command line has it.
fn format_word(form: PlanFormat) -> &'static str {
    match form {
        PlanFormat::Requirements => "requirements",
        PlanFormat::RequirementsLocal => "requirements-local",
        PlanFormat::Files(FileFormat::Sha256sum) => "sha256sum",
        PlanFormat::Files(FileFormat::Aria2) => "aria2",
        PlanFormat::Files(FileFormat::Urls) => "urls",
    }
}

/// What a person is told of a refusal: the entry of which it is, by its number and, where that is
/// given, its name; the field; and why, with the character that isn't allowed. It takes memory for
/// the text.
pub fn explain_refusal(
    alloc: Global,
    form: PlanFormat,
    name: Option<&str>,
    refusal: &FormatRefusal,
) -> Result<String, AllocError> {
    let number = refusal.number;
    let word = format_word(form);
    let field = field_word(refusal.fault.field);
    let why = reason_text(alloc, form, refusal.fault)?;
    match name {
        Some(name) => {
            format!(in alloc; "--format {word}: entry {number} (`{name}`): {field}: {why}")
        }
        None => format!(in alloc; "--format {word}: entry {number}: {field}: {why}"),
    }
}

fn field_word(field: Field) -> &'static str {
    match field {
        Field::Name => "name",
        Field::Url | Field::Host | Field::UrlEnd => "url",
        Field::Path | Field::PathEnd => "path",
        Field::FileName => "file name",
        Field::Hash => "hash",
        Field::Type => "type",
        Field::Commit => "commit-id",
        Field::Subdirectory => "subdirectory",
    }
}

fn reason_text(alloc: Global, form: PlanFormat, fault: FieldFault) -> Result<String, AllocError> {
    match fault.reason {
        Reason::Character(character) => character_text(alloc, fault.field, character),
        Reason::Missing => String::from_str(alloc, missing_text(form, fault.field)),
        Reason::Form => String::from_str(alloc, form_text(form, fault.field)),
        reason => String::from_str(alloc, other_text(reason)),
    }
}

/// The character as it is where it is a printable one of ASCII, and else its number.
fn character_text(alloc: Global, field: Field, character: char) -> Result<String, AllocError> {
    let place = match field {
        Field::Host => " in the host",
        Field::UrlEnd => " in its last part, decoded",
        Field::PathEnd => " in its last part",
        _ => "",
    };
    if character.is_ascii_graphic() {
        return format!(in alloc; "`{character}` isn't allowed{place}");
    }
    format!(in alloc; "`\\u{{{:x}}}` isn't allowed{place}", u32::from(character))
}

fn missing_text(form: PlanFormat, field: Field) -> &'static str {
    match (form, field) {
        (PlanFormat::Requirements, Field::Hash) => "none of sha256, sha384, sha512",
        (PlanFormat::Files(_), Field::Hash) => "no sha256",
        _ => "there is none",
    }
}

fn form_text(form: PlanFormat, field: Field) -> &'static str {
    match (form, field) {
        (_, Field::Name | Field::FileName) => "begins with neither a letter nor a digit",
        (_, Field::UrlEnd | Field::PathEnd) => {
            "its last part is empty, or begins with neither a letter nor a digit"
        }
        (PlanFormat::Requirements, Field::Url) => {
            "begins with none of https://, http://, file:/// and a letter or digit"
        }
        (_, Field::Url) => "begins with neither https:// nor http://",
        (_, Field::Host) => "wants a host behind `//`, and then `/`, or a port and `/`",
        (_, Field::Path | Field::Subdirectory) => "isn't a path",
        (_, Field::Hash) => "isn't as long as its algorithm wants it",
        (_, Field::Type) => "none of git, hg, svn, bzr",
        (_, Field::Commit) => "isn't the hash of a commit",
    }
}

fn other_text(reason: Reason) -> &'static str {
    match reason {
        Reason::NoPath => "nothing stands behind the host",
        Reason::Empty => "is empty",
        Reason::DoubleSlash => "has `//`",
        Reason::Parent => "has a part `..`",
        Reason::Absolute => "begins with `/`",
        Reason::NoUrl => "stands with a relative path, and no url to stand behind",
        Reason::OtherName => "the url or path ends in another name",
        Reason::Unread => "can't be read as that of a wheel or an sdist",
        Reason::OtherProject => "is of another project than the entry",
        Reason::LikeFile => "pip takes it for a file, by how it ends",
        Reason::Control => "aria2c keeps what it knows of a download under such a name",
        Reason::OtherValue => "an earlier file of the same name has another one",
        Reason::Missing | Reason::Character(_) | Reason::Form => "isn't allowed",
    }
}

/// What a person is told beside a text, where there is something: how many sources have no line,
/// the first of them by the numbers and names of their entries, and where they are. It takes memory
/// for the text.
pub fn explain_exported(
    alloc: Global,
    form: PlanFormat,
    exported: &Exported,
) -> Result<Option<String>, AllocError> {
    if exported.left_out == 0 {
        return Ok(None);
    }
    let word = format_word(form);
    let count = exported.left_out;
    let mut note = format!(in alloc; "note: --format {word} leaves out {count}")?;
    note.push_str(left_text(form))?;
    push_left(alloc, &mut note, exported)?;
    Ok(Some(note))
}

/// What is left out, and where it is.
fn left_text(form: PlanFormat) -> &'static str {
    match form {
        PlanFormat::Requirements => {
            ", vcs and directories, which --format requirements-local has"
        }
        PlanFormat::RequirementsLocal => {
            ", wheels, sdists and archives, which --format requirements has"
        }
        PlanFormat::Files(FileFormat::Sha256sum) => ", without a file name and a path, or a sha256",
        PlanFormat::Files(FileFormat::Aria2) => ", without a file name, a url or a sha256",
        PlanFormat::Files(FileFormat::Urls) => ", without a url of a file",
    }
}

/// Pushes the entries of what is left out, the first of them.
fn push_left(alloc: Global, note: &mut String, exported: &Exported) -> Result<(), AllocError> {
    let mut front = ": ";
    for left in &exported.first_left {
        let number = left.number;
        let name = left.name.as_str();
        let entry = format!(in alloc; "{front}entry {number} (`{name}`)")?;
        note.push_str(entry.as_str())?;
        front = ", ";
    }
    if exported.first_left.len() < exported.left_out {
        note.push_str(", ..")?;
    }
    Ok(())
}
