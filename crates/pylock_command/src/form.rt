//! How an answer is printed, and the arguments that ask for it.
ghost use Rattle.std.specs.Prelude.{◌≡◌, IfOk, option_map};
ghost use Rattle.clap.specs.Words.{found_of, rows_of};
ghost use Rattle.pylock_command.specs.Form.{IsAuditOutput, IsFilesOutput, IsFormat};
ghost use Rattle.pylock_command.specs.Form.{IsMatrixOutput, IsOutput, audit_output_misuse};
ghost use Rattle.pylock_command.specs.Form.{IsPlanOutput, IsTime, file_format_named};
ghost use Rattle.pylock_command.specs.Form.{files_output_misuse, form_of, format_misuse};
ghost use Rattle.pylock_command.specs.Form.{format_word, matrix_output_misuse, output_misuse};
ghost use Rattle.pylock_command.specs.Form.{plan_form_named, plan_format_named, plan_output_misuse};
ghost use Rattle.pylock_command.specs.Form.{stray_misuse, time_misuse, word_misuse};
ghost use Rattle.pylock_command.specs.Misuse.{Refuses};
ghost use Rattle.pylock_command.specs.declared.misuse.Misuse.TheVariants.{NoFileFormat};
ghost use Rattle.pylock_command.specs.declared.misuse.Misuse.TheVariants.{NoPlanFormat};

use crate::argument::{Argument, Kind};
use crate::base::base_of;
use crate::created::is_created;
use crate::misuse::Misuse;
use crate::task::{AuditOutput, FilesOutput, MatrixOutput, Output, View};
use crate::texts::{has_flag, text_at};
use clap::ArgMatches;

/// In which form an answer is printed.
#[derive(Clone, Copy, Debug, PartialEq, Eq)]
pub enum Form {
    /// Lines of fields.
    Lines,
    /// One JSON document; of `select` one for each answer.
    Json,
}

/// A form for a tool that takes files, whatever is done with them.
#[derive(Clone, Copy, Debug, PartialEq, Eq)]
pub enum FileFormat {
    /// For `sha256sum -c`.
    Sha256sum,
    /// For `aria2c -i`.
    Aria2,
    /// For `wget -i`, and whatever reads a URL on each line.
    Urls,
}

/// A form of a plan for another tool.
#[derive(Clone, Copy, Debug, PartialEq, Eq)]
pub enum PlanFormat {
    /// A requirements file of what has hashes, wheels, sdists and archives, for
    /// `pip install --no-deps -r` and `uv pip install --no-deps -r`.
    Requirements,
    /// A second one of the rest, checkouts and directories: pip takes no requirement without a
    /// hash beside one that has a hash.
    RequirementsLocal,
    /// A list of its files.
    Files(FileFormat),
}

/// A bill of materials of a plan.
#[derive(Clone, Copy, Debug, PartialEq, Eq)]
pub enum BillFormat<'a> {
    /// CycloneDX 1.6.
    CycloneDx,
    /// SPDX 2.3, made at this time, of which [`is_created`] says that it is one.
    Spdx(&'a str),
}

/// A form of a plan that has a word.
#[derive(Clone, Copy)]
pub(crate) enum PlanForm {
    /// One for another tool.
    Tool(PlanFormat),
    /// CycloneDX.
    CycloneDx,
    /// SPDX.
    Spdx,
}

pub(crate) const JSON: Argument = Argument {
    name: "json",
    kind: Kind::Flag,
    help: "Print one JSON document in place of the lines",
};

pub(crate) const JSON_LINES: Argument = Argument {
    name: "json",
    kind: Kind::Flag,
    help: "Print a JSON document on a line for each answer",
};

pub(crate) const FILES: Argument = Argument {
    name: "files",
    kind: Kind::Flag,
    help: "Print the files that the targets take, each once",
};

pub(crate) const FORMAT: Argument = Argument {
    name: "format",
    kind: Kind::Single("FORM"),
    help: "Print a form that another tool takes",
};

pub(crate) const CREATED: Argument = Argument {
    name: "created",
    kind: Kind::Single("TIME"),
    help: "The time of an SPDX document: 2026-07-24T12:00:00Z",
};

/// The form that the words ask for.
pub(crate) fn form_of(found: &ArgMatches<'_>) -> Form
    ensures { result ≡ form_of (rows_of (found_of found.now)) }
{
    if has_flag(found, "json") {
        Form::Json
    } else {
        Form::Lines
    }
}

/// How the answer of `plan` or `explain` is printed.
pub(crate) fn output_of<'a>(view: View, found: &ArgMatches<'a>) -> Result<Output<'a>, Misuse>
    ensures output { IfOk result (IsOutput view (rows_of (found_of found.now))) }
    ensures refused { Refuses (output_misuse view (rows_of (found_of found.now))) result }
{
    match view {
        View::Plan => plan_output_of(found),
        View::Explain => Ok(Output::View(view, form_of(found))),
    }
}

/// How the answer of `plan` is printed.
fn plan_output_of<'a>(found: &ArgMatches<'a>) -> Result<Output<'a>, Misuse>
    ensures output { IfOk result (IsPlanOutput (rows_of (found_of found.now))) }
    ensures refused { Refuses (plan_output_misuse (rows_of (found_of found.now))) result }
{
    let form = plan_form_of(found)?;
    let base = base_of(found)?;
    match form {
        Some(PlanForm::Spdx) => Ok(Output::Bill(BillFormat::Spdx(time_of(found)?))),
        Some(PlanForm::CycloneDx) => {
            judge_no_time(found)?;
            Ok(Output::Bill(BillFormat::CycloneDx))
        }
        Some(PlanForm::Tool(format)) => {
            judge_no_time(found)?;
            Ok(Output::Tool(format, base))
        }
        None => {
            judge_no_time(found)?;
            Ok(Output::View(View::Plan, form_of(found)))
        }
    }
}

/// Refuses a time where no SPDX document is asked for.
fn judge_no_time(found: &ArgMatches<'_>) -> Result<(), Misuse>
    ensures { Refuses (stray_misuse (rows_of (found_of found.now))) result }
{
    if text_at(found, "created").is_some() {
        return Err(Misuse::StrayTime);
    }
    Ok(())
}

/// The form of a plan that the words name, if they name one.
fn plan_form_of(found: &ArgMatches<'_>) -> Result<Option<PlanForm>, Misuse>
    ensures form { IfOk result (IsFormat plan_form_named (rows_of (found_of found.now))) }
    ensures refused { Refuses (format_misuse plan_form_named NoPlanFormat
        (rows_of (found_of found.now))) result }
{
    let Some(word) = format_word(found)? else {
        return Ok(None);
    };
    match plan_form_named(word) {
        Some(form) => Ok(Some(form)),
        None => Err(Misuse::NoPlanFormat),
    }
}

/// The time of an SPDX document.
fn time_of<'a>(found: &ArgMatches<'a>) -> Result<&'a str, Misuse>
    ensures time { IfOk result (λ time. IsTime (rows_of (found_of found.now)) time.now) }
    ensures refused { Refuses (time_misuse (rows_of (found_of found.now))) result }
{
    let Some(time) = text_at(found, "created") else {
        return Err(Misuse::NoTime);
    };
    if is_created(time) {
        Ok(time)
    } else {
        Err(Misuse::BadTime)
    }
}

/// How the answer of `files` is printed.
pub(crate) fn files_output_of<'a>(found: &ArgMatches<'a>) -> Result<FilesOutput<'a>, Misuse>
    ensures output { IfOk result (IsFilesOutput (rows_of (found_of found.now))) }
    ensures refused { Refuses (files_output_misuse (rows_of (found_of found.now))) result }
{
    let format = file_format_of(found)?;
    let base = base_of(found)?;
    Ok(match format {
        Some(format) => FilesOutput::Tool(format, base),
        None => FilesOutput::Shown(form_of(found)),
    })
}

/// The form of `files` that the words ask for.
fn file_format_of(found: &ArgMatches<'_>) -> Result<Option<FileFormat>, Misuse>
    ensures format { IfOk result (IsFormat file_format_named (rows_of (found_of found.now))) }
    ensures refused { Refuses (format_misuse file_format_named NoFileFormat
        (rows_of (found_of found.now))) result }
{
    let Some(word) = format_word(found)? else {
        return Ok(None);
    };
    match file_format_named(word) {
        Some(format) => Ok(Some(format)),
        None => Err(Misuse::NoFileFormat),
    }
}

/// How the answer of `matrix` is printed.
pub(crate) fn matrix_output_of<'a>(found: &ArgMatches<'a>) -> Result<MatrixOutput<'a>, Misuse>
    ensures output { IfOk result (IsMatrixOutput (rows_of (found_of found.now))) }
    ensures refused { Refuses (matrix_output_misuse (rows_of (found_of found.now))) result }
{
    if has_flag(found, "files") {
        return Ok(MatrixOutput::Files(files_output_of(found)?));
    }
    match text_at(found, "format") {
        Some(_) => Err(Misuse::FormatOfRows),
        None => Ok(MatrixOutput::Rows(form_of(found))),
    }
}

/// How the answer of `audit` is printed.
pub(crate) fn audit_output_of(found: &ArgMatches<'_>) -> Result<AuditOutput, Misuse>
    ensures output { IfOk result (IsAuditOutput (rows_of (found_of found.now))) }
    ensures refused { Refuses (audit_output_misuse (rows_of (found_of found.now))) result }
{
    match format_word(found)? {
        Some("sarif") => Ok(AuditOutput::Sarif),
        Some(_) => Err(Misuse::NoAuditFormat),
        None => Ok(AuditOutput::Shown(form_of(found))),
    }
}

/// The word of a form, which stands alone.
fn format_word<'a>(found: &ArgMatches<'a>) -> Result<Option<&'a str>, Misuse>
    ensures word { IfOk result (λ word. option_map (λ word. word.now) word
        ≡ format_word (rows_of (found_of found.now))) }
    ensures refused { Refuses (word_misuse (rows_of (found_of found.now))) result }
{
    let word = text_at(found, "format");
    if word.is_some() && has_flag(found, "json") {
        return Err(Misuse::TwoForms);
    }
    Ok(word)
}

fn plan_form_named(word: &str) -> Option<PlanForm>
    ensures { result ≡ plan_form_named word.now }
{
    if word == "cyclonedx" {
        return Some(PlanForm::CycloneDx);
    }
    if word == "spdx" {
        return Some(PlanForm::Spdx);
    }
    match plan_format_named(word) {
        Some(format) => Some(PlanForm::Tool(format)),
        None => None,
    }
}

fn plan_format_named(word: &str) -> Option<PlanFormat>
    ensures { result ≡ plan_format_named word.now }
{
    if word == "requirements" {
        return Some(PlanFormat::Requirements);
    }
    if word == "requirements-local" {
        return Some(PlanFormat::RequirementsLocal);
    }
    match file_format_named(word) {
        Some(format) => Some(PlanFormat::Files(format)),
        None => None,
    }
}

fn file_format_named(word: &str) -> Option<FileFormat>
    ensures { result ≡ file_format_named word.now }
{
    if word == "sha256sum" {
        Some(FileFormat::Sha256sum)
    } else if word == "aria2" {
        Some(FileFormat::Aria2)
    } else if word == "urls" {
        Some(FileFormat::Urls)
    } else {
        None
    }
}
