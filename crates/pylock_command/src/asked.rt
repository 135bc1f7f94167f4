//! What the subcommands with several arguments are asked, by what clap found.
ghost use Rattle.std.specs.Prelude.{◌≡◌, ◌∷◌, ◌++◌, IfOk, OnOk, codes, filter, length, map};
ghost use Rattle.std.specs.Prelude.{option_to_list};
ghost use Rattle.clap.specs.Words.{found_of, rows_of};
ghost use Rattle.pylock_command.specs.Asked.{IsAudit, IsCheck, IsCheckMatrix, IsComparison};
ghost use Rattle.pylock_command.specs.Asked.{IsFiles, IsInstallation, IsMatrix, IsOpening};
ghost use Rattle.pylock_command.specs.Asked.{IsQuestion, IsStatus, HasTexts};
ghost use Rattle.pylock_command.specs.Asked.{audit_inputs_misuse, audit_misuse, audit_paths};
ghost use Rattle.pylock_command.specs.Asked.{check_matrix_misuse, check_misuse, comparison_misuse};
ghost use Rattle.pylock_command.specs.Asked.{env_misuse, files_misuse, is_dash, paths_misuse};
ghost use Rattle.pylock_command.specs.Asked.{installation_misuse, matrix_misuse, opening_misuse};
ghost use Rattle.pylock_command.specs.Asked.{question_misuse, select_misuse, status_misuse};
ghost use Rattle.pylock_command.specs.Misuse.{Refuses, RefusesUnless, lack};
ghost use Rattle.pylock_command.specs.PlanOptions.{texts_at};

use crate::form::{audit_output_of, files_output_of, form_of, matrix_output_of, output_of};
use crate::machine::{machine_of, place_of};
use crate::misuse::{Misuse, NoTask};
use crate::options::{left_of, options_of, texts};
use crate::task::{
    AuditQuestion, CheckMatrixQuestion, CheckQuestion, Comparison, FilesQuestion, Installation,
    MatrixQuestion, Opening, Question, StatusQuestion, View,
};
use crate::texts::{STANDARD_INPUT, has_flag, judge_input, judge_inputs, text_at, text_of};
use clap::ArgMatches;
use std::alloc::{AllocError, Global};

/// What `plan` or `explain` is asked.
pub(crate) fn question_of<'a>(
    alloc: Global,
    view: View,
    found: &ArgMatches<'a>,
) -> Result<Question<'a>, NoTask>
    ensures question { IfOk result (IsQuestion view (rows_of (found_of found.now))) }
    ensures refused { RefusesUnless (question_misuse view (rows_of (found_of found.now))) result }
{
    let opening = opening_of(found)?;
    judge_inputs(found, "LOCK", "ENV")?;
    let options = options_of(alloc, found)?;
    let output = output_of(view, found)?;
    Ok(Question {
        opening,
        options,
        output,
    })
}

/// What the session of `select` is opened on.
pub(crate) fn select_of<'a>(found: &ArgMatches<'a>) -> Result<Opening<'a>, Misuse>
    ensures opening { IfOk result (IsOpening (rows_of (found_of found.now))) }
    ensures refused { Refuses (select_misuse (rows_of (found_of found.now))) result }
{
    let opening = opening_of(found)?;
    judge_input(found, "LOCK")?;
    judge_input(found, "ENV")?;
    Ok(opening)
}

/// What a session is opened on, of which nothing has judged yet where standard input is read.
fn opening_of<'a>(found: &ArgMatches<'a>) -> Result<Opening<'a>, Misuse>
    ensures opening { IfOk result (IsOpening (rows_of (found_of found.now))) }
    ensures refused { Refuses (opening_misuse (rows_of (found_of found.now))) result }
{
    Ok(Opening {
        lock: text_of(found, "LOCK")?,
        machine: machine_of(found)?,
        strict: has_flag(found, "strict"),
    })
}

/// What `matrix` is asked.
pub(crate) fn matrix_of<'a>(
    alloc: Global,
    found: &ArgMatches<'a>,
) -> Result<MatrixQuestion<'a>, NoTask>
    ensures matrix { IfOk result (IsMatrix (rows_of (found_of found.now))) }
    ensures refused { RefusesUnless (matrix_misuse (rows_of (found_of found.now))) result }
{
    let lock = text_of(found, "LOCK")?;
    let output = matrix_output_of(found)?;
    let options = options_of(alloc, found)?;
    Ok(MatrixQuestion {
        lock,
        pythons: text_at(found, "python"),
        platforms: text_at(found, "platform"),
        options,
        strict: has_flag(found, "strict"),
        no_build: has_flag(found, "no-build"),
        output,
    })
}

/// What `files` is asked.
pub(crate) fn files_of<'a>(
    alloc: Global,
    found: &ArgMatches<'a>,
) -> Result<FilesQuestion<'a>, NoTask>
    ensures files { IfOk result (IsFiles (rows_of (found_of found.now))) }
    ensures refused { RefusesUnless (files_misuse (rows_of (found_of found.now))) result }
{
    let (lock, others) = locks_of(found)?;
    let output = files_output_of(found)?;
    judge_paths(texts(found, "LOCK"))?;
    Ok(FilesQuestion {
        lock,
        others: Vec::from_slice(alloc, others)?,
        options: left_of(alloc, found)?,
        output,
    })
}

/// The first of the locks, and the others.
fn locks_of<'b, 'a>(found: &'b ArgMatches<'a>) -> Result<(&'a str, &'b [&'a str]), Misuse>
    ensures locks { IfOk result (λ locks. HasTexts (rows_of (found_of found.now)) (codes "LOCK")
        (locks.0 ∷ locks.1.now)) }
    ensures refused { Refuses (lack (codes "LOCK") (rows_of (found_of found.now))) result }
{
    match texts(found, "LOCK").split_first() {
        Some((lock, others)) => Ok((*lock, others)),
        None => Err(Misuse::Missing),
    }
}

/// What `audit` is asked.
pub(crate) fn audit_of<'a>(
    alloc: Global,
    found: &ArgMatches<'a>,
) -> Result<AuditQuestion<'a>, NoTask>
    ensures audit { IfOk result (IsAudit (rows_of (found_of found.now))) }
    ensures refused { RefusesUnless (audit_misuse (rows_of (found_of found.now))) result }
{
    let lock = text_of(found, "LOCK")?;
    let output = audit_output_of(found)?;
    judge_audit_inputs(alloc, found)?;
    Ok(AuditQuestion {
        lock,
        environments: has_flag(found, "environments"),
        advisories: texts_of(alloc, found, "advisories")?,
        hosts: texts_of(alloc, found, "host")?,
        fail_on: text_at(found, "fail-on"),
        ignored: texts_of(alloc, found, "ignore")?,
        config: text_at(found, "config"),
        output,
    })
}

/// Refuses standard input as two files of an audit.
fn judge_audit_inputs(alloc: Global, found: &ArgMatches<'_>) -> Result<(), NoTask>
    ensures { RefusesUnless (audit_inputs_misuse (rows_of (found_of found.now))) result }
{
    let paths = audit_paths(alloc, found)?;
    judge_paths(&paths)?;
    Ok(())
}

/// Refuses standard input as two of these files.
fn judge_paths(paths: &[&str]) -> Result<(), Misuse>
    ensures { Refuses (paths_misuse (map (λ path. path.now) paths.now)) result }
{
    if input_count(paths) > 1 {
        return Err(Misuse::TwoInputs);
    }
    Ok(())
}

/// How many of these paths are the word for standard input.
fn input_count(paths: &[&str]) -> usize
    ensures { result ≡ length (filter (λ path. is_dash path.now) paths.now) }
{
    paths.iter().filter(|path| is_dash(path)).count()
}

fn is_dash(path: &str) -> bool
    ensures { result ≡ is_dash path.now }
{
    path == STANDARD_INPUT
}

/// The paths of the files that an audit reads.
fn audit_paths<'a>(alloc: Global, found: &ArgMatches<'a>) -> Result<Vec<&'a str>, AllocError>
    ensures { IfOk result (λ paths. map (λ path. path.now) paths.items
        ≡ audit_paths (rows_of (found_of found.now))) }
{
    let mut paths = texts_of(alloc, found, "advisories")?;
    push_text(&mut paths, text_at(found, "LOCK"))?;
    push_text(&mut paths, text_at(found, "config"))?;
    Ok(paths)
}

/// Adds a text, if it is there.
fn push_text<'a>(list: &mut Vec<&'a str>, text: Option<&'a str>) -> Result<(), AllocError>
    ensures { OnOk result (list.new.items ≡ list.old.items ++ option_to_list text.entry) }
{
    if let Some(text) = text {
        list.push(text)?;
    }
    Ok(())
}

/// The texts that the words give an option.
fn texts_of<'a>(
    alloc: Global,
    found: &ArgMatches<'a>,
    name: &str,
) -> Result<Vec<&'a str>, AllocError>
    ensures { IfOk result (λ list. map (λ text. text.now) list.items
        ≡ texts_at name.now (rows_of (found_of found.now))) }
{
    Vec::from_slice(alloc, texts(found, name))
}

/// What `status` is asked.
pub(crate) fn status_of<'a>(
    alloc: Global,
    found: &ArgMatches<'a>,
) -> Result<StatusQuestion<'a>, NoTask>
    ensures status { IfOk result (IsStatus (rows_of (found_of found.now))) }
    ensures refused { RefusesUnless (status_misuse (rows_of (found_of found.now))) result }
{
    let opening = opening_of(found)?;
    let installed = text_of(found, "installed")?;
    judge_inputs(found, "LOCK", "ENV")?;
    judge_inputs(found, "LOCK", "installed")?;
    judge_inputs(found, "ENV", "installed")?;
    let options = options_of(alloc, found)?;
    Ok(StatusQuestion {
        opening,
        options,
        installed,
        exact: has_flag(found, "exact"),
        form: form_of(found),
    })
}

/// What `check` is asked.
pub(crate) fn check_of<'a>(
    alloc: Global,
    found: &ArgMatches<'a>,
) -> Result<CheckQuestion<'a>, NoTask>
    ensures check { IfOk result (IsCheck (rows_of (found_of found.now))) }
    ensures refused { RefusesUnless (check_misuse (rows_of (found_of found.now))) result }
{
    let opening = opening_of(found)?;
    let project = text_of(found, "PROJECT")?;
    judge_inputs(found, "LOCK", "ENV")?;
    judge_inputs(found, "LOCK", "PROJECT")?;
    judge_inputs(found, "ENV", "PROJECT")?;
    let options = options_of(alloc, found)?;
    Ok(CheckQuestion {
        opening,
        options,
        project,
        form: form_of(found),
    })
}

/// What `check --matrix` is asked.
pub(crate) fn check_matrix_of<'a>(
    alloc: Global,
    found: &ArgMatches<'a>,
) -> Result<CheckMatrixQuestion<'a>, NoTask>
    ensures check { IfOk result (IsCheckMatrix (rows_of (found_of found.now))) }
    ensures refused { RefusesUnless (check_matrix_misuse (rows_of (found_of found.now))) result }
{
    let lock = text_of(found, "LOCK")?;
    let project = text_of(found, "PROJECT")?;
    judge_no_env(found)?;
    judge_inputs(found, "LOCK", "PROJECT")?;
    let options = options_of(alloc, found)?;
    Ok(CheckMatrixQuestion {
        lock,
        pythons: text_at(found, "python"),
        platforms: text_at(found, "platform"),
        options,
        strict: has_flag(found, "strict"),
        project,
        form: form_of(found),
    })
}

/// Refuses the file of an environment beside the targets of a matrix.
fn judge_no_env(found: &ArgMatches<'_>) -> Result<(), Misuse>
    ensures { Refuses (env_misuse (rows_of (found_of found.now))) result }
{
    if text_at(found, "ENV").is_some() {
        return Err(Misuse::EnvAndMatrix);
    }
    Ok(())
}

/// What `diff` is asked.
pub(crate) fn comparison_of<'a>(
    alloc: Global,
    found: &ArgMatches<'a>,
) -> Result<Comparison<'a>, NoTask>
    ensures comparison { IfOk result (IsComparison (rows_of (found_of found.now))) }
    ensures refused { RefusesUnless (comparison_misuse (rows_of (found_of found.now))) result }
{
    let old = text_of(found, "OLD")?;
    let new = text_of(found, "NEW")?;
    judge_inputs(found, "OLD", "NEW")?;
    judge_inputs(found, "OLD", "in")?;
    judge_inputs(found, "NEW", "in")?;
    Ok(Comparison {
        old,
        new,
        installation: installation_of(alloc, found)?,
        form: form_of(found),
    })
}

/// For which machine `diff` compares plans, if it does, and with which options.
fn installation_of<'a>(
    alloc: Global,
    found: &ArgMatches<'a>,
) -> Result<Option<Installation<'a>>, NoTask>
    ensures installation { IfOk result (IsInstallation (rows_of (found_of found.now))) }
    ensures refused { RefusesUnless (installation_misuse (rows_of (found_of found.now))) result }
{
    let place = place_of(found, "in")?;
    let options = options_of(alloc, found)?;
    match place {
        Some(machine) => Ok(Some(Installation { machine, options })),
        None => {
            if !options.is_empty() {
                return Err(NoTask::Misused(Misuse::NoPlans));
            }
            Ok(None)
        }
    }
}
