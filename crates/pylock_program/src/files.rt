//! What `files` prints: every source of one lock, or of several, each file once.

ghost use Rattle.std.specs.Prelude.{◌≡◌, ◌++◌, ◌∷◌, [], IfOk, None, OnOk, false, find};
ghost use Rattle.std.specs.Prelude.{map, not};
ghost use Rattle.std.specs.List.{list_any};
ghost use Rattle.pytext.specs.Agreement.{Gives};
ghost use Rattle.pylock_command.specs.declared.task.FilesOutput.TheVariants.{Shown};
ghost use Rattle.pylock_exports.specs.Given.{given_source, given_sources};
ghost use Rattle.pylock_program.specs.Audit.{words_of};
ghost use Rattle.pylock_program.specs.Files.{chosen_sources, files_form, files_report};
ghost use Rattle.pylock_program.specs.Files.{form_source, is_described, is_several};
ghost use Rattle.pylock_program.specs.Files.{has_name, names_some};
ghost use Rattle.pylock_program.specs.Files.{left_source, left_sources, listed_from};
ghost use Rattle.pylock_program.specs.Files.{lock_by, lock_in};
ghost use Rattle.pylock_program.specs.Files.{locks_from, question_lists, sources_report};
ghost use Rattle.pylock_program.specs.Files.{sources_shown, united_if};
ghost use Rattle.pylock_program.specs.Inner.Audit.{file_bytes};
ghost use Rattle.pylock_program.specs.Inner.Files.{read_view, reads_view};
ghost use Rattle.pylock_program.specs.PlanOptions.{is_named};
ghost use Rattle.pylock_program.specs.Program.{OpensEach, RepliesTelling};
ghost use Rattle.pylock_program.specs.Refusal.{GivesOr, PrintsTelling, report_or_refusal};
ghost use Rattle.pylock_readers.specs.declared.error.LockError.TheVariants as lock_error;
ghost use Rattle.pylock_run.specs.Report.Print.{Prints, Pushes};
ghost use Rattle.pylock_union.specs.Listed.{all_lent, lent, sources_from};

use crate::diagnostics::left::tell_left_out;
use crate::export::write_sources_export;
use crate::failure::{Failure, program_end};
use crate::file::{FileBytes, read_each};
use crate::host::{Host, Outputs};
use crate::left::{is_left, is_named};
use crate::refusal::{Refusal, write_refusal};
use crate::reply::push_refused_lock;
use pylock_command::{FilesOutput, FilesQuestion, Form, PlanOption};
use pylock_core::{Lock, LockError};
use pylock_documents::push_document;
use pylock_exports::GivenSource;
use pylock_metadata::{Metadata, read_with_metadata};
use pylock_run::{Files, RunFault, Sink, Source, print};
use pylock_union::{LockSource, UnionError, listed_document, push_lines, push_sources, union_of};
use pyver_core::is_name;
use std::alloc::{AllocError, Global};
use std::mem;

/// A lock that was read, with what it says of its files besides, where that is shown.
#[derive(Drop)]
struct ReadLock {
    lock: Lock,
    metadata: Option<Metadata>,
}

// ---- what is read

/// Answers `files` on the locks of a question.
pub(crate) fn list_files<F: Files, R: Source, W: Sink, N: Sink>(
    alloc: Global,
    asked: &FilesQuestion<'_>,
    host: &mut Host<F, R, W, N>,
) -> Result<u8, Failure>
    ensures { OpensEach (F.read_gives host.old.files)
        (asked.now.lock.now ∷ words_of asked.now.others.items)
        (λ files. RepliesTelling (λ diagnostic. question_lists asked.now diagnostic files))
        (R.value host.old.reader) (R.value host.new.reader)
        (W.value host.old.outputs.writer) (W.value host.new.outputs.writer) result }
{
    let Ok(paths) = paths_of(alloc, asked) else {
        return Err(Failure::Memory);
    };
    let files = read_each(alloc, host, &paths)?;
    program_end(write_files(alloc, asked, &files, &mut host.outputs))
}

/// The paths of the locks.
fn paths_of<'a>(alloc: Global, asked: &FilesQuestion<'a>) -> Result<Vec<&'a str>, AllocError>
    ensures { IfOk result (λ paths. words_of paths.items
        ≡ asked.now.lock.now ∷ words_of asked.now.others.items) }
{
    let mut paths = Vec::new(alloc);
    paths.push(asked.lock)?;
    paths.extend_from_slice(&asked.others)?;
    Ok(paths)
}

/// Each lock in order, or the refusal of the first that is refused.
fn read_locks(
    alloc: Global,
    described: bool,
    files: &[FileBytes<'_>],
) -> Result<Vec<ReadLock>, Refusal<'static>>
    ensures { GivesOr (λ locks. reads_view locks.items) result
        (locks_from [] described (file_bytes files.now)) }
{
    let mut locks = Vec::with_capacity(alloc, files.len())?;
    for file in files {
        let lock = read_lock(alloc, described, file)?;
        let Ok(()) = locks.push(lock) else {
            return Err(Refusal::of_memory());
        };
    }
    Ok(locks)
}

fn read_lock(
    alloc: Global,
    described: bool,
    file: &FileBytes<'_>,
) -> Result<ReadLock, Refusal<'static>>
    ensures { GivesOr read_view result (lock_in described file.now.bytes.items) }
{
    match lock_by(alloc, described, &file.bytes) {
        Ok(lock) => Ok(lock),
        Err(LockError::Memory) => Err(Refusal::of_memory()),
        Err(error) => Err(Refusal::of_lock(alloc, error, file)),
    }
}

/// The lock of these bytes, with what it says of its files besides, where that is asked for.
fn lock_by(alloc: Global, described: bool, bytes: &[u8]) -> Result<ReadLock, LockError>
    ensures { Gives lock_error.Memory read_view result (lock_by described bytes.now) }
{
    if described {
        let (lock, metadata) = read_with_metadata(alloc, bytes)?;
        return Ok(ReadLock {
            lock,
            metadata: Some(metadata),
        });
    }
    Ok(ReadLock {
        lock: Lock::read(alloc, bytes)?,
        metadata: None,
    })
}

fn is_several(asked: &FilesQuestion<'_>) -> bool
    ensures { result ≡ is_several asked.now }
{
    asked.others.len() > 0
}

/// Whether the output tells what a lock says of its files besides.
fn is_described(output: FilesOutput<'_>) -> bool
    ensures { result ≡ is_described output.entry }
{
    matches!(output, FilesOutput::Shown(Form::Json))
}

/// The form in which a refusal is printed; none where the sources would be for another tool.
pub(crate) fn files_form(output: FilesOutput<'_>) -> Option<Form>
    ensures { result ≡ files_form output.entry }
{
    match output {
        FilesOutput::Shown(form) => Some(form),
        FilesOutput::Tool(_, _) => None,
    }
}

// ---- which sources

/// The sources of each lock.
fn listed<'a>(alloc: Global, locks: &'a [ReadLock]) -> Result<Vec<LockSource<'a>>, AllocError>
    ensures { IfOk result (λ list. all_lent list.items ≡ listed_from 1 (reads_view locks.now)) }
{
    let mut list = Vec::new(alloc);
    for (place, lock) in locks.iter().enumerate() {
        let metadata = lock.metadata.as_ref();
        let number = place as u64 + 1;
        push_sources(alloc, &mut list, number, lock.lock.entries(), metadata)?;
    }
    Ok(list)
}

/// The sources that the options leave.
fn left_sources<'a>(
    alloc: Global,
    options: &[PlanOption<'_>],
    list: &[LockSource<'a>],
) -> Result<Vec<LockSource<'a>>, AllocError>
    ensures { IfOk result (λ left. all_lent left.items
        ≡ left_sources options.now (all_lent list.now)) }
{
    let mut left = Vec::with_capacity(alloc, list.len())?;
    for source in list {
        push_left(&mut left, options, source)?;
    }
    Ok(left)
}

fn push_left<'a>(
    left: &mut Vec<LockSource<'a>>,
    options: &[PlanOption<'_>],
    source: &LockSource<'a>,
) -> Result<(), AllocError>
    ensures { OnOk result (all_lent left.new.items
        ≡ all_lent left.old.items ++ left_source options.now (lent source.now)) }
{
    if is_left(options, source.entry) {
        left.push(*source)?;
    }
    Ok(())
}

/// The first option whose text is the name of no entry.
fn first_unnamed<'a>(options: &[PlanOption<'a>], locks: &[ReadLock]) -> Option<PlanOption<'a>>
    ensures { result ≡ find (λ option. not (names_some (reads_view locks.now) option)) options.now }
{
    for option in options {
        if !names_some(*option, locks) {
            return Some(*option);
        }
    }
    None
}

fn names_some(option: PlanOption<'_>, locks: &[ReadLock]) -> bool
    ensures { result ≡ names_some (reads_view locks.now) option.entry }
{
    match option {
        PlanOption::Only(name) | PlanOption::Except(name) => has_name(locks, name),
        _ => true,
    }
}

/// Whether the text is a name that an entry of some lock has.
fn has_name(locks: &[ReadLock], name: &str) -> bool
    ensures { result ≡ has_name (reads_view locks.now) name.now }
{
    if !is_name(name) {
        return false;
    }
    for lock in locks {
        if lock_has(lock, name) {
            return true;
        }
    }
    false
}

fn lock_has(lock: &ReadLock, name: &str) -> bool
    ensures { result ≡ list_any (is_named name.now) (read_view lock.now).0.entries }
{
    lock.lock
        .entries()
        .iter()
        .any(|entry| is_named(name, entry))
}

/// The sources of locks that the options leave, of several locks each file once; and how many are
/// left out by the options. An option that names no entry is refused.
fn chosen_sources<'a>(
    alloc: Global,
    asked: &FilesQuestion<'a>,
    locks: &'a [ReadLock],
) -> Result<(Vec<LockSource<'a>>, usize), Refusal<'a>>
    ensures { GivesOr (λ chosen. all_lent chosen.0.items) result (chosen_sources
        (is_several asked.now) asked.now.options.items (reads_view locks.now)) }
{
    if let Some(option) = first_unnamed(&asked.options, locks) {
        return Err(Refusal::of_unnamed(alloc, option));
    }
    let all = listed(alloc, locks)?;
    let left = left_sources(alloc, &asked.options, &all)?;
    let left_out = all.len().saturating_sub(left.len());
    let list = united_if(alloc, is_several(asked), left)?;
    Ok((list, left_out))
}

/// Of several locks each file once.
fn united_if<'a>(
    alloc: Global,
    several: bool,
    list: Vec<LockSource<'a>>,
) -> Result<Vec<LockSource<'a>>, Refusal<'a>>
    ensures { GivesOr (λ list. all_lent list.items) result
        (united_if several (all_lent list.entry.items)) }
{
    if !several {
        return Ok(list);
    }
    match union_of(alloc, &list) {
        Ok(list) => Ok(list),
        Err(UnionError::Memory) => Err(Refusal::of_memory()),
        Err(UnionError::Differ(clash)) => Err(Refusal::of_clash(alloc, clash)),
    }
}

// ---- what is printed

#[tactic(auto, using(crate::proofs::OpeningLemmas::refused))]
fn write_files<W: Sink, N: Sink>(
    alloc: Global,
    asked: &FilesQuestion<'_>,
    files: &[FileBytes<'_>],
    outputs: &mut Outputs<W, N>,
) -> Result<u8, RunFault>
    ensures { PrintsTelling (λ diagnostic. question_lists asked.now diagnostic
        (file_bytes files.now))
        (W.value outputs.old.writer) (W.value outputs.new.writer) result }
{
    match read_locks(alloc, is_described(asked.output), files) {
        Ok(locks) => {
            let end = write_locks(alloc, asked, &locks, outputs);
            if outputs.ends_process {
                mem::forget(locks);
            }
            end
        }
        Err(refusal) => write_refusal(alloc, files_form(asked.output), refusal, outputs),
    }
}

/// Writes the sources of locks that were read.
#[tactic(auto, using(crate::proofs::OpeningLemmas::refused))]
fn write_locks<W: Sink, N: Sink>(
    alloc: Global,
    asked: &FilesQuestion<'_>,
    locks: &[ReadLock],
    outputs: &mut Outputs<W, N>,
) -> Result<u8, RunFault>
    ensures { PrintsTelling (λ diagnostic. report_or_refusal (files_form asked.now.output)
        diagnostic (sources_report asked.now.output (is_several asked.now))
        (chosen_sources (is_several asked.now) asked.now.options.items (reads_view locks.now)))
        (W.value outputs.old.writer) (W.value outputs.new.writer) result }
{
    match chosen_sources(alloc, asked, locks) {
        Ok((list, left_out)) => {
            tell_left_out(alloc, &mut outputs.diagnostics, "files", left_out);
            write_sources(alloc, asked.output, is_several(asked), &list, outputs)
        }
        Err(refusal) => write_refusal(alloc, files_form(asked.output), refusal, outputs),
    }
}

/// Writes sources.
fn write_sources<W: Sink, N: Sink>(
    alloc: Global,
    output: FilesOutput<'_>,
    several: bool,
    list: &[LockSource<'_>],
    outputs: &mut Outputs<W, N>,
) -> Result<u8, RunFault>
    ensures { Prints (sources_report output.entry several (all_lent list.now))
        (W.value outputs.old.writer) (W.value outputs.new.writer) result }
{
    match output {
        FilesOutput::Shown(form) => {
            let mut out = Vec::new(alloc);
            push_listed(alloc, &mut out, form, several, list)?;
            print(&out, 0, &mut outputs.writer)
        }
        FilesOutput::Tool(form, base) => {
            let given = given_sources(alloc, list)?;
            write_sources_export(alloc, (form, base), &given, outputs)
        }
    }
}

fn push_listed(
    alloc: Global,
    out: &mut Vec<u8>,
    form: Form,
    several: bool,
    list: &[LockSource<'_>],
) -> Result<(), AllocError>
    ensures { OnOk result (out.new.items
        ≡ out.old.items ++ sources_shown form several (all_lent list.now)) }
{
    match form {
        Form::Lines => push_lines(out, list, several),
        Form::Json => push_document(alloc, out, listed_document(alloc, list, several)?),
    }
}

/// The sources as the forms of other tools have them.
fn given_sources<'a>(
    alloc: Global,
    list: &[LockSource<'a>],
) -> Result<Vec<GivenSource<'a>>, AllocError>
    ensures { IfOk result (λ given. given_sources given.items
        ≡ map form_source (all_lent list.now)) }
{
    let mut given = Vec::with_capacity(alloc, list.len())?;
    for source in list {
        given.push(given_source(source))?;
    }
    Ok(given)
}

fn given_source<'a>(source: &LockSource<'a>) -> GivenSource<'a>
    ensures { given_source result ≡ form_source (lent source.now) }
{
    GivenSource {
        number: source.number,
        entry: source.entry,
        source: source.source,
    }
}

/// Pushes what `files` prints of a lock, which is given by the bytes of its TOML text (PEP 751),
/// and answers the status. It takes memory for the lock and for what it pushes.
pub fn push_files(
    alloc: Global,
    out: &mut Vec<u8>,
    form: Form,
    lock: &[u8],
) -> Result<u8, AllocError>
    ensures { Pushes out.old.items out.new.items (files_report (Shown form) None lock.now) result }
{
    match lock_by(alloc, is_described(FilesOutput::Shown(form)), lock) {
        Ok(lock) => {
            push_lock(alloc, out, form, &lock)?;
            Ok(0)
        }
        Err(LockError::Memory) => Err(AllocError),
        Err(error) => push_refused_lock(alloc, out, form, error),
    }
}

/// Pushes the sources of a lock.
fn push_lock(
    alloc: Global,
    out: &mut Vec<u8>,
    form: Form,
    lock: &ReadLock,
) -> Result<(), AllocError>
    ensures { OnOk result (out.new.items ≡ out.old.items
        ++ sources_shown form false (left_sources [] (listed_from 1 (read_view lock.now ∷ [])))) }
{
    let list = lock_sources(alloc, lock)?;
    push_listed(alloc, out, form, false, &list)
}

/// The sources of a lock, which is the first.
fn lock_sources<'a>(alloc: Global, lock: &'a ReadLock) -> Result<Vec<LockSource<'a>>, AllocError>
    ensures { IfOk result (λ list. all_lent list.items
        ≡ sources_from 1 (read_view lock.now).1 0 (read_view lock.now).0.entries) }
{
    let mut list = Vec::new(alloc);
    let metadata = lock.metadata.as_ref();
    push_sources(alloc, &mut list, 1, lock.lock.entries(), metadata)?;
    Ok(list)
}
