//! What `audit` shows of a lock.

ghost use Rattle.std.specs.Prelude.{◌≡◌, ◌++◌, ◌⊎◌, [], IfOk, Some, option_map};
ghost use Rattle.std.specs.Option.{option_copied};
ghost use Rattle.pylock_findings.specs.All.{AreAll};
ghost use Rattle.pylock_findings.specs.Policy.{counted};
ghost use Rattle.pylock_program.specs.Audit.{EndsUnwritten, PrintsAudit, PrintsCounted};
ghost use Rattle.pylock_program.specs.Audit.{PrintsFound, PrintsLocated, advisories_from};
ghost use Rattle.pylock_program.specs.Audit.{asked_fail_on};
ghost use Rattle.pylock_program.specs.Audit.{asked_hosts, asked_ignored, asks_environments};
ghost use Rattle.pylock_program.specs.Audit.{audit_form};
ghost use Rattle.pylock_program.specs.Audit.{audited_in, opened_audit, policy_in, settings_in};
ghost use Rattle.pylock_program.specs.Audit.{words_of};
ghost use Rattle.pylock_program.specs.Inner.Audit.{audit_value, file_bytes};
ghost use Rattle.pylock_program.specs.Program.{Audits, Opens, OpensEach, OpensMaybe};
ghost use Rattle.pylock_program.specs.Refusal.{GivesOr};

use crate::failure::{Failure, program_end};
use crate::file::{FileBytes, read_bytes, read_each, read_maybe};
use crate::host::{Host, Outputs};
use crate::located::with_places;
use crate::refusal::{Refusal, write_refusal};
use crate::sarif::write_sarif;
use crate::text::audit::{write_document, write_lines};
use pylock_advisories::{Advisories, AdvisoriesError};
use pylock_audit::{LockFinding, read_audited};
use pylock_command::{AuditOutput, AuditQuestion, Form};
use pylock_core::{Lock, LockError};
use pylock_findings::{Policy, PolicyError, all_found};
use pylock_run::{Files, RunFault, Sink, Source};
use pylock_settings::{AuditSettings, SettingsError};
use pytext::Text;
use std::alloc::{AllocError, Global};
use std::mem;

/// The files that an audit reads.
#[derive(Clone, Copy)]
pub(crate) struct AuditFiles<'a> {
    lock: &'a FileBytes<'a>,
    advisories: &'a [FileBytes<'a>],
    config: Option<&'a FileBytes<'a>>,
}

/// A lock with what is found in it, and what counts.
#[derive(Drop)]
pub(crate) struct OpenedAudit {
    lock: Lock,
    found: Vec<LockFinding>,
    settings: AuditSettings,
    policy: Policy,
    advisories: Advisories,
}

/// Answers `audit` on the lock of a question.
pub(crate) fn audit_lock<F: Files, R: Source, W: Sink, N: Sink>(
    alloc: Global,
    asked: &AuditQuestion<'_>,
    host: &mut Host<F, R, W, N>,
) -> Result<u8, Failure>
    ensures { Opens (F.read_gives host.old.files) asked.now.lock.now
        (λ lock. OpensEach (F.read_gives host.old.files) (words_of asked.now.advisories.items)
        (λ files. OpensMaybe (F.read_gives host.old.files) asked.now.config
        (Audits asked.now lock files)))
        (R.value host.old.reader) (R.value host.new.reader)
        (W.value host.old.outputs.writer) (W.value host.new.outputs.writer) result }
{
    let lock = read_bytes(alloc, host, asked.lock)?;
    let advisories = read_each(alloc, host, &asked.advisories)?;
    let config = read_maybe(alloc, host, asked.config)?;
    let files = AuditFiles {
        lock: &lock,
        advisories: &advisories,
        config: config.as_ref(),
    };
    program_end(write_audit(alloc, asked, files, &mut host.outputs))
}

/// Writes what is found and counts, and answers the status: 0 where nothing fails the audit, 1
/// where something does, 2 where the lock, or what is read besides, is refused.
#[tactic(auto, using(crate::proofs::AuditLemmas::audits))]
fn write_audit<W: Sink, N: Sink>(
    alloc: Global,
    asked: &AuditQuestion<'_>,
    files: AuditFiles<'_>,
    outputs: &mut Outputs<W, N>,
) -> Result<u8, RunFault>
    ensures { PrintsAudit asked.now files.entry.lock.now.bytes.items
        (opened_audit asked.now files.entry.lock.now.bytes.items
        (file_bytes files.entry.advisories.now)
        (option_map (λ file. file.now.bytes.items) files.entry.config))
        (W.value outputs.old.writer) (W.value outputs.new.writer) result
        ⊎ EndsUnwritten (W.value outputs.old.writer) (W.value outputs.new.writer) result }
{
    match open_audit(alloc, asked, files) {
        Ok(opened) => write_opened(alloc, asked, &files.lock.bytes, opened, outputs),
        Err(refusal) => write_refusal(alloc, audit_form(asked.output), refusal, outputs),
    }
}

/// In which form a refusal is printed; where the answer would be for another tool, in none.
fn audit_form(output: AuditOutput) -> Option<Form>
    ensures { result ≡ audit_form output }
{
    match output {
        AuditOutput::Shown(form) => Some(form),
        AuditOutput::Sarif => None,
    }
}

// ---- what is read

/// The lock is judged first, then the settings, the words, and the advisories.
fn open_audit(
    alloc: Global,
    asked: &AuditQuestion<'_>,
    files: AuditFiles<'_>,
) -> Result<OpenedAudit, Refusal<'static>>
    ensures { GivesOr audit_value result (opened_audit asked.now
        files.entry.lock.now.bytes.items (file_bytes files.entry.advisories.now)
        (option_map (λ file. file.now.bytes.items) files.entry.config)) }
{
    let (lock, found) = read_lock(alloc, files.lock)?;
    let settings = read_settings(alloc, files.config)?;
    let policy = read_policy(alloc, asked, &settings)?;
    let advisories = read_advisories(alloc, files.advisories)?;
    Ok(OpenedAudit {
        lock,
        found,
        settings,
        policy,
        advisories,
    })
}

fn read_lock(
    alloc: Global,
    file: &FileBytes<'_>,
) -> Result<(Lock, Vec<LockFinding>), Refusal<'static>>
    ensures { GivesOr (λ audited. (audited.0, audited.1.items)) result
        (audited_in file.now.bytes.items) }
{
    match read_audited(alloc, &file.bytes) {
        Ok(audited) => Ok(audited),
        Err(LockError::Memory) => Err(Refusal::of_memory()),
        Err(error) => Err(Refusal::of_lock(alloc, error, file)),
    }
}

/// The settings in the project file that there may be.
fn read_settings(
    alloc: Global,
    file: Option<&FileBytes<'_>>,
) -> Result<AuditSettings, Refusal<'static>>
    ensures { GivesOr (λ settings. settings) result
        (settings_in (option_map (λ file. file.now.bytes.items) file.entry)) }
{
    match file {
        Some(file) => settings_of(alloc, file.path, &file.bytes),
        None => Ok(AuditSettings::new(alloc)),
    }
}

/// The settings in the project file at a path, which has these bytes.
fn settings_of(alloc: Global, path: &str, bytes: &[u8]) -> Result<AuditSettings, Refusal<'static>>
    ensures { GivesOr (λ settings. settings) result (settings_in (Some bytes.now)) }
{
    match AuditSettings::read(alloc, bytes) {
        Ok(settings) => Ok(settings),
        Err(SettingsError::Memory) => Err(Refusal::of_memory()),
        Err(error) => Err(Refusal::of_settings(alloc, error, path)),
    }
}

/// Which findings count, by the words and the settings.
fn read_policy(
    alloc: Global,
    asked: &AuditQuestion<'_>,
    settings: &AuditSettings,
) -> Result<Policy, Refusal<'static>>
    ensures { GivesOr (λ policy. policy) result (policy_in asked.now settings.now) }
{
    let ignored = joined(alloc, settings.ignored(), &asked.ignored)?;
    match Policy::read(alloc, fail_on(asked, settings), &ignored) {
        Ok(policy) => Ok(policy),
        Err(PolicyError::Memory) => Err(Refusal::of_memory()),
        Err(error) => Err(Refusal::of_policy(alloc, error)),
    }
}

/// Which findings fail, by the words, or else by the settings.
fn fail_on<'a>(asked: &AuditQuestion<'a>, settings: &'a AuditSettings) -> Option<&'a str>
    ensures { option_copied result ≡ asked_fail_on asked.now settings.now }
{
    match asked.fail_on {
        Some(words) => Some(words),
        None => settings.fail_on(),
    }
}

/// The texts of settings, and those of words behind them.
fn joined<'a>(
    alloc: Global,
    settings: &'a [Text],
    words: &[&'a str],
) -> Result<Vec<&'a str>, AllocError>
    ensures { IfOk result (λ all. words_of all.items ≡ settings.now ++ words_of words.now) }
{
    let mut all = Vec::with_capacity(alloc, settings.len())?;
    for text in settings {
        all.push(text.as_str())?;
    }
    all.extend_from_slice(words)?;
    Ok(all)
}

/// The advisories of all files.
fn read_advisories(alloc: Global, files: &[FileBytes<'_>]) -> Result<Advisories, Refusal<'static>>
    ensures { GivesOr (λ advisories. advisories) result
        (advisories_from [] 1 (file_bytes files.now)) }
{
    let mut advisories = Advisories::new(alloc);
    for (place, file) in files.iter().enumerate() {
        match advisories.read(alloc, &file.bytes) {
            Ok(()) => {}
            Err(AdvisoriesError::Memory) => return Err(Refusal::of_memory()),
            Err(error) => return Err(Refusal::of_advisories(alloc, place + 1, error, file)),
        }
    }
    Ok(advisories)
}

// ---- what is found

/// Writes what counts of all that is found. The memory of the lock isn't freed where the process
/// ends.
#[tactic(auto, using(crate::proofs::AuditLemmas::founds))]
fn write_opened<W: Sink, N: Sink>(
    alloc: Global,
    asked: &AuditQuestion<'_>,
    bytes: &[u8],
    opened: OpenedAudit,
    outputs: &mut Outputs<W, N>,
) -> Result<u8, RunFault>
    ensures { PrintsFound asked.now bytes.now (audit_value opened)
        (W.value outputs.old.writer) (W.value outputs.new.writer) result
        ⊎ EndsUnwritten (W.value outputs.old.writer) (W.value outputs.new.writer) result }
{
    let OpenedAudit {
        lock,
        found,
        settings,
        policy,
        advisories,
    } = opened;
    let all = all_of(alloc, asked, &lock, found, (&settings, &advisories))?;
    let counted = policy.counted(all);
    let end = write_counted_as(
        alloc,
        asked,
        bytes,
        (&policy, &counted),
        &mut outputs.writer,
    );
    if outputs.ends_process {
        mem::forget((lock, counted, advisories));
    }
    end
}

/// All that is found in the lock, and by what is asked besides.
fn all_of(
    alloc: Global,
    asked: &AuditQuestion<'_>,
    lock: &Lock,
    found: Vec<LockFinding>,
    besides: (&AuditSettings, &Advisories),
) -> Result<Vec<LockFinding>, AllocError>
    ensures { IfOk result (λ all. AreAll (asks_environments asked.now besides.entry.0.now)
        besides.entry.1.now (asked_hosts asked.now besides.entry.0.now) lock.now found.items
        all.items) }
{
    let (settings, advisories) = besides;
    let index = advisories.index(alloc)?;
    let hosts = joined(alloc, settings.hosts(), &asked.hosts)?;
    let environments = asked.environments || settings.environments();
    all_found(alloc, lock, found, environments, &index, &hosts)
}

/// Writes the findings that count, in the form that is asked for.
fn write_counted_as<W: Sink>(
    alloc: Global,
    asked: &AuditQuestion<'_>,
    bytes: &[u8],
    counted: (&Policy, &(Vec<LockFinding>, usize)),
    writer: &mut W,
) -> Result<u8, RunFault>
    ensures { PrintsCounted asked.now.output asked.now.lock.now bytes.now
        counted.entry.0.now (counted.entry.1.now.0.items, counted.entry.1.now.1)
        (W.value writer.old) (W.value writer.new) result
        ⊎ EndsUnwritten (W.value writer.old) (W.value writer.new) result }
{
    let (policy, found) = counted;
    let (found, ignored) = (&found.0, found.1);
    let status = policy.status(found);
    match asked.output {
        AuditOutput::Shown(Form::Lines) => write_lines(alloc, found, ignored, status, writer),
        AuditOutput::Shown(Form::Json) => {
            write_located(alloc, bytes, (found, ignored), status, writer)
        }
        AuditOutput::Sarif => write_sarif(alloc, (asked.lock, bytes), found, status, writer),
    }
}

/// Writes the document of the findings that count, each at its place in the lock of these bytes.
#[tactic(auto, using(crate::proofs::AuditLemmas::locateds))]
fn write_located<W: Sink>(
    alloc: Global,
    bytes: &[u8],
    counted: (&[LockFinding], usize),
    status: u8,
    writer: &mut W,
) -> Result<u8, RunFault>
    ensures { PrintsLocated bytes.now counted.entry.0.now counted.entry.1 status
        (W.value writer.old) (W.value writer.new) result
        ⊎ EndsUnwritten (W.value writer.old) (W.value writer.new) result }
{
    let (found, ignored) = counted;
    let located = with_places(alloc, bytes, found)?;
    write_document(alloc, &located, ignored, status, writer)
}
