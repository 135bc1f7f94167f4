//! What `show` tells: what a lock says of itself.

ghost use Rattle.std.specs.Prelude.{◌≡◌, ◌++◌, OnOk};
ghost use Rattle.pylock_program.specs.Program.{Opens, RepliesTelling};
ghost use Rattle.pylock_program.specs.Refusal.{PrintsTelling};
ghost use Rattle.pylock_program.specs.Summary.{facts_report, facts_shown, summary_report};
ghost use Rattle.pylock_run.specs.Report.Print.{Prints};

use crate::failure::{Failure, program_end};
use crate::file::{FileBytes, read_bytes};
use crate::host::{Host, Outputs};
use crate::refusal::{Refusal, write_refusal};
use crate::text::summary::push_summary;
use pylock_command::Form;
use pylock_core::LockError;
use pylock_documents::push_document;
use pylock_run::{Files, RunFault, Sink, Source, print};
use pylock_summary::{Fact, read_facts, summary_document};
use std::alloc::{AllocError, Global};

/// Answers `show` on the lock of a file.
pub(crate) fn show_summary<F: Files, R: Source, W: Sink, N: Sink>(
    alloc: Global,
    lock: &str,
    form: Form,
    host: &mut Host<F, R, W, N>,
) -> Result<u8, Failure>
    ensures { Opens (F.read_gives host.old.files) lock.now
        (λ bytes. RepliesTelling (λ diagnostic. summary_report form diagnostic bytes))
        (R.value host.old.reader) (R.value host.new.reader)
        (W.value host.old.outputs.writer) (W.value host.new.outputs.writer) result }
{
    let file = read_bytes(alloc, host, lock)?;
    program_end(write_summary(alloc, form, &file, &mut host.outputs))
}

/// Writes what the lock says of itself, and answers the status: 2 where it is refused, and else 0.
#[tactic(auto, using(crate::proofs::OpeningLemmas::refused))]
fn write_summary<W: Sink, N: Sink>(
    alloc: Global,
    form: Form,
    file: &FileBytes<'_>,
    outputs: &mut Outputs<W, N>,
) -> Result<u8, RunFault>
    ensures { PrintsTelling (λ diagnostic. summary_report form diagnostic file.now.bytes.items)
        (W.value outputs.old.writer) (W.value outputs.new.writer) result }
{
    match read_facts(alloc, &file.bytes) {
        Ok(facts) => write_facts(alloc, form, &facts, &mut outputs.writer),
        Err(LockError::Memory) => Err(RunFault::Memory),
        Err(error) => {
            let refusal = Refusal::of_lock(alloc, error, file);
            write_refusal(alloc, Some(form), refusal, outputs)
        }
    }
}

/// Writes the facts in the form.
fn write_facts<W: Sink>(
    alloc: Global,
    form: Form,
    facts: &[Fact],
    writer: &mut W,
) -> Result<u8, RunFault>
    ensures { Prints (facts_report form facts.now) (W.value writer.old) (W.value writer.new)
        result }
{
    let mut out = Vec::new(alloc);
    push_shown(alloc, &mut out, form, facts)?;
    print(&out, 0, writer)
}

/// Pushes the facts in the form.
fn push_shown(
    alloc: Global,
    out: &mut Vec<u8>,
    form: Form,
    facts: &[Fact],
) -> Result<(), AllocError>
    ensures { OnOk result (out.new.items ≡ out.old.items ++ facts_shown form facts.now) }
{
    match form {
        Form::Lines => push_summary(out, facts),
        Form::Json => push_document(alloc, out, summary_document(alloc, facts)?),
    }
}
