//! `select`: a session that edit lines change.

ghost use Rattle.std.specs.Prelude.{◌≡◌, Ok};
ghost use Rattle.pylock_program.specs.Inner.Machine.{machine_read};
ghost use Rattle.pylock_program.specs.Opening.{opened_by};
ghost use Rattle.pylock_program.specs.Program.{IsRunOn, Opens, OpensMachine, Runs};
ghost use Rattle.pylock_program.specs.Show.{run_shown};
ghost use Rattle.pylock_run.specs.Report.Run.{IsRunShown};

use crate::failure::{Failure, program_end};
use crate::file::{Inputs, read_bytes, read_machine};
use crate::host::{Host, Outputs};
use crate::opening::open_inputs;
use crate::printing::Documents;
use crate::refusal::write_refusal;
use pylock_command::{Form, Opening};
use pylock_core::Session;
use pylock_run::{Files, Lines, RunFault, Sink, Source, run_opened};
use std::alloc::Global;

/// Runs a session on the lock and the environment.
pub(crate) fn run_select<F: Files, R: Source, W: Sink, N: Sink>(
    alloc: Global,
    opening: Opening<'_>,
    form: Form,
    host: &mut Host<F, R, W, N>,
) -> Result<u8, Failure>
    ensures { Opens (F.read_gives host.old.files) opening.entry.lock.now
        (λ lock. OpensMachine (F.read_gives host.old.files) opening.entry.machine
        (Runs opening.entry.strict form lock))
        (R.value host.old.reader) (R.value host.new.reader)
        (W.value host.old.outputs.writer) (W.value host.new.outputs.writer) result }
{
    let lock = read_bytes(alloc, host, opening.lock)?;
    let machine = read_machine(alloc, host, opening.machine)?;
    let inputs = Inputs {
        lock: &lock,
        machine: &machine,
    };
    program_end(run_on(alloc, opening.strict, form, inputs, host))
}

/// A run on a lock that is taken strictly, or as it is; or why there is none.
#[tactic(auto, using(crate::proofs::OpeningLemmas::runs))]
fn run_on<F: Files, R: Source, W: Sink, N: Sink>(
    alloc: Global,
    strict: bool,
    form: Form,
    inputs: Inputs<'_>,
    host: &mut Host<F, R, W, N>,
) -> Result<u8, RunFault>
    ensures { IsRunOn form (opened_by strict inputs.entry.lock.now.bytes.items
        (machine_read inputs.entry.machine.now))
        (R.value host.old.reader) (R.value host.new.reader)
        (W.value host.old.outputs.writer) (W.value host.new.outputs.writer) result }
{
    match open_inputs(alloc, strict, inputs) {
        Ok(session) => run_in_form(alloc, form, session, &mut host.reader, &mut host.outputs),
        Err(refusal) => write_refusal(alloc, Some(form), refusal, &mut host.outputs),
    }
}

/// A run on a session, in the form.
fn run_in_form<R: Source, W: Sink, N: Sink>(
    alloc: Global,
    form: Form,
    session: Session,
    reader: &mut R,
    outputs: &mut Outputs<W, N>,
) -> Result<u8, RunFault>
    ensures { IsRunShown (run_shown form) (Ok session.state) (R.value reader.old)
        (R.value reader.new) (W.value outputs.old.writer) (W.value outputs.new.writer) result }
{
    let leaves = outputs.ends_process;
    let writer = &mut outputs.writer;
    match form {
        Form::Lines => run_opened(alloc, &Lines, Ok(session), leaves, reader, writer),
        Form::Json => run_opened(
            alloc,
            &Documents { alloc },
            Ok(session),
            leaves,
            reader,
            writer,
        ),
    }
}
