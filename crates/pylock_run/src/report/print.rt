//! The printing of a report.

ghost use Rattle.std.specs.Prelude.{◌≡◌, IfErr};
ghost use Rattle.pylock_run.specs.Report.Print.{Prints};
ghost use Rattle.pylock_run.specs.declared.report.fault.RunFault.TheVariants.{Write};

use crate::report::fault::RunFault;
use crate::stream::{IoFault, Sink, write_all};

/// Writes the text of a report, and answers its status. It takes no memory.
pub fn print<W: Sink>(text: &[u8], status: u8, writer: &mut W) -> Result<u8, RunFault>
    ensures prints { Prints (record { text = text.now; status = status })
        (W.value writer.old) (W.value writer.new) result }
    ensures fault { IfErr result (λ fault. fault ≡ Write) }
{
    match write_all(writer, text) {
        Ok(()) => Ok(status),
        Err(IoFault) => Err(RunFault::Write),
    }
}
