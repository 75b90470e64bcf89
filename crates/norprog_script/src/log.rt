//! From the bytes of a log to those of its script.

ghost use Rattle.std.specs.Prelude.{◌≡◌, ◌≢◌, IfOk, IfErr};
ghost use Rattle.nor_job.specs.declared.fault.BuildFault.TheVariants.{Write};
ghost use Rattle.norprog_common.specs.Content.{CountsWriter};
ghost use Rattle.norprog_common.specs.declared.faults.Refusal.TheVariants.{Build};
ghost use Rattle.norprog_script.specs.Written.{foreign, WasWritten, RefusesLog};
ghost use Rattle.norprog_script.specs.Written.{refusal_of as told_of};

use crate::tally::Tally;
use crate::text::write_script;
use nor_base::ByteOut;
use nor_log::{LogFault, read};
use norprog_common::Refusal;
use std::alloc::Global;

/// Writes the script of a log's lines, in order, and returns how many steps it has.
/// `without_identity` leaves out reads of an identification or a register.
///
/// `Log` has the number of the first line that is none of a log's; `Write` comes where `out` fails,
/// which took a proper prefix of the script; `Memory` where a growth is refused.
pub fn script_log<W: ByteOut>(
    alloc: Global,
    text: &[u8],
    without_identity: bool,
    out: &mut W,
) -> Result<Tally, Refusal>
    ensures written { IfOk result
        (WasWritten (foreign without_identity) text.now (W.held out.old) (W.held out.new)) }
    ensures refused { IfErr result
        (RefusesLog (foreign without_identity) text.now (W.held out.old) (W.held out.new)) }
    ensures unwritten { IfErr result (λ why. why ≢ Build Write → out.new ≡ out.old) }
    ensures count { CountsWriter (W.count out.old) (W.count out.new) result }
{
    let log = match read(alloc, text, without_identity) {
        Ok(log) => log,
        Err(fault) => return Err(refusal_of(fault)),
    };
    match write_script(log.steps.as_slice(), out) {
        Ok(()) => Ok(Tally {
            steps: log.steps.len() as u64,
            left_out: log.left_out.len() as u64,
        }),
        Err(_) => Err(Refusal::WRITE),
    }
}

/// The refusal of a text that is no log.
fn refusal_of(fault: LogFault) -> Refusal
    ensures { result ≡ told_of fault }
{
    match fault {
        LogFault::BadLine(line) => Refusal::Log(line),
        LogFault::Memory => Refusal::MEMORY,
    }
}
