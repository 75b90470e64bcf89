//! From the bytes of a listing to those of its script.

ghost use Rattle.std.specs.Prelude.{◌≡◌, ◌≢◌, IfOk, IfErr};
ghost use Rattle.nor_job.specs.declared.fault.BuildFault.TheVariants.{Write};
ghost use Rattle.norprog_common.specs.Content.{CountsWriter};
ghost use Rattle.norprog_common.specs.declared.faults.Refusal.TheVariants.{Build};
ghost use Rattle.norprog_script.specs.Written.{listed, WasWritten, RefusesLog};
ghost use Rattle.norprog_script.specs.Written.{refusal_for as told_of};

use crate::tally::Tally;
use crate::text::write_script;
use nor_base::ByteOut;
use nor_job::Inputs;
use nor_listing::{ListFault, read_listing};
use norprog_common::{Refusal, known_chip};
use std::alloc::Global;

/// Writes the script of the steps that a listing lists, by the chip of the inputs and its first
/// address mode, and returns how many they are. Memory is taken for the steps.
///
/// The first fault is reported: of the inputs, as a build reports it; `Log` with the line; `Write`,
/// after which `out` has a proper prefix; `Memory`.
pub fn script_listing<W: ByteOut>(
    alloc: Global,
    inputs: &Inputs<'_>,
    text: &[u8],
    out: &mut W,
) -> Result<Tally, Refusal>
    ensures written { IfOk result
        (WasWritten (listed inputs.now) text.now (W.held out.old) (W.held out.new)) }
    ensures refused { IfErr result
        (RefusesLog (listed inputs.now) text.now (W.held out.old) (W.held out.new)) }
    ensures unwritten { IfErr result (λ why. why ≢ Build Write → out.new ≡ out.old) }
    ensures count { CountsWriter (W.count out.old) (W.count out.new) result }
{
    let (meaning, start) = known_chip(inputs)?;
    let steps = match read_listing(alloc, &meaning, &start, text) {
        Ok(steps) => steps,
        Err(fault) => return Err(refusal_of(fault)),
    };
    match write_script(steps.as_slice(), out) {
        Ok(()) => Ok(Tally {
            steps: steps.len() as u64,
            left_out: 0,
        }),
        Err(_) => Err(Refusal::WRITE),
    }
}

/// The refusal of a text that is no listing.
fn refusal_of(fault: ListFault) -> Refusal
    ensures { result ≡ told_of fault }
{
    match fault {
        ListFault::BadLine(line) => Refusal::Log(line),
        ListFault::Memory => Refusal::MEMORY,
    }
}
