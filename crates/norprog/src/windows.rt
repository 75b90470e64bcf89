//! The content of a chip, a window at a time.

ghost use Rattle.std.specs.Prelude.{◌≡◌, ◌≤◌, ◌+◌, ◌^◌, length, IfOk, IfErr};
ghost use Rattle.nor_base.specs.Accepted.{IsAccepted};
ghost use Rattle.nor_base.specs.Strategies.{strategy as driven_by};
ghost use Rattle.nor_geometry.specs.Plan.{IsWindow};
ghost use Rattle.nor_geometry.specs.Window.{IsWindowSize};
ghost use Rattle.norprog.specs.Windows.{first_writing, lifted_steps, progress, window_of};
ghost use Rattle.norprog.specs.Windows.{StopsWindow, IsDone, IsAllDone, IsKnown, IsCut};
ghost use Rattle.nor_job.specs.Written.{CountsReader, CountsWriter};
ghost use Rattle.nor_base.specs.Wire.{wire};

use nor_base::{ByteIn, ByteOut};
use nor_job::{BuildFault, Job, fill_window};
use nor_steps::{StepsFault, Tally, WorkWriter};
use nor_target::fill;
use std::alloc::{AllocError, Global};

/// Room for what a window of so many bytes holds, and for what it must hold.
pub(crate) fn room(alloc: Global, window: usize) -> Result<(Vec<u8>, Vec<u8>), AllocError>
    ensures have { IfOk result (λ room. length room.0.items ≡ window) }
    ensures want { IfOk result (λ room. length room.1.items ≡ window) }
{
    Ok((vec![in alloc; 0; window]?, vec![in alloc; 0; window]?))
}

/// Reads the content, and has the text of each window written as soon as it is read. Returns how
/// much the steps of all windows are. `have` and `want` have room for a window each.
///
/// `ContentShort`, `Read`, `Write`, `Plan` and `Memory`: the first that the work meets.
pub(crate) fn write_windows<T: WorkWriter, R: ByteIn, W: ByteOut>(
    alloc: Global,
    job: &Job,
    writer: &mut T,
    have: &mut [u8],
    want: &mut [u8],
    content: &mut R,
    out: &mut W,
) -> Result<Tally, BuildFault>
    requires job { IsAccepted job.now.meaning
        × (T.writing writer.old ≡ first_writing job.now) }
    requires window { IsWindowSize job.now.meaning (length have.old)
        × (length want.old ≡ length have.old) }
    ensures done { IfOk result (IsAllDone (T.unit_text writer.old) job.now
        (wire (W.held out.old) (R.ahead content.old))
        (progress (T.writing writer.new) (W.held out.new) (R.ahead content.new))) }
    ensures cut { IfErr result (IsCut (IsKnown (T.unit_text writer.old) job.now) job.now
        (wire (W.held out.old) (R.ahead content.old))
        (wire (W.held out.new) (R.ahead content.new))) }
    ensures counts { CountsReader (R.count content.old) (R.count content.new) result
        × CountsWriter (W.count out.old) (W.count out.new) result }
{
    let window = have.len();
    let mut at = 0;
    let mut told = Tally::none();
    while at < job.meaning.size {
        let count = window.min((job.meaning.size - at) as usize);
        let more = write_window(
            alloc,
            job,
            at,
            &mut have[..count],
            &mut want[..count],
            writer,
            content,
            out,
        )?;
        told = told.plus(more);
        at += count as u32;
    }
    Ok(told)
}

/// Reads a window of the content that begins at an address, and has its text written. Returns how
/// much its steps are.
///
/// Its faults are those of [`write_windows`].
fn write_window<T: WorkWriter, R: ByteIn, W: ByteOut>(
    alloc: Global,
    job: &Job,
    at: u32,
    have: &mut [u8],
    want: &mut [u8],
    writer: &mut T,
    content: &mut R,
    out: &mut W,
) -> Result<Tally, BuildFault>
    requires window { (length want.old ≡ length have.old)
        × ((T.writing writer.old).streaming.meaning ≡ job.now.meaning)
        × ((T.writing writer.old).streaming.by ≡ driven_by job.now.meaning job.now.start)
        × IsWindow job.now.meaning (driven_by job.now.meaning job.now.start) at
        (length have.old)
        × (at + length have.old ≤ 2 ^ 32) }
    ensures done { IfOk result
        (IsDone (T.unit_text writer.old) (window_of job.now at (length have.old))
        (progress (T.writing writer.old) (W.held out.old) (R.ahead content.old))
        (progress (T.writing writer.new) (W.held out.new) (R.ahead content.new))) }
    ensures stopped { IfErr result
        (StopsWindow (T.unit_text writer.old) (window_of job.now at (length have.old))
        (progress (T.writing writer.old) (W.held out.old) (R.ahead content.old))
        (wire (W.held out.new) (R.ahead content.new))) }
    ensures text { T.unit_text writer.new ≡ T.unit_text writer.old }
    ensures counts { CountsReader (R.count content.old) (R.count content.new) result
        × CountsWriter (W.count out.old) (W.count out.new) result }
{
    fill_window(content, have)?;
    fill(&job.image, job.base, &job.chosen, at, have, want);
    match writer.write_window(alloc, at, have, want, out) {
        Ok(told) => Ok(told),
        Err(fault) => Err(lifted(fault)),
    }
}

/// Why steps were not written, as a fault of a build.
pub(crate) fn lifted(fault: StepsFault) -> BuildFault
    ensures { result ≡ lifted_steps fault }
{
    match fault {
        StepsFault::Plan(why) => BuildFault::Plan(why),
        StepsFault::Write => BuildFault::Write,
        StepsFault::Memory => BuildFault::Memory,
    }
}
