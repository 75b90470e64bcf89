//! From the bytes of the inputs to the bytes of a script.

ghost use Rattle.std.specs.Prelude.{◌≡◌, ◌⊎◌, List, IfOk, IfErr};
ghost use Rattle.nor_base.specs.Accepted.{IsAccepted};
ghost use Rattle.nor_base.specs.Parameters.{Parameters};
ghost use Rattle.nor_hex.specs.Image.{Pairs};
ghost use Rattle.nor_job.specs.Causes.{AreAccepted, RefusesInputs};
ghost use Rattle.nor_layout.specs.Region.{Region};
ghost use Rattle.nor_job.specs.Wanted.{ReadsWithin};
ghost use Rattle.norprog.specs.Build.{IsBuilt, StopsWork, IsLate};
ghost use Rattle.norprog.specs.Laws.{Laws};
ghost use Rattle.norprog.specs.Windows.{IsScripted, IsCutScript, job_report};
ghost use Rattle.nor_job.specs.Written.{CountsReader, CountsWriter};
ghost use Rattle.nor_base.specs.Wire.{wire};

use crate::report::Report;
use crate::windows::{lifted, room, write_windows};
use nor_base::{ByteIn, ByteOut};
use nor_geometry::{strategy, window_size};
use nor_job::{BuildFault, Inputs, Job, job_of};
use nor_laws::{run_events, spelling};
use nor_plan_laws::{
    erased_blocks, fewest_programs, least_erasure, planned_runs, planned_work,
    there_is_planned_work,
};
use nor_script::{begin, finish};
use nor_steps::{StepWriter, Tally};
use nor_target::ignored;
use std::alloc::Global;

/// Writes the script that programs a chip. `content` gives what it holds, `len` bytes from address
/// 0 on; `out` isn't flushed. Memory is taken for image, layout, two windows and their work.
///
/// The first fault of the inputs is reported before anything is read or written, as [`BuildFault`]
/// orders them. `Plan` has the lowest address that can't get its target.
pub fn build<R: ByteIn, W: ByteOut>(
    alloc: Global,
    inputs: &Inputs<'_>,
    content: &mut R,
    len: u64,
    out: &mut W,
) -> Result<Report, BuildFault>
    ensures built { IfOk result
        (IsBuilt inputs.now len (wire (W.held out.old) (R.ahead content.old))
        (wire (W.held out.new) (R.ahead content.new))) }
    ensures refused { IfErr result
        (λ why. (RefusesInputs inputs.now len why × (content.new ≡ content.old)
        × (out.new ≡ out.old))
        ⊎ StopsWork inputs.now len (wire (W.held out.old) (R.ahead content.old))
        (wire (W.held out.new) (R.ahead content.new)) why) }
    ensures accepted { (image : Pairs) (regions : List Region) (m : Parameters)
        → AreAccepted inputs.now len image regions m
        → IfErr result IsLate }
    ensures within { ReadsWithin len (R.ahead content.old) (R.ahead content.new) }
    ensures counts { CountsReader (R.count content.old) (R.count content.new) result
        × CountsWriter (W.count out.old) (W.count out.new) result }
{
    let job = job_of(alloc, inputs, len)?;
    planned_work_does_the_task();
    job.meaning.acceptance();
    let told = write_script(alloc, &job, content, out)?;
    Ok(report_of(&job, told))
}

/// Does nothing: it is called for the laws that tie the planned work to what a build promises.
fn planned_work_does_the_task()
    ensures { Laws }
{
    planned_work();
    planned_runs();
    there_is_planned_work();
    least_erasure();
    fewest_programs();
    erased_blocks();
    spelling();
    run_events();
}

/// Writes the script of a job, and returns how much it is.
fn write_script<R: ByteIn, W: ByteOut>(
    alloc: Global,
    job: &Job,
    content: &mut R,
    out: &mut W,
) -> Result<Tally, BuildFault>
    requires accepted { IsAccepted job.now.meaning }
    ensures done { IfOk result
        (IsScripted job.now (wire (W.held out.old) (R.ahead content.old))
        (wire (W.held out.new) (R.ahead content.new))) }
    ensures cut { IfErr result
        (IsCutScript job.now (wire (W.held out.old) (R.ahead content.old))
        (wire (W.held out.new) (R.ahead content.new))) }
    ensures counts { CountsReader (R.count content.old) (R.count content.new) result
        × CountsWriter (W.count out.old) (W.count out.new) result }
{
    let window = window_size(&job.meaning) as usize;
    let (mut have, mut want) = room(alloc, window)?;
    match begin(out) {
        Ok(()) => {}
        Err(_) => return Err(BuildFault::Write),
    }
    let strategy = strategy(&job.meaning, &job.start);
    let mut writer = StepWriter::new(alloc, &job.meaning, &job.start, strategy, job.verify);
    let mut told = write_windows(alloc, job, &mut writer, &mut have, &mut want, content, out)?;
    match writer.close(alloc, out) {
        Ok(last) => told.steps += last,
        Err(fault) => return Err(lifted(fault)),
    }
    match finish(told.steps, out) {
        Ok(()) => Ok(told),
        Err(_) => Err(BuildFault::Write),
    }
}

/// The report of a job of which so much is reported.
pub(crate) fn report_of(job: &Job, told: Tally) -> Report
    ensures { result ≡ job_report job.now told }
{
    Report {
        strategy: strategy(&job.meaning, &job.start),
        steps: told.steps,
        erases: told.erases,
        erased: told.erased,
        programs: told.programs,
        ignored: ignored(&job.image, job.base, &job.chosen, job.meaning.size),
    }
}
