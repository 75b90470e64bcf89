//! From the bytes of the inputs to the lines that tell the plan of their work.

ghost use Rattle.std.specs.Prelude.{◌≡◌, ◌⊎◌, List, IfOk, IfErr};
ghost use Rattle.nor_base.specs.Accepted.{IsAccepted};
ghost use Rattle.nor_base.specs.Parameters.{Parameters};
ghost use Rattle.nor_hex.specs.Image.{Pairs};
ghost use Rattle.nor_job.specs.Causes.{AreAccepted, RefusesInputs};
ghost use Rattle.nor_layout.specs.Region.{Region};
ghost use Rattle.nor_job.specs.Wanted.{ReadsWithin};
ghost use Rattle.norprog.specs.Build.{IsLate};
ghost use Rattle.norprog.specs.Plan.{IsPlanOf, StopsPlan};
ghost use Rattle.norprog.specs.Planner.{IsReady, PlansJob, PutsPlan, CutsPut};
ghost use Rattle.norprog.specs.Windows.{IsCutPlan};
ghost use Rattle.nor_job.specs.Written.{CountsReader, CountsWriter};
ghost use Rattle.nor_base.specs.Wire.{wire};

use crate::planner::Planner;
use crate::report::Report;
use nor_base::{ByteIn, ByteOut};
use nor_job::{BuildFault, Inputs, Job, job_of};
use nor_outline::write_lines;
use std::alloc::Global;

/// Writes the lines of the plan of the script that [`build`](crate::build) writes of the same
/// inputs and content (docs/FORMATS.md, section 9). `out` isn't flushed; no line of a window goes
/// out before the whole window is planned. Memory is taken as for the build.
///
/// Faults come as from the build.
pub fn plan<R: ByteIn, W: ByteOut>(
    alloc: Global,
    inputs: &Inputs<'_>,
    content: &mut R,
    len: u64,
    out: &mut W,
) -> Result<Report, BuildFault>
    ensures planned { IfOk result
        (IsPlanOf inputs.now len (wire (W.held out.old) (R.ahead content.old))
        (wire (W.held out.new) (R.ahead content.new))) }
    ensures refused { IfErr result
        (λ why. (RefusesInputs inputs.now len why × (content.new ≡ content.old)
        × (out.new ≡ out.old))
        ⊎ StopsPlan inputs.now len (wire (W.held out.old) (R.ahead content.old))
        (wire (W.held out.new) (R.ahead content.new)) why) }
    ensures accepted { (image : Pairs) (regions : List Region) (m : Parameters)
        → AreAccepted inputs.now len image regions m
        → IfErr result IsLate }
    ensures within { ReadsWithin len (R.ahead content.old) (R.ahead content.new) }
    ensures counts { CountsReader (R.count content.old) (R.count content.new) result
        × CountsWriter (W.count out.old) (W.count out.new) result }
{
    let job = job_of(alloc, inputs, len)?;
    job.meaning.acceptance();
    plan_job(alloc, &job, content, out)
}

/// Writes the lines of a job.
fn plan_job<R: ByteIn, W: ByteOut>(
    alloc: Global,
    job: &Job,
    content: &mut R,
    out: &mut W,
) -> Result<Report, BuildFault>
    requires accepted { IsAccepted job.now.meaning }
    ensures planned { IfOk result (λ report. PlansJob job.now
        (wire (W.held out.old) (R.ahead content.old)) (wire (W.held out.new) (R.ahead content.new))
        report) }
    ensures cut { IfErr result (IsCutPlan job.now (wire (W.held out.old) (R.ahead content.old))
        (wire (W.held out.new) (R.ahead content.new))) }
    ensures counts { CountsReader (R.count content.old) (R.count content.new) result
        × CountsWriter (W.count out.old) (W.count out.new) result }
{
    let mut planner = Planner::new(alloc, job)?;
    put_plan(alloc, &mut planner, content, out)?;
    planner.close(alloc)
}

/// Writes the lines of all windows.
fn put_plan<R: ByteIn, W: ByteOut>(
    alloc: Global,
    planner: &mut Planner<'_>,
    content: &mut R,
    out: &mut W,
) -> Result<(), BuildFault>
    requires ready { IsReady planner.old }
    ensures put { IfOk result (λ _. PutsPlan planner.old planner.new
        (wire (W.held out.old) (R.ahead content.old))
        (wire (W.held out.new) (R.ahead content.new))) }
    ensures cut { IfErr result (CutsPut planner.old (wire (W.held out.old) (R.ahead content.old))
        (wire (W.held out.new) (R.ahead content.new))) }
    ensures counts { CountsReader (R.count content.old) (R.count content.new) result
        × CountsWriter (W.count out.old) (W.count out.new) result }
{
    while let Some(lines) = planner.next_window(alloc, content)? {
        match write_lines(&lines, out) {
            Ok(()) => {}
            Err(_) => return Err(BuildFault::Write),
        }
    }
    Ok(())
}
