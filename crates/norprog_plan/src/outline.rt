//! What tells a plan: its lines, printed window after window, and what comes after them.

ghost use Rattle.std.specs.Prelude.{◌≡◌, ◌⊎◌, ℕ, List, [], Option, is_some};
ghost use Rattle.std.specs.Prelude.{IfErr, IfOk};
ghost use Rattle.std.specs.Io.KnownBytes.{Appends};
ghost use Rattle.nor_base.specs.Accepted.{IsAccepted};
ghost use Rattle.nor_base.specs.Device.{Counts, Writes};
ghost use Rattle.nor_base.specs.Parameters.{Parameters};
ghost use Rattle.nor_job.specs.Causes.{RefusesInputs};
ghost use Rattle.nor_job.specs.Job.{IsJob};
ghost use Rattle.nor_job.specs.Status.{start_of};
ghost use Rattle.nor_job.specs.Task.{Task};
ghost use Rattle.nor_job.specs.Written.{CountsReader, CountsWriter, passed};
ghost use Rattle.nor_job.specs.declared.fault.BuildFault.TheVariants.{Memory};
ghost use Rattle.nor_outline.specs.declared.line.PlanLine.{PlanLine as Line};
ghost use Rattle.nor_times.specs.Timing.{timing_of};
ghost use Rattle.nor_times.specs.declared.times.Times.{Times as KnownTimes};
ghost use Rattle.norprog.specs.Plan.{StopsPlan};
ghost use Rattle.norprog.specs.Planner.{IsReady, HasTold};
ghost use Rattle.norprog.specs.Windows.{IsCutPlan};
ghost use Rattle.norprog_plan.specs.Outline.{IsOutline, IsPicture, behind_lines, outline};
ghost use Rattle.norprog_plan.specs.Outline.{tables_times};
ghost use Rattle.norprog_plan.specs.Regions.{EndsWith};
ghost use Rattle.norprog_plan.specs.Sums.{AreSums, PrintsAll, PrintsLines};
ghost use Rattle.nor_base.specs.Wire.{wire};

use crate::drawing::draw_where_asked;
use crate::regions::with_regions;
use crate::sums::Sums;
use nor_base::{ByteIn, ByteOut, Failed, IntoWrite};
use nor_job::{BuildFault, Inputs, Job, job_of};
use nor_map::Title;
use nor_outline::write_lines;
use nor_times::PlanTimes;
use norprog::{Planner, Report, planned_lines, write_report};
use std::alloc::Global;

/// What is told of a plan besides its lines and its report.
#[derive(Clone, Copy)]
pub struct Shows {
    /// How long it takes.
    pub times: bool,
    /// What the image gives each chosen region.
    pub regions: bool,
    /// Its picture.
    pub picture: bool,
}

/// What comes after the lines of a plan.
#[derive(Drop)]
pub struct Told {
    /// The report, the times and the lines of the chosen regions.
    pub rest: Vec<u8>,
    /// The picture; empty where none is asked for.
    pub picture: Vec<u8>,
}

/// Prints the lines of a plan as [`norprog::plan`] does, and returns what comes after them; its
/// picture has this title. Memory
/// is taken for a window, for the picture, and for the lines of the chosen regions.
///
/// Faults come as from there; `Memory` also after all lines were printed.
pub fn tell<R: ByteIn, O: ByteOut>(
    alloc: Global,
    inputs: &Inputs<'_>,
    content: &mut R,
    len: u64,
    shows: Shows,
    title: &Title<'_>,
    out: &mut O,
) -> Result<Told, BuildFault>
    ensures told { IfOk result (λ told. (lines : List ℕ)
        × IsOutline shows inputs.now len (R.ahead content.old) (outline lines told)
        × Appends (O.held out.old) (O.held out.new) lines) }
    ensures refused { IfErr result
        (λ why. (RefusesInputs inputs.now len why × (content.new ≡ content.old)
        × (out.new ≡ out.old))
        ⊎ StopsPlan inputs.now len (wire (O.held out.old) (R.ahead content.old))
        (wire (O.held out.new) (R.ahead content.new)) why) }
    ensures counts { CountsReader (R.count content.old) (R.count content.new) result
        × CountsWriter (O.count out.old) (O.count out.new) result }
{
    planned_lines();
    let job = job_of(alloc, inputs, len)?;
    job.meaning.acceptance();
    let mut sums = Sums::new(alloc, inputs, &job, shows.picture)?;
    let report = print_lines(alloc, &job, content, &mut sums, out)?;
    behind(alloc, inputs, &job, &report, shows, title, &sums)
}

/// Prints the lines of a job's plan, and adds them up.
///
/// `Write` where `out` fails, `Memory` where a growth is refused; else its faults are those of a
/// [`Planner`].
fn print_lines<R: ByteIn, O: ByteOut>(
    alloc: Global,
    job: &Job,
    content: &mut R,
    sums: &mut Sums<'_>,
    out: &mut O,
) -> Result<Report, BuildFault>
    requires accepted { IsAccepted job.now.meaning }
    requires sums { (times : Option KnownTimes) × AreSums job.now times sums.old [] }
    ensures printed { IfOk result (PrintsLines job.now sums.old sums.new
        (passed (R.ahead content.old) (R.ahead content.new) (O.held out.old) (O.held out.new))) }
    ensures cut { IfErr result (IsCutPlan job.now (wire (O.held out.old) (R.ahead content.old))
        (wire (O.held out.new) (R.ahead content.new))) }
    ensures memory { IfOk result (λ _. IsCutPlan job.now (wire (O.held out.old)
        (R.ahead content.old)) (wire (O.held out.new) (R.ahead content.new)) Memory) }
    ensures counts { CountsReader (R.count content.old) (R.count content.new) result
        × CountsWriter (O.count out.old) (O.count out.new) result
        × (is_some sums.new.marks ≡ is_some sums.old.marks) }
{
    planned_lines();
    let mut planner = Planner::new(alloc, job)?;
    print_windows(alloc, &mut planner, content, sums, out)?;
    planner.close(alloc)
}

/// Prints the lines of all windows, and adds them up. Its faults are those of [`print_lines`].
fn print_windows<R: ByteIn, O: ByteOut>(
    alloc: Global,
    planner: &mut Planner<'_>,
    content: &mut R,
    sums: &mut Sums<'_>,
    out: &mut O,
) -> Result<(), BuildFault>
    requires begun { IsReady planner.old
        × HasTold planner.old (R.ahead content.old) (R.ahead content.old) [] }
    requires sums { (times : Option KnownTimes) × AreSums planner.old.job times sums.old [] }
    ensures printed { IfOk result (λ _. PrintsAll planner.old planner.new sums.old sums.new
        (passed (R.ahead content.old) (R.ahead content.new) (O.held out.old) (O.held out.new))) }
    ensures cut { IfErr result (IsCutPlan planner.old.job (wire (O.held out.old)
        (R.ahead content.old)) (wire (O.held out.new) (R.ahead content.new))) }
    ensures counts { CountsReader (R.count content.old) (R.count content.new) result
        × CountsWriter (O.count out.old) (O.count out.new) result
        × (is_some sums.new.marks ≡ is_some sums.old.marks) }
{
    planned_lines();
    while let Some(lines) = planner.next_window(alloc, content)? {
        sums.add(&lines)?;
        match write_lines(&lines, out) {
            Ok(()) => {}
            Err(_) => return Err(BuildFault::Write),
        }
    }
    Ok(())
}

/// What comes after the lines of a plan. `Memory` where a growth is refused.
fn behind(
    alloc: Global,
    inputs: &Inputs<'_>,
    job: &Job,
    report: &Report,
    shows: Shows,
    title: &Title<'_>,
    sums: &Sums<'_>,
) -> Result<Told, BuildFault>
    ensures rest { (len : ℕ) (lines : List Line) → IsJob inputs.now len job.now
        → AreSums job.now (tables_times inputs.now.chip) sums.now lines
        → IfOk result (λ told. EndsWith shows.regions inputs.now len
        (behind_lines shows.times report.now inputs.now job.now.meaning lines)
        told.rest.items) }
    ensures picture { (len : ℕ) (lines : List Line) → IsJob inputs.now len job.now
        → AreSums job.now (tables_times inputs.now.chip) sums.now lines
        → IfOk result (λ told. IsPicture (is_some sums.now.marks) inputs.now job.now.meaning
        lines told.picture.items) }
    ensures refused { IfErr result (λ why. why ≡ Memory) }
{
    let shown = report_in_memory(alloc, report, shows.times, &sums.times)?;
    let picture = draw_where_asked(alloc, inputs, &sums.marks, title, &shown)?;
    let rest = with_regions(alloc, inputs, job, shows.regions, shown)?;
    Ok(Told { rest, picture })
}

/// A plan's report, and its times where they are asked for. `Memory` where a growth is refused.
fn report_in_memory(
    alloc: Global,
    report: &Report,
    shown: bool,
    times: &PlanTimes<'_>,
) -> Result<Vec<u8>, BuildFault>
    ensures rest { (t : Task) (m : Parameters) (lines : List Line)
        → times.now ≡ timing_of m (start_of t) t.verify (tables_times t.chip) lines
        → IfOk result (λ rest. rest.items ≡ behind_lines shown report.now t m lines) }
    ensures refused { IfErr result (λ why. why ≡ Memory) }
{
    let mut rest = IntoWrite::new(Vec::new(alloc));
    match put_report(report, shown, times, &mut rest) {
        Ok(()) => Ok(rest.inner),
        Err(_) => Err(BuildFault::Memory),
    }
}

/// Puts a plan's report, and its times where they are asked for.
fn put_report<W: ByteOut>(
    report: &Report,
    shown: bool,
    times: &PlanTimes<'_>,
    out: &mut W,
) -> Result<(), Failed>
    ensures bytes { (t : Task) (m : Parameters) (lines : List Line)
        → times.now ≡ timing_of m (start_of t) t.verify (tables_times t.chip) lines
        → Writes (W.held out.old) (W.held out.new) result
        (behind_lines shown report.now t m lines) }
    ensures count { Counts (W.count out.old) (W.count out.new) result }
{
    write_report(report, out)?;
    if shown {
        return times.write(out);
    }
    Ok(())
}
