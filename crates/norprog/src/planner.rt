//! The plan of a job, a window of its content after another.

ghost use Rattle.std.specs.Prelude.{◌≡◌, ◌≤◌, ◌+◌, ◌^◌, [], length, option_map};
ghost use Rattle.std.specs.Prelude.{IfOk, IfErr};
ghost use Rattle.nor_base.specs.Accepted.{IsAccepted};
ghost use Rattle.nor_base.specs.Device.{Ahead};
ghost use Rattle.nor_base.specs.Strategies.{strategy as driven_by};
ghost use Rattle.nor_geometry.specs.Plan.{IsWindow};
ghost use Rattle.nor_job.specs.Written.{CountsReader, CountsWriter};
ghost use Rattle.nor_job.specs.declared.fault.BuildFault.TheVariants.{Memory};
ghost use Rattle.norprog.specs.Planner.{IsReady, IsPlannedPart, HasTold, GoesOn};
ghost use Rattle.norprog.specs.Planner.{CutsPlan, EndsPlan, StopsBefore, StopsPlanning};
ghost use Rattle.norprog.specs.Planner.{AreFew, CutsAnywhere, CutsInputs, outlined};
ghost use Rattle.norprog.specs.Windows.{window_of};

use crate::builder::report_of;
use crate::report::Report;
use crate::windows::{lifted, room};
use nor_base::ByteIn;
use nor_geometry::{strategy, window_size};
use nor_job::{BuildFault, Job, fill_window};
use nor_laws::spelling;
use nor_outline::{PlanLine, PlanWriter};
use nor_plan_laws::there_is_planned_work;
use nor_steps::Tally;
use nor_target::fill;
use std::alloc::Global;
use std::marker::Model;

/// Plans the work of a job, a window of the content after another. It holds two windows.
#[derive(Drop)]
pub struct Planner<'j> {
    job: &'j Job,
    writer: PlanWriter<'j>,
    have: Vec<u8>,
    want: Vec<u8>,
    /// The content before this address is planned.
    at: u32,
    told: Tally,
}

impl<'j> Model for Planner<'j> {
    ghost use Rattle.std.specs.Prelude.{length};
    ghost use Rattle.norprog.specs.Planner.{Planning};

    ghost Value = { Planning };

    ghost view = { λ p. record {
      job = p.job.now;
      work = p.writer;
      window = length p.have.items;
      room = length p.want.items;
      at = p.at;
      told = p.told;
    } };
}

impl<'j> Planner<'j> {
    /// One for a job, before the first window of its content.
    ///
    /// `Memory` where a growth is refused.
    pub fn new(alloc: Global, job: &'j Job) -> Result<Planner<'j>, BuildFault>
        requires accepted { IsAccepted job.now.meaning }
        ensures ready { IfOk result IsReady }
        ensures job { IfOk result (λ planner. planner.job ≡ job.now) }
        ensures told { IfOk result (λ planner. (ahead : Ahead) → HasTold planner ahead ahead []) }
        ensures refused { IfErr result (λ why. (why ≡ Memory) × StopsBefore job.now why) }
    {
        let window = window_size(&job.meaning) as usize;
        let (have, want) = room(alloc, window)?;
        let strategy = strategy(&job.meaning, &job.start);
        Ok(Planner {
            job,
            writer: PlanWriter::new(alloc, &job.meaning, &job.start, strategy, job.verify),
            have,
            want,
            at: 0,
            told: Tally::none(),
        })
    }

    /// Reads the next window of the content, and returns the lines of the units that start in it.
    /// None at the end of the chip.
    ///
    /// `ContentShort`, `Read`, `Plan` and `Memory`: the first that the work meets; never `Write`.
    pub fn next_window<R: ByteIn>(
        &mut self,
        alloc: Global,
        content: &mut R,
    ) -> Result<Option<Vec<PlanLine>>, BuildFault>
        requires ready { IsReady self.old }
        ensures told { IfOk result (λ lines. GoesOn self.old self.new (R.ahead content.old)
            (R.ahead content.new) (option_map (λ lines. lines.items) lines)) }
        ensures stopped { IfErr result
            (CutsPlan self.old (R.ahead content.old) (R.ahead content.new)) }
        ensures counts { CountsReader (R.count content.old) (R.count content.new) result
            × CountsWriter 0 0 result }
    {
        let job = self.job;
        let size = job.meaning.size;
        if self.at >= size {
            return Ok(None);
        }
        let count = self.have.len().min((size - self.at) as usize);
        let (more, lines) = part_plan(
            alloc,
            job,
            self.at,
            count,
            self.have.as_mut_slice(),
            self.want.as_mut_slice(),
            &mut self.writer,
            content,
        )?;
        self.told = self.told.plus(more);
        self.at += count as u32;
        Ok(Some(lines))
    }

    /// The report of the whole plan, after the last window.
    ///
    /// `Memory` where a growth is refused.
    pub fn close(self, alloc: Global) -> Result<Report, BuildFault>
        requires ready { IsReady self }
        requires whole { self.at ≡ self.job.meaning.size }
        ensures planned { IfOk result (EndsPlan self.entry) }
        ensures stopped { IfErr result
            (λ why. (ahead : Ahead) → CutsPlan self.entry ahead ahead why) }
        ensures memory { IfErr result (λ why. why ≡ Memory) }
    {
        there_is_planned_work();
        spelling();
        let job = self.job;
        job.meaning.acceptance();
        let mut told = self.told;
        match self.writer.close(alloc) {
            Ok(last) => told.steps += last,
            Err(fault) => return Err(lifted(fault)),
        }
        Ok(report_of(job, told))
    }
}

/// Reads a window of so many bytes, where there may be room for more, and plans it.
///
/// Its faults are those of [`Planner::next_window`].
fn part_plan<R: ByteIn>(
    alloc: Global,
    job: &Job,
    at: u32,
    count: usize,
    have: &mut [u8],
    want: &mut [u8],
    writer: &mut PlanWriter<'_>,
    content: &mut R,
) -> Result<(Tally, Vec<PlanLine>), BuildFault>
    requires room { (count ≤ length have.old) × (count ≤ length want.old) }
    requires window { (writer.old.streaming.meaning ≡ job.now.meaning)
        × (writer.old.streaming.by ≡ driven_by job.now.meaning job.now.start)
        × IsWindow job.now.meaning (driven_by job.now.meaning job.now.start) at count
        × (at + count ≤ 2 ^ 32) }
    ensures planned { IfOk result
        (λ plan. IsPlannedPart (window_of job.now at count) writer.old (R.ahead content.old)
        (R.ahead content.new) (outlined writer.new plan.0 plan.1.items)) }
    ensures stopped { IfErr result
        (StopsPlanning (window_of job.now at count) writer.old (R.ahead content.old)
        (R.ahead content.new)) }
    ensures counts { CountsReader (R.count content.old) (R.count content.new) result
        × CountsWriter 0 0 result }
{
    let have = &mut have[..count];
    let want = &mut want[..count];
    window_plan(alloc, job, at, have, want, writer, content)
}

/// Reads a window of the content that begins at an address, and plans it. Returns how much its
/// steps are, and its lines.
///
/// Its faults are those of [`Planner::next_window`].
fn window_plan<R: ByteIn>(
    alloc: Global,
    job: &Job,
    at: u32,
    have: &mut [u8],
    want: &mut [u8],
    writer: &mut PlanWriter<'_>,
    content: &mut R,
) -> Result<(Tally, Vec<PlanLine>), BuildFault>
    requires window { (length want.old ≡ length have.old)
        × (writer.old.streaming.meaning ≡ job.now.meaning)
        × (writer.old.streaming.by ≡ driven_by job.now.meaning job.now.start)
        × IsWindow job.now.meaning (driven_by job.now.meaning job.now.start) at
        (length have.old)
        × (at + length have.old ≤ 2 ^ 32) }
    ensures planned { IfOk result
        (λ plan. IsPlannedPart (window_of job.now at (length have.old)) writer.old
        (R.ahead content.old) (R.ahead content.new) (outlined writer.new plan.0 plan.1.items)) }
    ensures stopped { IfErr result
        (StopsPlanning (window_of job.now at (length have.old)) writer.old (R.ahead content.old)
        (R.ahead content.new)) }
    ensures counts { CountsReader (R.count content.old) (R.count content.new) result
        × CountsWriter 0 0 result }
{
    fill_window(content, have)?;
    fill(&job.image, job.base, &job.chosen, at, have, want);
    match writer.window_plan(alloc, at, have, want) {
        Ok(plan) => Ok(plan),
        Err(fault) => Err(lifted(fault)),
    }
}

/// What is so of each plan that a [`Planner`] returns line by line: what a plan that is cut short
/// is of its inputs, that it may be wherever its writer stops, and that few of its lines tell an
/// instruction. It does nothing.
pub fn planned_lines()
    ensures inputs { CutsInputs }
    ensures anywhere { CutsAnywhere }
    ensures few { AreFew }
{}
