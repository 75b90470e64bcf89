//! The steps of a unit.

ghost use Rattle.std.specs.Prelude.{◌≡◌, ◌≤◌, ◌<◌, ◌+◌, ◌*◌, ◌^◌, length, IfOk, IfErr};
ghost use Rattle.std.specs.List.{AllByRecursion};
ghost use Rattle.nor_pages.specs.Runs.{IsUnit, LiesBetween, AreBetween};
ghost use Rattle.nor_select.specs.Streamed.{next};
ghost use Rattle.nor_steps.specs.Faults.{CountsSteps, IsOfWriting};
ghost use Rattle.nor_steps.specs.Units.{run_ops, page_reads, block_reads, block_ops, Writes};
ghost use Rattle.nor_steps.specs.Units.{unit_bytes, WritesUnit};
ghost use Rattle.nor_steps.specs.Writing.{Adds, next_lines, output, written_on};

use crate::fault::StepsFault;
use crate::lines::InstrOut;
use crate::tally::Tally;
use crate::writer::StepWriter;
use nor_geometry::{Block, PlanUnit};
use nor_pages::{Run, split};
use nor_select::Op;
use std::alloc::Global;

impl<'m> StepWriter<'m> {
    /// Writes the steps of a unit. `have` and `want` are its bytes: what the chip holds there and
    /// what it must hold. Of a page they are a program of each run, and, where it is verified, a
    /// read of each.
    pub(crate) fn write_unit<W: InstrOut>(
        &mut self,
        alloc: Global,
        unit: &PlanUnit,
        have: &[u8],
        want: &[u8],
        out: &mut W,
    ) -> Result<Tally, StepsFault>
        requires lengths { length have.now ≡ length want.now }
        requires unit { IsUnit self.old.streaming.meaning unit.now (length want.now) }
        requires few { length want.now ≤ 2 ^ 24 }
        ensures written { WritesUnit (output self.old (W.held out.old))
            (output self.new (W.held out.new)) (unit_bytes unit.now have.now want.now) result }
        ensures fails { CountsSteps (W.count out.old) (W.count out.new) result
            × IfErr result IsOfWriting }
    {
        let meaning = self.lowerer.meaning();
        meaning.acceptance();
        let runs = split(alloc, meaning, unit, have, want)?;
        let start = match unit {
            PlanUnit::Block(block) => return self.write_block(alloc, *block, &runs, want, out),
            PlanUnit::Page { start } => *start,
        };
        let programs = self.write_runs(alloc, false, start, &runs, want, out)?;
        let reads = if self.verify {
            self.write_runs(alloc, true, start, &runs, want, out)?
        } else {
            0
        };
        Ok(Tally {
            steps: programs + reads,
            erases: 0,
            erased: 0,
            programs: runs.len() as u64,
        })
    }

    /// Writes the steps of a block: its erase, a program of each run, and, where it is verified, a
    /// read of each page.
    fn write_block<W: InstrOut>(
        &mut self,
        alloc: Global,
        block: Block,
        runs: &[Run],
        want: &[u8],
        out: &mut W,
    ) -> Result<Tally, StepsFault>
        requires between { AreBetween block.start (block.start + length want.now) (length want.now)
            runs.now }
        requires block { (block.start + length want.now ≤ 2 ^ 28)
            × (block.size ≡ length want.now)
            × (length want.now ≤ 2 ^ 24) }
        ensures written { Writes (output self.old (W.held out.old))
            (output self.new (W.held out.new)) 1 (block_ops self.old block runs.now want.now)
            result }
        ensures count { CountsSteps (W.count out.old) (W.count out.new) result }
        ensures why { IfErr result IsOfWriting }
    {
        let erase = self.write_ops(alloc, &[Op::Erase(block)], out)?;
        let programs = self.write_runs(alloc, false, block.start, runs, want, out)?;
        let reads = self.verify_block(alloc, block.start, want, out)?;
        Ok(Tally {
            steps: erase + programs + reads,
            erases: 1,
            erased: u64::from(block.size),
            programs: runs.len() as u64,
        })
    }

    /// Writes the steps of a read of each page of a block, where the work is verified, and returns
    /// how many they are.
    fn verify_block<W: InstrOut>(
        &mut self,
        alloc: Global,
        start: u32,
        want: &[u8],
        out: &mut W,
    ) -> Result<u64, StepsFault>
        requires fits { (start + length want.now ≤ 2 ^ 28)
            × (length want.now ≤ 2 ^ 24) }
        ensures lines { Adds (W.held out.old) (W.held out.new) result
            (next_lines self.old (block_reads self.old start want.now)) }
        ensures steps { IfOk result (λ steps.
            steps ≡ length (next self.old.streaming (block_reads self.old start want.now)))
            × IfOk result (λ steps. steps ≤ 6 * length want.now) }
        ensures onward { IfOk result (λ _. self.new
            ≡ written_on self.old (block_reads self.old start want.now)) }
        ensures fails { CountsSteps (W.count out.old) (W.count out.new) result
            × IfErr result IsOfWriting }
    {
        if !self.verify {
            return Ok(0);
        }
        let meaning = self.lowerer.meaning();
        meaning.acceptance();
        let page = meaning.page;
        self.write_reads(alloc, page, start, want, out)
    }

    /// Writes the steps of a program of each run, or of a read, and returns how many they are.
    /// `want` is what the bytes from `start` on must be.
    fn write_runs<W: InstrOut>(
        &mut self,
        alloc: Global,
        read: bool,
        start: u32,
        runs: &[Run],
        want: &[u8],
        out: &mut W,
    ) -> Result<u64, StepsFault>
        requires runs { AllByRecursion (LiesBetween start (start + length want.now)) runs.now
            × (length runs.now ≤ 2 ^ 24) }
        ensures lines { Adds (W.held out.old) (W.held out.new) result
            (next_lines self.old (run_ops read start want.now runs.now)) }
        ensures steps { IfOk result (λ steps.
            steps ≡ length (next self.old.streaming (run_ops read start want.now runs.now)))
            × IfOk result (λ steps. steps ≤ 6 * length runs.now) }
        ensures onward { IfOk result (λ _. self.new
            ≡ written_on self.old (run_ops read start want.now runs.now)) }
        ensures fails { CountsSteps (W.count out.old) (W.count out.new) result
            × IfErr result IsOfWriting }
    {
        let mut steps = 0;
        for run in runs {
            let low = (run.at - start) as usize;
            let bytes = &want[low..low + run.len as usize];
            let at = run.at;
            let op = if read {
                Op::Read { at, bytes }
            } else {
                Op::Program { at, bytes }
            };
            steps += self.write_ops(alloc, &[op], out)?;
        }
        Ok(steps)
    }

    /// Writes the steps of a read of each page of a block, and returns how many they are. `want` is
    /// what its bytes must be.
    fn write_reads<W: InstrOut>(
        &mut self,
        alloc: Global,
        page: u32,
        start: u32,
        want: &[u8],
        out: &mut W,
    ) -> Result<u64, StepsFault>
        requires fits { (0 < page)
            × (start + length want.now ≤ 2 ^ 28)
            × (length want.now ≤ 2 ^ 24) }
        ensures lines { Adds (W.held out.old) (W.held out.new) result
            (next_lines self.old (page_reads start page want.now)) }
        ensures steps { IfOk result (λ steps.
            steps ≡ length (next self.old.streaming (page_reads start page want.now)))
            × IfOk result (λ steps. steps ≤ 6 * length want.now) }
        ensures onward { IfOk result (λ _. self.new
            ≡ written_on self.old (page_reads start page want.now)) }
        ensures fails { CountsSteps (W.count out.old) (W.count out.new) result
            × IfErr result IsOfWriting }
    {
        let mut steps = 0;
        for number in 0..want.len() / page as usize {
            let low = number * page as usize;
            let bytes = &want[low..low + page as usize];
            let at = start + low as u32;
            steps += self.write_ops(alloc, &[Op::Read { at, bytes }], out)?;
        }
        Ok(steps)
    }
}
