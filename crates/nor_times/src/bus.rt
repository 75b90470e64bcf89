//! The clocks of a plan's script.

ghost use Rattle.std.specs.Prelude.{◌≡◌, ◌==◌, ◌≤◌, ◌<◌, ◌*◌, ◌^◌, if◌then◌else◌, count_by};
ghost use Rattle.nor_times.specs.Bus.{Doing, block_clocks, doing_of, end_after, is_work};
ghost use Rattle.nor_times.specs.Bus.{lines_clocks, mode_clocks, run_clocks};

use crate::clocks::{change_clocks, head_clocks, mode_clocks, program_clocks, read_clocks};
use nor_base::{Meaning, Start, Strategy};
use nor_geometry::strategy;
use nor_outline::PlanLine;
use std::marker::Model;

/// How a plan is done.
#[derive(Drop)]
pub(crate) struct Job<'m> {
    meaning: &'m Meaning,
    start: Start,
    strategy: Strategy,
    /// What was written is read.
    verify: bool,
}

impl<'m> Model for Job<'m> {
    ghost use Rattle.nor_times.specs.Bus.{Doing};

    ghost Value = { Doing };

    ghost view = { λ j. record
        { meaning = j.meaning.now; start = j.start; by = j.strategy; verify = j.verify } };
}

impl<'m> Job<'m> {
    /// On a chip of a meaning that begins so.
    pub(crate) fn new(meaning: &'m Meaning, start: &Start, verify: bool) -> Job<'m>
        ensures { result ≡ doing_of meaning.now start.now verify }
    {
        Job {
            meaning,
            start: *start,
            strategy: strategy(meaning, start),
            verify,
        }
    }

    /// The chip's meaning.
    pub(crate) fn meaning(&self) -> &'m Meaning
        ensures { result.now ≡ self.now.meaning }
    {
        self.meaning
    }

    /// The clocks of the mode that lines need, of which `works` report an instruction.
    pub(crate) fn mode_clocks(&self, works: u64) -> u64
        ensures value { result ≡ (if works == 0
            then 0 else mode_clocks self.now.meaning self.now.by) }
        ensures small { result ≤ 48 }
    {
        if works == 0 {
            return 0;
        }
        mode_clocks(self.meaning, self.strategy)
    }

    /// The clocks of lines, from the end of the block that was erased last on.
    pub(crate) fn lines_clocks(&self, mut end: u64, lines: &[PlanLine]) -> u128
        ensures value { result ≡ lines_clocks self.now end lines.now }
        ensures small { result ≤ count_by is_work lines.now * 2 ^ 50 }
    {
        let mut clocks = 0;
        for line in lines {
            match *line {
                PlanLine::Erase { start, size, .. } => {
                    clocks += u128::from(self.block_clocks(start, size));
                    end = u64::from(start) + u64::from(size);
                }
                PlanLine::Because { .. } => {}
                PlanLine::Program { start, count } => {
                    clocks += u128::from(self.run_clocks(end, start, count));
                }
            }
        }
        clocks
    }

    /// The clocks of an erase and, with `verify`, of the reads of the block's pages.
    fn block_clocks(&self, start: u32, size: u32) -> u64
        ensures value { result ≡ block_clocks self.now start size }
        ensures small { result < 2 ^ 50 }
    {
        let erase = change_clocks(head_clocks(self.strategy, start));
        if !self.verify {
            return erase;
        }
        let page = self.page();
        erase
            + u64::from(size / page)
                * read_clocks(self.meaning, &self.start, self.strategy, start, page)
    }

    /// The clocks of a program and, with `verify`, of its read, unless it lies below the end of the
    /// block that was erased last.
    fn run_clocks(&self, end: u64, start: u32, count: u32) -> u64
        ensures value { result ≡ run_clocks self.now end start count }
        ensures small { result < 2 ^ 50 }
    {
        let program = change_clocks(program_clocks(
            self.meaning,
            &self.start,
            self.strategy,
            start,
            count,
        ));
        if !self.verify || u64::from(start) < end {
            return program;
        }
        program + read_clocks(self.meaning, &self.start, self.strategy, start, count)
    }

    /// The chip's page.
    fn page(&self) -> u32
        ensures value { result ≡ self.now.meaning.page }
        ensures some { 0 < result }
        ensures small { result ≤ 4096 }
    {
        let meaning = self.meaning;
        meaning.acceptance();
        meaning.page
    }
}

/// The end of the block that was erased last, after lines.
pub(crate) fn end_after(mut end: u64, lines: &[PlanLine]) -> u64
    ensures { result ≡ end_after end lines.now }
{
    for line in lines {
        if let PlanLine::Erase { start, size, .. } = *line {
            end = u64::from(start) + u64::from(size);
        }
    }
    end
}

/// How many lines report an instruction.
pub(crate) fn works_in(lines: &[PlanLine]) -> u64
    ensures { result ≡ count_by is_work lines.now }
{
    lines.iter().filter(|line| is_work(line)).count() as u64
}

/// Whether a line reports an instruction.
fn is_work(line: &PlanLine) -> bool
    ensures { result ≡ is_work line.now }
{
    !matches!(*line, PlanLine::Because { .. })
}
