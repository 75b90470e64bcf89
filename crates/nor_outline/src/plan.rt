//! The lines of a plan, and how much its steps are.

ghost use Rattle.std.specs.Prelude.{◌≡◌, ◌≤◌, length, IfOk, IfErr};
ghost use Rattle.nor_geometry.specs.Plan.{IsWindow};
ghost use Rattle.nor_outline.specs.Outline.{IsStretchPlan, RefusesLines};
ghost use Rattle.nor_outline.specs.Told.{unit_outline};
ghost use Rattle.nor_select.specs.Streamed.{last};
ghost use Rattle.nor_steps.specs.Stretch.{stretch};
ghost use Rattle.nor_steps.specs.declared.fault.StepsFault.TheVariants.{Memory};
ghost use Rattle.nor_steps.specs.Texts.{IsTold};
ghost use Rattle.nor_steps.specs.Writing.{fresh};

use crate::line::PlanLine;
use crate::window::window_lines;
use crate::writer::write_lines;
use nor_base::{ByteOut, Meaning, Start, Strategy};
use nor_steps::{StepWriter, StepsFault, Tally, Unwritten, WorkWriter};
use std::alloc::Global;
use std::marker::Model;

/// Writes the lines that tell the plan of the work, window after window. Its steps are counted and
/// not written.
#[derive(Drop)]
pub struct PlanWriter<'m> {
    steps: StepWriter<'m>,
}

impl<'m> Model for PlanWriter<'m> {
    ghost use Rattle.nor_steps.specs.Writing.{Writing};

    ghost Value = { Writing };

    ghost view = { λ w. w.steps };
}

impl<'m> PlanWriter<'m> {
    /// One for a chip, the start that it has and the strategy by which it is driven. `verify` asks
    /// for a read of what was written. It takes no memory.
    pub fn new(
        alloc: Global,
        meaning: &'m Meaning,
        start: &Start,
        strategy: Strategy,
        verify: bool,
    ) -> PlanWriter<'m>
        ensures { result ≡ fresh meaning.now start.now strategy verify }
    {
        PlanWriter {
            steps: StepWriter::new(alloc, meaning, start, strategy, verify),
        }
    }

    /// Plans the units that start in a window of the chip, as [`window_lines`] does. Returns how
    /// much their steps are, and their lines.
    ///
    /// `Plan` names the lowest address at fault. `Memory` where a growth is refused; `Write` never.
    pub fn window_plan(
        &mut self,
        alloc: Global,
        at: u32,
        have: &[u8],
        want: &[u8],
    ) -> Result<(Tally, Vec<PlanLine>), StepsFault>
        requires lengths { length have.now ≡ length want.now }
        requires window { IsWindow self.old.streaming.meaning self.old.streaming.by at
            (length have.now) }
        ensures told { IfOk result
            (λ plan. IsTold self.old self.new (stretch at have.now want.now) plan.0) }
        ensures lines { IfOk result
            (λ plan. IsStretchPlan self.old.streaming.meaning self.old.streaming.by
            (stretch at have.now want.now) plan.1.items) }
        ensures stopped { IfErr result
            (RefusesLines self.old.streaming.meaning self.old.streaming.by
            (stretch at have.now want.now)) }
    {
        let meaning = self.steps.meaning();
        let strategy = self.steps.strategy();
        let told = self.steps.more(alloc, at, have, want, &mut Unwritten)?;
        let lines = window_lines(alloc, meaning, strategy, at, have, want)?;
        Ok((told, lines))
    }

    /// How many steps leave the mode that the work entered, at most three.
    ///
    /// `Memory` where a growth is refused.
    pub fn close(self, alloc: Global) -> Result<u64, StepsFault>
        ensures steps { IfOk result (λ steps. steps ≡ length (last self.entry.streaming)) }
        ensures few { IfOk result (λ steps. steps ≤ 3) }
        ensures why { IfErr result (λ why. why ≡ Memory) }
    {
        self.steps.close(alloc, &mut Unwritten)
    }
}

impl<'m> WorkWriter for PlanWriter<'m> {
    ghost writing = { λ w. w };

    ghost unit_text = { λ _. unit_outline };

    fn write_window<W: ByteOut>(
        &mut self,
        alloc: Global,
        at: u32,
        have: &[u8],
        want: &[u8],
        out: &mut W,
    ) -> Result<Tally, StepsFault> {
        let (told, lines) = self.window_plan(alloc, at, have, want)?;
        write_lines(&lines, out)?;
        Ok(told)
    }
}
