//! The steps of a window's units.

ghost use Rattle.std.specs.Prelude.{◌≡◌, ◌≤◌, ◌<◌, ◌+◌, ◌-◌, ◌^◌, length, IfOk, IfErr};
ghost use Rattle.nor_geometry.specs.Plan.{IsWindow};
ghost use Rattle.nor_pages.specs.Runs.{unit_start};
ghost use Rattle.nor_steps.specs.Stretch.{stretch};
ghost use Rattle.nor_steps.specs.Faults.{CountsSteps};
ghost use Rattle.nor_steps.specs.Units.{unit_size};
ghost use Rattle.nor_steps.specs.Texts.{StopsText, WroteText, unit_steps};
ghost use Rattle.nor_steps.specs.Work.{IsWindowPlan};
ghost use Rattle.nor_steps.specs.Writing.{output};

use crate::fault::StepsFault;
use crate::lines::InstrOut;
use crate::tally::Tally;
use crate::writer::StepWriter;
use nor_erase::plan;
use nor_geometry::PlanUnit;
use nor_plan_laws::erased_blocks;
use std::alloc::Global;

impl<'m> StepWriter<'m> {
    /// Plans the units that start in a window of the chip (one that [`plan`] takes), and writes
    /// their steps: `have` is what it holds from `at` on, `want` what it must hold. Returns how
    /// much these steps are.
    ///
    /// `Plan` names the lowest address at fault; nothing was written then. `Write` where the writer
    /// fails, `Memory` where a growth is refused.
    pub fn more<W: InstrOut>(
        &mut self,
        alloc: Global,
        at: u32,
        have: &[u8],
        want: &[u8],
        out: &mut W,
    ) -> Result<Tally, StepsFault>
        requires lengths { length have.now ≡ length want.now }
        requires window { IsWindow self.old.streaming.meaning self.old.streaming.by at
            (length have.now) }
        ensures written { IfOk result
            (WroteText unit_steps (output self.old (W.held out.old))
            (output self.new (W.held out.new)) (stretch at have.now want.now)) }
        ensures stopped { IfErr result
            (StopsText unit_steps (output self.old (W.held out.old)) (W.held out.new)
            (stretch at have.now want.now)) }
        ensures count { CountsSteps (W.count out.old) (W.count out.new) result }
    {
        erased_blocks();
        let meaning = self.lowerer.meaning();
        meaning.acceptance();
        let units = plan(alloc, meaning, self.lowerer.strategy(), at, have, want)?;
        self.write_units(alloc, at, &units, have, want, out)
    }

    /// Writes the steps of the units of a window.
    fn write_units<W: InstrOut>(
        &mut self,
        alloc: Global,
        at: u32,
        units: &[PlanUnit],
        have: &[u8],
        want: &[u8],
        out: &mut W,
    ) -> Result<Tally, StepsFault>
        requires planned { IsWindowPlan self.old.streaming.meaning self.old.streaming.by
            (stretch at have.now want.now) units.now }
        ensures written { IfOk result
            (WroteText unit_steps (output self.old (W.held out.old))
            (output self.new (W.held out.new)) (stretch at have.now want.now)) }
        ensures stopped { IfErr result
            (StopsText unit_steps (output self.old (W.held out.old)) (W.held out.new)
            (stretch at have.now want.now)) }
        ensures count { CountsSteps (W.count out.old) (W.count out.new) result }
    {
        let page = self.lowerer.meaning().page;
        let mut told = Tally::none();
        for unit in units {
            let (low, high) = bounds(unit, at, page);
            let one = self.write_unit(alloc, unit, &have[low..high], &want[low..high], out)?;
            told = told.plus(one);
        }
        Ok(told)
    }
}

/// The first byte of a unit and the one past its last, among those of a window that begins at an
/// address.
pub fn bounds(unit: &PlanUnit, at: u32, page: u32) -> (usize, usize)
    requires from { at ≤ unit_start unit.now }
    requires small { unit_start unit.now + unit_size page unit.now < 2 ^ 32 }
    ensures low { result.0 ≡ unit_start unit.now - at }
    ensures high { result.1 ≡ unit_start unit.now - at + unit_size page unit.now }
{
    let (start, size) = match unit {
        PlanUnit::Block(block) => (block.start, block.size),
        PlanUnit::Page { start } => (*start, page),
    };
    let low = (start - at) as usize;
    (low, low + size as usize)
}
