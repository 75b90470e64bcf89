//! The lines of a window's units.

ghost use Rattle.std.specs.Prelude.{◌≡◌, ◌++◌, List, length, IfOk, IfErr};
ghost use Rattle.nor_geometry.specs.Plan.{IsWindow};
ghost use Rattle.nor_pages.specs.Runs.{IsUnit};
ghost use Rattle.nor_outline.specs.declared.line.PlanLine.{PlanLine as Line};
ghost use Rattle.nor_outline.specs.Outline.{IsStretchPlan, RefusesLines};
ghost use Rattle.nor_outline.specs.Parts.{IsPlanned, AreUnitLines};
ghost use Rattle.nor_steps.specs.Work.{IsWindowPlan};
ghost use Rattle.nor_steps.specs.Stretch.{stretch};
ghost use Rattle.nor_steps.specs.declared.fault.StepsFault.TheVariants.{Memory};
ghost use Rattle.nor_steps.specs.Units.{unit_bytes};

use crate::line::PlanLine;
use crate::unit::push_unit;
use nor_base::{Meaning, Strategy};
use nor_erase::plan;
use nor_geometry::PlanUnit;
use nor_pages::split;
use nor_plan_laws::erased_blocks;
use nor_steps::{StepsFault, bounds};
use std::alloc::Global;

/// Plans the units that start in a window of the chip (one that [`plan`] takes), and returns their
/// lines: `have` is what the chip holds from `at` on, `want` what it must hold.
///
/// `Plan` names the lowest address at fault. `Memory` where a growth is refused; `Write` never.
pub fn window_lines(
    alloc: Global,
    meaning: &Meaning,
    strategy: Strategy,
    at: u32,
    have: &[u8],
    want: &[u8],
) -> Result<Vec<PlanLine>, StepsFault>
    requires lengths { length have.now ≡ length want.now }
    requires window { IsWindow meaning.now strategy at (length have.now) }
    ensures lines { IfOk result
        (λ lines. IsStretchPlan meaning.now strategy (stretch at have.now want.now) lines.items) }
    ensures stopped { IfErr result (RefusesLines meaning.now strategy
        (stretch at have.now want.now)) }
{
    erased_blocks();
    meaning.acceptance();
    let units = plan(alloc, meaning, strategy, at, have, want)?;
    units_lines(alloc, meaning, strategy, at, &units, have, want)
}

/// The lines of the units of a window.
fn units_lines(
    alloc: Global,
    meaning: &Meaning,
    strategy: Strategy,
    at: u32,
    units: &[PlanUnit],
    have: &[u8],
    want: &[u8],
) -> Result<Vec<PlanLine>, StepsFault>
    requires planned { IsWindowPlan meaning.now strategy (stretch at have.now want.now) units.now }
    ensures lines { IfOk result
        (λ lines. IsStretchPlan meaning.now strategy (stretch at have.now want.now) lines.items) }
    ensures why { IfErr result (λ why. why ≡ Memory) }
{
    let mut lines = Vec::new(alloc);
    for unit in units {
        let (low, high) = bounds(unit, at, meaning.page);
        push_lines(
            alloc,
            meaning,
            strategy,
            unit,
            &have[low..high],
            &want[low..high],
            &mut lines,
        )?;
    }
    Ok(lines)
}

/// Appends the lines of a unit. `have` and `want` are its bytes: what the chip holds there and
/// what it must hold.
fn push_lines(
    alloc: Global,
    meaning: &Meaning,
    strategy: Strategy,
    unit: &PlanUnit,
    have: &[u8],
    want: &[u8],
    lines: &mut Vec<PlanLine>,
) -> Result<(), StepsFault>
    requires unit { (length have.now ≡ length want.now)
        × IsUnit meaning.now unit.now (length want.now) }
    requires planned { IsPlanned meaning.now strategy unit.now (length want.now) }
    ensures lines { IfOk result (λ _. (more : List Line)
        × AreUnitLines meaning.now strategy (unit_bytes unit.now have.now want.now) more
        × (lines.new.items ≡ lines.old.items ++ more)) }
    ensures why { IfErr result (λ why. why ≡ Memory) }
{
    meaning.acceptance();
    let runs = split(alloc, meaning, unit, have, want)?;
    push_unit(meaning, strategy, unit, &runs, have, want, lines)?;
    Ok(())
}
